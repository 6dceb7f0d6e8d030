//! Parts of a text that are found by one scan.
ghost use Rattle.std.specs.Prelude.{◌≡◌, ◌≤◌, ◌==◌, not, length, MatchOption, option_map};
ghost use Rattle.std.specs.Char.{is_ascii_digit};
ghost use Rattle.std.specs.List.{prefix_len};
ghost use Rattle.kb_conf.specs.Bytes.{continues_name};
ghost use Rattle.kb_conf.specs.Front.{byte_at, until_byte, closing_at};
ghost use Rattle.kb_conf.specs.Views.{rest_view, split_view};

use super::bytes::{CLOSE_PARENTHESIS, OPEN_PARENTHESIS, continues_name};

/// How many bytes at the front can belong to a name.
pub fn name_len(text: &[u8]) -> usize
    ensures value { result ≡ prefix_len continues_name text.now }
    ensures bound { result ≤ length text.now }
{
    for (i, byte) in text.iter().enumerate() {
        if !continues_name(*byte) {
            return i;
        }
    }
    text.len()
}

/// How many digits stand at the front.
pub fn digits_len(text: &[u8]) -> usize
    ensures value { result ≡ prefix_len is_ascii_digit text.now }
    ensures bound { result ≤ length text.now }
{
    for (i, byte) in text.iter().enumerate() {
        if !byte.is_ascii_digit() {
            return i;
        }
    }
    text.len()
}

/// How many bytes stand before the first one of this kind.
pub fn len_before(text: &[u8], stop: u8) -> usize
    ensures value { result ≡ prefix_len (λ b. not (b == stop)) text.now }
    ensures bound { result ≤ length text.now }
{
    for (i, byte) in text.iter().enumerate() {
        if *byte == stop {
            return i;
        }
    }
    text.len()
}

/// What follows a byte of this kind, if the text begins with one.
pub fn after_byte(text: &[u8], wanted: u8) -> Option<&[u8]>
    ensures { rest_view result ≡ byte_at wanted text.now }
{
    let (first, rest) = text.split_first()?;
    if *first == wanted { Some(rest) } else { None }
}

/// What stands before the first byte of this kind, and what follows that byte.
#[tactic(auto, unfolding(crate::specs::Front::until_byte))]
pub fn split_before(text: &[u8], stop: u8) -> Option<(&[u8], &[u8])>
    ensures { split_view result ≡ until_byte stop text.now }
{
    let (front, back) = text.split_at(len_before(text, stop));
    let rest = after_byte(back, stop)?;
    Some((front, rest))
}

/// What stands before the parenthesis that closes one that is open already, and what follows it.
pub fn split_closing(text: &[u8]) -> Option<(&[u8], &[u8])>
    ensures { split_view result ≡ closing_at 0 text.now }
{
    let mut depth: usize = 0;
    for (i, byte) in text.iter().enumerate() {
        if *byte == OPEN_PARENTHESIS {
            depth += 1;
        } else if *byte == CLOSE_PARENTHESIS {
            if depth == 0 {
                return Some((&text[..i], &text[i + 1..]));
            }
            depth -= 1;
        }
    }
    None
}
