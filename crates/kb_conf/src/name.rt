//! Names of assignments and variables.
ghost use Rattle.std.specs.Prelude.{◌≡◌, ◌-◌, ◌<◌};
ghost use Rattle.kb_conf.specs.Front.{name_at, below_256, number_written, number_at, bracketed_at, subscript_at, reference_at};
ghost use Rattle.kb_conf.specs.Views.{split_view, number_view, subscript_view, reference_view};

use super::bytes::{CLOSE_BRACKET, OPEN_BRACKET, ZERO, starts_name};
use super::spans::{after_byte, digits_len, name_len};

/// `NAME` or `NAME[N]`.
#[derive(Clone, Copy, Debug)]
pub struct Reference<'a> {
    pub name: &'a [u8],
    pub number: Option<u8>,
}

/// The name at the front, as long as the text allows, and what follows it.
#[tactic(auto, unfolding(crate::specs::Front::name_at))]
pub fn split_name(text: &[u8]) -> Option<(&[u8], &[u8])>
    ensures { split_view result ≡ name_at text.now }
{
    let (first, rest) = text.split_first()?;
    if starts_name(*first) {
        Some(text.split_at(1 + name_len(rest)))
    } else {
        None
    }
}

/// What a digit counts.
fn digit(byte: u8) -> u16
    ensures value { result ≡ byte - ZERO }
    ensures bound { result < 256 }
{
    u16::from(byte.saturating_sub(ZERO))
}

fn below_256(number: u16) -> Option<u8>
    ensures { result ≡ below_256 number }
{
    u8::try_from(number).ok()
}

/// The number from 0 to 255 that these digits write without leading zeros.
fn number_from_digits(digits: &[u8]) -> Option<u8>
    ensures { result ≡ number_written digits.now }
{
    match digits {
        [a] => below_256(digit(*a)),
        [a, b] if *a != ZERO => below_256(10 * digit(*a) + digit(*b)),
        [a, b, c] if *a != ZERO => below_256(100 * digit(*a) + 10 * digit(*b) + digit(*c)),
        _ => None,
    }
}

/// The number at the front, and what follows its digits.
#[tactic(auto, unfolding(crate::specs::Front::number_at))]
fn split_number(text: &[u8]) -> Option<(u8, &[u8])>
    ensures { number_view result ≡ number_at text.now }
{
    let (digits, rest) = text.split_at(digits_len(text));
    let number = number_from_digits(digits)?;
    Some((number, rest))
}

/// The number in brackets whose `[` was just read, and what follows its `]`.
#[tactic(auto, unfolding(crate::specs::Front::bracketed_at))]
fn split_bracketed(text: &[u8]) -> Option<(u8, &[u8])>
    ensures { number_view result ≡ bracketed_at text.now }
{
    let (number, rest) = split_number(text)?;
    let rest = after_byte(rest, CLOSE_BRACKET)?;
    Some((number, rest))
}

/// The number behind a name, if the text has a bracket there, and what follows.
#[tactic(auto, unfolding(crate::specs::Front::subscript_at))]
fn split_subscript(text: &[u8]) -> Option<(Option<u8>, &[u8])>
    ensures { subscript_view result ≡ subscript_at text.now }
{
    match after_byte(text, OPEN_BRACKET) {
        Some(inside) => {
            let (number, rest) = split_bracketed(inside)?;
            Some((Some(number), rest))
        }
        None => Some((None, text)),
    }
}

/// The `NAME` or `NAME[N]` at the front, and what follows it.
#[tactic(auto, unfolding(crate::specs::Front::reference_at))]
pub fn split_reference(text: &[u8]) -> Option<(Reference<'_>, &[u8])>
    ensures { reference_view result ≡ reference_at text.now }
{
    let (name, rest) = split_name(text)?;
    let (number, rest) = split_subscript(rest)?;
    Some((Reference { name, number }, rest))
}
