// The machine ID and the entry token.
ghost use Rattle.std.specs.Prelude.{◌≡◌, IfOk};
ghost use Rattle.std.specs.Char.{is_ascii_digit};
ghost use Rattle.std.specs.List.{list_all};
ghost use Rattle.kb_world.specs.Read.{IsRead};
ghost use Rattle.kb_token.specs.Token as rule;

use crate::lines::{first_line, trimmed};
use kb_world::{Refusal, Stop, Text, is_boot_word};
use std::alloc::{AllocError, Global};

// The longest token, in bytes.
const LONGEST_TOKEN: usize = 64;

fn has_only_lower_hex(bytes: &[u8]) -> bool
    ensures { result ≡ list_all rule.is_lower_hex bytes.now }
{
    bytes.iter().all(|c| matches!(c, b'0'..=b'9' | b'a'..=b'f'))
}

/// The machine ID that a machine-id file gives: its first line, where that is 32 lower-case
/// hexadecimal digits.
pub fn machine_id_of(alloc: Global, text: &str) -> Result<Option<Text>, AllocError>
    ensures { IfOk result (λ id. id ≡ rule.machine_id_of text.now) }
{
    let line = first_line(text);
    if line.len() == 32 && has_only_lower_hex(line.as_bytes()) {
        return Ok(Some(Text::of(alloc, line)?));
    }
    Ok(None)
}

/// The token that an entry-token file gives: its first line without the blanks at its ends, where
/// that isn't empty.
pub fn token_line(alloc: Global, text: &str) -> Result<Option<Text>, AllocError>
    ensures { IfOk result (λ token. token ≡ rule.token_line text.now) }
{
    let token = trimmed(first_line(text));
    if token.is_empty() {
        return Ok(None);
    }
    Ok(Some(Text::of(alloc, token)?))
}

fn has_only_digits(bytes: &[u8]) -> bool
    ensures { result ≡ list_all is_ascii_digit bytes.now }
{
    bytes.iter().all(|c| c.is_ascii_digit())
}

pub fn are_digits(bytes: &[u8]) -> bool
    ensures { result ≡ rule.are_digits bytes.now }
{
    !bytes.is_empty() && has_only_digits(bytes)
}

// Whether the bytes end in `+` and digits.
fn ends_counted(bytes: &[u8]) -> bool
    ensures { result ≡ rule.ends_counted bytes.now }
{
    let mut rest = bytes;
    'bytes: while let Some((first, behind)) = rest.split_first() {
        if *first == b'+' && are_digits(behind) {
            return true;
        }
        rest = behind;
    }
    false
}

fn is_entry_token(text: &str) -> bool
    ensures { result ≡ rule.is_entry_token text.now }
{
    is_boot_word(text)
        && text.len() <= LONGEST_TOKEN
        && text != "loader"
        && text != "EFI"
        && !text.as_bytes().starts_with(b"initrd.img-")
        && !ends_counted(text.as_bytes())
}

/// The token that was chosen. Refused where there is none, and where it isn't a boot word of at
/// most 64 bytes, is `loader` or `EFI`, begins with `initrd.img-`, or ends in `+` and digits.
pub fn token_of(chosen: Option<Text>) -> Result<Text, Stop>
    ensures { IsRead result (rule.token_of chosen) }
{
    match chosen {
        Some(token) => {
            if is_entry_token(token.as_str()) {
                Ok(token)
            } else {
                Err(Stop::Refused(Refusal::BadName { name: token }))
            }
        }
        None => Err(Stop::Refused(Refusal::NoToken)),
    }
}
