// The tries of a new entry.
ghost use Rattle.std.specs.Prelude.{◌≡◌};
ghost use Rattle.kb_token.specs.Tries as rule;

use crate::lines::trimmed;
use crate::token::are_digits;

/// The tries that a file gives: its text without the blanks and line feeds at its ends, where
/// that is 1 to 9 digits of a number above 0.
pub fn tries_of(text: &str) -> Option<u32>
    ensures { result ≡ rule.tries_of text.now }
{
    let digits = trimmed(text);
    if !are_digits(digits.as_bytes()) || digits.len() > 9 {
        return None;
    }
    match digits.parse::<u32>() {
        Ok(number) if number > 0 => Some(number),
        _ => None,
    }
}
