// Lines, and what is dropped at their ends.
ghost use Rattle.std.specs.Prelude.{◌≡◌, IfOk, map};
ghost use Rattle.std.specs.List.{prefix_len, suffix_len};
ghost use Rattle.kb_token.specs.Lines as rule;

use std::alloc::{AllocError, Global};

pub fn lines_of(alloc: Global, text: &str) -> Result<Vec<&str>, AllocError>
    ensures { IfOk result (λ lines. map (λ line. line.now) lines.items ≡ rule.lines_of text.now) }
{
    text.split('\n').collect(alloc)
}

pub fn first_line(text: &str) -> &str
    ensures { result.now ≡ rule.first_line text.now }
{
    match text.split_once('\n') {
        Some((line, _)) => line,
        None => text,
    }
}

pub fn is_space(c: u8) -> bool
    ensures { result ≡ rule.is_space c }
{
    matches!(c, b' ' | b'\t' | b'\n')
}

fn leading_spaces(bytes: &[u8]) -> usize
    ensures { result ≡ prefix_len rule.is_space bytes.now }
{
    bytes.iter().take_while(|c| is_space(**c)).count()
}

fn trailing_spaces(bytes: &[u8]) -> usize
    ensures { result ≡ suffix_len rule.is_space bytes.now }
{
    bytes.iter().rev().take_while(|c| is_space(**c)).count()
}

fn trimmed_start(text: &str) -> &str
    ensures { result.now ≡ rule.trimmed_start text.now }
{
    let (_, rest) = text.split_at(leading_spaces(text.as_bytes()));
    rest
}

fn trimmed_end(text: &str) -> &str
    ensures { result.now ≡ rule.trimmed_end text.now }
{
    let (front, _) = text.split_at(text.len() - trailing_spaces(text.as_bytes()));
    front
}

/// The text without the blanks and line feeds at both ends.
pub fn trimmed(text: &str) -> &str
    ensures { result.now ≡ rule.trimmed text.now }
{
    trimmed_end(trimmed_start(text))
}
