// The kernel's command line.
ghost use Rattle.std.specs.Prelude.{◌≡◌, ◌<◌, IfOk, MatchOption, length, map, filter, not};
ghost use Rattle.std.specs.List.{position_or_len, before_first, after_first, join_with_byte};
ghost use Rattle.std.specs.Str.{byte};
ghost use Rattle.kb_token.specs.Options as rule;

use crate::lines::is_space;
use kb_world::Text;
use std::alloc::{AllocError, Global};

fn is_separator(c: u8) -> bool
    ensures { result ≡ rule.is_separator c }
{
    is_space(c) || c == b'\r'
}

// How many bytes stand before the first separator.
fn word_len(bytes: &[u8]) -> usize
    ensures { result ≡ position_or_len rule.is_separator bytes.now }
{
    bytes.iter().take_while(|c| !is_separator(**c)).count()
}

// What stands before the first separator, and behind it.
fn cut_at_separator(text: &str) -> Option<(&str, &str)>
    ensures { MatchOption result (position_or_len rule.is_separator text.now ≡ length text.now)
        (λ cut. (position_or_len rule.is_separator text.now < length text.now)
        × (cut.0.now ≡ before_first rule.is_separator text.now)
        × (cut.1.now ≡ after_first rule.is_separator text.now)) }
{
    let at = word_len(text.as_bytes());
    if at == text.len() {
        return None;
    }
    let (word, _) = text.split_at(at);
    let (_, rest) = text.split_at(at + 1);
    Some((word, rest))
}

fn words_of(alloc: Global, text: &str) -> Result<Vec<&str>, AllocError>
    ensures { IfOk result (λ words. map (λ word. word.now) words.items ≡ rule.words_of text.now) }
{
    let mut words = Vec::new(alloc);
    let mut rest = text;
    'words: while let Some((word, behind)) = cut_at_separator(rest) {
        if !word.is_empty() {
            words.push(word)?;
        }
        rest = behind;
    }
    if !rest.is_empty() {
        words.push(rest)?;
    }
    Ok(words)
}

fn is_loader_word(word: &str) -> bool
    ensures { result ≡ rule.is_loader_word word.now }
{
    word.as_bytes().starts_with(b"BOOT_IMAGE=") || word.as_bytes().starts_with(b"initrd=")
}

// The words with a space between each two.
fn joined(alloc: Global, words: &[&str]) -> Result<Text, AllocError>
    ensures { IfOk result (λ text.
        text ≡ join_with_byte (byte " ") (map (λ word. word.now) words.now)) }
{
    let mut text = Text::of(alloc, "")?;
    for (number, word) in words.iter().enumerate() {
        if number > 0 {
            text.push_str(" ")?;
        }
        text.push_str(word)?;
    }
    Ok(text)
}

/// The words of a command line, with a space between each two.
pub fn options_of(alloc: Global, text: &str) -> Result<Text, AllocError>
    ensures { IfOk result (λ options. options ≡ rule.options_of text.now) }
{
    joined(alloc, &words_of(alloc, text)?)
}

fn without_loader_words<'a>(alloc: Global, words: &[&'a str]) -> Result<Vec<&'a str>, AllocError>
    ensures { IfOk result (λ kept. map (λ word. word.now) kept.items
        ≡ filter (λ word. not (rule.is_loader_word word)) (map (λ word. word.now) words.now)) }
{
    let mut kept = Vec::new(alloc);
    for word in words {
        if !is_loader_word(word) {
            kept.push(*word)?;
        }
    }
    Ok(kept)
}

/// The same of the running kernel's own command line, without the words that its boot loader added.
pub fn own_options_of(alloc: Global, text: &str) -> Result<Text, AllocError>
    ensures { IfOk result (λ options. options ≡ rule.own_options_of text.now) }
{
    let words = words_of(alloc, text)?;
    joined(alloc, &without_loader_words(alloc, &words)?)
}
