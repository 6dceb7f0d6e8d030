// The fields of a line. What is left of a line behind those read so far is none behind the last.

use crate::error::LineError;
use crate::text::{read_last, read_word};
use kb_world::{Bytes, Path, Text, Texts};
use std::alloc::Global;
use std::str;

/// The next field, and what is left behind it, where it isn't the last.
pub fn split_field(rest: Option<&str>) -> Result<(&str, &str), LineError> {
    match rest {
        Some(rest) => rest.split_once(" ").ok_or(LineError::TooShort),
        None => Err(LineError::TooShort),
    }
}

/// The last field.
pub fn last_field(rest: Option<&str>) -> Result<&str, LineError> {
    rest.ok_or(LineError::TooShort)
}

/// Refuses any field.
pub fn no_field(rest: Option<&str>) -> Result<(), LineError> {
    match rest {
        Some(_) => Err(LineError::TooLong),
        None => Ok(()),
    }
}

fn text_from(alloc: Global, bytes: &[u8]) -> Result<Text, LineError> {
    match str::from_utf8(bytes) {
        Ok(text) => Ok(Text::of(alloc, text)?),
        Err(_) => Err(LineError::NotText),
    }
}

fn path_from(alloc: Global, bytes: &[u8]) -> Result<Path, LineError> {
    match str::from_utf8(bytes) {
        Ok(text) => Ok(Path::parse(alloc, text)?),
        Err(_) => Err(LineError::NotAPath),
    }
}

/// The text of a line's last field.
pub fn last_text(alloc: Global, rest: Option<&str>) -> Result<Text, LineError> {
    text_from(alloc, &read_last(alloc, last_field(rest)?)?)
}

/// The bytes of a line's last field.
pub fn last_bytes(alloc: Global, rest: Option<&str>) -> Result<Bytes, LineError> {
    Ok(Bytes::of(alloc, &read_last(alloc, last_field(rest)?)?)?)
}

/// The path of a line's last field.
pub fn last_path(alloc: Global, rest: Option<&str>) -> Result<Path, LineError> {
    path_from(alloc, &read_last(alloc, last_field(rest)?)?)
}

/// The text of a word, or of a field that isn't the last.
pub fn word_text(alloc: Global, field: &str) -> Result<Text, LineError> {
    text_from(alloc, &read_word(alloc, field)?)
}

/// The path of a field that isn't the last.
pub fn field_path(alloc: Global, field: &str) -> Result<Path, LineError> {
    path_from(alloc, &read_word(alloc, field)?)
}

// A word that stands by itself: the empty one is written with an escape.
fn lone_word(alloc: Global, field: &str) -> Result<Text, LineError> {
    if field.is_empty() {
        return Err(LineError::EmptyWord);
    }
    word_text(alloc, field)
}

/// The words of a command, with one space between each two.
pub fn words(alloc: Global, rest: Option<&str>) -> Result<Texts, LineError> {
    let mut words = Texts::new(alloc);
    let Some(rest) = rest else {
        return Ok(words);
    };
    for field in rest.split(' ') {
        words.push(lone_word(alloc, field)?)?;
    }
    Ok(words)
}

/// A number, in decimal.
pub fn number(field: &str) -> Result<u64, LineError> {
    match field.parse::<u64>() {
        Ok(number) => Ok(number),
        Err(_) => Err(LineError::NotANumber),
    }
}

// The number of a call, counted from 1.
fn call(field: &str) -> Result<u64, LineError> {
    match number(field)? {
        0 => Err(LineError::NotANumber),
        number => Ok(number),
    }
}

/// The numbers of calls.
pub fn calls(alloc: Global, rest: Option<&str>) -> Result<Vec<u64>, LineError> {
    let mut numbers = Vec::new(alloc);
    for field in last_field(rest)?.split(' ') {
        numbers.push(call(field)?)?;
    }
    Ok(numbers)
}
