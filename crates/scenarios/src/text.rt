// Bytes in a line: read and written with escapes.

use crate::error::LineError;
use std::alloc::{AllocError, Global};

// Where in an escape the next byte stands.
#[derive(Clone, Copy)]
enum State {
    Outside,
    Behind,
    High,
    Low(u8),
}

fn digit(byte: u8) -> Result<u8, LineError> {
    match byte {
        b'0'..=b'9' => Ok(byte - b'0'),
        b'a'..=b'f' => Ok(byte - b'a' + 10),
        b'A'..=b'F' => Ok(byte - b'A' + 10),
        _ => Err(LineError::BadEscape),
    }
}

// The byte that a backslash and this one give, or none where two digits follow.
fn escaped(byte: u8, in_word: bool) -> Result<Option<u8>, LineError> {
    match byte {
        b'n' => Ok(Some(b'\n')),
        b't' => Ok(Some(b'\t')),
        b'\\' => Ok(Some(b'\\')),
        b's' if in_word => Ok(Some(b' ')),
        b'x' => Ok(None),
        _ => Err(LineError::BadEscape),
    }
}

// Reads one byte more: the state behind it, and the byte that is whole with it.
fn step(state: State, byte: u8, in_word: bool) -> Result<(State, Option<u8>), LineError> {
    match state {
        State::Outside if byte == b'\\' => Ok((State::Behind, None)),
        State::Outside => Ok((State::Outside, Some(byte))),
        State::Behind => match escaped(byte, in_word)? {
            Some(given) => Ok((State::Outside, Some(given))),
            None => Ok((State::High, None)),
        },
        State::High => Ok((State::Low(digit(byte)?), None)),
        State::Low(high) => Ok((State::Outside, Some(high << 4 | digit(byte)?))),
    }
}

fn unescaped(alloc: Global, field: &str, in_word: bool) -> Result<Vec<u8>, LineError> {
    let mut bytes = Vec::new(alloc);
    let mut state = State::Outside;
    for byte in field.as_bytes() {
        let (next, whole) = step(state, *byte, in_word)?;
        state = next;
        if let Some(whole) = whole {
            bytes.push(whole)?;
        }
    }
    match state {
        State::Outside => Ok(bytes),
        _ => Err(LineError::BadEscape),
    }
}

/// The bytes of a line's last field.
pub fn read_last(alloc: Global, field: &str) -> Result<Vec<u8>, LineError> {
    unescaped(alloc, field, false)
}

/// The bytes of a word, or of a field that isn't a line's last.
pub fn read_word(alloc: Global, field: &str) -> Result<Vec<u8>, LineError> {
    if field == "\\e" {
        return Ok(Vec::new(alloc));
    }
    unescaped(alloc, field, true)
}

/// Where bytes stand in a line, which decides how a space is written.
#[derive(Clone, Copy)]
pub enum Place {
    /// In the last field.
    Last,
    /// In a field before the last.
    Field,
    /// In one of several words.
    Word,
}

impl Place {
    fn space(self) -> &'static str {
        match self {
            Place::Last => " ",
            Place::Field => "\\x20",
            Place::Word => "\\s",
        }
    }
}

/// What the program prints, as it grows.
#[derive(Drop)]
pub struct Page {
    bytes: Vec<u8>,
}

impl Page {
    pub fn new(alloc: Global) -> Page {
        Page {
            bytes: Vec::new(alloc),
        }
    }

    pub fn bytes(&self) -> &[u8] {
        &self.bytes
    }

    /// Adds a text as it is.
    pub fn plain(&mut self, text: &str) -> Result<(), AllocError> {
        self.bytes.extend_from_slice(text.as_bytes())
    }

    // Adds a byte with its escape.
    fn byte(&mut self, alloc: Global, byte: u8, place: Place) -> Result<(), AllocError> {
        match byte {
            b'\n' => self.plain("\\n"),
            b'\t' => self.plain("\\t"),
            b'\\' => self.plain("\\\\"),
            b' ' => self.plain(place.space()),
            0x21..=0x7e => Ok(self.bytes.push(byte)?),
            _ => self.plain(&format!(in alloc; "\\x{byte:02x}")?),
        }
    }

    /// Adds bytes with their escapes.
    pub fn escaped(&mut self, alloc: Global, bytes: &[u8], place: Place) -> Result<(), AllocError> {
        for byte in bytes {
            self.byte(alloc, *byte, place)?;
        }
        Ok(())
    }

    /// Adds a line: some words of its own, and then a last field.
    pub fn line(&mut self, alloc: Global, front: &str, last: &[u8]) -> Result<(), AllocError> {
        self.plain(front)?;
        self.escaped(alloc, last, Place::Last)?;
        self.plain("\n")
    }

    /// Adds a space and a word.
    pub fn word(&mut self, alloc: Global, word: &str) -> Result<(), AllocError> {
        self.plain(" ")?;
        if word.is_empty() {
            return self.plain("\\e");
        }
        self.escaped(alloc, word.as_bytes(), Place::Word)
    }
}
