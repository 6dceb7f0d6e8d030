// The words of the command line.
ghost use Rattle.std.specs.Io.{WritesAtMost};

use kb_world::Text;
use std::alloc::{AllocError, Global};
use std::env::{Env, FillError};
use std::str;

/// The longest word that Linux hands to a program, its NUL included.
pub const LONGEST_WORD: usize = 131_072;

/// The text at the buffer's front, where one was put there. One that isn't UTF-8, or didn't fit, is the empty text,
/// which fits nowhere.
pub fn text_told(
    alloc: Global,
    told: Result<usize, FillError>,
    buffer: &[u8],
) -> Result<Option<Text>, AllocError>
    requires { WritesAtMost told buffer.now }
{
    match told {
        Ok(len) => match str::from_utf8(&buffer[..len]) {
            Ok(text) => Ok(Some(Text::of(alloc, text)?)),
            Err(_) => Ok(Some(Text::of(alloc, "")?)),
        },
        Err(FillError::TooLong) => Ok(Some(Text::of(alloc, "")?)),
        Err(FillError::NotPresent) => Ok(None),
    }
}

/// The words behind the program's name.
pub fn collect_words<R: Env>(
    rt: &R,
    alloc: Global,
    buffer: &mut [u8],
) -> Result<Vec<Text>, AllocError> {
    let mut words = Vec::new(alloc);
    for place in 1..usize::MAX {
        let told = rt.arg(place, buffer);
        match text_told(alloc, told, buffer)? {
            Some(word) => words.push(word)?,
            None => break,
        }
    }
    Ok(words)
}
