// Entries are read.
ghost use Rattle.std.specs.Prelude.{◌≡◌, IfOk, IfErr};
ghost use Rattle.kb_bls.specs.Text.{IsEntryOf};
ghost use Rattle.kb_bls.specs.Refusal.{IsRefusalOf};

use crate::entry::Entry;
use crate::line::field_of;
use kb_world::Text;
use std::alloc::{AllocError, Global};
use std::str;
use thiserror::Error;

/// Why bytes aren't read as an entry.
#[derive(Clone, Copy, Debug, PartialEq, Eq, Error)]
pub enum EntryError {
    /// The bytes aren't UTF-8. It has the place, counted from 0, at which the first sequence begins
    /// that isn't.
    #[error("not text at byte {at}")]
    NotText { at: u64 },
    #[error("out of memory")]
    NoMemory,
}

impl From<AllocError> for EntryError {
    ghost use Rattle.kb_bls.specs.declared.parse.EntryError.TheVariants.{NoMemory};

    ghost from_gives = { λ _ e. e ≡ NoMemory };

    fn from(_: AllocError) -> Self {
        EntryError::NoMemory
    }
}

/// The entry that a text is, line by line. What isn't a line of a known key with a value is passed
/// over, so every text is an entry. Of a key that doesn't repeat the last value counts.
fn parse_text(alloc: Global, text: &str) -> Result<Entry, AllocError>
    ensures { IfOk result (IsEntryOf text.now) }
{
    let mut entry = Entry::new(alloc);
    for line in text.split('\n') {
        if let Some((key, value)) = field_of(line) {
            entry.take(key, Text::of(alloc, value)?)?;
        }
    }
    Ok(entry)
}

/// Reads the file of a Type #1 entry. Every file that is UTF-8 is read.
pub fn parse_entry(alloc: Global, bytes: &[u8]) -> Result<Entry, EntryError>
    ensures entry { IfOk result (IsEntryOf bytes.now) }
    ensures refused { IfErr result (IsRefusalOf bytes.now) }
{
    match str::from_utf8(bytes) {
        Ok(text) => Ok(parse_text(alloc, text)?),
        Err(error) => Err(EntryError::NotText {
            at: error.valid_up_to() as u64,
        }),
    }
}
