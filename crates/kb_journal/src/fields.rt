// The fields of a text.
ghost use Rattle.std.specs.Prelude.{◌≡◌, List, ℕ, [], ◌∷◌, IfErr, IfOk, OnOk, MatchOption, Some, None, bytes_eq, length, map};
ghost use Rattle.std.specs.List.{slice_split};
ghost use Rattle.std.specs.Str.{IsUtf8};
ghost use Rattle.kb_changes.specs.Text as rule;
ghost use Rattle.kb_journal.specs.declared.error.IntentError.TheVariants.{NoMemory};
ghost use Rattle.kb_journal.specs.Reads.{is_field_end, IsNoText, IsValueRead};

use crate::error::IntentError;
use hex::FromHexError;
use kb_world::{Bytes, Text};
use std::alloc::{AllocError, Global};
use std::marker::Model;
use std::str;

/// The fields of a text that are still to be read.
#[derive(Drop)]
pub(crate) struct Fields {
    // the last first
    rest: Vec<Bytes>,
}

impl Model for Fields {
    ghost use Rattle.std.specs.Prelude.{List, ℕ, reverse};

    ghost Value = { List (List ℕ) };

    ghost view = { λ fields. reverse fields.rest.items };
}

// What stands between the spaces and line feeds of a text.
fn parts_of(alloc: Global, text: &[u8]) -> Result<Vec<&[u8]>, AllocError>
    ensures { IfOk result (λ parts.
        map (λ part. part.now) parts.items ≡ slice_split is_field_end text.now) }
{
    text.split(|c| *c == b' ' || *c == b'\n').collect(alloc)
}

fn copies_of(alloc: Global, parts: &[&[u8]]) -> Result<Vec<Bytes>, AllocError>
    ensures { IfOk result (λ copies. copies.items ≡ map (λ part. part.now) parts.now) }
{
    let mut copies = Vec::new(alloc);
    for part in parts {
        copies.push(Bytes::of(alloc, part)?)?;
    }
    Ok(copies)
}

impl Fields {
    /// The fields of a text, which spaces and line feeds end.
    pub fn of(alloc: Global, text: &[u8]) -> Result<Fields, AllocError>
        ensures { IfOk result (λ fields. fields ≡ slice_split is_field_end text.now) }
    {
        let parts = parts_of(alloc, text)?;
        let mut rest = copies_of(alloc, &parts)?;
        rest.reverse();
        Ok(Fields { rest })
    }

    /// Takes the first field away.
    pub fn next(&mut self) -> Option<Bytes>
        ensures { MatchOption result (self.old ≡ []) (λ field. self.old ≡ field ∷ self.new) }
    {
        self.rest.pop()
    }

    /// Passes over the first field.
    pub fn skip(&mut self)
        ensures { (field : List ℕ) (more : List (List ℕ)) → self.old ≡ field ∷ more
            → self.new ≡ more }
    {
        self.next();
    }

    /// Puts a field before the others.
    pub fn put_back(&mut self, field: Bytes) -> Result<(), AllocError>
        ensures { OnOk result (self.new ≡ field ∷ self.old) }
    {
        self.rest.push(field)?;
        Ok(())
    }

    /// How many fields are left.
    pub fn len(&self) -> usize
        ensures { result ≡ length self.now }
    {
        self.rest.len()
    }
}

/// Whether the field is this word.
pub(crate) fn is_word(field: &Bytes, word: &str) -> bool
    ensures { result ≡ bytes_eq field.now word.now }
{
    field.as_slice() == word.as_bytes()
}

// The text of a field that is one: of a dash the empty text, of others the bytes in hexadecimal.
pub(crate) fn text_of(alloc: Global, field: &[u8]) -> Result<Option<Text>, IntentError>
    ensures text { (text : List ℕ) → IsUtf8 text → field.now ≡ rule.text_field text
        → IsValueRead (Some text) result }
    ensures none { IsNoText field.now → IsValueRead None result }
    ensures failed { IfErr result (λ error. error ≡ NoMemory) }
{
    if field == "-".as_bytes() {
        return Ok(Some(Text::of(alloc, "")?));
    }
    match hex::decode(alloc, field) {
        Ok(bytes) => match str::from_utf8(&bytes) {
            Ok(text) => Ok(Some(Text::of(alloc, text)?)),
            Err(_) => Ok(None),
        },
        Err(error) => match error {
            FromHexError::OutOfMemory => Err(IntentError::NoMemory),
            _ => Ok(None),
        },
    }
}
