// Values and lists of them are read from fields.
ghost use Rattle.std.specs.Prelude.{◌≡◌, ◌<◌, ◌^◌, List, ℕ, ◌∷◌, ◌++◌, All, length, map};
ghost use Rattle.std.specs.Fmt.{decimal};
ghost use Rattle.std.specs.Str.{IsUtf8};
ghost use Rattle.kb_changes.specs.Text as rule;
ghost use Rattle.kb_journal.specs.Reads.{IsValueRead, ReadsBack};
ghost use Rattle.kb_world.specs.Path.{Path as APath, IsPath, path_text};

use crate::error::IntentError;
use crate::fields::{Fields, text_of};
use kb_world::{Path, PathError, Sequence, Text, Texts};
use std::alloc::Global;
use std::str;

/// Reads a text.
pub(crate) fn read_text(alloc: Global, fields: &mut Fields) -> Result<Text, IntentError>
    ensures { (text : List ℕ) (more : List (List ℕ)) → IsUtf8 text
        → fields.old ≡ rule.text_field text ∷ more → ReadsBack text more result fields.new }
{
    match fields.next() {
        Some(field) => match text_of(alloc, field.as_slice()) {
            Ok(Some(text)) => Ok(text),
            Ok(None) => Err(IntentError::Damaged),
            Err(error) => Err(error),
        },
        None => Err(IntentError::Damaged),
    }
}

fn path_of(alloc: Global, text: &str) -> Result<Path, IntentError>
    ensures { (path : APath) → IsPath path → text.now ≡ path_text path → IsValueRead path result }
{
    match Path::parse(alloc, text) {
        Ok(path) => Ok(path),
        Err(PathError::NotAPath) => Err(IntentError::Damaged),
        Err(PathError::NoMemory) => Err(IntentError::NoMemory),
    }
}

/// Reads a path.
pub(crate) fn read_path(alloc: Global, fields: &mut Fields) -> Result<Path, IntentError>
    ensures { (path : APath) (more : List (List ℕ)) → rule.IsTextPath path
        → fields.old ≡ rule.path_field path ∷ more → ReadsBack path more result fields.new }
{
    match read_text(alloc, fields) {
        Ok(text) => path_of(alloc, text.as_str()),
        Err(error) => Err(error),
    }
}

fn number_of(field: &[u8]) -> Result<u64, IntentError>
    ensures { (number : ℕ) → number < 2 ^ 64 → field.now ≡ decimal number → IsValueRead number result }
{
    match str::from_utf8(field) {
        Ok(text) => match text.parse::<u64>() {
            Ok(number) => Ok(number),
            Err(_) => Err(IntentError::Damaged),
        },
        Err(_) => Err(IntentError::Damaged),
    }
}

/// Reads a number.
pub(crate) fn read_number(fields: &mut Fields) -> Result<u64, IntentError>
    ensures { (number : ℕ) (more : List (List ℕ)) → number < 2 ^ 64
        → fields.old ≡ decimal number ∷ more → ReadsBack number more result fields.new }
{
    match fields.next() {
        Some(field) => number_of(field.as_slice()),
        None => Err(IntentError::Damaged),
    }
}

/// Reads a count and so many texts.
pub(crate) fn read_texts(alloc: Global, fields: &mut Fields) -> Result<Texts, IntentError>
    ensures { (texts more : List (List ℕ)) → All IsUtf8 texts → length texts < 2 ^ 64
        → fields.old ≡ rule.counted_fields (map rule.text_field texts) ++ more
        → ReadsBack texts more result fields.new }
{
    let count = match read_number(fields) {
        Ok(count) => count,
        Err(error) => return Err(error),
    };
    let mut texts = Sequence::new(alloc);
    for _ in 0..count {
        match read_text(alloc, fields) {
            Ok(text) => texts.push(text)?,
            Err(error) => return Err(error),
        }
    }
    Ok(texts)
}

/// Reads a count and so many paths.
pub(crate) fn read_paths(alloc: Global, fields: &mut Fields) -> Result<Sequence<Path>, IntentError>
    ensures { (paths : List APath) (more : List (List ℕ)) → All rule.IsTextPath paths
        → length paths < 2 ^ 64
        → fields.old ≡ rule.counted_fields (map rule.path_field paths) ++ more
        → ReadsBack paths more result fields.new }
{
    let count = match read_number(fields) {
        Ok(count) => count,
        Err(error) => return Err(error),
    };
    let mut paths = Sequence::new(alloc);
    for _ in 0..count {
        match read_path(alloc, fields) {
            Ok(path) => paths.push(path)?,
            Err(error) => return Err(error),
        }
    }
    Ok(paths)
}

fn read_pair(alloc: Global, fields: &mut Fields) -> Result<(Text, Text), IntentError>
    ensures { (pair : List ℕ × List ℕ) (more : List (List ℕ)) → IsUtf8 pair.0 → IsUtf8 pair.1
        → fields.old ≡ rule.pair_field pair ++ more → ReadsBack pair more result fields.new }
{
    let first = match read_text(alloc, fields) {
        Ok(first) => first,
        Err(error) => return Err(error),
    };
    match read_text(alloc, fields) {
        Ok(second) => Ok((first, second)),
        Err(error) => Err(error),
    }
}

/// Reads a count and so many pairs.
pub(crate) fn read_pairs(
    alloc: Global,
    fields: &mut Fields,
) -> Result<Sequence<(Text, Text)>, IntentError>
    ensures { (pairs : List (List ℕ × List ℕ)) (more : List (List ℕ)) → rule.AreTextPairs pairs
        → length pairs < 2 ^ 64
        → fields.old ≡ rule.pair_fields pairs ++ more → ReadsBack pairs more result fields.new }
{
    let count = match read_number(fields) {
        Ok(count) => count,
        Err(error) => return Err(error),
    };
    let mut pairs = Sequence::new(alloc);
    for _ in 0..count {
        match read_pair(alloc, fields) {
            Ok(pair) => pairs.push(pair)?,
            Err(error) => return Err(error),
        }
    }
    Ok(pairs)
}
