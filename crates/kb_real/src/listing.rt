// The names of a directory, as the system lists them.
ghost use Rattle.std.specs.Prelude.{◌≡◌, ◌↔◌, IfErr, IfOk, IsTrue, IsPermutation, Ok, false, map, ◌==◌};
ghost use Rattle.std.specs.IoError.{error_kind};
ghost use Rattle.std.specs.Str.{IsUtf8};
ghost use Rattle.std.specs.List.{list_all, slice_split};
ghost use Rattle.kb_world.specs.Names.{is_name};
ghost use Rattle.kb_real.specs.Listing.{is_entry, listed_names, Rises};

use kb_world::{Text, is_name};
use std::alloc::{AllocError, Global};
use std::io::ErrorKind;
use std::{io, str};

// What stands between the NULs of a listing.
fn parts_of(alloc: Global, listing: &[u8]) -> Result<Vec<&[u8]>, AllocError>
    ensures { IfOk result (λ parts. map (λ part. part.now) parts.items ≡ slice_split (λ c. c == 0) listing.now) }
{
    listing.split(|c| *c == 0).collect(alloc)
}

// The directory itself, its parent, and the nothing behind the last NUL are no entries.
fn is_entry(part: &[u8]) -> bool
    ensures { result ≡ is_entry part.now }
{
    !part.is_empty() && part != b".".as_slice() && part != b"..".as_slice()
}

// The entry as a name of the tree. One that isn't UTF-8 or no name is an error.
fn name_of(alloc: Global, entry: &[u8]) -> io::Result<Text>
    ensures name { IfOk result (λ name. name ≡ entry.now) }
    ensures named { IfOk result (λ name. IsTrue (is_name name)) }
    ensures bad { is_name entry.now ≡ false → IfErr result (λ error. error_kind error ≡ ErrorKind.InvalidFilename) }
    ensures no_text { ¬ IsUtf8 entry.now → IfErr result (λ error. error_kind error ≡ ErrorKind.InvalidFilename) }
{
    match str::from_utf8(entry) {
        Ok(text) if is_name(text) => Ok(Text::of(alloc, text)?),
        _ => Err(io::Error::from(ErrorKind::InvalidFilename)),
    }
}

// The names of the entries, in the order of the listing.
fn names_of(alloc: Global, parts: &[&[u8]]) -> io::Result<Vec<Text>>
    ensures names { IfOk result (λ names. names.items ≡ listed_names (map (λ part. part.now) parts.now)) }
    ensures named { IfOk result (λ names. IsTrue (list_all is_name names.items)) }
{
    let mut names = Vec::new(alloc);
    for part in parts {
        if is_entry(part) {
            names.push(name_of(alloc, part)?)?;
        }
    }
    Ok(names)
}

fn rises(names: &[Text]) -> bool
    ensures { IsTrue result ↔ Rises names.now }
{
    for next in 1..names.len() {
        if names[next - 1] >= names[next] {
            return false;
        }
    }
    true
}

// The names, where none stands there twice.
fn each_once(names: Vec<Text>) -> io::Result<Vec<Text>>
    ensures once { Rises names.items → result ≡ Ok names }
    ensures twice { ¬ Rises names.items → IfErr result (λ error. error_kind error ≡ ErrorKind.InvalidData) }
    ensures kept { IfOk result (λ kept. kept ≡ names) }
    ensures rises { IfOk result (λ kept. Rises kept.items) }
{
    if rises(&names) {
        Ok(names)
    } else {
        Err(io::Error::from(ErrorKind::InvalidData))
    }
}

/// The names of a listing, in which each ends with a NUL, by bytes. A name that stands there twice is an error, as is
/// one that isn't UTF-8 or no name of the tree.
pub fn names_in(alloc: Global, listing: &[u8]) -> io::Result<Vec<Text>>
    ensures names { IfOk result (λ names. IsPermutation (listed_names (slice_split (λ c. c == 0) listing.now)) names.items) }
    ensures named { IfOk result (λ names. IsTrue (list_all is_name names.items)) }
    ensures ordered { IfOk result (λ names. Rises names.items) }
{
    let parts = parts_of(alloc, listing)?;
    let mut names = names_of(alloc, &parts)?;
    names.sort()?;
    let names = each_once(names)?;
    Ok(names)
}
