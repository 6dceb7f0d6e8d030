// What is asked of boot entries: how a text is read and printed, what a name says, and the order of a menu.

use crate::error::LineError;
use crate::text::Page;
use kb_bls::{
    Counter, Entry, EntryError, Named, can_be_printed, parse_entry, print_entry, read_entry_name,
    sort_entries,
};
use kb_world::{Bytes, Text};
use std::alloc::{AllocError, Global};

fn print_fields(alloc: Global, page: &mut Page, entry: &Entry) -> Result<(), AllocError> {
    if !can_be_printed(entry) {
        return page.plain("can't be printed\n");
    }
    let text = print_entry(alloc, entry)?;
    for line in text.as_slice().split(|byte| *byte == b'\n') {
        if !line.is_empty() {
            page.line(alloc, " ", line)?;
        }
    }
    Ok(())
}

/// Adds the lines of the entry that the bytes are, as they are printed; or where they are no text.
pub fn print_parsed(alloc: Global, page: &mut Page, bytes: &Bytes) -> Result<(), LineError> {
    match parse_entry(alloc, bytes.as_slice()) {
        Ok(entry) => Ok(print_fields(alloc, page, &entry)?),
        Err(EntryError::NotText { at }) => {
            Ok(page.plain(&format!(in alloc; "not text at byte {at}\n")?)?)
        }
        Err(EntryError::NoMemory) => Err(LineError::Memory(AllocError)),
    }
}

fn print_counter(alloc: Global, page: &mut Page, counter: &Counter) -> Result<(), AllocError> {
    match *counter {
        Counter::Good => page.plain("good\n"),
        Counter::Left { left, done } => {
            page.plain(&format!(in alloc; "left {left} done {done}\n")?)
        }
    }
}

/// Adds the base and the counter of a name, and the counter after one try more.
pub fn print_entry_name(alloc: Global, page: &mut Page, name: &str) -> Result<(), AllocError> {
    let Some((base, counter)) = read_entry_name(name) else {
        return page.plain("none\n");
    };
    page.plain(&format!(in alloc; "{base} ")?)?;
    print_counter(alloc, page, &counter)?;
    page.plain("tried ")?;
    match counter.tried() {
        Some(counter) => print_counter(alloc, page, &counter),
        None => page.plain("none\n"),
    }
}

// A word, or none where it is a dash.
fn told(word: &Text) -> Result<Option<Text>, AllocError> {
    if word.as_str() == "-" {
        Ok(None)
    } else {
        Ok(Some(word.clone()?))
    }
}

// The entry of four words: its name, its sort key, its version and its machine ID.
fn entry_of(
    alloc: Global,
    name: &Text,
    sort_key: &Text,
    version: &Text,
    machine_id: &Text,
) -> Result<Named, AllocError> {
    let mut entry = Entry::new(alloc);
    entry.sort_key = told(sort_key)?;
    entry.version = told(version)?;
    entry.machine_id = told(machine_id)?;
    Ok(Named {
        name: name.clone()?,
        entry,
    })
}

fn entries_of(alloc: Global, words: &[Text]) -> Result<Vec<Named>, LineError> {
    let mut list = Vec::new(alloc);
    let mut rest = words;
    'entries: while let [name, sort_key, version, machine_id, behind @ ..] = rest {
        list.push(entry_of(alloc, name, sort_key, version, machine_id)?)?;
        rest = behind;
    }
    if rest.is_empty() {
        Ok(list)
    } else {
        Err(LineError::TooShort)
    }
}

/// Adds the names of entries in the order of a boot menu. Each entry is four words.
pub fn print_sorted(alloc: Global, page: &mut Page, words: &[Text]) -> Result<(), LineError> {
    for named in &sort_entries(alloc, entries_of(alloc, words)?)? {
        page.line(alloc, "", named.name.as_str().as_bytes())?;
    }
    Ok(())
}
