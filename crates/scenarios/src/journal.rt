// What a journal says.

use crate::error::LineError;
use crate::show::{print_path, print_request};
use crate::text::Page;
use kb_changes::{Change, Intent, RootName};
use kb_journal::{IntentError, read_intent};
use kb_world::{Path, Roots};
use std::alloc::{AllocError, Global};

fn letter(root: RootName) -> &'static str {
    match root {
        RootName::Dkms => "D",
        RootName::Src => "S",
        RootName::Modules => "L",
        RootName::Boot => "B",
    }
}

fn print_put(
    alloc: Global,
    page: &mut Page,
    root: RootName,
    number: u64,
    target: &Path,
) -> Result<(), AllocError> {
    let letter = letter(root);
    let front = format!(in alloc; "put {letter} {number} ")?;
    print_path(alloc, page, &front, target)
}

fn print_change(alloc: Global, page: &mut Page, change: &Change) -> Result<(), AllocError> {
    match change {
        Change::Dir(path) => print_path(alloc, page, "dir ", path),
        Change::Put {
            root,
            number,
            target,
        } => print_put(alloc, page, *root, *number, target),
        Change::Drop(path) => print_path(alloc, page, "drop ", path),
        Change::DropDir(path) => print_path(alloc, page, "dropdir ", path),
        Change::Wipe(path) => print_path(alloc, page, "wipe ", path),
        Change::Run(request) => print_request(alloc, page, "run", request),
    }
}

fn print_intent(alloc: Global, page: &mut Page, intent: &Intent) -> Result<(), AllocError> {
    page.plain("words")?;
    for word in intent.words.as_slice() {
        page.word(alloc, word.as_str())?;
    }
    page.plain("\n")?;
    for change in intent.changes.as_slice() {
        print_change(alloc, page, change)?;
    }
    Ok(())
}

/// Adds the intent of the journal with these bytes, or that it is damaged.
pub fn print_journal(
    alloc: Global,
    page: &mut Page,
    roots: &Roots,
    bytes: &[u8],
) -> Result<(), LineError> {
    match read_intent(alloc, bytes, roots) {
        Ok(intent) => Ok(print_intent(alloc, page, &intent)?),
        Err(IntentError::Damaged) => Ok(page.plain("damaged\n")?),
        Err(IntentError::NoMemory) => Err(LineError::Memory(AllocError)),
    }
}

fn is_damaged(alloc: Global, roots: &Roots, bytes: &[u8]) -> Result<bool, LineError> {
    match read_intent(alloc, bytes, roots) {
        Ok(_) => Ok(false),
        Err(IntentError::Damaged) => Ok(true),
        Err(IntentError::NoMemory) => Err(LineError::Memory(AllocError)),
    }
}

/// Adds how many bytes there are, and of how many of them a change by one bit leaves a journal.
pub fn print_journal_bytes(
    alloc: Global,
    page: &mut Page,
    roots: &Roots,
    bytes: &[u8],
) -> Result<(), LineError> {
    let mut changed = bytes.to_vec(alloc)?;
    let mut read: u64 = 0;
    for i in 0..bytes.len() {
        changed[i] = bytes[i] ^ 1;
        if !is_damaged(alloc, roots, &changed)? {
            read = read.saturating_add(1);
        }
        changed[i] = bytes[i];
    }
    let count = bytes.len();
    Ok(page.plain(&format!(in alloc; "{count} bytes, {read} journals\n")?)?)
}
