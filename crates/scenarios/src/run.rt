// A run of the program's call, and what it prints.

use crate::error::LineError;
use crate::line::Halted;
use crate::store::print_stop;
use crate::text::{Page, Place};
use crate::world_calls::{Ended, Failures, SceneWorld};
use kb_world::{Path, Stop, Texts, WorldError};
use std::alloc::{AllocError, Global};

// Adds the lines of what was written, each behind the name of its stream.
fn print_written(
    alloc: Global,
    page: &mut Page,
    front: &str,
    written: &[u8],
) -> Result<(), AllocError> {
    let parts: Vec<&[u8]> = written.split(|byte| *byte == b'\n').collect(alloc)?;
    let [lines @ .., last] = parts.as_slice() else {
        return Ok(());
    };
    for line in lines {
        page.line(alloc, front, line)?;
    }
    if last.is_empty() {
        return Ok(());
    }
    page.plain(front)?;
    page.escaped(alloc, last, Place::Last)?;
    page.plain("\\\n")
}

fn print_words(alloc: Global, page: &mut Page, words: &Texts) -> Result<(), AllocError> {
    page.plain("$")?;
    for word in words.as_slice() {
        page.word(alloc, word.as_str())?;
    }
    page.plain("\n")
}

// Prints a run: its words, what it wrote, and its status.
fn print_run(
    alloc: Global,
    page: &mut Page,
    words: &Texts,
    ended: &Ended,
) -> Result<(), AllocError> {
    print_words(alloc, page, words)?;
    print_written(alloc, page, "out: ", ended.out())?;
    print_written(alloc, page, "err: ", ended.err())?;
    page.plain(&format!(in alloc; "status {}\n", ended.status)?)
}

/// Runs the program's call with these words, over a world in which no call is to fail behind it.
pub fn run(
    alloc: Global,
    world: &mut SceneWorld,
    words: &Texts,
    failures: Failures,
    page: &mut Page,
) -> Result<(), AllocError> {
    let ended = world.run(alloc, words.as_slice(), failures);
    print_run(alloc, page, words, &ended)
}

/// Wipes the path in a world in which no call is to fail behind it, and says whether that was done.
pub fn wipe_path(
    alloc: Global,
    world: &mut SceneWorld,
    path: &Path,
    failures: Failures,
    page: &mut Page,
) -> Result<(), LineError> {
    match world.wipe(alloc, path, failures) {
        Ok(()) => Ok(page.plain("wiped\n")?),
        Err(WorldError::Failed) => Ok(page.plain("failed\n")?),
        Err(WorldError::NoMemory) => Err(LineError::Memory(AllocError)),
    }
}

/// Copies a directory in a world in which no call is to fail behind it, and says whether that was done.
pub fn copy_directory(
    alloc: Global,
    world: &mut SceneWorld,
    from: &Path,
    to: &Path,
    failures: Failures,
    page: &mut Page,
) -> Result<(), LineError> {
    match world.copy(alloc, from, to, failures)? {
        None => Ok(page.plain("copied\n")?),
        Some(Stop::Fault) => Ok(page.plain("failed\n")?),
        Some(stop) => print_stop(alloc, page, &stop),
    }
}

/// Runs the program's call with these words over a world that is halted, and goes on with what a crash leaves of it by the
/// same choice. No call is to fail behind it.
pub fn halt(
    alloc: Global,
    world: &mut SceneWorld,
    halted: &Halted,
    page: &mut Page,
) -> Result<(), AllocError> {
    let ended = world.halt(alloc, halted)?;
    print_run(alloc, page, &halted.words, &ended)
}
