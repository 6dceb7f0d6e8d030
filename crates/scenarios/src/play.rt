// A whole text, from its lines to what is printed.

use crate::error::{BadLine, LineError};
use crate::line::{Line, read_line};
use crate::scene::{Scene, begin};
use crate::stage::play_scene;
use crate::text::Page;
use std::alloc::Global;
use std::{mem, str};

fn line_of(alloc: Global, bytes: &[u8]) -> Result<Option<Line>, LineError> {
    match str::from_utf8(bytes) {
        Ok(line) => read_line(alloc, line),
        Err(_) => Err(LineError::NotText),
    }
}

// Puts the scene that this line begins in place of the last one, which it answers.
fn change_scene(alloc: Global, scene: &mut Scene, plain: bool) -> Result<Option<Scene>, LineError> {
    scene.end(alloc)?;
    Ok(Some(mem::replace(scene, begin(alloc, plain)?)))
}

// Reads a line into the scene; where it begins a new one, the last one is answered.
fn add_line(
    alloc: Global,
    scene: &mut Scene,
    number: u64,
    bytes: &[u8],
) -> Result<Option<Scene>, LineError> {
    match line_of(alloc, bytes)? {
        Some(Line::Begin { plain }) => change_scene(alloc, scene, plain),
        Some(line) => {
            scene.add(alloc, number, line)?;
            Ok(None)
        }
        None => Ok(None),
    }
}

fn play_line(
    alloc: Global,
    scene: &mut Scene,
    number: u64,
    bytes: &[u8],
    page: &mut Page,
) -> Result<(), BadLine> {
    match add_line(alloc, scene, number, bytes) {
        Ok(Some(ended)) => play_scene(alloc, ended, page),
        Ok(None) => Ok(()),
        Err(cause) => Err(BadLine {
            line: number,
            cause,
        }),
    }
}

fn play_last(alloc: Global, mut scene: Scene, number: u64, page: &mut Page) -> Result<(), BadLine> {
    match scene.end(alloc) {
        Ok(()) => play_scene(alloc, scene, page),
        Err(cause) => Err(BadLine {
            line: number,
            cause,
        }),
    }
}

fn first_scene(alloc: Global) -> Result<Scene, BadLine> {
    match begin(alloc, false) {
        Ok(scene) => Ok(scene),
        Err(cause) => Err(BadLine { line: 0, cause }),
    }
}

/// Plays the text, and prints on the page what its scenes print. At an error the page has what the scenes before it, and
/// the lines before the bad one, printed.
pub fn play(alloc: Global, text: &[u8], page: &mut Page) -> Result<(), BadLine> {
    let mut scene = first_scene(alloc)?;
    let mut number = 0u64;
    for bytes in text.split(|byte| *byte == b'\n') {
        number = number.saturating_add(1);
        play_line(alloc, &mut scene, number, bytes, page)?;
    }
    play_last(alloc, scene, number, page)
}
