// Waits until what children left is on the disk.
ghost use Rattle.std.specs.Prelude.{◌≡◌};

use crate::changes::parent_of;
use crate::files::{is_absence, names_at};
use crate::pieces::{MOST_CALLS, given_up};
use kb_world::{Area, Path, Text, is_name};
use std::alloc::Global;
use std::fs::{Files, OpenFile};
use std::{fs, io, path};

// Waits until the directory is on the disk, where it is there.
fn sync_if_there<R: Files>(rt: &R, directory: path::Path<'_>) -> io::Result<()> {
    match fs::open(rt, directory) {
        Ok(opened) => opened.sync_all(),
        Err(error) if is_absence(&error) => Ok(()),
        Err(error) => Err(error),
    }
}

// Adds the paths of a directory's entries to those that are left.
fn add_entries<R: Files>(
    rt: &R,
    alloc: Global,
    directory: &Path,
    left: &mut Vec<Path>,
) -> io::Result<()> {
    let names = names_at(rt, alloc, directory.text(alloc)?.as_str())?;
    for name in &names {
        left.push(directory.child(alloc, name.as_str())?)?;
    }
    Ok(())
}

// Waits until what stands at the path is on the disk, and adds what a directory holds to the paths that are left. A
// link isn't followed: its directory has its text. What is neither a directory nor a regular file isn't opened.
fn sync_path<R: Files>(rt: &R, alloc: Global, path: &Path, left: &mut Vec<Path>) -> io::Result<()> {
    let text = path.text(alloc)?;
    let metadata = match fs::symlink_metadata(rt, text.as_str()) {
        Ok(metadata) => metadata,
        Err(error) if is_absence(&error) => return Ok(()),
        Err(error) => return Err(error),
    };
    if metadata.is_dir() {
        add_entries(rt, alloc, path, left)?;
    }
    if metadata.is_dir() || metadata.is_file() {
        fs::open(rt, text.as_str())?.sync_all()?;
    }
    Ok(())
}

// All that is left, with what lies below it. A walk that hasn't ended after 2^32 paths is an error.
fn sync_all_left<R: Files>(rt: &R, alloc: Global, mut left: Vec<Path>) -> io::Result<()> {
    for _ in 0..MOST_CALLS {
        match left.pop() {
            Some(path) => sync_path(rt, alloc, &path, &mut left)?,
            None => return Ok(()),
        }
    }
    Err(given_up())
}

// A directory with all below it, and its place in its parent.
fn sync_under<R: Files>(rt: &R, alloc: Global, directory: &Path) -> io::Result<()> {
    let mut left = Vec::new(alloc);
    left.push(directory.clone()?)?;
    sync_all_left(rt, alloc, left)?;
    sync_if_there(rt, parent_of(directory.text(alloc)?.as_str()))
}

// The files of these names in the directory, and the directory. What is no name stands in no directory.
fn sync_names<R: Files>(rt: &R, alloc: Global, directory: &Path, names: &[Text]) -> io::Result<()> {
    for name in names {
        if is_name(name.as_str()) {
            sync_file(
                rt,
                directory.child(alloc, name.as_str())?.text(alloc)?.as_str(),
            )?;
        }
    }
    sync_if_there(rt, path::Path::new(directory.text(alloc)?.as_str()))
}

// The file at the path, where one is there.
fn sync_file<R: Files>(rt: &R, path: &str) -> io::Result<()> {
    match fs::symlink_metadata(rt, path) {
        Ok(metadata) if metadata.is_file() => fs::open(rt, path)?.sync_all(),
        Ok(_) => Ok(()),
        Err(error) if is_absence(&error) => Ok(()),
        Err(error) => Err(error),
    }
}

/// Waits until what stands in the area is on the disk, and that nothing stands there where nothing does.
pub fn sync_area<R: Files>(rt: &R, alloc: Global, area: &Area) -> io::Result<()> {
    match area {
        Area::Nothing => Ok(()),
        Area::Under(directory) => sync_under(rt, alloc, directory),
        Area::Names(directory, names) => sync_names(rt, alloc, directory, names.as_slice()),
    }
}
