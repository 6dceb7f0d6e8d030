// Edits of the world from outside.

use crate::error::LineError;
use crate::world_calls::SceneWorld;
use kb_world::{Bytes, Node, Path, Text, is_name};
use std::alloc::Global;

// Makes the directory of this name where nothing stands, and refuses anything else there.
fn enter(
    alloc: Global,
    world: &mut SceneWorld,
    directory: &Path,
    name: &Text,
) -> Result<Path, LineError> {
    if !is_name(name.as_str()) {
        return Err(LineError::NotAPath);
    }
    let path = directory.child(alloc, name.as_str())?;
    if !world.is_dir(&path) {
        world.put(alloc, &path, Node::Dir)?;
    }
    Ok(path)
}

// Makes the directories with these names, one in the other.
fn enter_all(alloc: Global, world: &mut SceneWorld, names: &[Text]) -> Result<Path, LineError> {
    let mut directory = Path::root(alloc);
    for name in names {
        directory = enter(alloc, world, &directory, name)?;
    }
    Ok(directory)
}

/// Puts a node at the path, with the directories above it. A file or a link takes the place of one of them; refused
/// where anything else stands there.
pub fn place(
    alloc: Global,
    world: &mut SceneWorld,
    path: &Path,
    node: Node,
) -> Result<(), LineError> {
    let [above @ .., _] = path.names() else {
        return Err(LineError::Stands);
    };
    enter_all(alloc, world, above)?;
    if !matches!(node, Node::Dir) {
        world.take_leaf(alloc, path)?;
    }
    if world.node(path).is_some() {
        return Err(LineError::Stands);
    }
    world.put(alloc, path, node)
}

/// Puts a file of so many zero bytes.
pub fn place_zeros(
    alloc: Global,
    world: &mut SceneWorld,
    path: &Path,
    count: u64,
) -> Result<(), LineError> {
    let zeros = vec![in alloc; 0u8; count as usize]?;
    let bytes = Bytes::of(alloc, &zeros)?;
    place(alloc, world, path, Node::File { bytes, exec: false })
}

// The most files that a line makes: their names have six digits.
const MOST_FILES: u64 = 999_999;

/// Puts so many empty files into a directory, which is made where nothing stands. Their names are their numbers from 1 on,
/// each of six digits.
pub fn fill(
    alloc: Global,
    world: &mut SceneWorld,
    path: &Path,
    count: u64,
) -> Result<(), LineError> {
    if count > MOST_FILES {
        return Err(LineError::NotANumber);
    }
    let directory = enter_all(alloc, world, path.names())?;
    for number in 0..count {
        let name = Text::from_string(format!(in alloc; "{:06}", number + 1)?);
        put_empty(alloc, world, &directory, &name)?;
    }
    Ok(())
}

// Puts an empty file where nothing stands.
fn put_empty(
    alloc: Global,
    world: &mut SceneWorld,
    directory: &Path,
    name: &Text,
) -> Result<(), LineError> {
    if !is_name(name.as_str()) {
        return Err(LineError::NotAPath);
    }
    let path = directory.child(alloc, name.as_str())?;
    if world.node(&path).is_some() {
        return Err(LineError::Stands);
    }
    let bytes = Bytes::new(alloc);
    world.put(alloc, &path, Node::File { bytes, exec: false })
}

/// Takes away what stands at the path: a file, a link or an empty directory.
pub fn remove(alloc: Global, world: &mut SceneWorld, path: &Path) -> Result<(), LineError> {
    match world.node(path) {
        None => Err(LineError::Absent),
        Some(Node::Dir) => world.remove_dir(alloc, path),
        Some(Node::File { .. } | Node::Link { .. }) => world.take_leaf(alloc, path),
    }
}
