// What is printed of a world: its tree and its requests.

use crate::error::LineError;
use crate::text::{Page, Place};
use crate::world_calls::SceneWorld;
use kb_world::{Area, Node, Path, Request, Roots, Text, is_index, is_name};
use std::alloc::{AllocError, Global};

/// Adds a path that is a line's last field.
pub fn print_path(
    alloc: Global,
    page: &mut Page,
    front: &str,
    path: &Path,
) -> Result<(), AllocError> {
    page.line(alloc, front, path.text(alloc)?.as_str().as_bytes())
}

// Adds a path, and behind it the last field.
fn print_node_line(
    alloc: Global,
    page: &mut Page,
    front: &str,
    path: &Path,
    last: &[u8],
) -> Result<(), AllocError> {
    page.plain(front)?;
    page.escaped(alloc, path.text(alloc)?.as_str().as_bytes(), Place::Field)?;
    page.line(alloc, " ", last)
}

// Adds the line that would make the node.
fn print_node(alloc: Global, page: &mut Page, path: &Path, node: &Node) -> Result<(), AllocError> {
    match node {
        Node::Dir => print_path(alloc, page, "dir ", path),
        Node::File { bytes, exec } => {
            let front = if *exec { "exec " } else { "file " };
            print_node_line(alloc, page, front, path, bytes.as_slice())
        }
        Node::Link { text } => {
            print_node_line(alloc, page, "link ", path, text.as_str().as_bytes())
        }
    }
}

// The entries of a directory, the last first; none where no directory stands.
fn push_entries(
    alloc: Global,
    world: &mut SceneWorld,
    directory: &Path,
    waiting: &mut Vec<Path>,
) -> Result<(), LineError> {
    let names = world.names(alloc, directory)?;
    for name in names.iter().rev() {
        if is_name(name.as_str()) {
            waiting.push(directory.child(alloc, name.as_str())?)?;
        }
    }
    Ok(())
}

/// Adds what stands at and below the path, in the order of paths.
pub fn print_tree(
    alloc: Global,
    world: &mut SceneWorld,
    start: Path,
    page: &mut Page,
) -> Result<(), LineError> {
    let mut waiting = Vec::new(alloc);
    waiting.push(start)?;
    for _ in 0..u64::MAX {
        let Some(path) = waiting.pop() else {
            break;
        };
        if let Some(node) = world.node(&path) {
            print_node(alloc, page, &path, node)?;
        }
        push_entries(alloc, world, &path, &mut waiting)?;
    }
    Ok(())
}

fn print_area(alloc: Global, page: &mut Page, area: &Area) -> Result<(), AllocError> {
    match area {
        Area::Nothing => page.plain(" area nothing\n"),
        Area::Under(path) => print_path(alloc, page, " area under ", path),
        Area::Names(path, names) => {
            page.plain(" area names ")?;
            page.escaped(alloc, path.text(alloc)?.as_str().as_bytes(), Place::Field)?;
            for name in names.as_slice() {
                page.word(alloc, name.as_str())?;
            }
            page.plain("\n")
        }
    }
}

fn print_variable(
    alloc: Global,
    page: &mut Page,
    name: &Text,
    value: &Text,
) -> Result<(), AllocError> {
    let variable = format!(in alloc; "{name}={value}")?;
    page.line(alloc, " env ", variable.as_bytes())
}

/// Adds a request behind its first word.
pub fn print_request(
    alloc: Global,
    page: &mut Page,
    first: &str,
    request: &Request,
) -> Result<(), AllocError> {
    page.plain(first)?;
    page.word(alloc, request.program.as_str())?;
    for word in request.args.as_slice() {
        page.word(alloc, word.as_str())?;
    }
    page.plain("\n")?;
    print_path(alloc, page, " dir ", &request.dir)?;
    print_area(alloc, page, &request.area)?;
    for (name, value) in request.env.as_slice() {
        print_variable(alloc, page, name, value)?;
    }
    for path in request.seen.as_slice() {
        print_path(alloc, page, " seen ", path)?;
    }
    Ok(())
}

/// Adds whether the path is that of an index file.
pub fn print_index(page: &mut Page, roots: &Roots, path: &Path) -> Result<(), AllocError> {
    page.plain(if is_index(roots, path) {
        "index\n"
    } else {
        "no\n"
    })
}

/// Adds the requests behind the first so many, and answers how many there are.
pub fn print_requests(
    alloc: Global,
    world: &SceneWorld,
    told: usize,
    page: &mut Page,
) -> Result<usize, AllocError> {
    for request in world.requests().iter().skip(told) {
        print_request(alloc, page, "ran", request)?;
    }
    Ok(world.requests().len())
}
