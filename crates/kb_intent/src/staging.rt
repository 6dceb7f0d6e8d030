// What is staged is put in its place, and taken away with its directory.
ghost use Rattle.std.specs.Prelude.{◌≡◌, IfOk};
ghost use Rattle.std.specs.List.{list_any};
ghost use Rattle.std.specs.Option.{ForSome};
ghost use Rattle.kb_world.specs.Patch.{all_wiped};
ghost use Rattle.kb_world.specs.Path as paths;
ghost use Rattle.kb_world.specs.Tree.{with_node, CanMake};
ghost use Rattle.kb_intent.specs.Doing.{StepsTo, made_dir_at};
ghost use Rattle.kb_intent.specs.Staging.{ChangesBut, CanPutInside, staged_node, put_inside};
ghost use Rattle.kb_intent.specs.Txn as rule;

use crate::doing::make_directory;
use kb_walk::wipe;
use kb_world::{Path, Roots, World, WorldError};
use std::alloc::{AllocError, Global};

/// What is staged: a file of these bytes, or a link with this text.
#[derive(Clone, Copy)]
pub(crate) enum Content<'a> {
    File { bytes: &'a [u8], exec: bool },
    Link { text: &'a str },
}

// Makes the directory that the path is to stand in, where nothing stands there and it is itself to
// stand in one.
fn make_parent<W: World>(alloc: Global, world: &mut W, path: &Path) -> Result<(), WorldError>
    ensures { StepsTo (made_dir_at (paths.parent path.now)) (W.state world.old)
        (W.state world.new) result }
{
    let directory = match path.parent() {
        Ok(directory) => directory,
        Err(_) => return Err(WorldError::NoMemory),
    };
    match directory.parent() {
        Ok(above) => make_directory(alloc, world, &above, &directory),
        Err(_) => Err(WorldError::NoMemory),
    }
}

// Puts it at a path where nothing stands, in a directory.
fn put_content<W: World>(
    alloc: Global,
    world: &mut W,
    path: &Path,
    content: &Content<'_>,
) -> Result<(), WorldError>
    requires { ForSome (W.state world.old).tree (λ tree. CanMake tree path.now) }
    ensures { ChangesBut (λ q. paths.is_under q path.now)
        (with_node path.now (staged_node content.now)) (W.state world.old) (W.state world.new) result }
{
    match content {
        Content::File { bytes, exec } => world.put(alloc, path, bytes, *exec),
        Content::Link { text } => world.put_link(alloc, path, text),
    }
}

/// Puts it at a path where nothing stands. The directory there is made first, where nothing stands
/// at its path.
pub(crate) fn put_staged_content<W: World>(
    alloc: Global,
    world: &mut W,
    path: &Path,
    content: &Content<'_>,
) -> Result<(), WorldError>
    requires { ForSome (W.state world.old).tree (λ tree. CanPutInside tree path.now) }
    ensures { ChangesBut (λ q. paths.is_under q (paths.parent path.now))
        (put_inside path.now (staged_node content.now)) (W.state world.old) (W.state world.new) result }
{
    match make_parent(alloc, world, path) {
        Ok(()) => put_content(alloc, world, path, content),
        Err(error) => Err(error),
    }
}

/// What a transaction that wasn't committed may have left: the journal that was begun, and the
/// staging directories.
pub(crate) fn left_places(alloc: Global, roots: &Roots) -> Result<Vec<Path>, AllocError>
    ensures { IfOk result (λ places. places.items ≡ rule.left_places roots.now) }
{
    Ok(vec![in alloc;
        roots.dkms.child(alloc, ".intent.new")?,
        roots.dkms.child(alloc, ".kb-staged")?,
        roots.src.child(alloc, ".kb-staged")?,
        roots.modules.child(alloc, ".kb-staged")?,
        roots.boot.child(alloc, ".kb-staged")?,
    ]?)
}

/// Takes away what stands at these paths, with all that is below them.
pub(crate) fn wipe_each<W: World>(
    alloc: Global,
    world: &mut W,
    places: &[Path],
) -> Result<(), WorldError>
    ensures { ChangesBut (λ q. list_any (paths.is_under q) places.now) (all_wiped places.now)
        (W.state world.old) (W.state world.new) result }
{
    for place in places {
        match wipe(alloc, world, place) {
            Ok(()) => {}
            Err(error) => return Err(error),
        }
    }
    Ok(())
}
