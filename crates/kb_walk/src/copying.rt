// A directory is copied with all that is below it.
ghost use Rattle.std.specs.Prelude.{◌≡◌, List, ℕ, Some, IfOk, IsTrue, map};
ghost use Rattle.std.specs.Option.{ForSome};
ghost use Rattle.kb_world.specs.Path.{are_apart};
ghost use Rattle.kb_world.specs.Tree.{node_at, CanMake};
ghost use Rattle.kb_world.specs.declared.tree.Node.TheVariants as node;
ghost use Rattle.kb_walk.specs.Copy.{CanCopyEntry, CanCopyTo, Copies, CopiesEntries, CopiesOne, CopiesWhole, WasCopyBegun};
ghost use Rattle.kb_walk.specs.Copy as copy;
ghost use Rattle.kb_walk.specs.Walking.{met_at, paths_below};

use crate::meeting::meet_to_copy;
use crate::walking::{Everything, Met};
use kb_world::{Kind, Path, Stop, World, WorldError};
use std::alloc::{AllocError, Global};

/// Where a path below a directory is copied to: the same names below another directory.
pub fn place_copied(alloc: Global, to: &Path, from: &Path, path: &Path) -> Result<Path, AllocError>
    ensures { IfOk result (λ place. place ≡ copy.place_copied to.now from.now path.now) }
{
    match path.names().get(from.names().len()..) {
        Some(names) => to.join(alloc, names),
        None => to.clone(),
    }
}

// Copies the file at the path.
fn copy_file<W: World>(
    alloc: Global,
    world: &mut W,
    path: &Path,
    place: &Path,
    exec: bool,
) -> Result<(), WorldError>
    requires file { ForSome (W.state world.old).tree (λ tree. (bytes : List ℕ) × (node_at tree path.now ≡ Some (node.File bytes exec))) }
    requires can_make { ForSome (W.state world.old).tree (λ tree. CanMake tree place.now) }
    ensures { CopiesOne path.now place.now (W.state world.old) (W.state world.new) result }
{
    let bytes = match world.read(alloc, path) {
        Ok(bytes) => bytes,
        Err(error) => return Err(error),
    };
    world.put(alloc, place, bytes.as_slice(), exec)
}

// Copies the link at the path.
fn copy_link<W: World>(
    alloc: Global,
    world: &mut W,
    path: &Path,
    place: &Path,
) -> Result<(), WorldError>
    requires link { ForSome (W.state world.old).tree (λ tree. (text : List ℕ) × (node_at tree path.now ≡ Some (node.Link text))) }
    requires can_make { ForSome (W.state world.old).tree (λ tree. CanMake tree place.now) }
    ensures { CopiesOne path.now place.now (W.state world.old) (W.state world.new) result }
{
    let text = match world.read_link(alloc, path) {
        Ok(text) => text,
        Err(error) => return Err(error),
    };
    world.put_link(alloc, place, text.as_str())
}

// Copies an entry to its place. A directory is made there, with nothing in it.
fn copy_entry<W: World>(
    alloc: Global,
    world: &mut W,
    from: &Path,
    to: &Path,
    met: &Met,
) -> Result<(), WorldError>
    requires { ForSome (W.state world.old).tree (λ tree. CanCopyEntry from.now to.now tree met.now) }
    ensures { CopiesOne met.now.path (copy.place_copied to.now from.now met.now.path) (W.state world.old) (W.state world.new) result }
{
    let place = match place_copied(alloc, to, from, &met.path) {
        Ok(place) => place,
        Err(_) => return Err(WorldError::NoMemory),
    };
    match met.kind {
        Kind::Dir => world.make_dir(alloc, &place),
        Kind::File { exec, .. } => copy_file(alloc, world, &met.path, &place, exec),
        Kind::Link => copy_link(alloc, world, &met.path, &place),
        Kind::Absent => Ok(()),
    }
}

// Copies the entries that were met, each directory before what is in it.
fn copy_entries<W: World>(
    alloc: Global,
    world: &mut W,
    from: &Path,
    to: &Path,
    met: &[Met],
) -> Result<(), WorldError>
    requires apart { IsTrue (are_apart from.now to.now) }
    requires begun { ForSome (W.state world.old).tree (WasCopyBegun from.now to.now met.now) }
    ensures { CopiesEntries from.now to.now met.now (W.state world.old) (W.state world.new) result }
{
    for entry in met {
        match copy_entry(alloc, world, from, to, entry) {
            Ok(()) => {}
            Err(error) => return Err(error),
        }
    }
    Ok(())
}

// Makes the copy, and copies the entries that were met into it.
fn copy_met<W: World>(
    alloc: Global,
    world: &mut W,
    from: &Path,
    to: &Path,
    met: &[Met],
) -> Result<(), WorldError>
    requires apart { IsTrue (are_apart from.now to.now) }
    requires can { ForSome (W.state world.old).tree (CanCopyTo from.now to.now) }
    requires met { ForSome (W.state world.old).tree (λ tree. met.now ≡ map (met_at tree) (paths_below tree from.now)) }
    ensures { CopiesWhole from.now to.now (W.state world.old) (W.state world.new) result }
{
    match world.make_dir(alloc, to) {
        Ok(()) => copy_entries(alloc, world, from, to, met),
        Err(error) => Err(error),
    }
}

/// Copies a directory with all that is below it, to where nothing stands: files with their execute bit, links and
/// directories, in the order of paths. Refused, before anything is copied, where there is more below it than a walk may
/// meet, and at the first file that is too large. Where a call of the world fails, or memory runs out, what was copied
/// stays.
pub fn copy_tree<W: World>(alloc: Global, world: &mut W, from: &Path, to: &Path) -> Result<(), Stop>
    requires apart { IsTrue (are_apart from.now to.now) }
    requires can { ForSome (W.state world.old).tree (CanCopyTo from.now to.now) }
    ensures { Copies from.now to.now (W.state world.old) (W.state world.new) result }
{
    let met = match meet_to_copy(alloc, world, &Everything, from) {
        Ok(met) => met,
        Err(stop) => return Err(stop),
    };
    match copy_met(alloc, world, from, to, met.as_slice()) {
        Ok(()) => Ok(()),
        Err(error) => Err(error.into()),
    }
}
