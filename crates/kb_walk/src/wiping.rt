// A path is taken away with all that is below it.
ghost use Rattle.std.specs.Prelude.{◌≡◌, ◌≢◌, map, None, true};
ghost use Rattle.std.specs.Option.{ForSome};
ghost use Rattle.kb_world.specs.Tree.{node_at, without, is_dir};
ghost use Rattle.kb_world.specs.State.{Changes};
ghost use Rattle.kb_walk.specs.Walking.{paths_below, met_at};
ghost use Rattle.kb_walk.specs.Wipe.{CanWipe, TakesAway, Wipes, emptied, without_tree};

use crate::walking::{Everything, Met, walk_all};
use kb_world::{Kind, Path, World, WorldError};
use std::alloc::Global;

// Takes an entry away: a directory is empty by now.
fn wipe_entry<W: World>(alloc: Global, world: &mut W, met: &Met) -> Result<(), WorldError>
    requires { ForSome (W.state world.old).tree (λ tree. CanWipe tree met.now) }
    ensures { Changes (without met.now.path) (W.state world.old) (W.state world.new) result }
{
    match met.kind {
        Kind::Dir => world.remove_dir(alloc, &met.path),
        Kind::File { .. } | Kind::Link => world.unlink(alloc, &met.path),
        Kind::Absent => Ok(()),
    }
}

// Takes away all that a walk met below the directory, the last entry first.
fn wipe_entries<W: World>(
    alloc: Global,
    world: &mut W,
    start: &Path,
    met: &[Met],
) -> Result<(), WorldError>
    requires { ForSome (W.state world.old).tree (λ tree. met.now ≡ map (met_at tree) (paths_below tree start.now)) }
    ensures { TakesAway (emptied start.now) start.now (W.state world.old) (W.state world.new) result }
{
    for i in (0..met.len()).rev() {
        match wipe_entry(alloc, world, &met[i]) {
            Ok(()) => {}
            Err(error) => return Err(error),
        }
    }
    Ok(())
}

// Takes away a directory with all that is below it.
fn wipe_directory<W: World>(alloc: Global, world: &mut W, path: &Path) -> Result<(), WorldError>
    requires { ForSome (W.state world.old).tree (λ tree. is_dir (node_at tree path.now) ≡ true) }
    ensures { Wipes path.now (W.state world.old) (W.state world.new) result }
{
    let met = match walk_all(alloc, world, &Everything, path) {
        Ok(met) => met,
        Err(error) => return Err(error),
    };
    match wipe_entries(alloc, world, path, met.as_slice()) {
        Ok(()) => world.remove_dir(alloc, path),
        Err(error) => Err(error),
    }
}

/// Takes away what stands at the path, with all that is below it; where nothing stands it does nothing. It lists each
/// directory once, takes away what was listed from the last path up, and has no limit of its own.
pub fn wipe<W: World>(alloc: Global, world: &mut W, path: &Path) -> Result<(), WorldError>
    ensures { Wipes path.now (W.state world.old) (W.state world.new) result }
{
    match world.look(alloc, path) {
        Ok(Kind::Absent) => Ok(()),
        Ok(Kind::Dir) => wipe_directory(alloc, world, path),
        Ok(Kind::File { .. } | Kind::Link) => world.unlink(alloc, path),
        Err(error) => Err(error),
    }
}
