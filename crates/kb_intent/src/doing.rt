// A change that is one file operation is done.
ghost use Rattle.std.specs.Prelude.{◌≡◌, None, true, false};
ghost use Rattle.std.specs.Option.{ForSome};
ghost use Rattle.kb_world.specs.Path as paths;
ghost use Rattle.kb_world.specs.Roots.{share_root};
ghost use Rattle.kb_world.specs.Steps.{tidied};
ghost use Rattle.kb_world.specs.Tree.{node_at, is_dir, is_leaf};
ghost use Rattle.kb_intent.specs.Doing.{StepsTo, made_dir_at, dropped_leaf_at, put_staged_at};

use crate::standing::{is_directory, is_free, is_leaf};
use kb_world::{Path, World, WorldError};
use std::alloc::Global;

// Makes a directory at a path where nothing stands, if it is to stand in one.
fn make_inside<W: World>(
    alloc: Global,
    world: &mut W,
    parent: &Path,
    path: &Path,
) -> Result<(), WorldError>
    requires parent { parent.now ≡ paths.parent path.now }
    requires free { ForSome (W.state world.old).tree (λ tree. node_at tree path.now ≡ None) }
    ensures { StepsTo (made_dir_at path.now) (W.state world.old) (W.state world.new) result }
{
    match is_directory(alloc, world, parent) {
        Ok(true) => world.make_dir(alloc, path),
        Ok(false) => Ok(()),
        Err(error) => Err(error),
    }
}

/// Makes a directory where nothing stands, if it is to stand in one.
pub fn make_directory<W: World>(
    alloc: Global,
    world: &mut W,
    parent: &Path,
    path: &Path,
) -> Result<(), WorldError>
    requires parent { parent.now ≡ paths.parent path.now }
    ensures { StepsTo (made_dir_at path.now) (W.state world.old) (W.state world.new) result }
{
    match is_free(alloc, world, path) {
        Ok(true) => make_inside(alloc, world, parent, path),
        Ok(false) => Ok(()),
        Err(error) => Err(error),
    }
}

/// Takes a file or a link away.
pub fn drop_leaf<W: World>(alloc: Global, world: &mut W, path: &Path) -> Result<(), WorldError>
    ensures { StepsTo (dropped_leaf_at path.now) (W.state world.old) (W.state world.new) result }
{
    match is_leaf(alloc, world, path) {
        Ok(true) => world.unlink(alloc, path),
        Ok(false) => Ok(()),
        Err(error) => Err(error),
    }
}

// Takes a directory away if it has no entries.
fn drop_if_empty<W: World>(alloc: Global, world: &mut W, path: &Path) -> Result<(), WorldError>
    requires { ForSome (W.state world.old).tree (λ tree. is_dir (node_at tree path.now) ≡ true) }
    ensures { StepsTo (tidied path.now) (W.state world.old) (W.state world.new) result }
{
    match world.list(alloc, path) {
        Ok(names) => {
            if names.is_empty() {
                world.remove_dir(alloc, path)
            } else {
                Ok(())
            }
        }
        Err(error) => Err(error),
    }
}

/// Takes a directory without entries away.
pub fn drop_directory<W: World>(alloc: Global, world: &mut W, path: &Path) -> Result<(), WorldError>
    ensures { StepsTo (tidied path.now) (W.state world.old) (W.state world.new) result }
{
    match is_directory(alloc, world, path) {
        Ok(true) => drop_if_empty(alloc, world, path),
        Ok(false) => Ok(()),
        Err(error) => Err(error),
    }
}

// Moves what is staged to a target at which no directory stands, if that is to stand in one.
fn put_inside<W: World>(
    alloc: Global,
    world: &mut W,
    staged: &Path,
    parent: &Path,
    target: &Path,
) -> Result<(), WorldError>
    requires parent { parent.now ≡ paths.parent target.now }
    requires shared { ForSome (W.state world.old).tree (λ tree. share_root (W.state world.old).roots staged.now target.now ≡ true) }
    requires staged { ForSome (W.state world.old).tree (λ tree. is_leaf (node_at tree staged.now) ≡ true) }
    requires no_directory { ForSome (W.state world.old).tree (λ tree. is_dir (node_at tree target.now) ≡ false) }
    ensures { StepsTo (put_staged_at staged.now target.now) (W.state world.old) (W.state world.new) result }
{
    match is_directory(alloc, world, parent) {
        Ok(true) => world.rename(alloc, staged, target),
        Ok(false) => Ok(()),
        Err(error) => Err(error),
    }
}

// Moves what is staged to a target, if no directory stands there.
fn put_leaf<W: World>(
    alloc: Global,
    world: &mut W,
    staged: &Path,
    parent: &Path,
    target: &Path,
) -> Result<(), WorldError>
    requires parent { parent.now ≡ paths.parent target.now }
    requires shared { ForSome (W.state world.old).tree (λ tree. share_root (W.state world.old).roots staged.now target.now ≡ true) }
    requires staged { ForSome (W.state world.old).tree (λ tree. is_leaf (node_at tree staged.now) ≡ true) }
    ensures { StepsTo (put_staged_at staged.now target.now) (W.state world.old) (W.state world.new) result }
{
    match is_directory(alloc, world, target) {
        Ok(true) => Ok(()),
        Ok(false) => put_inside(alloc, world, staged, parent, target),
        Err(error) => Err(error),
    }
}

/// Moves a staged file or link to its target, in place of nothing, a file or a link.
pub fn put_staged<W: World>(
    alloc: Global,
    world: &mut W,
    staged: &Path,
    parent: &Path,
    target: &Path,
) -> Result<(), WorldError>
    requires parent { parent.now ≡ paths.parent target.now }
    requires shared { ForSome (W.state world.old).tree (λ tree. share_root (W.state world.old).roots staged.now target.now ≡ true) }
    ensures { StepsTo (put_staged_at staged.now target.now) (W.state world.old) (W.state world.new) result }
{
    match is_leaf(alloc, world, staged) {
        Ok(true) => put_leaf(alloc, world, staged, parent, target),
        Ok(false) => Ok(()),
        Err(error) => Err(error),
    }
}
