// What ends a transaction whose journal stands.
ghost use Rattle.std.specs.Prelude.{◌≡◌, ◌∷◌, [], true, IfOk};
ghost use Rattle.std.specs.Option.{ForSome};
ghost use Rattle.kb_world.specs.Public.{intent_path, staging_path};
ghost use Rattle.kb_world.specs.Roots.{AreApart};
ghost use Rattle.kb_world.specs.State.{Changes};
ghost use Rattle.kb_world.specs.Tree.{node_at, without, is_leaf};
ghost use Rattle.kb_changes.specs.declared.change.Intent.{Intent};
ghost use Rattle.kb_again.specs.Sparing.{areas_of};
ghost use Rattle.kb_again.specs.Within.{staging_paths};
ghost use Rattle.kb_walk.specs.Wipe.{Wipes};
ghost use Rattle.kb_intent.specs.Clearing.{SettlesAll, TakesAllAway};
ghost use Rattle.kb_intent.specs.Finish.{HasJournal, EndsTransaction};

use crate::changing::{Ran, do_changes};
use kb_changes::Change;
use kb_walk::wipe;
use kb_world::{Path, Roots, World, WorldError};
use std::alloc::{AllocError, Global};

/// Where the journal stands.
pub(crate) fn journal_path(alloc: Global, roots: &Roots) -> Result<Path, AllocError>
    ensures { IfOk result (λ path. path ≡ intent_path roots.now) }
{
    roots.dkms.child(alloc, ".intent")
}

// Settles the area of a run.
fn settle_run<W: World>(alloc: Global, world: &mut W, change: &Change) -> Result<(), WorldError>
    ensures { SettlesAll (areas_of (change.now ∷ [])) (W.state world.old) (W.state world.new)
        result }
{
    match change {
        Change::Run(request) => world.settle(alloc, &request.area),
        _ => Ok(()),
    }
}

// Settles the areas of all runs.
fn settle_all<W: World>(alloc: Global, world: &mut W, changes: &[Change]) -> Result<(), WorldError>
    ensures { SettlesAll (areas_of changes.now) (W.state world.old) (W.state world.new) result }
{
    for change in changes {
        match settle_run(alloc, world, change) {
            Ok(()) => {}
            Err(error) => return Err(error),
        }
    }
    Ok(())
}

// Takes away what is staged below a root.
fn unstage_root<W: World>(alloc: Global, world: &mut W, root: &Path) -> Result<(), WorldError>
    ensures { Wipes (staging_path root.now) (W.state world.old) (W.state world.new) result }
{
    match root.child(alloc, ".kb-staged") {
        Ok(path) => wipe(alloc, world, &path),
        Err(_) => Err(WorldError::NoMemory),
    }
}

// Takes away what is staged below two roots.
fn unstage_both<W: World>(
    alloc: Global,
    world: &mut W,
    first: &Path,
    second: &Path,
) -> Result<(), WorldError>
    ensures { TakesAllAway (staging_path first.now ∷ staging_path second.now ∷ [])
        (W.state world.old) (W.state world.new) result }
{
    match unstage_root(alloc, world, first) {
        Ok(()) => unstage_root(alloc, world, second),
        Err(error) => Err(error),
    }
}

// Takes away what is staged.
fn unstage<W: World>(alloc: Global, world: &mut W, roots: &Roots) -> Result<(), WorldError>
    ensures { TakesAllAway (staging_paths roots.now) (W.state world.old) (W.state world.new)
        result }
{
    match unstage_both(alloc, world, &roots.dkms, &roots.src) {
        Ok(()) => unstage_both(alloc, world, &roots.modules, &roots.boot),
        Err(error) => Err(error),
    }
}

// Takes the journal away.
fn drop_journal<W: World>(alloc: Global, world: &mut W, roots: &Roots) -> Result<(), WorldError>
    requires { ForSome (W.state world.old).tree (λ tree.
        is_leaf (node_at tree (intent_path roots.now)) ≡ true) }
    ensures { Changes (without (intent_path roots.now)) (W.state world.old) (W.state world.new)
        result }
{
    match journal_path(alloc, roots) {
        Ok(path) => world.unlink(alloc, &path),
        Err(_) => Err(WorldError::NoMemory),
    }
}

/// Does what is left of a transaction whose journal stands: its changes are done, what its children
/// left is settled, what is staged goes, and the journal goes last.
pub(crate) fn finish<W: World>(
    alloc: Global,
    world: &mut W,
    roots: &Roots,
    changes: &[Change],
) -> Result<Ran, WorldError>
    requires rooted { ForSome (W.state world.old).tree (λ tree.
        (W.state world.old).roots ≡ roots.now) }
    requires apart { AreApart roots.now }
    requires journal { ForSome (W.state world.old).tree (λ tree. (intent : Intent)
        × HasJournal roots.now intent tree × (intent.changes ≡ changes.now)) }
    ensures { EndsTransaction roots.now changes.now (W.state world.old) (W.state world.new) result }
{
    let ran = match do_changes(alloc, world, roots, changes) {
        Ok(ran) => ran,
        Err(error) => return Err(error),
    };
    match settle_all(alloc, world, changes) {
        Ok(()) => {}
        Err(error) => return Err(error),
    }
    match unstage(alloc, world, roots) {
        Ok(()) => {}
        Err(error) => return Err(error),
    }
    match drop_journal(alloc, world, roots) {
        Ok(()) => Ok(ran),
        Err(error) => Err(error),
    }
}
