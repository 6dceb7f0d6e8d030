// The changes of a patch, from its paths.
ghost use Rattle.std.specs.Prelude.{◌≡◌, [], IfOk, map};
ghost use Rattle.kb_world.specs.Patch.{Patch};
ghost use Rattle.kb_changes.specs.Changes as rule;
ghost use Rattle.kb_changes.specs.PatchPaths.{ArePathsOf, some_patch, some_puts};
ghost use Rattle.kb_changes.specs.declared.change.Change.TheVariants as change;

use crate::change::Change;
use crate::counts::Counts;
use crate::patch_paths::{PatchPaths, dirs_of, emptied_of};
use crate::path_set::PathSet;
use crate::roots::root_of;
use crate::valid::is_version_dir;
use kb_world::{Path, Roots};
use std::alloc::{AllocError, Global};

// What is dropped and not put again.
fn drops_of(alloc: Global, paths: &PatchPaths) -> Result<Vec<Path>, AllocError>
    ensures { IfOk result (λ drops. drops.items ≡ rule.drops_of (some_patch paths.now)) }
{
    let targets = PathSet::of(alloc, paths.puts.as_slice())?;
    let mut drops = Vec::new(alloc);
    for path in paths.drops.as_slice() {
        if !targets.has(path) {
            drops.push(path.clone()?)?;
        }
    }
    Ok(drops)
}

// The scratch trees of the versions whose directories are among the paths.
fn scratches(alloc: Global, roots: &Roots, paths: &[Path]) -> Result<Vec<Path>, AllocError>
    ensures { IfOk result (λ found. found.items ≡ rule.scratches roots.now paths.now) }
{
    let mut found = Vec::new(alloc);
    for path in paths {
        if is_version_dir(roots, path) {
            found.push(path.child(alloc, "build")?)?;
        }
    }
    Ok(found)
}

// A Put for each target, with the number of those before it below its root.
fn puts_to(alloc: Global, roots: &Roots, targets: &[Path]) -> Result<Vec<Change>, AllocError>
    ensures { IfOk result
        (λ puts. puts.items ≡ rule.numbered_puts roots.now [] (some_puts targets.now)) }
{
    let mut puts = Vec::new(alloc);
    let mut counts = Counts::none();
    for target in targets {
        let root = root_of(roots, target);
        puts.push(Change::Put {
            root,
            number: counts.below(root),
            target: target.clone()?,
        })?;
        counts.count(root);
    }
    Ok(puts)
}

fn as_drops(alloc: Global, paths: Vec<Path>) -> Result<Vec<Change>, AllocError>
    ensures { IfOk result (λ changes. changes.items ≡ map change.Drop paths.items) }
{
    paths.into_iter().map(Change::Drop).collect(alloc)
}

fn as_wipes(alloc: Global, paths: Vec<Path>) -> Result<Vec<Change>, AllocError>
    ensures { IfOk result (λ changes. changes.items ≡ map change.Wipe paths.items) }
{
    paths.into_iter().map(Change::Wipe).collect(alloc)
}

fn as_dirs(alloc: Global, paths: Vec<Path>) -> Result<Vec<Change>, AllocError>
    ensures { IfOk result (λ changes. changes.items ≡ map change.Dir paths.items) }
{
    paths.into_iter().map(Change::Dir).collect(alloc)
}

fn as_drop_dirs(alloc: Global, paths: Vec<Path>) -> Result<Vec<Change>, AllocError>
    ensures { IfOk result (λ changes. changes.items ≡ map change.DropDir paths.items) }
{
    paths.into_iter().map(Change::DropDir).collect(alloc)
}

/// The changes of a patch with these paths, in the order of a journal: Drops, Wipes, Dirs, Puts,
/// DropDirs. The Puts below a root are numbered from 0. The time grows as n log n.
pub fn changes_of(
    alloc: Global,
    roots: &Roots,
    paths: &PatchPaths,
) -> Result<Vec<Change>, AllocError>
    ensures { IfOk result (λ changes. (patch : Patch) → ArePathsOf patch paths.now
        → changes.items ≡ rule.changes_of roots.now patch) }
{
    let emptied = emptied_of(alloc, roots, paths)?;
    let mut wipes = paths.wipes.as_slice().to_vec(alloc)?;
    wipes.append(&mut scratches(alloc, roots, &emptied)?)?;
    let mut changes = as_drops(alloc, drops_of(alloc, paths)?)?;
    changes.append(&mut as_wipes(alloc, wipes)?)?;
    changes.append(&mut as_dirs(alloc, dirs_of(alloc, roots, paths)?)?)?;
    changes.append(&mut puts_to(alloc, roots, paths.puts.as_slice())?)?;
    changes.append(&mut as_drop_dirs(alloc, emptied)?)?;
    Ok(changes)
}
