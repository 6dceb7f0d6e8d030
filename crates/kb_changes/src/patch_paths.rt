// The paths of a patch, and the directories that come and go with them.
ghost use Rattle.std.specs.Prelude.{◌≡◌, ◌++◌, IfOk, OnOk, filter, flat_map};
ghost use Rattle.kb_world.specs.Patch as rule;
ghost use Rattle.kb_world.specs.Path.{IsPath, is_under};
ghost use Rattle.kb_changes.specs.PatchPaths.{some_patch};
ghost use Rattle.kb_changes.specs.Valid.{HoldSame};

use crate::path_set::PathSet;
use crate::roots::{root_of, root_path};
use kb_world::{Path, Roots, Sequence, Text};
use std::alloc::{AllocError, Global};

/// The paths of a patch: what a transaction takes away, and what it brings. What is put is staged
/// before, below each root in the order of the paths.
#[derive(Debug, Drop)]
pub struct PatchPaths {
    /// Files and links that go.
    pub drops: Sequence<Path>,
    /// What goes with all below it.
    pub wipes: Sequence<Path>,
    /// Directories that come of themselves. Those above what comes aren't named.
    pub dirs: Sequence<Path>,
    /// Where files and links come to stand.
    pub puts: Sequence<Path>,
}

// The directories between the base and the path with these names below it.
fn directories_to(alloc: Global, base: &Path, names: &[Text]) -> Result<Vec<Path>, AllocError>
    requires { IsPath names.now }
    ensures { IfOk result (λ made. made.items ≡ rule.directories_to base.now names.now) }
{
    let mut made = Vec::new(alloc);
    let Some((_, front)) = names.split_last() else {
        return Ok(made);
    };
    let mut directory = base.clone()?;
    for name in front {
        directory = directory.child(alloc, name.as_str())?;
        made.push(directory.clone()?)?;
    }
    Ok(made)
}

// The directories above a path, below the first of the written roots that it is in.
fn above(alloc: Global, roots: &Roots, path: &Path) -> Result<Vec<Path>, AllocError>
    ensures { IfOk result (λ made. made.items ≡ rule.above roots.now path.now) }
{
    let root = root_path(roots, root_of(roots, path));
    match path.below(root) {
        Some(names) => directories_to(alloc, root, names),
        None => Ok(Vec::new(alloc)),
    }
}

// Adds the directories above each of the paths.
fn add_above(
    alloc: Global,
    roots: &Roots,
    set: &mut PathSet,
    paths: &[Path],
) -> Result<(), AllocError>
    ensures { OnOk result
        (HoldSame set.new (flat_map (rule.above roots.now) paths.now ++ set.old)) }
{
    for path in paths {
        let directories = above(alloc, roots, path)?;
        set.add_all(&directories)?;
    }
    Ok(())
}

// Adds the directories above each of the paths that is in the dkms root.
fn add_above_in_dkms(
    alloc: Global,
    roots: &Roots,
    set: &mut PathSet,
    paths: &[Path],
) -> Result<(), AllocError>
    ensures { OnOk result (HoldSame set.new
        (flat_map (rule.above roots.now) (filter (λ path. is_under path roots.now.dkms) paths.now)
        ++ set.old)) }
{
    for path in paths {
        if path.is_under(&roots.dkms) {
            let directories = above(alloc, roots, path)?;
            set.add_all(&directories)?;
        }
    }
    Ok(())
}

/// The directories that come, each before those below it.
pub(crate) fn dirs_of(
    alloc: Global,
    roots: &Roots,
    paths: &PatchPaths,
) -> Result<Vec<Path>, AllocError>
    ensures { IfOk result
        (λ dirs. dirs.items ≡ rule.dirs_of roots.now (some_patch paths.now)) }
{
    let mut set = PathSet::new(alloc);
    add_above(alloc, roots, &mut set, paths.dirs.as_slice())?;
    add_above(alloc, roots, &mut set, paths.puts.as_slice())?;
    set.add_all(paths.dirs.as_slice())?;
    set.in_order(alloc)
}

/// The directories that go where nothing is left in them, each before those above it.
pub(crate) fn emptied_of(
    alloc: Global,
    roots: &Roots,
    paths: &PatchPaths,
) -> Result<Vec<Path>, AllocError>
    ensures { IfOk result
        (λ emptied. emptied.items ≡ rule.emptied_of roots.now (some_patch paths.now)) }
{
    let mut set = PathSet::new(alloc);
    add_above_in_dkms(alloc, roots, &mut set, paths.drops.as_slice())?;
    add_above_in_dkms(alloc, roots, &mut set, paths.wipes.as_slice())?;
    let mut emptied = set.in_order(alloc)?;
    emptied.reverse();
    Ok(emptied)
}
