// When changes are valid.
ghost use Rattle.std.specs.Prelude.{◌≡◌, ◌&&◌, IfOk};
ghost use Rattle.std.specs.List.{list_all};
ghost use Rattle.kb_changes.specs.Valid as rule;
ghost use Rattle.kb_changes.specs.Groups as groups;

use crate::change::Change;
use crate::group::{Group, cut_at_makes, paths_in, set_of, staged_in};
use crate::ordered::{all_differ, are_ordered};
use crate::path_set::PathSet;
use crate::placed::are_well_placed;
use crate::runs::are_fit;
use kb_world::{Path, Roots, Text, is_version, is_word};
use std::alloc::{AllocError, Global};

// Whether none of the paths is one of the others.
fn none_among(others: &PathSet, paths: &[Path]) -> bool
    ensures { result ≡ rule.none_among others.now paths.now }
{
    paths.iter().all(|path| !others.has(path))
}

// Whether none of the paths is at or under one of the directories.
fn none_under(directories: &PathSet, paths: &[Path]) -> Result<bool, AllocError>
    ensures { IfOk result (λ none. none ≡ rule.none_under directories.now paths.now) }
{
    for path in paths {
        if directories.has_at_or_above(path)? {
            return Ok(false);
        }
    }
    Ok(true)
}

// Whether none of the paths is below one of the directories.
fn none_below(directories: &PathSet, paths: &[Path]) -> Result<bool, AllocError>
    ensures { IfOk result (λ none. none ≡ rule.none_below directories.now paths.now) }
{
    for path in paths {
        if directories.has_above(path)? {
            return Ok(false);
        }
    }
    Ok(true)
}

fn are_version_names(names: &[Text]) -> bool
    ensures { result ≡ rule.are_version_names names.now }
{
    match names {
        [word, version] => is_word(word.as_str()) && is_version(version.as_str()),
        _ => false,
    }
}

/// Whether the path is the directory of a package's version.
pub(crate) fn is_version_dir(roots: &Roots, path: &Path) -> bool
    ensures { result ≡ rule.is_version_dir roots.now path.now }
{
    match path.below(&roots.dkms) {
        Some(names) => are_version_names(names),
        None => false,
    }
}

// Whether, of each version's directory among the paths, the scratch tree is wiped.
fn are_scratches_wiped(
    alloc: Global,
    roots: &Roots,
    wipes: &PathSet,
    paths: &[Path],
) -> Result<bool, AllocError>
    ensures { IfOk result (λ wiped. wiped ≡ list_all (rule.is_scratch_wiped roots.now wipes.now) paths.now) }
{
    for path in paths {
        if is_version_dir(roots, path) && !wipes.has(&path.child(alloc, "build")?) {
            return Ok(false);
        }
    }
    Ok(true)
}

// Whether no target is taken away.
fn are_targets_spared(
    alloc: Global,
    changes: &[Change],
    targets: &[Path],
) -> Result<bool, AllocError>
    ensures { IfOk result (λ spared. spared ≡ (rule.none_under (groups.wipes_in changes.now) targets.now
        && rule.none_among (groups.drops_in changes.now) targets.now && rule.none_among (groups.second_drop_dirs changes.now) targets.now)) }
{
    let (_, behind) = cut_at_makes(changes);
    let wipes = set_of(alloc, Group::Wipes, changes)?;
    let drops = set_of(alloc, Group::Drops, changes)?;
    let second = set_of(alloc, Group::DropDirs, behind)?;
    let unwiped = none_under(&wipes, targets)?;
    Ok(unwiped & none_among(&drops, targets) & none_among(&second, targets))
}

// Whether no target is taken away, and none is put twice, nor a staged place.
fn are_targets_kept(alloc: Global, roots: &Roots, changes: &[Change]) -> Result<bool, AllocError>
    ensures { IfOk result (λ kept. kept ≡ rule.are_targets_kept roots.now changes.now) }
{
    let targets = paths_in(alloc, Group::Targets, changes)?;
    let staged = staged_in(alloc, roots, changes)?;
    let spared = are_targets_spared(alloc, changes, &targets)?;
    let targets_differ = all_differ(alloc, &targets)?;
    let staged_differ = all_differ(alloc, &staged)?;
    Ok(spared & targets_differ & staged_differ)
}

// Whether no second DropDir is below a first one.
fn are_second_apart(alloc: Global, changes: &[Change]) -> Result<bool, AllocError>
    ensures { IfOk result (λ apart. apart ≡ rule.none_below (groups.first_drop_dirs changes.now) (groups.second_drop_dirs changes.now)) }
{
    let (before, behind) = cut_at_makes(changes);
    let first = set_of(alloc, Group::DropDirs, before)?;
    let second = paths_in(alloc, Group::DropDirs, behind)?;
    none_below(&first, &second)
}

// Whether no Dir is wiped, no second DropDir is below a first one, and a version's directory goes only with its scratch
// tree.
fn are_dirs_kept(alloc: Global, roots: &Roots, changes: &[Change]) -> Result<bool, AllocError>
    ensures { IfOk result (λ kept. kept ≡ rule.are_dirs_kept roots.now changes.now) }
{
    let wipes = set_of(alloc, Group::Wipes, changes)?;
    let dirs = paths_in(alloc, Group::Dirs, changes)?;
    let drop_dirs = paths_in(alloc, Group::DropDirs, changes)?;
    let unwiped = none_under(&wipes, &dirs)?;
    let apart = are_second_apart(alloc, changes)?;
    let scratches_wiped = are_scratches_wiped(alloc, roots, &wipes, &drop_dirs)?;
    Ok(unwiped & apart & scratches_wiped)
}

fn are_fit_runs(alloc: Global, roots: &Roots, changes: &[Change]) -> Result<bool, AllocError>
    ensures { IfOk result (λ fit. fit ≡ rule.are_fit_runs roots.now changes.now) }
{
    let drops = set_of(alloc, Group::Drops, changes)?;
    are_fit(alloc, roots, &drops, changes)
}

/// Whether the changes are valid under the roots. The time grows as n log n.
pub fn is_valid(alloc: Global, roots: &Roots, changes: &[Change]) -> Result<bool, AllocError>
    ensures { IfOk result (λ valid. valid ≡ rule.is_valid roots.now changes.now) }
{
    let ordered = are_ordered(alloc, changes)?;
    let targets_kept = are_targets_kept(alloc, roots, changes)?;
    let dirs_kept = are_dirs_kept(alloc, roots, changes)?;
    let fit = are_fit_runs(alloc, roots, changes)?;
    Ok(ordered & targets_kept & dirs_kept & are_well_placed(roots, changes) & fit)
}
