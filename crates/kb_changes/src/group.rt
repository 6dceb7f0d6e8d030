// The paths of changes, by groups.
ghost use Rattle.std.specs.Prelude.{◌≡◌, IfOk, filter_map};
ghost use Rattle.std.specs.Option.{option_copied};
ghost use Rattle.kb_changes.specs.Groups as groups;
ghost use Rattle.kb_changes.specs.Valid.{HoldSame};

use crate::change::Change;
use crate::path_set::PathSet;
use crate::roots::staged_path;
use kb_world::{Path, Roots};
use std::alloc::{AllocError, Global};

/// Which paths of changes are meant: those of one kind of change.
#[derive(Clone, Copy, Debug, PartialEq, Eq)]
pub(crate) enum Group {
    Drops,
    Wipes,
    DropDirs,
    Dirs,
    Targets,
}

fn path_in(group: Group, change: &Change) -> Option<&Path>
    ensures { option_copied result ≡ groups.path_in group change.now }
{
    match (group, change) {
        (Group::Drops, Change::Drop(path)) => Some(path),
        (Group::Wipes, Change::Wipe(path)) => Some(path),
        (Group::DropDirs, Change::DropDir(path)) => Some(path),
        (Group::Dirs, Change::Dir(path)) => Some(path),
        (Group::Targets, Change::Put { target, .. }) => Some(target),
        _ => None,
    }
}

/// The paths of a group, in their order.
pub(crate) fn paths_in(
    alloc: Global,
    group: Group,
    changes: &[Change],
) -> Result<Vec<Path>, AllocError>
    ensures { IfOk result (λ paths. paths.items ≡ filter_map (groups.path_in group) changes.now) }
{
    let mut paths = Vec::new(alloc);
    for change in changes {
        if let Some(path) = path_in(group, change) {
            paths.push(path.clone()?)?;
        }
    }
    Ok(paths)
}

/// The set of a group's paths.
pub(crate) fn set_of(alloc: Global, group: Group, changes: &[Change]) -> Result<PathSet, AllocError>
    ensures { IfOk result (λ set. HoldSame set (filter_map (groups.path_in group) changes.now)) }
{
    let paths = paths_in(alloc, group, changes)?;
    PathSet::of(alloc, &paths)
}

/// The staged places that Puts move away, in their order.
pub(crate) fn staged_in(
    alloc: Global,
    roots: &Roots,
    changes: &[Change],
) -> Result<Vec<Path>, AllocError>
    ensures { IfOk result (λ paths. paths.items ≡ groups.staged_in roots.now changes.now) }
{
    let mut paths = Vec::new(alloc);
    for change in changes {
        if let Change::Put { root, number, .. } = change {
            paths.push(staged_path(alloc, roots, *root, *number)?)?;
        }
    }
    Ok(paths)
}

fn makes(change: &Change) -> bool
    ensures { result ≡ groups.makes change.now }
{
    matches!(change, Change::Dir(_) | Change::Put { .. })
}

/// The changes before the first Dir or Put, and the others.
pub(crate) fn cut_at_makes(changes: &[Change]) -> (&[Change], &[Change])
    ensures first { groups.drop_dirs_in result.0.now ≡ groups.first_drop_dirs changes.now }
    ensures second { groups.drop_dirs_in result.1.now ≡ groups.second_drop_dirs changes.now }
{
    for i in 0..changes.len() {
        if makes(&changes[i]) {
            return changes.split_at(i);
        }
    }
    changes.split_at(changes.len())
}
