// The order of changes, and of the paths in a group.
ghost use Rattle.std.specs.Prelude.{◌≡◌, ◌≤◌, IfOk};
ghost use Rattle.kb_changes.specs.Valid as rule;

use crate::change::Change;
use crate::group::{Group, cut_at_makes, paths_in};
use crate::path_set::PathSet;
use kb_world::Path;
use std::alloc::{AllocError, Global};

// The number of the group that a change is of, behind one of this group.
fn group_after(at: u8, change: &Change) -> u8
    ensures { result ≡ rule.group_after at change.now }
{
    match change {
        Change::Drop(_) => 0,
        Change::Wipe(_) => 1,
        Change::DropDir(_) if at <= 2 => 2,
        Change::Dir(_) => 3,
        Change::Put { .. } => 4,
        Change::DropDir(_) => 5,
        Change::Run(_) => 6,
    }
}

fn are_in_order(changes: &[Change]) -> bool
    ensures { result ≡ rule.are_in_order 0 changes.now }
{
    let mut at = 0;
    for change in changes {
        let group = group_after(at, change);
        if group < at {
            return false;
        }
        at = group;
    }
    true
}

// Whether each path stands before those above it.
fn is_deepest_first(alloc: Global, paths: &[Path]) -> Result<bool, AllocError>
    ensures { IfOk result (λ ordered. ordered ≡ rule.deepest_first paths.now) }
{
    let mut earlier = PathSet::new(alloc);
    for path in paths {
        if earlier.has_above(path)? {
            return Ok(false);
        }
        earlier.add(path)?;
    }
    Ok(true)
}

// Whether each path stands before those below it.
fn is_deepest_last(alloc: Global, mut paths: Vec<Path>) -> Result<bool, AllocError>
    ensures { IfOk result (λ ordered. ordered ≡ rule.deepest_last paths.items) }
{
    paths.reverse();
    is_deepest_first(alloc, &paths)
}

/// Whether no two paths are one.
pub(crate) fn all_differ(alloc: Global, paths: &[Path]) -> Result<bool, AllocError>
    ensures { IfOk result (λ differ. differ ≡ rule.all_differ paths.now) }
{
    let mut earlier = PathSet::new(alloc);
    for path in paths {
        if !earlier.add(path)? {
            return Ok(false);
        }
    }
    Ok(true)
}

/// Whether the changes stand in the order of their groups, and the directories in the order in which they can be made
/// and taken away.
pub(crate) fn are_ordered(alloc: Global, changes: &[Change]) -> Result<bool, AllocError>
    ensures { IfOk result (λ ordered. ordered ≡ rule.are_ordered changes.now) }
{
    let (before, behind) = cut_at_makes(changes);
    let first = paths_in(alloc, Group::DropDirs, before)?;
    let second = paths_in(alloc, Group::DropDirs, behind)?;
    let dirs = paths_in(alloc, Group::Dirs, changes)?;
    let first_ordered = is_deepest_first(alloc, &first)?;
    let second_ordered = is_deepest_first(alloc, &second)?;
    let dirs_ordered = is_deepest_last(alloc, dirs)?;
    Ok(are_in_order(changes) & first_ordered & second_ordered & dirs_ordered)
}
