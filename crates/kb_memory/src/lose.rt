// What a crash leaves of a disk, by a choice.
ghost use Rattle.std.specs.Prelude.{◌≡◌, ◌≤◌, ◌^◌, length, IfOk, OnOk, IsTrue};
ghost use Rattle.std.specs.List.{list_any, slice_get};
ghost use Rattle.std.specs.Option.{option_copied};
ghost use Rattle.kb_world.specs.Script.{can_edit};
ghost use Rattle.kb_world.specs.Tree.{node_at};
ghost use Rattle.kb_disk.specs.Stored.{stored_of};
ghost use Rattle.kb_memory.specs.Lost.{effects_of, changed_path, copied_path, named_path, file_by, lost_node, can_lose, lost};

use kb_disk::{Disk, Nodes};
use kb_world::{Area, Effect, EffectRow, Node, Path};
use std::alloc::{AllocError, Global};

/// Whether the rows have so few effects that a choice can name each: at most 2^31.
pub fn has_few_effects(rows: &[EffectRow]) -> bool
    ensures { IsTrue result → length (effects_of rows.now) ≤ 2 ^ 31 }
{
    let mut left: u64 = 1 << 31;
    for row in rows {
        let count = row.effects.as_slice().len() as u64;
        if count > left {
            return false;
        }
        left -= count;
    }
    true
}

// The effect of the rows with this number.
fn effect_at(rows: &[EffectRow], number: u64) -> Option<&Effect>
    ensures { option_copied result ≡ slice_get (effects_of rows.now) number }
{
    let mut left = number;
    for row in rows {
        let effects = row.effects.as_slice();
        if left < effects.len() as u64 {
            return effects.get(left as usize);
        }
        left -= effects.len() as u64;
    }
    None
}

fn changed_path(effect: &Effect) -> &Path
    ensures { result.now ≡ changed_path effect.now }
{
    match effect {
        Effect::Write { path, .. } => path,
        Effect::Copy { to, .. } => to,
        Effect::Remove(path) => path,
    }
}

fn copied_path(effect: &Effect) -> &Path
    ensures { result.now ≡ copied_path effect.now }
{
    match effect {
        Effect::Write { path, .. } => path,
        Effect::Copy { from, .. } => from,
        Effect::Remove(path) => path,
    }
}

// The path that the number names, each effect counting twice.
fn named_path(rows: &[EffectRow], number: u64) -> Option<&Path>
    ensures { option_copied result ≡ named_path rows.now number }
{
    match effect_at(rows, number / 2) {
        Some(effect) => Some(if number % 2 == 0 {
            changed_path(effect)
        } else {
            copied_path(effect)
        }),
        None => None,
    }
}

fn copy_of(node: Option<&Node>) -> Result<Option<Node>, AllocError>
    ensures { IfOk result (λ made. made ≡ option_copied node.entry) }
{
    match node {
        Some(node) => Ok(Some(node.clone()?)),
        None => Ok(None),
    }
}

// The file that the effect writes, if it writes one; else what stood there.
fn file_by(effect: Option<&Effect>, was: Option<&Node>) -> Result<Option<Node>, AllocError>
    ensures { IfOk result (λ made. made ≡ file_by (option_copied effect.entry) (option_copied was.entry)) }
{
    match effect {
        Some(Effect::Write { bytes, exec, .. }) => Ok(Some(Node::File {
            bytes: bytes.clone()?,
            exec: *exec,
        })),
        Some(Effect::Copy { .. }) | Some(Effect::Remove(_)) | None => copy_of(was),
    }
}

// What is at a path after the crash, where this stood there.
fn lost_node(
    rows: &[EffectRow],
    content: u64,
    was: Option<&Node>,
) -> Result<Option<Node>, AllocError>
    ensures { IfOk result (λ made. made ≡ lost_node rows.now content (option_copied was.entry)) }
{
    match content {
        0 => copy_of(was),
        1 => Ok(None),
        _ => file_by(effect_at(rows, content - 2), was),
    }
}

// Whether something may be lost at the path.
fn can_lose(nodes: &Nodes, soft: &[Area], path: &Path) -> Result<bool, AllocError>
    ensures { IfOk result (λ can. can ≡ can_lose soft.now nodes.now path.now) }
{
    for area in soft {
        if nodes.can_edit(area, path)? {
            return Ok(true);
        }
    }
    Ok(false)
}

/// Leaves what a crash now leaves by the choice.
pub fn lose_in(
    alloc: Global,
    disk: &mut Disk,
    rows: &[EffectRow],
    choice: u64,
) -> Result<(), AllocError>
    ensures { OnOk result ((stored_of disk.new).tree ≡ lost rows.now (stored_of disk.old).history.soft choice (stored_of disk.old).tree) }
{
    let path = match named_path(rows, choice % (1 << 32)) {
        Some(path) => path,
        None => return Ok(()),
    };
    if can_lose(disk.nodes(), disk.soft(), path)? {
        let left = lost_node(rows, choice / (1 << 32), disk.nodes().get(path))?;
        disk.edit(alloc, path, left)?;
    }
    Ok(())
}
