// What a child program of a script answers and does.
ghost use Rattle.std.specs.Prelude.{◌≡◌, ◌&&◌, Some, map, IfOk, OnOk, OnErr};
ghost use Rattle.std.specs.List.{find, list_all, list_any};
ghost use Rattle.std.specs.Option.{option_copied};
ghost use Rattle.kb_world.specs.Path.{is_under};
ghost use Rattle.kb_world.specs.Tree.{node_at, is_dir, is_file};
ghost use Rattle.kb_world.specs.View as view;
ghost use Rattle.kb_world.specs.Script as script;
ghost use Rattle.kb_disk.specs.Stored.{stored_of, with_effects};
ghost use Rattle.kb_memory.specs.Begun.{IsBegun, edits_in};

use kb_disk::{Disk, Nodes};
use kb_world::{
    Area, Bytes, Edit, Effect, EffectRow, Node, Path, Reply, Request, Roots, is_index, is_private,
};
use std::alloc::{AllocError, Global};

// Whether the path is in a directory that the child may change.
fn is_own(area: &Area, path: &Path) -> bool
    ensures { result ≡ view.is_own area.now path.now }
{
    match area {
        Area::Under(directory) => path.is_under(directory),
        Area::Nothing | Area::Names(_, _) => false,
    }
}

fn is_under_one(path: &Path, directories: &[Path]) -> bool
    ensures { result ≡ list_any (is_under path.now) directories.now }
{
    directories.iter().any(|directory| path.is_under(directory))
}

fn sees(roots: &Roots, request: &Request, path: &Path) -> bool
    ensures { result ≡ view.sees roots.now request.now path.now }
{
    let shown = is_under_one(path, request.seen.as_slice()) && !is_private(roots, path);
    (is_own(&request.area, path) || shown) && !is_index(roots, path)
}

fn is_dir(node: &Node) -> bool
    ensures { result ≡ is_dir (Some node.now) }
{
    matches!(node, Node::Dir)
}

// The file or link that the request sees at the path.
fn seen_at<'a>(nodes: &'a Nodes, roots: &Roots, request: &Request, path: &Path) -> Option<&'a Node>
    ensures { option_copied result ≡ node_at (view.view_of roots.now request.now nodes.now) path.now }
{
    if !sees(roots, request, path) {
        return None;
    }
    match nodes.get(path) {
        Some(node) => { if is_dir(node) { None } else { Some(node) } }
        None => None,
    }
}

fn sees_file(nodes: &Nodes, roots: &Roots, request: &Request, path: &Path) -> bool
    ensures { result ≡ is_file (node_at (view.view_of roots.now request.now nodes.now) path.now) }
{
    matches!(
        seen_at(nodes, roots, request, path),
        Some(Node::File { .. })
    )
}

fn sees_files(nodes: &Nodes, roots: &Roots, request: &Request, paths: &[Path]) -> bool
    ensures { result ≡ list_all (λ path. is_file (node_at (view.view_of roots.now request.now nodes.now) path)) paths.now }
{
    paths
        .iter()
        .all(|path| sees_file(nodes, roots, request, path))
}

fn fits(nodes: &Nodes, roots: &Roots, request: &Request, row: &EffectRow) -> bool
    ensures { result ≡ script.fits request.now (view.view_of roots.now request.now nodes.now) row.now }
{
    row.program == request.program
        && row.args.as_slice() == request.args.as_slice()
        && sees_files(nodes, roots, request, row.needs.as_slice())
}

// The first row that is for the request and needs nothing that the request doesn't see.
fn find_row<'a>(
    rows: &'a [EffectRow],
    nodes: &Nodes,
    roots: &Roots,
    request: &Request,
) -> Option<&'a EffectRow>
    ensures { option_copied result ≡ find (script.fits request.now (view.view_of roots.now request.now nodes.now)) rows.now }
{
    rows.iter().find(|row| fits(nodes, roots, request, row))
}

// What the row replies; where there is none, the code of a program that isn't there.
fn reply_of(alloc: Global, row: Option<&EffectRow>) -> Result<Reply, AllocError>
    ensures { IfOk result (λ reply. reply ≡ (script.answer_of (option_copied row.entry)).reply) }
{
    match row {
        Some(row) => Ok(Reply {
            code: row.code,
            out: row.out.clone()?,
            err: row.err.clone()?,
        }),
        None => Ok(Reply {
            code: 127,
            out: Bytes::new(alloc),
            err: Bytes::new(alloc),
        }),
    }
}

// What the effect puts at a path, or takes away there. A copy of what isn't seen as a file does nothing.
fn edit_of(
    nodes: &Nodes,
    roots: &Roots,
    request: &Request,
    effect: &Effect,
) -> Result<Option<Edit>, AllocError>
    ensures { IfOk result (λ edit. edit ≡ script.edit_of (view.view_of roots.now request.now nodes.now) effect.now) }
{
    match effect {
        Effect::Write { path, bytes, exec } => Ok(Some(Edit {
            path: path.clone()?,
            at: Some(Node::File {
                bytes: bytes.clone()?,
                exec: *exec,
            }),
        })),
        Effect::Copy { from, to } => match seen_at(nodes, roots, request, from) {
            Some(Node::File { bytes, exec }) => Ok(Some(Edit {
                path: to.clone()?,
                at: Some(Node::File {
                    bytes: bytes.clone()?,
                    exec: *exec,
                }),
            })),
            _ => Ok(None),
        },
        Effect::Remove(path) => Ok(Some(Edit {
            path: path.clone()?,
            at: None,
        })),
    }
}

// What the effects put and take away, in their order.
fn edits_of_all(
    alloc: Global,
    nodes: &Nodes,
    roots: &Roots,
    request: &Request,
    effects: &[Effect],
) -> Result<Vec<Option<Edit>>, AllocError>
    ensures { IfOk result (λ edits. edits.items ≡ map (script.edit_of (view.view_of roots.now request.now nodes.now)) effects.now) }
{
    let mut edits = Vec::new(alloc);
    for effect in effects {
        edits.push(edit_of(nodes, roots, request, effect)?)?;
    }
    Ok(edits)
}

// What the row's effects put and take away, in their order, told by what the request sees before any of them is done.
fn edits_of(
    alloc: Global,
    nodes: &Nodes,
    roots: &Roots,
    request: &Request,
    row: Option<&EffectRow>,
) -> Result<Vec<Option<Edit>>, AllocError>
    ensures { IfOk result (λ edits. edits.items ≡ map (script.edit_of (view.view_of roots.now request.now nodes.now)) (script.answer_of (option_copied row.entry)).effects) }
{
    match row {
        Some(row) => edits_of_all(alloc, nodes, roots, request, row.effects.as_slice()),
        None => Ok(Vec::new(alloc)),
    }
}

/// Does what the rows say of the request, whose area the child was given, and answers its reply. An error leaves some of
/// its first effects done.
#[tactic(auto, unfolding(kb_world::specs::Script::tree_after))]
pub fn perform(
    alloc: Global,
    disk: &mut Disk,
    roots: &Roots,
    rows: &[EffectRow],
    request: &Request,
) -> Result<Reply, AllocError>
    ensures reply { IfOk result (λ reply. reply ≡ (script.answer_in roots.now rows.now request.now (stored_of disk.old).tree).reply) }
    ensures done { OnOk result (stored_of disk.new ≡ with_effects request.now.area (stored_of disk.old) (edits_in roots.now rows.now request.now (stored_of disk.old).tree)) }
    ensures cut_off { OnErr result (IsBegun roots.now rows.now request.now (stored_of disk.old) (stored_of disk.new)) }
{
    let row = find_row(rows, disk.nodes(), roots, request);
    let reply = reply_of(alloc, row)?;
    let edits = edits_of(alloc, disk.nodes(), roots, request, row)?;
    disk.edit_all(alloc, &request.area, edits)?;
    Ok(reply)
}
