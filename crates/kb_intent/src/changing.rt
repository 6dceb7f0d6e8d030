// Any change of a transaction is done.
ghost use Rattle.std.specs.Prelude.{◌≡◌, ◌++◌, true, OnOk};
ghost use Rattle.std.specs.Option.{ForSome};
ghost use Rattle.kb_world.specs.Roots.{share_root};
ghost use Rattle.kb_changes.specs.Valid.{are_well_placed, is_well_placed};
ghost use Rattle.kb_changes.specs.declared.change.Change.TheVariants as changes;
ghost use Rattle.kb_world.specs.Tree.{node_at, is_dir};
ghost use Rattle.kb_intent.specs.Doing.{StepsTo, DoesChange, DoesChanges, put_staged_at, said_by, asked_by};

use crate::doing::{drop_directory, drop_leaf, make_directory, put_staged};
use crate::standing::is_directory;
use kb_changes::{Change, RootName, staged_path};
use kb_walk::wipe;
use kb_world::{Path, Reply, Request, Roots, Sequence, World, WorldError};
use std::alloc::{AllocError, Global};

fn do_dir<W: World>(
    alloc: Global,
    world: &mut W,
    roots: &Roots,
    path: &Path,
) -> Result<Option<Reply>, WorldError>
    ensures { DoesChange roots.now (changes.Dir path.now) (W.state world.old) (W.state world.new) result }
{
    let parent = match path.parent() {
        Ok(parent) => parent,
        Err(_) => return Err(WorldError::NoMemory),
    };
    match make_directory(alloc, world, &parent, path) {
        Ok(()) => Ok(None),
        Err(error) => Err(error),
    }
}

fn do_drop<W: World>(
    alloc: Global,
    world: &mut W,
    roots: &Roots,
    path: &Path,
) -> Result<Option<Reply>, WorldError>
    ensures { DoesChange roots.now (changes.Drop path.now) (W.state world.old) (W.state world.new) result }
{
    match drop_leaf(alloc, world, path) {
        Ok(()) => Ok(None),
        Err(error) => Err(error),
    }
}

fn do_drop_dir<W: World>(
    alloc: Global,
    world: &mut W,
    roots: &Roots,
    path: &Path,
) -> Result<Option<Reply>, WorldError>
    ensures { DoesChange roots.now (changes.DropDir path.now) (W.state world.old) (W.state world.new) result }
{
    match drop_directory(alloc, world, path) {
        Ok(()) => Ok(None),
        Err(error) => Err(error),
    }
}

fn do_wipe<W: World>(
    alloc: Global,
    world: &mut W,
    roots: &Roots,
    path: &Path,
) -> Result<Option<Reply>, WorldError>
    ensures { DoesChange roots.now (changes.Wipe path.now) (W.state world.old) (W.state world.new) result }
{
    match wipe(alloc, world, path) {
        Ok(()) => Ok(None),
        Err(error) => Err(error),
    }
}

// Moves what is staged at the path to the target.
fn put_from<W: World>(
    alloc: Global,
    world: &mut W,
    staged: &Path,
    target: &Path,
) -> Result<(), WorldError>
    requires { ForSome (W.state world.old).tree (λ tree. share_root (W.state world.old).roots staged.now target.now ≡ true) }
    ensures { StepsTo (put_staged_at staged.now target.now) (W.state world.old) (W.state world.new) result }
{
    match target.parent() {
        Ok(parent) => put_staged(alloc, world, staged, &parent, target),
        Err(_) => Err(WorldError::NoMemory),
    }
}

fn do_put<W: World>(
    alloc: Global,
    world: &mut W,
    roots: &Roots,
    root: RootName,
    number: u64,
    target: &Path,
) -> Result<Option<Reply>, WorldError>
    requires rooted { ForSome (W.state world.old).tree (λ tree. (W.state world.old).roots ≡ roots.now) }
    requires placed { ForSome (W.state world.old).tree (λ tree.
        is_well_placed roots.now (changes.Put root number target.now) ≡ true) }
    ensures { DoesChange roots.now (changes.Put root number target.now) (W.state world.old) (W.state world.new) result }
{
    let staged = match staged_path(alloc, roots, root, number) {
        Ok(staged) => staged,
        Err(_) => return Err(WorldError::NoMemory),
    };
    match put_from(alloc, world, &staged, target) {
        Ok(()) => Ok(None),
        Err(error) => Err(error),
    }
}

// Runs the request in its directory.
fn run_there<W: World>(
    alloc: Global,
    world: &mut W,
    roots: &Roots,
    request: &Request,
) -> Result<Option<Reply>, WorldError>
    requires rooted { ForSome (W.state world.old).tree (λ tree. (W.state world.old).roots ≡ roots.now) }
    requires there { ForSome (W.state world.old).tree (λ tree. is_dir (node_at tree request.now.dir) ≡ true) }
    ensures { DoesChange roots.now (changes.Run request.now) (W.state world.old) (W.state world.new) result }
{
    match world.run(alloc, request) {
        Ok(reply) => Ok(Some(reply)),
        Err(error) => Err(error),
    }
}

fn do_run<W: World>(
    alloc: Global,
    world: &mut W,
    roots: &Roots,
    request: &Request,
) -> Result<Option<Reply>, WorldError>
    requires rooted { ForSome (W.state world.old).tree (λ tree. (W.state world.old).roots ≡ roots.now) }
    ensures { DoesChange roots.now (changes.Run request.now) (W.state world.old) (W.state world.new) result }
{
    match is_directory(alloc, world, &request.dir) {
        Ok(true) => run_there(alloc, world, roots, request),
        Ok(false) => Ok(None),
        Err(error) => Err(error),
    }
}

/// Does a change of a transaction; it does nothing where the call of the world that makes it isn't allowed. The reply is
/// that of a run.
pub fn do_change<W: World>(
    alloc: Global,
    world: &mut W,
    roots: &Roots,
    change: &Change,
) -> Result<Option<Reply>, WorldError>
    requires rooted { ForSome (W.state world.old).tree (λ tree. (W.state world.old).roots ≡ roots.now) }
    requires placed { ForSome (W.state world.old).tree (λ tree.
        is_well_placed roots.now change.now ≡ true) }
    ensures { DoesChange roots.now change.now (W.state world.old) (W.state world.new) result }
{
    match change {
        Change::Dir(path) => do_dir(alloc, world, roots, path),
        Change::Put {
            root,
            number,
            target,
        } => do_put(alloc, world, roots, *root, *number, target),
        Change::Drop(path) => do_drop(alloc, world, roots, path),
        Change::DropDir(path) => do_drop_dir(alloc, world, roots, path),
        Change::Wipe(path) => do_wipe(alloc, world, roots, path),
        Change::Run(request) => do_run(alloc, world, roots, request),
    }
}

/// The requests that were made, in their order, and the replies to them.
#[derive(Debug, Drop)]
pub struct Ran {
    pub requests: Sequence<Request>,
    pub replies: Sequence<Reply>,
}

// Keeps the request of a run that was made, and its reply.
fn keep(ran: &mut Ran, change: &Change, reply: Option<Reply>) -> Result<(), AllocError>
    ensures requests { OnOk result (ran.new.requests ≡ ran.old.requests ++ asked_by change.now reply) }
    ensures replies { OnOk result (ran.new.replies ≡ ran.old.replies ++ said_by reply) }
{
    let Some(reply) = reply else {
        return Ok(());
    };
    if let Change::Run(request) = change {
        ran.requests.push(request.clone()?)?;
    }
    ran.replies.push(reply)
}

/// Does changes in their order. It tells the requests that were made, and their replies.
pub fn do_changes<W: World>(
    alloc: Global,
    world: &mut W,
    roots: &Roots,
    changes: &[Change],
) -> Result<Ran, WorldError>
    requires rooted { ForSome (W.state world.old).tree (λ tree. (W.state world.old).roots ≡ roots.now) }
    requires placed { ForSome (W.state world.old).tree (λ tree.
        are_well_placed roots.now changes.now ≡ true) }
    ensures { DoesChanges roots.now changes.now (W.state world.old) (W.state world.new) result }
{
    let mut ran = Ran {
        requests: Sequence::new(alloc),
        replies: Sequence::new(alloc),
    };
    for change in changes {
        let reply = match do_change(alloc, world, roots, change) {
            Ok(reply) => reply,
            Err(error) => return Err(error),
        };
        match keep(&mut ran, change, reply) {
            Ok(()) => {}
            Err(_) => return Err(WorldError::NoMemory),
        }
    }
    Ok(ran)
}
