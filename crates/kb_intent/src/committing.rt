// A transaction is committed.
ghost use Rattle.std.specs.Prelude.{◌≡◌, None, true};
ghost use Rattle.std.specs.Option.{ForSome};
ghost use Rattle.kb_world.specs.Public.{intent_path};
ghost use Rattle.kb_world.specs.Roots.{AreApart};
ghost use Rattle.kb_world.specs.Tree.{node_at, is_dir};
ghost use Rattle.kb_changes.specs.Valid.{is_valid, new_intent_path};
ghost use Rattle.kb_machine.specs.Commits.{Commits, transacted};
ghost use Rattle.kb_intent.specs.Journaling.{PutsJournal};

use crate::finishing::{finish, journal_path};
use crate::txn::Txn;
use kb_journal::write_intent;
use kb_world::{Reply, Roots, Sequence, Stop, World, WorldError};
use std::alloc::Global;

// Puts a journal of this text beside its place, and moves it there.
fn put_journal<W: World>(
    alloc: Global,
    world: &mut W,
    roots: &Roots,
    text: &[u8],
) -> Result<(), WorldError>
    requires rooted { ForSome (W.state world.old).tree (λ tree.
        (W.state world.old).roots ≡ roots.now) }
    requires dkms { ForSome (W.state world.old).tree (λ tree.
        is_dir (node_at tree roots.now.dkms) ≡ true) }
    requires bare { ForSome (W.state world.old).tree (λ tree.
        (node_at tree (intent_path roots.now) ≡ None)
        × (node_at tree (new_intent_path roots.now) ≡ None)) }
    ensures { PutsJournal roots.now text.now (W.state world.old) (W.state world.new) result }
{
    let begun = match roots.dkms.child(alloc, ".intent.new") {
        Ok(begun) => begun,
        Err(_) => return Err(WorldError::NoMemory),
    };
    let path = match journal_path(alloc, roots) {
        Ok(path) => path,
        Err(_) => return Err(WorldError::NoMemory),
    };
    match world.put(alloc, &begun, text, false) {
        Ok(()) => world.rename(alloc, &begun, &path),
        Err(error) => Err(error),
    }
}

/// Commits a transaction: once its journal stands its changes are done, and what was staged and the
/// journal go. The replies are those of its runs. Whenever a crash comes the old store or the new
/// one stands.
pub fn commit<W: World>(alloc: Global, world: &mut W, txn: Txn) -> Result<Sequence<Reply>, Stop>
    requires rooted { ForSome (W.state world.old).tree (λ tree.
        (W.state world.old).roots ≡ txn.roots) }
    requires apart { AreApart txn.roots }
    requires valid { ForSome (W.state world.old).tree (λ tree.
        is_valid txn.roots txn.intent.changes ≡ true) }
    requires dkms { ForSome (W.state world.old).tree (λ tree.
        is_dir (node_at tree txn.roots.dkms) ≡ true) }
    requires bare { ForSome (W.state world.old).tree (λ tree.
        (node_at tree (intent_path txn.roots) ≡ None)
        × (node_at tree (new_intent_path txn.roots) ≡ None)) }
    ensures { Commits txn.roots
        (transacted txn.roots (W.state world.old).script txn.intent.changes)
        (W.state world.old) (W.state world.new) result }
{
    let text = match write_intent(alloc, &txn.intent) {
        Ok(text) => text,
        Err(_) => return Err(Stop::NoMemory),
    };
    match put_journal(alloc, world, &txn.roots, text.as_slice()) {
        Ok(()) => {}
        Err(error) => return Err(Stop::from(error)),
    }
    match finish(alloc, world, &txn.roots, txn.intent.changes.as_slice()) {
        Ok(ran) => Ok(ran.replies),
        Err(error) => Err(Stop::from(error)),
    }
}
