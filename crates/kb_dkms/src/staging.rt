// What is copied is staged for a transaction.
ghost use Rattle.std.specs.Prelude.{◌≡◌, ◌+◌, ◌<◌, ◌^◌, [], ◌∷◌, List, ℕ, Some, true};
ghost use Rattle.std.specs.List.{All};
ghost use Rattle.std.specs.Option.{ForSome};
ghost use Rattle.kb_world.specs.Roots.{AreApart};
ghost use Rattle.kb_world.specs.Tree.{node_at, is_dir};
ghost use Rattle.kb_world.specs.declared.tree.Node.TheVariants as node;
ghost use Rattle.kb_intent.specs.Txn.{IsStagedFor};
ghost use Rattle.kb_dkms.specs.Copying.{StandsAsMet, StagesMet, StagesSources, node_there};

use kb_intent::{RootName, Txn};
use kb_walk::Met;
use kb_world::{Kind, Path, Stop, World};
use std::alloc::Global;

// Stages a copy of the file at the path.
fn stage_file_at<W: World>(
    alloc: Global,
    world: &mut W,
    txn: &mut Txn,
    path: &Path,
    exec: bool,
) -> Result<(), Stop>
    requires apart { AreApart txn.old.roots }
    requires there { ForSome (W.state world.old).tree (λ tree.
        is_dir (node_at tree txn.old.roots.src) ≡ true) }
    requires staged { ForSome (W.state world.old).tree (IsStagedFor txn.old) }
    requires room { txn.old.staged.src + 1 < 2 ^ 64 }
    requires file { ForSome (W.state world.old).tree (λ tree.
        (bytes : List ℕ) × (node_at tree path.now ≡ Some (node.File bytes exec))) }
    ensures { StagesSources (λ tree. node_there tree path.now ∷ []) 1 txn.old txn.new
        (W.state world.old) (W.state world.new) result }
{
    let bytes = match world.read(alloc, path) {
        Ok(bytes) => bytes,
        Err(error) => return Err(error.into()),
    };
    match txn.stage_file(alloc, world, RootName::Src, bytes.as_slice(), exec) {
        Ok(_) => Ok(()),
        Err(stop) => Err(stop),
    }
}

// Stages a copy of the link at the path.
fn stage_link_at<W: World>(
    alloc: Global,
    world: &mut W,
    txn: &mut Txn,
    path: &Path,
) -> Result<(), Stop>
    requires apart { AreApart txn.old.roots }
    requires there { ForSome (W.state world.old).tree (λ tree.
        is_dir (node_at tree txn.old.roots.src) ≡ true) }
    requires staged { ForSome (W.state world.old).tree (IsStagedFor txn.old) }
    requires room { txn.old.staged.src + 1 < 2 ^ 64 }
    requires link { ForSome (W.state world.old).tree (λ tree.
        (text : List ℕ) × (node_at tree path.now ≡ Some (node.Link text))) }
    ensures { StagesSources (λ tree. node_there tree path.now ∷ []) 1 txn.old txn.new
        (W.state world.old) (W.state world.new) result }
{
    let text = match world.read_link(alloc, path) {
        Ok(text) => text,
        Err(error) => return Err(error.into()),
    };
    match txn.stage_link(alloc, world, RootName::Src, text.as_str()) {
        Ok(_) => Ok(()),
        Err(stop) => Err(stop),
    }
}

// Stages a copy of what was met. A directory needs no staging.
fn stage_met<W: World>(alloc: Global, world: &mut W, txn: &mut Txn, met: &Met) -> Result<(), Stop>
    requires apart { AreApart txn.old.roots }
    requires there { ForSome (W.state world.old).tree (λ tree.
        is_dir (node_at tree txn.old.roots.src) ≡ true) }
    requires staged { ForSome (W.state world.old).tree (IsStagedFor txn.old) }
    requires room { txn.old.staged.src + 1 < 2 ^ 64 }
    requires met { ForSome (W.state world.old).tree (λ tree.
        StandsAsMet txn.old.roots tree met.now) }
    ensures { StagesMet (met.now ∷ []) txn.old txn.new (W.state world.old) (W.state world.new)
        result }
{
    match met.kind {
        Kind::File { exec, .. } => stage_file_at(alloc, world, txn, &met.path, exec),
        Kind::Link => stage_link_at(alloc, world, txn, &met.path),
        Kind::Absent | Kind::Dir => Ok(()),
    }
}

/// Stages a copy of each file and link that was met, below the root of sources, in this order.
pub(crate) fn stage_all_met<W: World>(
    alloc: Global,
    world: &mut W,
    txn: &mut Txn,
    met: &[Met],
) -> Result<(), Stop>
    requires apart { AreApart txn.old.roots }
    requires there { ForSome (W.state world.old).tree (λ tree.
        is_dir (node_at tree txn.old.roots.src) ≡ true) }
    requires staged { ForSome (W.state world.old).tree (IsStagedFor txn.old) }
    requires none { txn.old.staged.src ≡ 0 }
    requires met { ForSome (W.state world.old).tree (λ tree.
        All (StandsAsMet txn.old.roots tree) met.now) }
    ensures { StagesMet met.now txn.old txn.new (W.state world.old) (W.state world.new) result }
{
    for entry in met {
        match stage_met(alloc, world, txn, entry) {
            Ok(()) => {}
            Err(stop) => return Err(stop),
        }
    }
    Ok(())
}
