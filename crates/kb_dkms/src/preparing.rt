// A transaction is put together.
ghost use Rattle.std.specs.Prelude.{◌≡◌, [], ◌∷◌, ◌++◌, true, IfOk, OnOk};
ghost use Rattle.std.specs.Option.{ForSome};
ghost use Rattle.kb_world.specs.Patch.{Patch};
ghost use Rattle.kb_world.specs.Roots.{AreApart};
ghost use Rattle.kb_world.specs.Steps.{add_patch};
ghost use Rattle.kb_world.specs.Tree.{node_at, is_dir};
ghost use Rattle.kb_changes.specs.PatchPaths.{ArePathsOf};
ghost use Rattle.kb_dkms.specs.Commit.{changes_with, Prepares};
ghost use Rattle.kb_dkms.specs.Places.{package_places};

use crate::places::Places;
use crate::scripts::Source;
use kb_intent::{Change, PatchPaths, RootName, Txn};
use kb_world::{Request, Sequence, Stop, World};
use std::alloc::{AllocError, Global};

/// Adds the changes of a patch with these paths, and the script behind them.
pub(crate) fn add_changes(
    alloc: Global,
    txn: &mut Txn,
    paths: &PatchPaths,
    request: Option<Request>,
) -> Result<(), AllocError>
    ensures changes { OnOk result ((patch : Patch) → ArePathsOf patch paths.now
        → txn.new.intent.changes
        ≡ txn.old.intent.changes ++ changes_with txn.old.roots patch request) }
    ensures roots { txn.new.roots ≡ txn.old.roots }
{
    txn.add_all(alloc, paths)?;
    match request {
        Some(request) => txn.add(Change::Run(request)),
        None => Ok(()),
    }
}

// The paths of the patch that makes the link of a package.
fn link_paths(alloc: Global, places: &Places) -> Result<PatchPaths, AllocError>
    ensures { IfOk result (λ paths. paths
        ≡ record { drops = []; wipes = []; dirs = []; puts = places.now.link ∷ [] }) }
{
    let mut puts = Sequence::new(alloc);
    puts.push(places.link.clone()?)?;
    Ok(PatchPaths {
        drops: Sequence::new(alloc),
        wipes: Sequence::new(alloc),
        dirs: Sequence::new(alloc),
        puts,
    })
}

/// Begins a transaction of the job, stages the link of the package, and adds the changes that make
/// it, with its script behind them.
pub(crate) fn prepare<W: World>(
    alloc: Global,
    world: &mut W,
    source: Source<'_>,
    request: Option<Request>,
) -> Result<Txn, Stop>
    requires apart { AreApart source.job.now.host.roots }
    requires places { source.places.now
        ≡ package_places source.job.now.host.roots source.key.now }
    requires root { ForSome (W.state world.old).tree (λ tree.
        is_dir (node_at tree source.job.now.host.roots.dkms) ≡ true) }
    ensures { Prepares source.entry.job.now.host.roots
        (λ tree. add_patch source.entry.job.now.host.roots source.entry.key.now) request
        (W.state world.old) (W.state world.new) result }
{
    let mut txn = match Txn::begin(alloc, world, source.job) {
        Ok(txn) => txn,
        Err(stop) => return Err(stop),
    };
    match txn.stage_link(alloc, world, RootName::Dkms, source.places.text.as_str()) {
        Ok(_) => {}
        Err(stop) => return Err(stop),
    }
    let paths = match link_paths(alloc, source.places) {
        Ok(paths) => paths,
        Err(_) => return Err(Stop::NoMemory),
    };
    match add_changes(alloc, &mut txn, &paths, request) {
        Ok(()) => Ok(txn),
        Err(_) => Err(Stop::NoMemory),
    }
}
