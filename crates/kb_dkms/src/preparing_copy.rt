// The transaction of an add that copies a directory is put together.
ghost use Rattle.std.specs.Prelude.{◌≡◌, ◌∷◌, true, IfOk};
ghost use Rattle.std.specs.Option.{ForSome};
ghost use Rattle.kb_world.specs.Layout.{whole_tree};
ghost use Rattle.kb_world.specs.Roots.{AreApart};
ghost use Rattle.kb_world.specs.Steps.{add_tree_patch};
ghost use Rattle.kb_world.specs.Tree.{node_at, is_dir};
ghost use Rattle.kb_dkms.specs.Commit.{Prepares};
ghost use Rattle.kb_dkms.specs.Copying as copying;
ghost use Rattle.kb_dkms.specs.Places.{package_places};

use crate::places::Places;
use crate::preparing::add_changes;
use crate::scripts::Source;
use crate::staging::stage_all_met;
use kb_conf::Conf;
use kb_intent::{PatchPaths, RootName, Txn};
use kb_walk::{Met, place_copied};
use kb_world::{Kind, Path, Request, Sequence, Stop, World};
use std::alloc::{AllocError, Global};

/// A directory that is copied to the source of a package, and the conf that was read there.
#[derive(Clone, Copy)]
pub(crate) struct Original<'a, 'b> {
    pub(crate) source: Source<'a>,
    pub(crate) from: &'b Path,
    pub(crate) conf: &'b Conf,
}

// The source, and each directory that was met at its place below it.
fn dirs_of(
    alloc: Global,
    source: &Path,
    from: &Path,
    met: &[Met],
) -> Result<Sequence<Path>, AllocError>
    ensures { IfOk result (λ dirs. dirs
        ≡ source.now ∷ copying.places_copied source.now from.now (copying.dirs_met met.now)) }
{
    let mut dirs = Sequence::new(alloc);
    dirs.push(source.clone()?)?;
    for entry in met {
        if matches!(entry.kind, Kind::Dir) {
            dirs.push(place_copied(alloc, source, from, &entry.path)?)?;
        }
    }
    Ok(dirs)
}

// The places below the source of the files and links that were met.
fn puts_of(
    alloc: Global,
    source: &Path,
    from: &Path,
    met: &[Met],
) -> Result<Sequence<Path>, AllocError>
    ensures { IfOk result (λ puts. puts
        ≡ copying.places_copied source.now from.now (copying.leaves_met met.now)) }
{
    let mut puts = Sequence::new(alloc);
    for entry in met {
        if matches!(entry.kind, Kind::File { .. } | Kind::Link) {
            puts.push(place_copied(alloc, source, from, &entry.path)?)?;
        }
    }
    Ok(puts)
}

// The paths of the patch that makes the source of a package a copy, and makes its link.
fn copy_paths(
    alloc: Global,
    places: &Places,
    from: &Path,
    met: &[Met],
) -> Result<PatchPaths, AllocError>
    ensures { IfOk result (λ paths. paths
        ≡ copying.paths_copied places.now from.now met.now) }
{
    let mut puts = puts_of(alloc, &places.source, from, met)?;
    puts.push(places.link.clone()?)?;
    Ok(PatchPaths {
        drops: Sequence::new(alloc),
        wipes: Sequence::new(alloc),
        dirs: dirs_of(alloc, &places.source, from, met)?,
        puts,
    })
}

/// Begins a transaction of the job, stages a copy of what was met and the link of the package, and
/// adds the changes that bring them to their places, with its script behind them.
pub(crate) fn prepare_copy<W: World>(
    alloc: Global,
    world: &mut W,
    original: Original<'_, '_>,
    met: &[Met],
    request: Option<Request>,
) -> Result<Txn, Stop>
    requires apart { AreApart original.source.job.now.host.roots }
    requires places { original.source.places.now
        ≡ package_places original.source.job.now.host.roots original.source.key.now }
    requires root { ForSome (W.state world.old).tree (λ tree.
        is_dir (node_at tree original.source.job.now.host.roots.dkms) ≡ true) }
    requires src { ForSome (W.state world.old).tree (λ tree.
        is_dir (node_at tree original.source.job.now.host.roots.src) ≡ true) }
    requires met { ForSome (W.state world.old).tree (λ tree. copying.IsAllMet original.from.now
        (whole_tree original.source.job.now.host.roots tree) met.now) }
    ensures { Prepares original.entry.source.job.now.host.roots
        (λ tree. add_tree_patch original.entry.source.job.now.host.roots
        original.entry.source.key.now original.entry.from.now
        (whole_tree original.entry.source.job.now.host.roots tree)) request
        (W.state world.old) (W.state world.new) result }
{
    let source = original.source;
    let mut txn = match Txn::begin(alloc, world, source.job) {
        Ok(txn) => txn,
        Err(stop) => return Err(stop),
    };
    match stage_all_met(alloc, world, &mut txn, met) {
        Ok(()) => {}
        Err(stop) => return Err(stop),
    }
    match txn.stage_link(alloc, world, RootName::Dkms, source.places.text.as_str()) {
        Ok(_) => {}
        Err(stop) => return Err(stop),
    }
    let paths = match copy_paths(alloc, source.places, original.from, met) {
        Ok(paths) => paths,
        Err(_) => return Err(Stop::NoMemory),
    };
    match add_changes(alloc, &mut txn, &paths, request) {
        Ok(()) => Ok(txn),
        Err(_) => Err(Stop::NoMemory),
    }
}
