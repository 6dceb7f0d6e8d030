// What is read before a directory is copied to a package's source.
ghost use Rattle.std.specs.Prelude.{◌≡◌, ◌||◌, IfOk, IsTrue, None, true, false};
ghost use Rattle.std.specs.Option.{ForSome};
ghost use Rattle.kb_world.specs.Read.{Decides, Gives};
ghost use Rattle.kb_world.specs.Damage.{hurt};
ghost use Rattle.kb_world.specs.Layout.{whole_tree};
ghost use Rattle.kb_world.specs.Public as public;
ghost use Rattle.kb_world.specs.Roots.{AreApart};
ghost use Rattle.kb_world.specs.Store.{is_key};
ghost use Rattle.kb_world.specs.Tree.{node_at, is_dir};
ghost use Rattle.kb_walk.specs.Copy.{met_below, too_much};
ghost use Rattle.kb_dkms.specs.AddTree as action;
ghost use Rattle.kb_dkms.specs.Places.{package_places};
ghost use Rattle.kb_dkms.specs.Scripts.{host_given};

use crate::places::{require_unadded, require_unblocked};
use crate::scripts::Source;
use kb_conf::{Conf, Given, load_conf};
use kb_walk::{Met, meet_to_copy};
use kb_world::{Job, Kind, Path, Refusal, Roots, Sequence, Stop, World, is_private};
use std::alloc::Global;

// Whether a root is at or under the directory.
fn holds_root(roots: &Roots, from: &Path) -> bool
    ensures { result ≡ action.holds_root roots.now from.now }
{
    roots.boot.is_under(from)
        || roots.dkms.is_under(from)
        || roots.src.is_under(from)
        || roots.modules.is_under(from)
        || roots.etc.is_under(from)
        || roots.lib.is_under(from)
        || roots.proc.is_under(from)
}

// Whether the directory is a root or above one, or the tool's own.
fn is_no_source(roots: &Roots, from: &Path) -> bool
    ensures { result
        ≡ (action.holds_root roots.now from.now || public.is_private roots.now from.now) }
{
    holds_root(roots, from) || is_private(roots, from)
}

/// The conf of a directory that is to be added. A directory that is a root or above one, and one of
/// the tool's own, is no source.
pub(crate) fn load_tree_conf<W: World>(
    alloc: Global,
    world: &mut W,
    job: &Job,
    from: &Path,
    given: &Given,
) -> Result<Conf, Stop>
    requires { given.now ≡ host_given job.now.host }
    ensures read { Gives
        (λ tree. action.tree_conf job.now.host from.now (whole_tree job.now.host.roots tree))
        (W.state world.old) (W.state world.new) result }
    ensures named { IfOk result (λ conf. IsTrue (is_key conf.key)) }
    ensures own { IfOk result (λ conf. public.is_private job.now.host.roots from.now ≡ false) }
{
    if is_no_source(&job.host.roots, from) {
        return Err(Stop::Refused(Refusal::NoSource {
            path: from.clone()?,
        }));
    }
    load_conf(alloc, world, from, None, given)
}

// Refused where something stands at the package's source.
fn require_free<W: World>(alloc: Global, world: &mut W, source: &Path) -> Result<(), Stop>
    ensures { Decides (action.source_there source.now) (W.state world.old) (W.state world.new)
        result }
{
    match world.look(alloc, source)? {
        Kind::Absent => Ok(()),
        _ => Err(Stop::Refused(Refusal::SourceThere {
            path: source.clone()?,
        })),
    }
}

// Refused where the package is added already, and where something stands at its source.
fn require_no_package<W: World>(
    alloc: Global,
    world: &mut W,
    source: Source<'_>,
) -> Result<(), Stop>
    requires named { IsTrue (is_key source.key.now) }
    requires apart { AreApart source.job.now.host.roots }
    requires places { source.places.now ≡ package_places source.job.now.host.roots source.key.now }
    requires sound { ForSome (W.state world.old).tree (λ tree.
        hurt source.job.now.host.roots (public.public_tree source.job.now.host.roots tree) ≡ None) }
    ensures { Decides
        (λ tree. action.package_there source.entry.job.now.host.roots source.entry.key.now
        (whole_tree source.entry.job.now.host.roots tree))
        (W.state world.old) (W.state world.new) result }
{
    match require_unadded(alloc, world, source.key, &source.places.link) {
        Ok(()) => require_free(alloc, world, &source.places.source),
        Err(stop) => Err(stop),
    }
}

// What stands below the directory. Refused where that is more than is copied.
fn meet_small<W: World>(
    alloc: Global,
    world: &mut W,
    roots: &Roots,
    from: &Path,
) -> Result<Sequence<Met>, Stop>
    requires { ForSome (W.state world.old).tree (λ tree.
        is_dir (node_at tree from.now) ≡ true) }
    ensures decides { Decides (λ tree. too_much from.now (whole_tree roots.now tree))
        (W.state world.old) (W.state world.new) result }
    ensures met { IfOk result (λ met. ForSome (W.state world.old).tree (λ tree.
        met ≡ met_below from.now (whole_tree roots.now tree))) }
{
    meet_to_copy(alloc, world, roots, from)
}

/// What stands below a directory that is to be copied to the package's source, in the order of
/// paths. Refused where the package is added already, where something stands at its source, where
/// there is more below the directory than a walk may meet, at the first file that is too large, and
/// where a file or a link stands where the package's link needs a directory.
pub(crate) fn meet_source<W: World>(
    alloc: Global,
    world: &mut W,
    source: Source<'_>,
    from: &Path,
) -> Result<Sequence<Met>, Stop>
    requires named { IsTrue (is_key source.key.now) }
    requires apart { AreApart source.job.now.host.roots }
    requires places { source.places.now ≡ package_places source.job.now.host.roots source.key.now }
    requires own { public.is_private source.job.now.host.roots from.now ≡ false }
    requires directory { ForSome (W.state world.old).tree (λ tree.
        is_dir (node_at tree from.now) ≡ true) }
    requires sound { ForSome (W.state world.old).tree (λ tree.
        hurt source.job.now.host.roots (public.public_tree source.job.now.host.roots tree) ≡ None) }
    ensures decides { Decides
        (λ tree. action.no_copy source.entry.job.now.host.roots source.entry.key.now from.now
        (whole_tree source.entry.job.now.host.roots tree))
        (W.state world.old) (W.state world.new) result }
    ensures met { IfOk result (λ met. ForSome (W.state world.old).tree (λ tree.
        met ≡ met_below from.now (whole_tree source.entry.job.now.host.roots tree))) }
{
    match require_no_package(alloc, world, source) {
        Ok(()) => {}
        Err(stop) => return Err(stop),
    }
    let met = match meet_small(alloc, world, &source.job.host.roots, from) {
        Ok(met) => met,
        Err(stop) => return Err(stop),
    };
    match require_unblocked(alloc, world, source.places) {
        Ok(()) => Ok(met),
        Err(stop) => Err(stop),
    }
}
