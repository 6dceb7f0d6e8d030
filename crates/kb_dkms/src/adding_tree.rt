// The action `dkms add` of a directory.
ghost use Rattle.std.specs.Prelude.{◌≡◌, IsTrue, None, true, false};
ghost use Rattle.std.specs.Option.{ForSome};
ghost use Rattle.kb_world.specs.Damage.{hurt};
ghost use Rattle.kb_world.specs.Layout.{whole_tree};
ghost use Rattle.kb_world.specs.Public.{intent_path, public_tree, is_private};
ghost use Rattle.kb_world.specs.Roots.{AreApart};
ghost use Rattle.kb_world.specs.Store.{is_key};
ghost use Rattle.kb_world.specs.Tree.{node_at, is_dir};
ghost use Rattle.kb_machine.specs.Across.{DoesAcrossCrashes};
ghost use Rattle.kb_dkms.specs.AddTree as action;
ghost use Rattle.kb_dkms.specs.Copying.{CanCopy, IsAllMet};
ghost use Rattle.kb_dkms.specs.Host.{host_keeps_rules};
ghost use Rattle.kb_dkms.specs.Places.{package_places};
ghost use Rattle.kb_dkms.specs.Scripts.{host_given};

use crate::adding::{add, warn_unused};
use crate::copying::{load_tree_conf, meet_source};
use crate::places::find_places;
use crate::preparing_copy::{Original, prepare_copy};
use crate::scripts::{Source, find_script, push_endings};
use kb_conf::Given;
use kb_intent::commit;
use kb_walk::Met;
use kb_world::{Job, Path, Report, Stop, World};
use std::alloc::Global;

// Copies what was met to the source of the package and makes its link, and runs the script that its
// conf names for that, in one transaction.
fn copy_and_run<W: World>(
    alloc: Global,
    world: &mut W,
    original: Original<'_, '_>,
    met: &[Met],
    report: &mut Report,
) -> Result<(), Stop>
    requires named { IsTrue (is_key original.source.key.now) }
    requires key { original.source.key.now ≡ original.conf.now.key }
    requires apart { AreApart original.source.job.now.host.roots }
    requires given { original.source.given.now ≡ host_given original.source.job.now.host }
    requires places { original.source.places.now
        ≡ package_places original.source.job.now.host.roots original.source.key.now }
    requires rooted { ForSome (W.state world.old).tree (λ tree.
        (W.state world.old).roots ≡ original.source.job.now.host.roots) }
    requires can { ForSome (W.state world.old).tree
        (CanCopy original.source.job.now.host.roots original.source.key.now) }
    requires met { ForSome (W.state world.old).tree (λ tree. IsAllMet original.from.now
        (whole_tree original.source.job.now.host.roots tree) met.now) }
    ensures { DoesAcrossCrashes original.entry.source.job.now.host.roots
        (action.copy_and_run original.entry.source.job.now.host (W.state world.old).script
        original.entry.from.now original.entry.conf.now)
        (W.state world.old) (W.state world.new) report.old report.new result }
{
    // The line is gathered first, so that want of memory for it leaves the tree as it was.
    let source = original.source;
    let key = source.key;
    let line = format!(in alloc; "{key}: added\n")?;
    report.out.push(line.as_bytes())?;
    let request = find_script(alloc, source, original.conf.scripts.post_add.as_ref())?;
    let txn = match prepare_copy(alloc, world, original, met, request) {
        Ok(txn) => txn,
        Err(stop) => return Err(stop),
    };
    let replies = match commit(alloc, world, txn) {
        Ok(replies) => replies,
        Err(stop) => return Err(stop),
    };
    push_endings(alloc, &mut report.err, "POST_ADD", replies.as_slice())?;
    Ok(())
}

// Goes on once the conf of a directory is read that isn't the package's source.
fn add_copy<W: World>(
    alloc: Global,
    world: &mut W,
    original: Original<'_, '_>,
    report: &mut Report,
) -> Result<(), Stop>
    requires named { IsTrue (is_key original.source.key.now) }
    requires key { original.source.key.now ≡ original.conf.now.key }
    requires apart { AreApart original.source.job.now.host.roots }
    requires given { original.source.given.now ≡ host_given original.source.job.now.host }
    requires places { original.source.places.now
        ≡ package_places original.source.job.now.host.roots original.source.key.now }
    requires rooted { ForSome (W.state world.old).tree (λ tree.
        (W.state world.old).roots ≡ original.source.job.now.host.roots) }
    requires root { ForSome (W.state world.old).tree (λ tree.
        is_dir (node_at tree original.source.job.now.host.roots.dkms) ≡ true) }
    requires src { ForSome (W.state world.old).tree (λ tree.
        is_dir (node_at tree original.source.job.now.host.roots.src) ≡ true) }
    requires bare { ForSome (W.state world.old).tree (λ tree.
        node_at tree (intent_path original.source.job.now.host.roots) ≡ None) }
    requires sound { ForSome (W.state world.old).tree (λ tree.
        hurt original.source.job.now.host.roots
        (public_tree original.source.job.now.host.roots tree) ≡ None) }
    requires own { is_private original.source.job.now.host.roots original.from.now ≡ false }
    requires directory { ForSome (W.state world.old).tree (λ tree.
        is_dir (node_at tree original.from.now) ≡ true) }
    ensures { DoesAcrossCrashes original.entry.source.job.now.host.roots
        (action.add_copy original.entry.source.job.now.host (W.state world.old).script
        original.entry.from.now original.entry.conf.now)
        (W.state world.old) (W.state world.new) report.old report.new result }
{
    warn_unused(alloc, &mut report.err, original.conf.unused.as_slice())?;
    let met = match meet_source(alloc, world, original.source, original.from) {
        Ok(met) => met,
        Err(stop) => return Err(stop),
    };
    copy_and_run(alloc, world, original, met.as_slice(), report)
}

/// `dkms add` of a directory: it is copied to the source of the package that its conf names, with
/// all that is below it, and the package is added, in one transaction; then the script that the
/// conf names for that is run in the copy. A directory that is the package's own source is added
/// as the package is. Refused where a root is at or under the directory, for the first refusal of
/// its conf, where the package is added already, where something stands at its source, where there
/// is more below the directory than is copied, at the first file that is too large, and where a
/// file or a link stands where the link's directories are needed. A name of the conf that isn't
/// used, and a script that fails, give a warning.
pub fn add_tree<W: World>(
    alloc: Global,
    world: &mut W,
    job: &Job,
    report: &mut Report,
    from: &Path,
) -> Result<(), Stop>
    requires known { IsTrue (host_keeps_rules job.now.host) }
    requires apart { AreApart job.now.host.roots }
    requires rooted { ForSome (W.state world.old).tree (λ tree.
        (W.state world.old).roots ≡ job.now.host.roots) }
    requires root { ForSome (W.state world.old).tree (λ tree.
        is_dir (node_at tree job.now.host.roots.dkms) ≡ true) }
    requires src { ForSome (W.state world.old).tree (λ tree.
        is_dir (node_at tree job.now.host.roots.src) ≡ true) }
    requires bare { ForSome (W.state world.old).tree (λ tree.
        node_at tree (intent_path job.now.host.roots) ≡ None) }
    requires sound { ForSome (W.state world.old).tree (λ tree.
        hurt job.now.host.roots (public_tree job.now.host.roots tree) ≡ None) }
    ensures { DoesAcrossCrashes job.now.host.roots
        (action.add_tree job.now.host (W.state world.old).script from.now)
        (W.state world.old) (W.state world.new) report.old report.new result }
{
    let host = &job.host;
    let given = Given::of(alloc, &host.roots, host.kernel.as_ref(), &host.arch)?;
    let conf = match load_tree_conf(alloc, world, job, from, &given) {
        Ok(conf) => conf,
        Err(stop) => return Err(stop),
    };
    let places = find_places(alloc, &host.roots, &conf.key)?;
    if *from == places.source {
        return add(alloc, world, job, report, &conf.key);
    }
    let original = Original {
        source: Source {
            job,
            key: &conf.key,
            given: &given,
            places: &places,
        },
        from,
        conf: &conf,
    };
    add_copy(alloc, world, original, report)
}
