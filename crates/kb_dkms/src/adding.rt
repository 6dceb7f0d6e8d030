// The action `dkms add`.
ghost use Rattle.std.specs.Prelude.{◌≡◌, ◌++◌, IsTrue, OnOk, None, true};
ghost use Rattle.std.specs.Option.{ForSome};
ghost use Rattle.kb_world.specs.Tree.{node_at, is_dir};
ghost use Rattle.kb_world.specs.Public.{intent_path, public_tree};
ghost use Rattle.kb_world.specs.Roots.{AreApart};
ghost use Rattle.kb_world.specs.Store.{is_key};
ghost use Rattle.kb_world.specs.Damage.{hurt};
ghost use Rattle.kb_machine.specs.Across.{DoesAcrossCrashes};
ghost use Rattle.kb_dkms.specs.Add as action;
ghost use Rattle.kb_dkms.specs.Commit.{CanAdd, IsUnadded};
ghost use Rattle.kb_dkms.specs.Host.{host_keeps_rules};
ghost use Rattle.kb_dkms.specs.Places.{package_places};
ghost use Rattle.kb_dkms.specs.Scripts.{host_given};

use crate::places::{find_places, require_unadded, require_unblocked};
use crate::preparing::prepare;
use crate::scripts::{Source, find_script, push_endings, push_warning};
use kb_conf::{Conf, Given, load_conf};
use kb_intent::commit;
use kb_world::{Bytes, Job, Key, Report, Stop, Text, World};
use std::alloc::{AllocError, Global};

/// Adds a warning for each name of a conf that isn't used.
pub(crate) fn warn_unused(alloc: Global, err: &mut Bytes, names: &[Text]) -> Result<(), AllocError>
    ensures { OnOk result (err.new ≡ err.old ++ action.unused_lines names.now) }
{
    for name in names {
        let text = format!(in alloc; "dkms.conf: {name} is not used")?;
        push_warning(alloc, err, &text)?;
    }
    Ok(())
}

// Makes the link of the package, and runs the script that its conf names for that, in one transaction.
fn add_and_run<W: World>(
    alloc: Global,
    world: &mut W,
    source: Source<'_>,
    conf: &Conf,
    report: &mut Report,
) -> Result<(), Stop>
    requires named { IsTrue (is_key source.key.now) }
    requires apart { AreApart source.job.now.host.roots }
    requires given { source.given.now ≡ host_given source.job.now.host }
    requires places { source.places.now ≡ package_places source.job.now.host.roots source.key.now }
    requires rooted { ForSome (W.state world.old).tree (λ tree. (W.state world.old).roots ≡ source.job.now.host.roots) }
    requires can { ForSome (W.state world.old).tree (CanAdd source.job.now.host.roots source.key.now) }
    ensures { DoesAcrossCrashes source.entry.job.now.host.roots (action.add_and_run source.entry.job.now.host (W.state world.old).script source.entry.key.now conf.now) (W.state world.old) (W.state world.new) report.old report.new result }
{
    // The line is gathered first, so that want of memory for it leaves the tree as it was.
    let key = source.key;
    let line = format!(in alloc; "{key}: added\n")?;
    report.out.push(line.as_bytes())?;
    let request = find_script(alloc, source, conf.scripts.post_add.as_ref())?;
    let txn = match prepare(alloc, world, source, request) {
        Ok(txn) => txn,
        Err(stop) => return Err(stop),
    };
    let replies = match commit(alloc, world, txn) {
        Ok(replies) => replies,
        Err(stop) => return Err(stop),
    };
    push_endings(alloc, &mut report.err, "POST_ADD", replies.as_slice())?;
    Ok(())
}

// Goes on once the conf is read.
fn add_with<W: World>(
    alloc: Global,
    world: &mut W,
    source: Source<'_>,
    conf: &Conf,
    report: &mut Report,
) -> Result<(), Stop>
    requires named { IsTrue (is_key source.key.now) }
    requires apart { AreApart source.job.now.host.roots }
    requires given { source.given.now ≡ host_given source.job.now.host }
    requires places { source.places.now ≡ package_places source.job.now.host.roots source.key.now }
    requires rooted { ForSome (W.state world.old).tree (λ tree. (W.state world.old).roots ≡ source.job.now.host.roots) }
    requires unadded { ForSome (W.state world.old).tree (IsUnadded source.job.now.host.roots source.key.now) }
    ensures { DoesAcrossCrashes source.entry.job.now.host.roots (action.add_with source.entry.job.now.host (W.state world.old).script source.entry.key.now conf.now) (W.state world.old) (W.state world.new) report.old report.new result }
{
    warn_unused(alloc, &mut report.err, conf.unused.as_slice())?;
    match require_unblocked(alloc, world, source.places) {
        Ok(()) => {}
        Err(stop) => return Err(stop),
    }
    add_and_run(alloc, world, source, conf, report)
}

/// `dkms add` of a package: its link comes to stand, and then the script that its conf names for it is run, in one
/// transaction. Refused where it is added already, for the first refusal of the conf of its source, and where a file or a
/// link stands where the link's directories are needed. A name of the conf that isn't used, and a script that fails, give
/// a warning.
pub fn add<W: World>(
    alloc: Global,
    world: &mut W,
    job: &Job,
    report: &mut Report,
    key: &Key,
) -> Result<(), Stop>
    requires named { IsTrue (is_key key.now) }
    requires known { IsTrue (host_keeps_rules job.now.host) }
    requires apart { AreApart job.now.host.roots }
    requires rooted { ForSome (W.state world.old).tree (λ tree. (W.state world.old).roots ≡ job.now.host.roots) }
    requires root { ForSome (W.state world.old).tree (λ tree. is_dir (node_at tree job.now.host.roots.dkms) ≡ true) }
    requires bare { ForSome (W.state world.old).tree (λ tree. node_at tree (intent_path job.now.host.roots) ≡ None) }
    requires sound { ForSome (W.state world.old).tree (λ tree. hurt job.now.host.roots (public_tree job.now.host.roots tree) ≡ None) }
    ensures { DoesAcrossCrashes job.now.host.roots (action.add job.now.host (W.state world.old).script key.now) (W.state world.old) (W.state world.new) report.old report.new result }
{
    let host = &job.host;
    let given = Given::of(alloc, &host.roots, host.kernel.as_ref(), &host.arch)?;
    let places = find_places(alloc, &host.roots, key)?;
    match require_unadded(alloc, world, key, &places.link) {
        Ok(()) => {}
        Err(stop) => return Err(stop),
    }
    let conf = match load_conf(alloc, world, &places.source, Some(key), &given) {
        Ok(conf) => conf,
        Err(stop) => return Err(stop),
    };
    let source = Source {
        job,
        key,
        given: &given,
        places: &places,
    };
    add_with(alloc, world, source, &conf, report)
}
