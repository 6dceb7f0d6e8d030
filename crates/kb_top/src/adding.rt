// The command `dkms add`, of a package or of a directory.
ghost use Rattle.std.specs.Prelude.{◌≡◌, IsTrue, None, true};
ghost use Rattle.std.specs.Option.{ForSome};
ghost use Rattle.kb_world.specs.Damage.{hurt};
ghost use Rattle.kb_world.specs.Public.{intent_path, public_tree};
ghost use Rattle.kb_world.specs.Roots.{AreApart};
ghost use Rattle.kb_world.specs.Tree.{node_at, is_dir};
ghost use Rattle.kb_machine.specs.Across.{DoesAcrossCrashes};
ghost use Rattle.kb_dkms.specs.Host.{host_keeps_rules};
ghost use Rattle.kb_top.specs.Adding.{is_addition_named, adding};
ghost use Rattle.kb_top.specs.Machine as machine;

use crate::roots::require_roots_of_add;
use kb_store::Store;
use kb_world::{Job, Key, Path, Report, Stop, World};
use std::alloc::Global;

/// What is added: a package whose source is there, or a directory that becomes a package's source.
#[derive(Clone, Copy)]
pub enum Addition<'a> {
    Package(&'a Key),
    Directory(&'a Path),
}

// Adds it to a store without damage.
fn add<W: World>(
    alloc: Global,
    world: &mut W,
    job: &Job,
    report: &mut Report,
    addition: Addition<'_>,
) -> Result<(), Stop>
    requires named { is_addition_named addition ≡ true }
    requires known { IsTrue (host_keeps_rules job.now.host) }
    requires apart { AreApart job.now.host.roots }
    requires rooted { ForSome (W.state world.old).tree (λ tree.
        (W.state world.old).roots ≡ job.now.host.roots) }
    requires root { ForSome (W.state world.old).tree (λ tree. is_dir
        (node_at tree job.now.host.roots.dkms) ≡ true) }
    requires src { ForSome (W.state world.old).tree (λ tree. is_dir
        (node_at tree job.now.host.roots.src) ≡ true) }
    requires bare { ForSome (W.state world.old).tree (λ tree. node_at tree
        (intent_path job.now.host.roots) ≡ None) }
    requires sound { ForSome (W.state world.old).tree (λ tree.
        hurt job.now.host.roots (public_tree job.now.host.roots tree) ≡ None) }
    ensures { DoesAcrossCrashes job.now.host.roots (adding job.now.host
        (W.state world.old).script addition.entry) (W.state world.old)
        (W.state world.new) report.old report.new result }
{
    match addition {
        Addition::Package(key) => kb_dkms::add(alloc, world, job, report, key),
        Addition::Directory(path) => kb_dkms::add_tree(alloc, world, job, report, path),
    }
}

// Goes on once the roots that it needs are there: the store is read, and then it is added.
fn add_to_store<W: World>(
    alloc: Global,
    world: &mut W,
    job: &Job,
    report: &mut Report,
    addition: Addition<'_>,
) -> Result<(), Stop>
    requires named { is_addition_named addition ≡ true }
    requires known { IsTrue (host_keeps_rules job.now.host) }
    requires apart { AreApart job.now.host.roots }
    requires rooted { ForSome (W.state world.old).tree (λ tree.
        (W.state world.old).roots ≡ job.now.host.roots) }
    requires root { ForSome (W.state world.old).tree (λ tree. is_dir
        (node_at tree job.now.host.roots.dkms) ≡ true) }
    requires src { ForSome (W.state world.old).tree (λ tree. is_dir
        (node_at tree job.now.host.roots.src) ≡ true) }
    requires bare { ForSome (W.state world.old).tree (λ tree. node_at tree
        (intent_path job.now.host.roots) ≡ None) }
    ensures { DoesAcrossCrashes job.now.host.roots (machine.add_to_store job.now.host.roots
        (adding job.now.host (W.state world.old).script addition.entry)) (W.state world.old)
        (W.state world.new) report.old report.new result }
{
    let _store = match Store::read(alloc, world, &job.host.roots) {
        Ok(store) => store,
        Err(stop) => return Err(stop),
    };
    add(alloc, world, job, report, addition)
}

/// `dkms add`, which needs the roots dkms and src.
pub fn perform_add<W: World>(
    alloc: Global,
    world: &mut W,
    job: &Job,
    report: &mut Report,
    addition: Addition<'_>,
) -> Result<(), Stop>
    requires named { is_addition_named addition ≡ true }
    requires known { IsTrue (host_keeps_rules job.now.host) }
    requires apart { AreApart job.now.host.roots }
    requires rooted { ForSome (W.state world.old).tree (λ tree.
        (W.state world.old).roots ≡ job.now.host.roots) }
    requires bare { ForSome (W.state world.old).tree (λ tree. node_at tree
        (intent_path job.now.host.roots) ≡ None) }
    ensures { DoesAcrossCrashes job.now.host.roots (machine.perform_add job.now.host.roots
        (adding job.now.host (W.state world.old).script addition.entry)) (W.state world.old)
        (W.state world.new) report.old report.new result }
{
    match require_roots_of_add(alloc, world, &job.host.roots) {
        Ok(()) => {}
        Err(stop) => return Err(stop),
    }
    add_to_store(alloc, world, job, report, addition)
}
