// The command `dkms status`.
ghost use Rattle.std.specs.Prelude.{◌≡◌, ◌++◌, OnOk, true};
ghost use Rattle.std.specs.Option.{ForSome};
ghost use Rattle.kb_world.specs.Roots.{AreApart};
ghost use Rattle.kb_world.specs.Tree.{node_at, is_dir};
ghost use Rattle.kb_machine.specs.Across.{DoesAcrossCrashes};
ghost use Rattle.kb_status.specs.Status.{text_of_status};
ghost use Rattle.kb_top.specs.Machine.{print_status, perform_status};

use crate::roots::require_root;
use kb_status::status_text;
use kb_store::Store;
use kb_world::{Filter, Report, Roots, Stop, World};
use std::alloc::{AllocError, Global};

// Adds the text of the status to what is printed.
fn push_status(
    alloc: Global,
    report: &mut Report,
    store: &Store,
    filter: &Filter,
) -> Result<(), AllocError>
    ensures out { OnOk result (
        report.new.out ≡ report.old.out ++ text_of_status store.now filter.now) }
    ensures err { OnOk result (report.new.err ≡ report.old.err) }
{
    let text = status_text(alloc, store, filter)?;
    report.out.push(text.as_str().as_bytes())
}

// The store is read once, and its status is printed.
fn print_status<W: World>(
    alloc: Global,
    world: &mut W,
    roots: &Roots,
    report: &mut Report,
    filter: &Filter,
) -> Result<(), Stop>
    requires apart { AreApart roots.now }
    requires root { ForSome (W.state world.old).tree (λ tree.
        is_dir (node_at tree roots.now.dkms) ≡ true) }
    ensures { DoesAcrossCrashes roots.now (print_status roots.now filter.now)
        (W.state world.old) (W.state world.new) report.old report.new result }
{
    let store = match Store::read(alloc, world, roots) {
        Ok(store) => store,
        Err(stop) => return Err(stop),
    };
    match push_status(alloc, report, &store, filter) {
        Ok(()) => Ok(()),
        Err(_) => Err(Stop::NoMemory),
    }
}

/// `dkms status`, which needs the root dkms alone.
pub fn perform_status<W: World>(
    alloc: Global,
    world: &mut W,
    roots: &Roots,
    report: &mut Report,
    filter: &Filter,
) -> Result<(), Stop>
    requires apart { AreApart roots.now }
    ensures { DoesAcrossCrashes roots.now (perform_status roots.now filter.now)
        (W.state world.old) (W.state world.new) report.old report.new result }
{
    match require_root(alloc, world, &roots.dkms) {
        Ok(()) => {}
        Err(stop) => return Err(stop),
    }
    print_status(alloc, world, roots, report, filter)
}
