// Where changes may be made.
ghost use Rattle.std.specs.Prelude.{◌≡◌, codes};
ghost use Rattle.std.specs.List.{list_any};
ghost use Rattle.kb_world.specs.Path.{child, is_under};
ghost use Rattle.kb_world.specs.Roots as roots_rule;
ghost use Rattle.kb_changes.specs.Valid as rule;

use crate::change::Change;
use crate::roots::root_path;
use kb_world::{Path, Roots};

fn is_below(path: &Path, directory: &Path) -> bool
    ensures { result ≡ roots_rule.is_below path.now directory.now }
{
    path.is_under(directory) && !directory.is_under(path)
}

fn is_below_written_root(roots: &Roots, path: &Path) -> bool
    ensures { result ≡ list_any (roots_rule.is_below path.now) (rule.written_roots roots.now) }
{
    is_below(path, &roots.dkms)
        || is_below(path, &roots.src)
        || is_below(path, &roots.modules)
        || is_below(path, &roots.boot)
}

// Whether the path is that of the directory's entry of this name, or lies below it.
fn is_at_or_below_entry(path: &Path, directory: &Path, name: &str) -> bool
    ensures { result ≡ is_under path.now (child directory.now name.now) }
{
    match path.below(directory) {
        Some(names) => match names.first() {
            Some(entry) => name == entry.as_str(),
            None => false,
        },
        None => false,
    }
}

fn is_kept_out(roots: &Roots, path: &Path) -> bool
    ensures { result ≡ rule.is_kept_out roots.now path.now }
{
    let journal = is_at_or_below_entry(path, &roots.dkms, ".intent");
    let dkms = is_at_or_below_entry(path, &roots.dkms, ".kb-staged");
    let src = is_at_or_below_entry(path, &roots.src, ".kb-staged");
    let modules = is_at_or_below_entry(path, &roots.modules, ".kb-staged");
    let boot = is_at_or_below_entry(path, &roots.boot, ".kb-staged");
    journal | dkms | src | modules | boot
}

fn is_initrd(roots: &Roots, path: &Path) -> bool
    ensures { result ≡ rule.is_initrd roots.now path.now }
{
    match path.name_in(&roots.boot) {
        Some(name) => name.as_str().as_bytes().starts_with(b"initrd.img-"),
        None => false,
    }
}

fn is_changeable(roots: &Roots, path: &Path) -> bool
    ensures { result ≡ rule.is_changeable roots.now path.now }
{
    is_below_written_root(roots, path)
        && !is_kept_out(roots, path)
        && !is_at_or_below_entry(path, &roots.dkms, ".intent.new")
        && !is_initrd(roots, path)
}

fn is_well_placed(roots: &Roots, change: &Change) -> bool
    ensures { result ≡ rule.is_well_placed roots.now change.now }
{
    match change {
        Change::Dir(path) | Change::Drop(path) | Change::DropDir(path) | Change::Wipe(path) => {
            is_changeable(roots, path)
        }
        Change::Put { root, target, .. } => {
            is_changeable(roots, target) && is_below(target, root_path(roots, *root))
        }
        Change::Run(_) => true,
    }
}

/// Whether each change is made at a path where one may be made.
pub(crate) fn are_well_placed(roots: &Roots, changes: &[Change]) -> bool
    ensures { result ≡ rule.are_well_placed roots.now changes.now }
{
    changes.iter().all(|change| is_well_placed(roots, change))
}
