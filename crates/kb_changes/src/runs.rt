// What the children of a transaction may change.
ghost use Rattle.std.specs.Prelude.{◌≡◌, ◌&&◌, IfOk, [], ◌∷◌, bytes_eq, map, true};
ghost use Rattle.std.specs.List.{list_all};
ghost use Rattle.std.specs.Cmp.Lexicographic.{pointwise};
ghost use Rattle.kb_world.specs.Path.{child};
ghost use Rattle.kb_world.specs.TreeLaws.{same_path};
ghost use Rattle.kb_world.specs.Tree.{name_in};
ghost use Rattle.kb_world.specs.View.{index_names};
ghost use Rattle.kb_changes.specs.Valid as rule;
ghost use Rattle.kb_changes.specs.Groups.{runs_in};

use crate::change::Change;
use crate::path_set::PathSet;
use kb_world::{Area, Path, Request, Roots, Text, is_kernel};
use std::alloc::{AllocError, Global};

// Whether the names are those that are wanted, one by one.
fn are_names(names: &[Text], wanted: &[&str]) -> bool
    ensures { result ≡ pointwise bytes_eq names.now (map (λ name. name.now) wanted.now) }
{
    if names.len() != wanted.len() {
        return false;
    }
    for i in 0..names.len() {
        if names[i].as_str() != wanted[i] {
            return false;
        }
    }
    true
}

// Whether these are the names of the eleven index files, in their order.
fn are_index_names(names: &[Text]) -> bool
    ensures { result ≡ pointwise bytes_eq names.now index_names }
{
    are_names(
        names,
        &[
            "modules.dep",
            "modules.dep.bin",
            "modules.alias",
            "modules.alias.bin",
            "modules.symbols",
            "modules.symbols.bin",
            "modules.builtin.bin",
            "modules.builtin.alias.bin",
            "modules.devname",
            "modules.softdep",
            "modules.weakdep",
        ],
    )
}

fn is_kernel_dir(roots: &Roots, directory: &Path) -> bool
    ensures { result ≡ rule.is_kernel_name (name_in roots.now.modules directory.now) }
{
    match directory.name_in(&roots.modules) {
        Some(name) => is_kernel(name.as_str()),
        None => false,
    }
}

fn is_same(a: &Path, b: &Path) -> bool
    ensures { result ≡ same_path a.now b.now }
{
    a == b
}

fn sees_alone(seen: &[Path], directory: &Path) -> bool
    ensures { result ≡ rule.same_paths seen.now (directory.now ∷ []) }
{
    match seen {
        [only] => is_same(only, directory),
        _ => false,
    }
}

// Whether each of these names' paths in the directory is dropped.
fn are_dropped(
    alloc: Global,
    drops: &PathSet,
    directory: &Path,
    names: &[Text],
) -> Result<bool, AllocError>
    requires { pointwise bytes_eq names.now index_names ≡ true }
    ensures { IfOk result (λ dropped. dropped ≡ list_all (λ name. rule.is_among_paths drops.now (child directory.now name)) names.now) }
{
    for name in names {
        if !drops.has(&directory.child(alloc, name.as_str())?) {
            return Ok(false);
        }
    }
    Ok(true)
}

// Whether a request with this area is as depmod's.
fn is_of_index(roots: &Roots, request: &Request, directory: &Path, names: &[Text]) -> bool
    ensures { result ≡ (rule.is_kernel_name (name_in roots.now.modules directory.now) && pointwise bytes_eq names.now index_names
        && same_path request.now.dir roots.now.base && rule.same_paths request.now.seen (directory.now ∷ [])) }
{
    is_kernel_dir(roots, directory)
        && are_index_names(names)
        && is_same(&request.dir, &roots.base)
        && sees_alone(request.seen.as_slice(), directory)
}

// Whether a request may change its area.
fn is_fit(
    alloc: Global,
    roots: &Roots,
    drops: &PathSet,
    request: &Request,
) -> Result<bool, AllocError>
    ensures { IfOk result (λ fit. fit ≡ rule.is_fit_run roots.now drops.now request.now) }
{
    match &request.area {
        Area::Nothing => Ok(true),
        Area::Under(_) => Ok(false),
        Area::Names(directory, names) => {
            if is_of_index(roots, request, directory, names.as_slice()) {
                are_dropped(alloc, drops, directory, names.as_slice())
            } else {
                Ok(false)
            }
        }
    }
}

/// Whether each child that is run changes what one may change, where these are the Drops.
pub(crate) fn are_fit(
    alloc: Global,
    roots: &Roots,
    drops: &PathSet,
    changes: &[Change],
) -> Result<bool, AllocError>
    ensures { IfOk result (λ fit. fit ≡ list_all (rule.is_fit_run roots.now drops.now) (runs_in changes.now)) }
{
    for change in changes {
        if let Change::Run(request) = change
            && !is_fit(alloc, roots, drops, request)?
        {
            return Ok(false);
        }
    }
    Ok(true)
}
