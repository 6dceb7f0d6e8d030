// Where files are staged.
ghost use Rattle.std.specs.Prelude.{◌≡◌, ◌<◌, ◌^◌, IfOk};
ghost use Rattle.std.specs.Fmt.{decimal};
ghost use Rattle.kb_world.specs.Path.{child};
ghost use Rattle.kb_world.specs.Public.{staging_path};
ghost use Rattle.kb_changes.specs.Change as rule;
ghost use Rattle.kb_changes.specs.Changes as changes_rule;

use crate::change::RootName;
use kb_world::{Path, Roots, Text};
use std::alloc::{AllocError, Global};

/// The root of this name.
pub(crate) fn root_path<'a>(roots: &'a Roots, root: RootName) -> &'a Path
    ensures { result.now ≡ rule.root_path roots.now root }
{
    match root {
        RootName::Dkms => &roots.dkms,
        RootName::Src => &roots.src,
        RootName::Modules => &roots.modules,
        RootName::Boot => &roots.boot,
    }
}

/// The root that a path is put below: the first of the written roots that it is in, else boot.
pub(crate) fn root_of(roots: &Roots, path: &Path) -> RootName
    ensures { result ≡ changes_rule.root_of roots.now path.now }
{
    if path.is_under(&roots.dkms) {
        RootName::Dkms
    } else if path.is_under(&roots.src) {
        RootName::Src
    } else if path.is_under(&roots.modules) {
        RootName::Modules
    } else {
        RootName::Boot
    }
}

fn number_name(alloc: Global, number: u64) -> Result<Text, AllocError>
    ensures { IfOk result (λ name. name ≡ decimal number) }
{
    Ok(Text::from_string(format!(in alloc; "{number}")?))
}

/// Where the staged file or link of this number stands below a root, until it is put.
pub fn staged_path(
    alloc: Global,
    roots: &Roots,
    root: RootName,
    number: u64,
) -> Result<Path, AllocError>
    ensures { IfOk result (λ path. path ≡ rule.staged_path roots.now root number) }
{
    let name = number_name(alloc, number)?;
    root_path(roots, root)
        .child(alloc, ".kb-staged")?
        .child(alloc, name.as_str())
}
