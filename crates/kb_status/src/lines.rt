// Which lines there are.
ghost use Rattle.std.specs.Prelude.{◌≡◌, ◌++◌, IfOk, OnOk};
ghost use Rattle.kb_store.specs.Accessors.{is_installed_build};
ghost use Rattle.kb_store.specs.declared.store.Store.{Store};
ghost use Rattle.kb_status.specs.Built.{AreBuilt};
ghost use Rattle.kb_status.specs.Lines as rule;

use crate::built::{Package, built_packages, is_built};
use crate::filter::{wants_all_spots, wants_key, wants_spot};
use crate::line::{Line, State};
use kb_store::{Build, Store};
use kb_world::{Filter, Key, Spot};
use std::alloc::{AllocError, Global};
use std::collections::BTreeSet;

// Whether the added package has a line of its own, where these packages are built.
fn has_line(built: &BTreeSet<Package>, filter: &Filter, key: &Key) -> Result<bool, AllocError>
    ensures { IfOk result (λ has. (store : Store) → AreBuilt store built.now → has ≡ rule.has_line store filter.now key.now) }
{
    if wants_all_spots(filter) && wants_key(filter, key) {
        Ok(!is_built(built, key)?)
    } else {
        Ok(false)
    }
}

fn is_build_wanted(filter: &Filter, build: &Build) -> bool
    ensures { result ≡ rule.is_build_wanted filter.now build.now }
{
    wants_key(filter, &build.key) && wants_spot(filter, &build.spot)
}

fn is_installed(store: &Store, build: &Build) -> bool
    ensures { result ≡ is_installed_build store.now build.now }
{
    match store.installed(build.key.module.as_str(), &build.spot) {
        Some(version) => version.as_str() == build.key.version.as_str(),
        None => false,
    }
}

fn line_state(store: &Store, build: &Build) -> State
    ensures { result ≡ rule.line_state store.now build.now }
{
    if is_installed(store, build) {
        let files = store.kept(build.key.module.as_str(), &build.spot);
        State::Installed {
            kept: !files.is_empty(),
        }
    } else {
        State::Built
    }
}

fn line_of_added(key: &Key) -> Result<Line, AllocError>
    ensures { IfOk result (λ line. line ≡ rule.line_of_added key.now) }
{
    Ok(Line {
        key: key.clone()?,
        spot: None,
        state: State::Added,
    })
}

fn build_line(store: &Store, build: &Build) -> Result<Line, AllocError>
    ensures { IfOk result (λ line. line ≡ rule.build_line store.now build.now) }
{
    Ok(Line {
        key: build.key.clone()?,
        spot: Some(Spot {
            kernel: build.spot.kernel.clone()?,
            arch: build.spot.arch.clone()?,
        }),
        state: line_state(store, build),
    })
}

fn push_added(
    alloc: Global,
    lines: &mut Vec<Line>,
    store: &Store,
    filter: &Filter,
) -> Result<(), AllocError>
    ensures { OnOk result (
        lines.new.items ≡ lines.old.items ++ rule.added_lines store.now filter.now) }
{
    let built = built_packages(alloc, store)?;
    for key in store.added() {
        if has_line(&built, filter, key)? {
            lines.push(line_of_added(key)?)?;
        }
    }
    Ok(())
}

fn push_builds(lines: &mut Vec<Line>, store: &Store, filter: &Filter) -> Result<(), AllocError>
    ensures { OnOk result (
        lines.new.items ≡ lines.old.items ++ rule.build_lines store.now filter.now) }
{
    for build in store.builds() {
        if is_build_wanted(filter, build) {
            lines.push(build_line(store, build)?)?;
        }
    }
    Ok(())
}

/// The lines that the filter wants of the store, not yet in their order.
pub fn status_lines(alloc: Global, store: &Store, filter: &Filter) -> Result<Vec<Line>, AllocError>
    ensures { IfOk result (λ lines. lines.items ≡ rule.status_lines store.now filter.now) }
{
    let mut lines = Vec::new(alloc);
    push_added(alloc, &mut lines, store, filter)?;
    push_builds(&mut lines, store, filter)?;
    Ok(lines)
}
