// What is printed of the store below the dkms root.
ghost use Rattle.kb_world.specs.Roots.{AreApart};

use crate::ask::{joined, print_places};
use crate::error::LineError;
use crate::line::Claimed;
use crate::text::Page;
use crate::world_calls::SceneWorld;
use kb_store::{Build, Store};
use kb_walk::Met;
use kb_world::{Refusal, Roots, Spot, Stop, Text};
use std::alloc::{AllocError, Global};

/// Adds why a call stopped.
pub fn print_stop(alloc: Global, page: &mut Page, stop: &Stop) -> Result<(), LineError> {
    match stop {
        Stop::Refused(refusal) => Ok(print_refusal(alloc, page, refusal)?),
        Stop::Fault => Err(LineError::World),
        Stop::NoMemory => Err(LineError::Memory(AllocError)),
    }
}

fn print_refusal(alloc: Global, page: &mut Page, refusal: &Refusal) -> Result<(), AllocError> {
    let front = format!(in alloc; "refused {} ", refusal.number())?;
    page.line(alloc, &front, format!(in alloc; "{refusal}")?.as_bytes())
}

fn print_build(alloc: Global, page: &mut Page, build: &Build) -> Result<(), AllocError> {
    let Spot { kernel, arch } = &build.spot;
    page.plain(&format!(in alloc; "built {} {kernel} {arch}\n", build.key)?)?;
    print_places(alloc, page, " ", build.targets.as_slice())
}

// Adds the build's version where it is the one that is installed.
fn print_installed(
    alloc: Global,
    page: &mut Page,
    store: &Store,
    build: &Build,
) -> Result<(), AllocError> {
    let Spot { kernel, arch } = &build.spot;
    match store.installed(build.key.module.as_str(), &build.spot) {
        Some(version) if version.as_str() == build.key.version.as_str() => {
            page.plain(&format!(in alloc; "installed {} {kernel} {arch}\n", build.key)?)
        }
        _ => Ok(()),
    }
}

// Adds the files that a module displaced for a spot, if there are any.
fn print_kept(
    alloc: Global,
    page: &mut Page,
    store: &Store,
    module: &Text,
    spot: &Spot,
) -> Result<(), AllocError> {
    let kept = store.kept(module.as_str(), spot);
    if kept.is_empty() {
        return Ok(());
    }
    let Spot { kernel, arch } = spot;
    page.plain(&format!(in alloc; "kept {module} {kernel} {arch}\n")?)?;
    print_places(alloc, page, " ", kept)
}

// Adds what is kept in the directory that was met, where it is one of a spot.
fn print_chest(
    alloc: Global,
    page: &mut Page,
    store: &Store,
    roots: &Roots,
    met: &Met,
) -> Result<(), AllocError> {
    match met.path.below(&roots.dkms) {
        Some([module, chests, kernel, arch]) if chests.as_str() == "original_module" => {
            let spot = Spot {
                kernel: kernel.clone()?,
                arch: arch.clone()?,
            };
            print_kept(alloc, page, store, module, &spot)
        }
        _ => Ok(()),
    }
}

fn print_parts(alloc: Global, page: &mut Page, store: &Store) -> Result<(), AllocError> {
    for key in store.added() {
        page.plain(&format!(in alloc; "added {key}\n")?)?;
    }
    for build in store.builds() {
        print_build(alloc, page, build)?;
    }
    for build in store.builds() {
        print_installed(alloc, page, store, build)?;
    }
    Ok(())
}

fn print_whole(
    alloc: Global,
    world: &mut SceneWorld,
    roots: &Roots,
    store: &Store,
    page: &mut Page,
) -> Result<(), LineError> {
    print_parts(alloc, page, store)?;
    for met in world.walk(alloc, roots)?.as_slice() {
        print_chest(alloc, page, store, roots, met)?;
    }
    Ok(())
}

/// Adds the added packages, the builds with their places, the installed versions and the kept files, or the refusal.
pub fn print_store(
    alloc: Global,
    world: &mut SceneWorld,
    roots: &Roots,
    page: &mut Page,
) -> Result<(), LineError>
    requires { AreApart roots.now }
{
    match world.store(alloc, roots) {
        Ok(store) => print_whole(alloc, world, roots, &store, page),
        Err(stop) => print_stop(alloc, page, &stop),
    }
}

fn print_claim(
    alloc: Global,
    page: &mut Page,
    store: &Store,
    claimed: &Claimed,
) -> Result<(), AllocError> {
    let Claimed {
        kernel,
        file,
        module,
        arch,
    } = claimed;
    match store.claimant(
        kernel.as_str(),
        file.as_str(),
        module.as_str(),
        arch.as_str(),
    ) {
        Some(claim) => {
            let place = joined(alloc, claim.path)?;
            page.plain(&format!(in alloc; "{} {place}\n", claim.module)?)
        }
        None => page.plain("none\n"),
    }
}

/// Adds who else claims a file, or the refusal of the store.
pub fn print_claimant(
    alloc: Global,
    world: &mut SceneWorld,
    roots: &Roots,
    claimed: &Claimed,
    page: &mut Page,
) -> Result<(), LineError>
    requires { AreApart roots.now }
{
    match world.store(alloc, roots) {
        Ok(store) => Ok(print_claim(alloc, page, &store, claimed)?),
        Err(stop) => print_stop(alloc, page, &stop),
    }
}
