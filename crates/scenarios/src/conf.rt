// What is printed of a conf.

use crate::error::LineError;
use crate::store::print_stop;
use crate::text::Page;
use crate::world_calls::SceneWorld;
use kb_conf::{Conf, Given, Patch, Scripts, Target};
use kb_world::{Path, Text, Texts};
use std::alloc::{AllocError, Global};

// Adds a path of directories and a module's file.
fn print_module(
    alloc: Global,
    page: &mut Page,
    directories: &Texts,
    name: &Text,
) -> Result<(), AllocError> {
    page.plain(" ")?;
    for directory in directories.as_slice() {
        page.plain(&format!(in alloc; "{directory}/")?)?;
    }
    page.plain(&format!(in alloc; "{name}.ko")?)
}

fn print_target(alloc: Global, page: &mut Page, target: &Target) -> Result<(), AllocError> {
    page.plain(&format!(in alloc; "target {}", target.index)?)?;
    print_module(alloc, page, &target.location, &target.built)?;
    print_module(alloc, page, &target.dest_location, &target.dest)?;
    page.plain(if target.strip { " strip\n" } else { " whole\n" })
}

fn print_patch(alloc: Global, page: &mut Page, patch: &Patch) -> Result<(), AllocError> {
    let front = format!(in alloc; "patch {} ", patch.index)?;
    page.line(alloc, &front, patch.file.as_str().as_bytes())
}

fn print_command(
    alloc: Global,
    page: &mut Page,
    front: &str,
    command: &Option<Text>,
) -> Result<(), AllocError> {
    match command {
        Some(text) => page.line(alloc, front, text.as_str().as_bytes()),
        None => Ok(()),
    }
}

fn print_scripts(alloc: Global, page: &mut Page, scripts: &Scripts) -> Result<(), AllocError> {
    print_command(alloc, page, "pre-build ", &scripts.pre_build)?;
    print_command(alloc, page, "post-build ", &scripts.post_build)?;
    print_command(alloc, page, "pre-install ", &scripts.pre_install)?;
    print_command(alloc, page, "post-install ", &scripts.post_install)?;
    print_command(alloc, page, "post-add ", &scripts.post_add)?;
    print_command(alloc, page, "post-remove ", &scripts.post_remove)
}

fn print_each(
    alloc: Global,
    page: &mut Page,
    front: &str,
    texts: &Texts,
) -> Result<(), AllocError> {
    for text in texts.as_slice() {
        page.line(alloc, front, text.as_str().as_bytes())?;
    }
    Ok(())
}

fn print_flags(page: &mut Page, conf: &Conf) -> Result<(), AllocError> {
    if conf.excluded {
        page.plain("excluded\n")?;
    }
    if conf.autoinstall {
        page.plain("autoinstall\n")?;
    }
    Ok(())
}

fn print_fields(alloc: Global, page: &mut Page, conf: &Conf) -> Result<(), AllocError> {
    page.plain(&format!(in alloc; "package {}\n", conf.key)?)?;
    for target in conf.targets.as_slice() {
        print_target(alloc, page, target)?;
    }
    for patch in conf.patches.as_slice() {
        print_patch(alloc, page, patch)?;
    }
    page.line(alloc, "make ", conf.make.as_str().as_bytes())?;
    print_command(alloc, page, "clean ", &conf.clean)?;
    print_scripts(alloc, page, &conf.scripts)?;
    print_each(alloc, page, "depends ", &conf.depends)?;
    print_flags(page, conf)?;
    print_each(alloc, page, "unused ", &conf.unused)
}

/// Adds the fields of the conf in the directory, or the refusal.
pub fn print_conf(
    alloc: Global,
    world: &mut SceneWorld,
    directory: &Path,
    given: &Given,
    page: &mut Page,
) -> Result<(), LineError> {
    match world.conf(alloc, directory, given) {
        Ok(conf) => Ok(print_fields(alloc, page, &conf)?),
        Err(stop) => print_stop(alloc, page, &stop),
    }
}
