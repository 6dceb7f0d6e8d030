// What is asked of the boot facts.

use crate::error::LineError;
use crate::store::print_stop;
use crate::text::Page;
use crate::world_calls::SceneWorld;
use kb_token::{BootFacts, Layout, choose_layout};
use kb_world::{Roots, Text, TokenChoice};
use std::alloc::{AllocError, Global};

fn print_text(
    alloc: Global,
    page: &mut Page,
    front: &str,
    text: &Option<Text>,
) -> Result<(), AllocError> {
    match text {
        Some(text) => page.line(alloc, front, text.as_str().as_bytes()),
        None => page.line(alloc, front, b"-"),
    }
}

fn name_of(layout: &Layout) -> &'static str {
    match layout {
        Layout::Bls => "bls",
        Layout::Uki => "uki",
        Layout::Other => "other",
        Layout::Auto => "auto",
    }
}

fn print_tries(alloc: Global, page: &mut Page, tries: Option<u32>) -> Result<(), AllocError> {
    match tries {
        Some(tries) => page.plain(&format!(in alloc; "tries {tries}\n")?),
        None => page.plain("tries -\n"),
    }
}

fn print_found(alloc: Global, page: &mut Page, facts: &BootFacts) -> Result<(), AllocError> {
    page.line(alloc, "token ", facts.token.as_str().as_bytes())?;
    print_text(alloc, page, "machine-id ", &facts.machine_id)?;
    page.line(alloc, "layout ", name_of(&facts.layout).as_bytes())?;
    print_text(alloc, page, "title ", &facts.title)?;
    print_text(alloc, page, "sort-key ", &facts.sort_key)?;
    page.line(alloc, "options ", facts.options.as_str().as_bytes())?;
    print_tries(alloc, page, facts.tries)?;
    for warning in facts.warnings.as_slice() {
        page.line(alloc, "", warning.as_str().as_bytes())?;
    }
    Ok(())
}

/// Adds the boot facts of the world, or the refusal.
pub fn print_facts(
    alloc: Global,
    world: &mut SceneWorld,
    roots: &Roots,
    choice: &TokenChoice,
    page: &mut Page,
) -> Result<(), LineError> {
    match world.facts(alloc, roots, choice) {
        Ok(facts) => Ok(print_found(alloc, page, &facts)?),
        Err(stop) => print_stop(alloc, page, &stop),
    }
}

// The layout of this name, which isn't read from a file here.
fn layout_of(name: &str) -> Layout {
    match name {
        "bls" => Layout::Bls,
        "uki" => Layout::Uki,
        "auto" => Layout::Auto,
        _ => Layout::Other,
    }
}

/// Adds the layout that is chosen where this one is asked for. The text of `loader/entries.srel` is a dash where it
/// isn't there.
pub fn print_layout(
    page: &mut Page,
    asked: &str,
    srel: &str,
    has_directory: bool,
) -> Result<(), AllocError> {
    let srel = if srel == "-" { None } else { Some(srel) };
    page.plain(name_of(&choose_layout(&layout_of(asked), srel, has_directory)))?;
    page.plain("\n")
}
