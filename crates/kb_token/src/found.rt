// Each fact: the first of its sources that gives one.
ghost use Rattle.std.specs.Prelude.{◌≡◌, IfOk};
ghost use Rattle.kb_token.specs.Facts as rule;
ghost use Rattle.kb_token.specs.Sources.{contents_of};

use crate::layout::{Layout, conf_layout, layout_named};
use crate::options::{options_of, own_options_of};
use crate::release::release_value;
use crate::sources::{Source, Sources};
use crate::token::{machine_id_of, token_line};
use crate::tries::tries_of;
use kb_world::{Text, TokenChoice};
use std::alloc::{AllocError, Global};

pub fn machine_id(alloc: Global, sources: &Sources) -> Result<Option<Text>, AllocError>
    ensures { IfOk result (λ id. id ≡ rule.machine_id (contents_of sources.now)) }
{
    match sources.text(Source::MachineId) {
        Some(text) => machine_id_of(alloc, text),
        None => Ok(None),
    }
}

/// The value that the first os-release that is there gives the key.
pub fn release(alloc: Global, sources: &Sources, key: &str) -> Result<Option<Text>, AllocError>
    ensures { IfOk result (λ value. value ≡ rule.release (contents_of sources.now) key.now) }
{
    match sources
        .text(Source::Release)
        .or(sources.text(Source::VendorRelease))
    {
        Some(text) => release_value(alloc, key, text),
        None => Ok(None),
    }
}

/// The name of the image, or of the operating system.
pub fn os_token(alloc: Global, sources: &Sources) -> Result<Option<Text>, AllocError>
    ensures { IfOk result (λ token. token ≡ rule.os_token (contents_of sources.now)) }
{
    match release(alloc, sources, "IMAGE_ID")? {
        Some(id) => Ok(Some(id)),
        None => release(alloc, sources, "ID"),
    }
}

fn entry_token(alloc: Global, sources: &Sources) -> Result<Option<Text>, AllocError>
    ensures { IfOk result (λ token. token ≡ rule.entry_token (contents_of sources.now)) }
{
    match sources.text(Source::EntryToken) {
        Some(text) => token_line(alloc, text),
        None => Ok(None),
    }
}

fn automatic_token(alloc: Global, sources: &Sources) -> Result<Option<Text>, AllocError>
    ensures { IfOk result (λ token. token ≡ rule.automatic_token (contents_of sources.now)) }
{
    if let Some(token) = entry_token(alloc, sources)? {
        return Ok(Some(token));
    }
    if let Some(id) = machine_id(alloc, sources)? {
        return Ok(Some(id));
    }
    os_token(alloc, sources)
}

pub fn chosen_token(
    alloc: Global,
    sources: &Sources,
    choice: &TokenChoice,
) -> Result<Option<Text>, AllocError>
    ensures { IfOk result (λ token.
        token ≡ rule.chosen_token (contents_of sources.now) choice.now) }
{
    match choice {
        TokenChoice::Auto => automatic_token(alloc, sources),
        TokenChoice::MachineId => machine_id(alloc, sources),
        TokenChoice::OsId => release(alloc, sources, "ID"),
        TokenChoice::OsImageId => release(alloc, sources, "IMAGE_ID"),
        TokenChoice::Literal(text) => Ok(Some(text.clone()?)),
    }
}

fn layout_in(alloc: Global, sources: &Sources, source: Source) -> Result<Option<Text>, AllocError>
    ensures { IfOk result (λ name. name ≡ rule.layout_in (contents_of sources.now) source) }
{
    match sources.text(source) {
        Some(text) => conf_layout(alloc, text),
        None => Ok(None),
    }
}

/// The layout that the first install.conf asks for that has one.
pub fn asked_layout(alloc: Global, sources: &Sources) -> Result<Layout, AllocError>
    ensures { IfOk result (λ layout. layout ≡ rule.asked_layout (contents_of sources.now)) }
{
    if let Some(name) = layout_in(alloc, sources, Source::InstallConf)? {
        return Ok(layout_named(name.as_str()));
    }
    match layout_in(alloc, sources, Source::VendorInstallConf)? {
        Some(name) => Ok(layout_named(name.as_str())),
        None => Ok(Layout::Auto),
    }
}

/// The options of the first command line that is there; without one they are empty.
pub fn options(alloc: Global, sources: &Sources) -> Result<Text, AllocError>
    ensures { IfOk result (λ options. options ≡ rule.options (contents_of sources.now)) }
{
    if let Some(text) = sources
        .text(Source::Cmdline)
        .or(sources.text(Source::VendorCmdline))
    {
        return options_of(alloc, text);
    }
    match sources.text(Source::OwnCmdline) {
        Some(text) => own_options_of(alloc, text),
        None => Text::of(alloc, ""),
    }
}

pub fn tries(sources: &Sources) -> Option<u32>
    ensures { result ≡ rule.tries (contents_of sources.now) }
{
    match sources.text(Source::Tries) {
        Some(text) => tries_of(text),
        None => None,
    }
}
