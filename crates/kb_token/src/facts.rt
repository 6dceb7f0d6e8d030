// The boot facts.
ghost use Rattle.std.specs.Prelude.{◌≡◌, IfOk};
ghost use Rattle.std.specs.Option.{ForSome};
ghost use Rattle.kb_world.specs.Read.{Gives, IsRead};
ghost use Rattle.kb_world.specs.State.{Looks};
ghost use Rattle.kb_world.specs.Tree.{node_at, is_dir};
ghost use Rattle.kb_token.specs.Facts as rule;
ghost use Rattle.kb_token.specs.Sources.{contents_of, all_sources};

use crate::found::{asked_layout, chosen_token, machine_id, options, os_token, release, tries};
use crate::layout::{Layout, choose_layout};
use crate::sources::{SOURCES, Source, Sources};
use crate::token::token_of;
use crate::warnings::warnings_of;
use kb_world::{Kind, Path, Refusal, Roots, Stop, Text, Texts, TokenChoice, World, WorldError};
use std::alloc::{AllocError, Global};

/// What the boot files of a kernel are made from. The layout is the one to use, so it is never
/// `Auto`. The title is the name of the operating system, and the sort key that of its image,
/// else of the system. A warning is a line without its line feed.
#[derive(Debug, Drop)]
pub struct BootFacts {
    pub token: Text,
    pub machine_id: Option<Text>,
    pub layout: Layout,
    pub title: Option<Text>,
    pub sort_key: Option<Text>,
    pub options: Text,
    pub tries: Option<u32>,
    pub warnings: Texts,
}

// The refusal of the first source that is too large.
fn first_too_large(
    alloc: Global,
    roots: &Roots,
    sources: &Sources,
) -> Result<Option<Refusal>, AllocError>
    ensures { IfOk result (λ due.
        due ≡ rule.first_too_large roots.now (contents_of sources.now) all_sources) }
{
    for source in SOURCES {
        if sources.is_too_large(source) {
            let path = source.path(alloc, roots)?;
            return Ok(Some(Refusal::TooLarge { path }));
        }
    }
    Ok(None)
}

fn token_from(
    alloc: Global,
    roots: &Roots,
    sources: &Sources,
    choice: &TokenChoice,
) -> Result<Text, Stop>
    ensures { IsRead result (rule.token_from roots.now (contents_of sources.now) choice.now) }
{
    if let Some(refusal) = first_too_large(alloc, roots, sources)? {
        return Err(Stop::Refused(refusal));
    }
    token_of(chosen_token(alloc, sources, choice)?)
}

fn is_directory<W: World>(alloc: Global, world: &mut W, path: &Path) -> Result<bool, WorldError>
    ensures directory { IfOk result (λ is. ForSome (W.state world.old).tree (λ tree.
        is ≡ is_dir (node_at tree path.now))) }
    ensures same { Looks (W.state world.old) (W.state world.new) result }
{
    match world.look(alloc, path)? {
        Kind::Dir => Ok(true),
        _ => Ok(false),
    }
}

fn facts_with(
    alloc: Global,
    roots: &Roots,
    sources: &Sources,
    token: Text,
    token_dir: bool,
) -> Result<BootFacts, AllocError>
    ensures { IfOk result (λ facts.
        facts ≡ rule.facts_with roots.now (contents_of sources.now) token token_dir) }
{
    let asked = asked_layout(alloc, sources)?;
    let layout = choose_layout(&asked, sources.text(Source::EntriesSrel), token_dir);
    Ok(BootFacts {
        token,
        machine_id: machine_id(alloc, sources)?,
        layout,
        title: release(alloc, sources, "PRETTY_NAME")?,
        sort_key: os_token(alloc, sources)?,
        options: options(alloc, sources)?,
        tries: tries(sources),
        warnings: warnings_of(alloc, roots, sources)?,
    })
}

/// The boot facts, after kernel-install(8). Each source that is a regular file is read once, also
/// where another source or the choice decides. Refused where a source has more than 65,536 bytes,
/// for the first of them in the order of reading, then where no source gives a token, and then
/// where the token can't be one. It changes nothing.
pub fn boot_facts<W: World>(
    alloc: Global,
    world: &mut W,
    roots: &Roots,
    choice: &TokenChoice,
) -> Result<BootFacts, Stop>
    ensures { Gives (rule.facts roots.now choice.now) (W.state world.old) (W.state world.new)
        result }
{
    let sources = Sources::read(alloc, world, roots)?;
    let token = match token_from(alloc, roots, &sources, choice) {
        Ok(token) => token,
        Err(stop) => return Err(stop),
    };
    let directory = roots.boot.child(alloc, token.as_str())?;
    let token_dir = is_directory(alloc, world, &directory)?;
    Ok(facts_with(alloc, roots, &sources, token, token_dir)?)
}
