// The sources: where they stand, and what stands there.
ghost use Rattle.std.specs.Prelude.{◌≡◌, ◌+◌, Some, IfOk, List, ℕ, slice_get, map, IsTrue};
ghost use Rattle.kb_world.specs.Names.{is_name};
ghost use Rattle.std.specs.Option.{ForSome, option_copied};
ghost use Rattle.kb_world.specs.State.{Looks};
ghost use Rattle.kb_token.specs.Sources as rule;

use kb_world::{Kind, Path, Roots, Text, World, WorldError};
use std::alloc::{AllocError, Global};
use std::marker::Model;
use std::str;

// The longest source, in bytes.
const LONGEST_SOURCE: usize = 65_536;

/// The files that the boot facts are read from.
#[derive(Clone, Copy, Debug, PartialEq, Eq)]
pub enum Source {
    MachineId,
    Release,
    VendorRelease,
    EntryToken,
    InstallConf,
    VendorInstallConf,
    EntriesSrel,
    Cmdline,
    VendorCmdline,
    OwnCmdline,
    Tries,
}

/// The sources in the order of reading.
pub const SOURCES: [Source; 11] = [
    Source::MachineId,
    Source::Release,
    Source::VendorRelease,
    Source::EntryToken,
    Source::InstallConf,
    Source::VendorInstallConf,
    Source::EntriesSrel,
    Source::Cmdline,
    Source::VendorCmdline,
    Source::OwnCmdline,
    Source::Tries,
];

// The file of this name in the directory of kernel-install below the root.
fn kernel_install_path(alloc: Global, root: &Path, name: &str) -> Result<Path, AllocError>
    requires { IsTrue (is_name name.now) }
    ensures { IfOk result (λ path. path ≡ rule.kernel_install_path root.now name.now) }
{
    root.child(alloc, "kernel")?.child(alloc, name)
}

impl Source {
    // Its number in the order of reading, from 0.
    fn place(self) -> usize
        ensures { result ≡ rule.place self }
    {
        self as usize
    }

    /// Where the source stands.
    pub fn path(self, alloc: Global, roots: &Roots) -> Result<Path, AllocError>
        ensures { IfOk result (λ path. path ≡ rule.path_of_source roots.now self) }
    {
        match self {
            Source::MachineId => roots.etc.child(alloc, "machine-id"),
            Source::Release => roots.etc.child(alloc, "os-release"),
            Source::VendorRelease => roots.lib.child(alloc, "os-release"),
            Source::EntryToken => kernel_install_path(alloc, &roots.etc, "entry-token"),
            Source::InstallConf => kernel_install_path(alloc, &roots.etc, "install.conf"),
            Source::VendorInstallConf => kernel_install_path(alloc, &roots.lib, "install.conf"),
            Source::EntriesSrel => roots
                .boot
                .child(alloc, "loader")?
                .child(alloc, "entries.srel"),
            Source::Cmdline => kernel_install_path(alloc, &roots.etc, "cmdline"),
            Source::VendorCmdline => kernel_install_path(alloc, &roots.lib, "cmdline"),
            Source::OwnCmdline => roots.proc.child(alloc, "cmdline"),
            Source::Tries => kernel_install_path(alloc, &roots.etc, "tries"),
        }
    }
}

/// What stands at a source. Only a regular file of UTF-8 that isn't too large is there.
#[derive(Debug, Drop)]
pub enum Content {
    Absent,
    TooLarge,
    NotText,
    Text(Text),
}

fn content_of(alloc: Global, bytes: &[u8]) -> Result<Content, AllocError>
    ensures { IfOk result (λ content. content ≡ rule.content_of (Some bytes.now)) }
{
    if bytes.len() > LONGEST_SOURCE {
        return Ok(Content::TooLarge);
    }
    match str::from_utf8(bytes) {
        Ok(text) => Ok(Content::Text(Text::of(alloc, text)?)),
        Err(_) => Ok(Content::NotText),
    }
}

fn read_content<W: World>(alloc: Global, world: &mut W, path: &Path) -> Result<Content, WorldError>
    ensures content { IfOk result (λ content. ForSome (W.state world.old).tree (λ tree.
        content ≡ rule.content_at tree path.now)) }
    ensures same { Looks (W.state world.old) (W.state world.new) result }
{
    match world.look(alloc, path)? {
        Kind::File { len, .. } => {
            if len > LONGEST_SOURCE as u64 {
                return Ok(Content::TooLarge);
            }
            let bytes = world.read(alloc, path)?;
            Ok(content_of(alloc, bytes.as_slice())?)
        }
        _ => Ok(Content::Absent),
    }
}

/// What stands at the sources, in the order of reading.
#[derive(Debug, Drop)]
pub struct Sources {
    contents: Vec<Content>,
}

impl Model for Sources {
    ghost use Rattle.std.specs.Prelude.{List};
    ghost use Rattle.kb_token.specs.declared.sources.Content.{Content};

    ghost Value = { List Content };

    ghost view = { λ s. s.contents.items };
}

impl Sources {
    /// Reads each source once.
    pub fn read<W: World>(
        alloc: Global,
        world: &mut W,
        roots: &Roots,
    ) -> Result<Sources, WorldError>
        ensures contents { IfOk result (λ sources. ForSome (W.state world.old).tree (λ tree.
            sources ≡ map (rule.contents_in roots.now tree) rule.all_sources)) }
        ensures same { Looks (W.state world.old) (W.state world.new) result }
    {
        let mut contents = Vec::new(alloc);
        for source in SOURCES {
            let path = source.path(alloc, roots)?;
            contents.push(read_content(alloc, world, &path)?)?;
        }
        Ok(Sources { contents })
    }

    fn content(&self, source: Source) -> Option<&Content>
        ensures { option_copied result ≡ slice_get self.now (rule.place source) }
    {
        self.contents.get(source.place())
    }

    /// The text of a source that is there.
    #[tactic(auto, unfolding(crate::specs::Sources::contents_of))]
    pub fn text(&self, source: Source) -> Option<&str>
        ensures { option_copied result ≡ rule.text_in (rule.contents_of self.now source) }
    {
        match self.content(source) {
            Some(Content::Text(text)) => Some(text.as_str()),
            _ => None,
        }
    }

    #[tactic(auto, unfolding(crate::specs::Sources::contents_of))]
    pub fn is_too_large(&self, source: Source) -> bool
        ensures { result ≡ rule.is_too_large (rule.contents_of self.now source) }
    {
        matches!(self.content(source), Some(Content::TooLarge))
    }

    #[tactic(auto, unfolding(crate::specs::Sources::contents_of))]
    pub fn is_not_text(&self, source: Source) -> bool
        ensures { result ≡ rule.is_not_text (rule.contents_of self.now source) }
    {
        matches!(self.content(source), Some(Content::NotText))
    }
}
