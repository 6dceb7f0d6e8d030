// Why a command is refused. Each refusal has a number, which is the exit status, and a line of its own.
ghost use Rattle.std.specs.Prelude.{◌≡◌, IfOk, Some};
ghost use Rattle.kb_world.specs.Refusal as line;

use crate::job::{Key, Spot};
use crate::path::Path;
use crate::text::Text;
use std::alloc::{AllocError, Global};
use std::fmt;

/// Why a command is refused. The value that a refusal carries is the one that stands where its cause does.
#[derive(Debug, Drop)]
pub enum Refusal {
    /// 1: the words are no command line. `place` counts from 1: it is one more than the length of the longest list
    /// of first words that some command line begins with.
    Usage { place: u64 },
    /// 2: a word, token or initrd name breaks its rule.
    BadName { name: Text },
    /// 3: the version isn't added.
    NotAdded { key: Key },
    /// 4: the version is added already.
    AlreadyAdded { key: Key },
    /// 5: the source directory, or the `dkms.conf` in it, isn't there.
    NoSource { path: Path },
    /// 6: the place of the source is taken.
    SourceThere { path: Path },
    /// 7: the first bad line of `dkms.conf`, counted from 1.
    ConfLine { line: u64 },
    /// 8: a name that `dkms.conf` must have isn't there.
    ConfMissing { name: Text },
    /// 9: the first bad value of `dkms.conf`.
    ConfValue { name: Text },
    /// 10: `dkms.conf` is of this package, which isn't the one asked for.
    ConfMismatch { key: Key },
    /// 11: `dkms.conf` excludes the package from a spot that is to be built.
    Excluded { key: Key, spot: Spot },
    /// 12: the kernel's module directory isn't there.
    NoKernel { path: Path },
    /// 13: the version is built at every spot asked for.
    AlreadyBuilt { key: Key },
    /// 14: the version is built at no spot asked for.
    NotBuilt { key: Key },
    /// 15: the version is installed at every spot asked for.
    AlreadyInstalled { key: Key },
    /// 16: the version is installed at no spot asked for.
    NotInstalled { key: Key },
    /// 17: the build left no file for this module.
    NoModule { name: Text },
    /// 18: another module has a file of this name installed, at this place.
    Claimed { path: Path, module: Text },
    /// 19: what stands here was changed by somebody else.
    Changed { path: Path },
    /// 20: a file of the tool isn't as the tool writes it, or something stands in the way of the next step.
    Damaged { path: Path },
    /// 21: a child program ended with this code, which isn't 0.
    ChildFailed { which: Text, code: u8 },
    /// 22: the image or an initrd isn't a regular file.
    NoImage { path: Path },
    /// 23: no source gives an entry token.
    NoToken,
    /// 24: the image or an initrd lies inside the entry's own directory.
    ImageInside { path: Path },
    /// 25: a file is longer than its limit.
    TooLarge { path: Path },
    /// 26: archives of packages are not supported.
    Archive { word: Text },
    /// 27: a root that the command needs isn't a directory.
    NoRoot { path: Path },
    /// 28: a directory tree has too many entries, or is too deep, from this path on.
    TooMany { path: Path },
}

impl Refusal {
    /// The number of the refusal, from 1 to 28, which is the program's exit status.
    pub fn number(&self) -> u8
        ensures { result ≡ line.number_of self.now }
    {
        match self {
            Refusal::Usage { .. } => 1,
            Refusal::BadName { .. } => 2,
            Refusal::NotAdded { .. } => 3,
            Refusal::AlreadyAdded { .. } => 4,
            Refusal::NoSource { .. } => 5,
            Refusal::SourceThere { .. } => 6,
            Refusal::ConfLine { .. } => 7,
            Refusal::ConfMissing { .. } => 8,
            Refusal::ConfValue { .. } => 9,
            Refusal::ConfMismatch { .. } => 10,
            Refusal::Excluded { .. } => 11,
            Refusal::NoKernel { .. } => 12,
            Refusal::AlreadyBuilt { .. } => 13,
            Refusal::NotBuilt { .. } => 14,
            Refusal::AlreadyInstalled { .. } => 15,
            Refusal::NotInstalled { .. } => 16,
            Refusal::NoModule { .. } => 17,
            Refusal::Claimed { .. } => 18,
            Refusal::Changed { .. } => 19,
            Refusal::Damaged { .. } => 20,
            Refusal::ChildFailed { .. } => 21,
            Refusal::NoImage { .. } => 22,
            Refusal::NoToken => 23,
            Refusal::ImageInside { .. } => 24,
            Refusal::TooLarge { .. } => 25,
            Refusal::Archive { .. } => 26,
            Refusal::NoRoot { .. } => 27,
            Refusal::TooMany { .. } => 28,
        }
    }
}

impl fmt::Display for Refusal {
    ghost output = { λ refusal. Some (line.refusal_text refusal) };

    fn fmt<W: fmt::Write>(&self, f: &mut fmt::Formatter<W>) -> fmt::Result {
        match self {
            Refusal::Usage { place } => write!(f, "usage error at word {place}"),
            Refusal::BadName { name } => write!(f, "bad name: {name}"),
            Refusal::NotAdded { key } => write!(f, "{key}: not added"),
            Refusal::AlreadyAdded { key } => write!(f, "{key}: already added"),
            Refusal::NoSource { path } => write!(f, "no source: {path}"),
            Refusal::SourceThere { path } => write!(f, "source exists: {path}"),
            Refusal::ConfLine { line } => write!(f, "dkms.conf line {line}"),
            Refusal::ConfMissing { name } => write!(f, "dkms.conf lacks {name}"),
            Refusal::ConfValue { name } => write!(f, "dkms.conf has a bad {name}"),
            Refusal::ConfMismatch { key } => write!(f, "dkms.conf is of {key}"),
            Refusal::Excluded { key, spot } => write!(f, "{key}: not for {spot}"),
            Refusal::NoKernel { path } => write!(f, "no kernel: {path}"),
            Refusal::AlreadyBuilt { key } => write!(f, "{key}: already built"),
            Refusal::NotBuilt { key } => write!(f, "{key}: not built"),
            Refusal::AlreadyInstalled { key } => write!(f, "{key}: already installed"),
            Refusal::NotInstalled { key } => write!(f, "{key}: not installed"),
            Refusal::NoModule { name } => write!(f, "the build left no {name}.ko"),
            Refusal::Claimed { path, module } => write!(f, "{path}: belongs to {module}"),
            Refusal::Changed { path } => write!(f, "{path}: changed"),
            Refusal::Damaged { path } => write!(f, "{path}: damaged"),
            Refusal::ChildFailed { which, code } => write!(f, "{which} ended with {code}"),
            Refusal::NoImage { path } => write!(f, "no image: {path}"),
            Refusal::NoToken => write!(f, "no entry token"),
            Refusal::ImageInside { path } => write!(f, "{path}: inside the entry directory"),
            Refusal::TooLarge { path } => write!(f, "{path}: too large"),
            Refusal::Archive { word } => write!(f, "archives are not supported: {word}"),
            Refusal::NoRoot { path } => write!(f, "no directory: {path}"),
            Refusal::TooMany { path } => write!(f, "{path}: too many entries"),
        }
    }
}

/// The line that standard error ends with where a command is refused, its line feed included.
pub fn message(alloc: Global, refusal: &Refusal) -> Result<Text, AllocError>
    ensures { IfOk result (λ text. text ≡ line.message_of refusal.now) }
{
    Ok(Text::from_string(format!(in alloc; "kmodboot: {refusal}\n")?))
}

/// The line of a call of the world that failed.
pub fn fault_line() -> &'static str
    ensures { result.now ≡ line.fault_line }
{
    "kmodboot: a file or program call failed\n"
}

/// The line of a command that found no memory.
pub fn no_memory_line() -> &'static str
    ensures { result.now ≡ line.no_memory_line }
{
    "kmodboot: out of memory\n"
}

/// The line of a KMODBOOT_ROOT that is no path.
pub fn bad_root_line() -> &'static str
    ensures { result.now ≡ line.bad_root_line }
{
    "kmodboot: bad KMODBOOT_ROOT\n"
}

/// The line of a KMODBOOT_BOOT that can't be a root.
pub fn bad_boot_line() -> &'static str
    ensures { result.now ≡ line.bad_boot_line }
{
    "kmodboot: bad KMODBOOT_BOOT\n"
}
