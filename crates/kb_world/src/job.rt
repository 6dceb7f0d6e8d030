// What a command is about, and what it tells.
ghost use Rattle.std.specs.Prelude.{◌≡◌, Some};
ghost use Rattle.kb_world.specs.Job.{key_text, spot_text};

use crate::roots::Roots;
use crate::sequence::Sequence;
use crate::text::{Bytes, Text, Texts};
use std::alloc::AllocError;
use std::fmt;

/// A version of a module package, as `hello/1.0`: a module, which is an `is_word`, and a version, which is an
/// `is_version`.
#[derive(Debug, Drop)]
pub struct Key {
    pub module: Text,
    pub version: Text,
}

impl fmt::Display for Key {
    ghost output = { λ key. Some (key_text key) };

    fn fmt<W: fmt::Write>(&self, f: &mut fmt::Formatter<W>) -> fmt::Result {
        let module = &self.module;
        let version = &self.version;
        write!(f, "{module}/{version}")
    }
}

impl Clone for Key {
    ghost is_clone = { λ key made. made ≡ key };

    fn clone(&self) -> Result<Self, AllocError> {
        Ok(Key {
            module: self.module.clone()?,
            version: self.version.clone()?,
        })
    }
}

/// A kernel and an architecture, for which a package is built.
#[derive(Debug, Drop)]
pub struct Spot {
    pub kernel: Text,
    pub arch: Text,
}

impl fmt::Display for Spot {
    ghost output = { λ spot. Some (spot_text spot) };

    fn fmt<W: fmt::Write>(&self, f: &mut fmt::Formatter<W>) -> fmt::Result {
        let kernel = &self.kernel;
        let arch = &self.arch;
        write!(f, "{kernel}, {arch}")
    }
}

/// The spots that an action is for: those that the words list, or all where there is something to do.
#[derive(Debug, Drop)]
pub enum Spots {
    Listed(Sequence<Spot>),
    All,
}

/// Which status lines are wanted. A name that is absent, or an empty list, leaves nothing out.
#[derive(Debug, Drop)]
pub struct Filter {
    pub module: Option<Text>,
    pub version: Option<Text>,
    pub kernels: Texts,
    pub arches: Texts,
}

/// Where the entry token comes from, as `--entry-token=` of kernel-install(8) says.
#[derive(Debug, Drop)]
pub enum TokenChoice {
    Auto,
    MachineId,
    OsId,
    OsImageId,
    Literal(Text),
}

/// The kernel hook directories of Debian: before and after a kernel is put in place, and before and after it is
/// taken away.
#[derive(Clone, Copy, Debug, PartialEq, Eq)]
pub enum HookKind {
    Preinst,
    Postinst,
    Prerm,
    Postrm,
}

/// The machine that a command runs on: its running kernel, where that is known, its architecture and its roots.
#[derive(Debug, Drop)]
pub struct Host {
    pub kernel: Option<Text>,
    pub arch: Text,
    pub roots: Roots,
}

/// A command and where it runs.
#[derive(Debug, Drop)]
pub struct Job {
    pub host: Host,
    pub words: Texts,
}

/// What a command has to say so far, before any of it is written: the text for standard output and the text for
/// standard error.
#[derive(Debug, Drop)]
pub struct Report {
    pub out: Bytes,
    pub err: Bytes,
}
