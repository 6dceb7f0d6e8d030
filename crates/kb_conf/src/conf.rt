//! What a conf says of a package.

use kb_world::{Key, Sequence, Text, Texts};

/// A module that is built and installed.
#[derive(Debug, Drop)]
pub struct Target {
    /// Its number in the conf.
    pub index: u64,
    /// The name of its file where it is built, without the ending `.ko`.
    pub built: Text,
    /// The names of the directories in the source that lead to it.
    pub location: Texts,
    /// The name of its file where it is installed, without the ending `.ko`.
    pub dest: Text,
    /// The names of the directories below the kernel's module directory that lead to it.
    pub dest_location: Texts,
    pub strip: bool,
}

/// A list of targets.
pub type Targets = Sequence<Target>;

/// A file in the source's directory `patches`, to be applied before the build.
#[derive(Debug, Drop)]
pub struct Patch {
    /// Its number in the conf.
    pub index: u64,
    pub file: Text,
}

/// A list of patches.
pub type Patches = Sequence<Patch>;

/// Scripts of the source, each with its words.
#[derive(Debug, Drop)]
pub struct Scripts {
    pub pre_build: Option<Text>,
    pub post_build: Option<Text>,
    pub pre_install: Option<Text>,
    pub post_install: Option<Text>,
    pub post_add: Option<Text>,
    pub post_remove: Option<Text>,
}

/// A `dkms.conf`, read for one kernel and architecture.
#[derive(Debug, Drop)]
pub struct Conf {
    /// The package that the conf says it is of.
    pub key: Key,
    pub targets: Targets,
    /// The patches for this kernel.
    pub patches: Patches,
    /// The command that builds.
    pub make: Text,
    /// The command that cleans up before and after a build.
    pub clean: Option<Text>,
    pub scripts: Scripts,
    /// The names of the packages that are built before this one.
    pub depends: Texts,
    /// The package isn't for this kernel, or isn't for this architecture.
    pub excluded: bool,
    pub autoinstall: bool,
    /// The names that are assigned and that this profile doesn't use.
    pub unused: Texts,
}
