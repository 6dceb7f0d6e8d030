// The parts of an action of dkms, in any order.
ghost use Rattle.std.specs.Prelude.{◌≡◌, cond, IfOk, Some, None};
ghost use Rattle.std.specs.Option.{option_or};
ghost use Rattle.kb_world.specs.Read.{IsRead};
ghost use Rattle.kb_world.specs.declared.stop.Stop.TheVariants as stop;
ghost use Rattle.kb_world.specs.declared.refusal.Refusal.TheVariants as refusal;
ghost use Rattle.kb_words.specs.Words.{Package, BareModule};
ghost use Rattle.kb_words.specs.Reading as spec;
ghost use Rattle.kb_words.specs.declared.parts.Argument.TheVariants as argument;

use crate::command::Command;
use crate::package::{is_bare_module, split_package, split_spot};
use kb_world::{Filter, Key, Refusal, Stop, Text, Texts, is_arch, is_kernel, is_version, is_word};
use std::alloc::{AllocError, Global};

/// The actions of dkms behind which parts stand.
#[derive(Clone, Copy, Debug)]
pub enum DkmsAction {
    Add,
    Status,
}

/// What the word behind an option is.
#[derive(Clone, Copy, Debug)]
pub enum Argument {
    Module,
    Version,
    /// A kernel, or a kernel and an architecture.
    Kernel,
    Arch,
}

/// What the words of the parts read so far say.
#[derive(Debug, Drop)]
pub struct Seen {
    pub action: DkmsAction,
    /// What the next word is, where the last one was an option.
    pub awaited: Option<Argument>,
    pub module: Option<Text>,
    pub version: Option<Text>,
    /// The module stands in a word of its own, and so without a version.
    pub bare: bool,
    pub kernels: Texts,
    pub arches: Texts,
    /// The first name that breaks its rule.
    pub bad: Option<Text>,
}

/// No command line: refused with this place.
pub fn usage(place: u64) -> Stop
    ensures { result ≡ stop.Refused (refusal.Usage place) }
{
    Stop::Refused(Refusal::Usage { place })
}

// What the next word is, where this one is an option.
fn argument_behind(word: &str) -> Option<Argument>
    ensures { result ≡ spec.argument_behind word.now }
{
    if word == "-m" {
        Some(Argument::Module)
    } else if word == "-v" {
        Some(Argument::Version)
    } else if word == "-k" {
        Some(Argument::Kernel)
    } else if word == "-a" {
        Some(Argument::Arch)
    } else {
        None
    }
}

impl DkmsAction {
    // Whether the action has an option with this argument.
    fn takes(self, argument: Argument) -> bool
        ensures { result ≡ spec.takes self argument }
    {
        match self {
            DkmsAction::Add => match argument {
                Argument::Module | Argument::Version => true,
                Argument::Kernel | Argument::Arch => false,
            },
            DkmsAction::Status => true,
        }
    }

    // Whether a module may stand alone behind the action.
    fn takes_bare_module(self) -> bool
        ensures { result ≡ spec.takes_bare_module self }
    {
        match self {
            DkmsAction::Add => false,
            DkmsAction::Status => true,
        }
    }
}

// The first name that breaks its rule: the one known so far, or else this one.
fn bad_so_far(known: Option<Text>, keeps: bool, name: &Text) -> Result<Option<Text>, AllocError>
    ensures { IfOk result (λ bad. bad ≡ option_or known (cond keeps None (Some name.now))) }
{
    match known {
        Some(first) => Ok(Some(first)),
        None => {
            if keeps {
                Ok(None)
            } else {
                Ok(Some(name.clone()?))
            }
        }
    }
}

impl Seen {
    /// Behind the action, before the first part.
    pub fn nothing(alloc: Global, action: DkmsAction) -> Self
        ensures { result ≡ spec.nothing action }
    {
        Seen {
            action,
            awaited: None,
            module: None,
            version: None,
            bare: false,
            kernels: Texts::new(alloc),
            arches: Texts::new(alloc),
            bad: None,
        }
    }

    fn with_module(self, name: Text) -> Result<Self, AllocError>
        ensures { IfOk result (λ seen. seen ≡ spec.with_module self name) }
    {
        let bad = bad_so_far(self.bad, is_word(name.as_str()), &name)?;
        Ok(Seen {
            awaited: None,
            module: Some(name),
            bad,
            ..self
        })
    }

    fn with_version(self, name: Text) -> Result<Self, AllocError>
        ensures { IfOk result (λ seen. seen ≡ spec.with_version self name) }
    {
        let bad = bad_so_far(self.bad, is_version(name.as_str()), &name)?;
        Ok(Seen {
            awaited: None,
            version: Some(name),
            bad,
            ..self
        })
    }

    fn with_kernel(self, name: Text) -> Result<Self, AllocError>
        ensures { IfOk result (λ seen. seen ≡ spec.with_kernel self name) }
    {
        let bad = bad_so_far(self.bad, is_kernel(name.as_str()), &name)?;
        let mut kernels = self.kernels;
        kernels.push(name)?;
        Ok(Seen {
            awaited: None,
            kernels,
            bad,
            ..self
        })
    }

    fn with_arch(self, name: Text) -> Result<Self, AllocError>
        ensures { IfOk result (λ seen. seen ≡ spec.with_arch self name) }
    {
        let bad = bad_so_far(self.bad, is_arch(name.as_str()), &name)?;
        let mut arches = self.arches;
        arches.push(name)?;
        Ok(Seen {
            awaited: None,
            arches,
            bad,
            ..self
        })
    }

    // With a module and a version.
    fn with_package(self, module: Text, version: Text) -> Result<Self, AllocError>
        ensures { IfOk result (λ seen. seen
            ≡ spec.with_part self (Package (record { «module» = «module»; version = version }))) }
    {
        self.with_module(module)?.with_version(version)
    }

    // With a module that stands in a word of its own.
    fn with_bare_module(self, name: Text) -> Result<Self, AllocError>
        ensures { IfOk result (λ seen. seen ≡ spec.with_part self (BareModule name)) }
    {
        let seen = self.with_module(name)?;
        Ok(Seen { bare: true, ..seen })
    }

    // With the word behind `-k`.
    fn with_kernel_word(self, alloc: Global, word: &str) -> Result<Self, AllocError>
        ensures { IfOk result (λ seen. seen
            ≡ spec.with_part self (spec.part_behind argument.Kernel word.now)) }
    {
        match split_spot(word) {
            Some((kernel, arch)) => {
                let seen = self.with_kernel(Text::of(alloc, kernel)?)?;
                seen.with_arch(Text::of(alloc, arch)?)
            }
            None => self.with_kernel(Text::of(alloc, word)?),
        }
    }

    // With the word behind an option.
    fn with_argument(self, alloc: Global, it: Argument, word: &str) -> Result<Self, AllocError>
        ensures { IfOk result (λ seen. seen ≡ spec.with_part self (spec.part_behind it word.now)) }
    {
        match it {
            Argument::Module => self.with_module(Text::of(alloc, word)?),
            Argument::Version => self.with_version(Text::of(alloc, word)?),
            Argument::Kernel => self.with_kernel_word(alloc, word),
            Argument::Arch => self.with_arch(Text::of(alloc, word)?),
        }
    }

    // Whether a part names the module, or the version, or leaves no room for it.
    fn is_given(&self, it: Argument) -> bool
        ensures { result ≡ spec.given self.now it }
    {
        match it {
            Argument::Module => self.module.is_some(),
            Argument::Version => self.version.is_some() || self.bare,
            Argument::Kernel | Argument::Arch => false,
        }
    }

    // With an option, where the action has it and there is room for its part.
    fn with_option(self, it: Argument) -> Option<Self>
        ensures { result ≡ spec.with_option self it }
    {
        if self.action.takes(it) && !self.is_given(it) {
            Some(Seen {
                awaited: Some(it),
                ..self
            })
        } else {
            None
        }
    }

    // With a part in one word, where nothing else names the module or the version.
    fn with_word(self, alloc: Global, word: &str) -> Result<Option<Self>, AllocError>
        ensures { IfOk result (λ seen. seen ≡ spec.with_word self (spec.part_in word.now)) }
    {
        if self.is_given(Argument::Module) || self.is_given(Argument::Version) {
            return Ok(None);
        }
        if let Some((module, version)) = split_package(word) {
            let (module, version) = (Text::of(alloc, module)?, Text::of(alloc, version)?);
            return Ok(Some(self.with_package(module, version)?));
        }
        if self.action.takes_bare_module() && is_bare_module(word) {
            return Ok(Some(self.with_bare_module(Text::of(alloc, word)?)?));
        }
        Ok(None)
    }

    /// With one word more, where some command line goes on so.
    pub fn after(self, alloc: Global, word: &str) -> Result<Option<Self>, AllocError>
        ensures { IfOk result (λ seen. seen ≡ spec.seen_after self word.now) }
    {
        match self.awaited {
            Some(it) => Ok(Some(self.with_argument(alloc, it, word)?)),
            None => match argument_behind(word) {
                Some(it) => Ok(self.with_option(it)),
                None => self.with_word(alloc, word),
            },
        }
    }

    /// The command, where the words end here. Refused with this place where no command line does,
    /// and then for the first name that breaks its rule.
    pub fn end(mut self, place: u64) -> Result<Command, Stop>
        ensures { IsRead result (spec.read_line place (spec.ended_parts self)) }
    {
        if self.awaited.is_some() {
            return Err(usage(place));
        }
        let bad = self.bad.take();
        let Some(command) = self.command() else {
            return Err(usage(place));
        };
        match bad {
            Some(name) => Err(Stop::Refused(Refusal::BadName { name })),
            None => Ok(command),
        }
    }

    // The command, where the words may end behind a whole part.
    fn command(self) -> Option<Command>
        ensures { result ≡ spec.command_of self }
    {
        let Seen {
            action,
            module,
            version,
            kernels,
            arches,
            ..
        } = self;
        match action {
            DkmsAction::Add => match (module, version) {
                (Some(module), Some(version)) => Some(Command::Add {
                    key: Key { module, version },
                }),
                _ => None,
            },
            DkmsAction::Status => {
                if version.is_some() && module.is_none() {
                    return None;
                }
                Some(Command::Status {
                    filter: Filter {
                        module,
                        version,
                        kernels,
                        arches,
                    },
                })
            }
        }
    }
}
