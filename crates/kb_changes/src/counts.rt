// How much is staged below each root.
ghost use Rattle.std.specs.Prelude.{◌≡◌, ◌+◌, ◌<◌, ◌^◌};
ghost use Rattle.kb_changes.specs.Counts.{count_below, none_counted, one_more};

use crate::change::RootName;

/// How many files and links are staged below each root: the next one's number is the count of its
/// root.
#[derive(Debug, Drop)]
pub struct Counts {
    pub dkms: u64,
    pub src: u64,
    pub modules: u64,
    pub boot: u64,
}

impl Counts {
    /// None below any root.
    pub fn none() -> Counts
        ensures { result ≡ none_counted }
    {
        Counts {
            dkms: 0,
            src: 0,
            modules: 0,
            boot: 0,
        }
    }

    /// How many below this root.
    pub fn below(&self, root: RootName) -> u64
        ensures { result ≡ count_below self.now root }
    {
        match root {
            RootName::Dkms => self.dkms,
            RootName::Src => self.src,
            RootName::Modules => self.modules,
            RootName::Boot => self.boot,
        }
    }

    /// Counts one more below this root.
    pub fn count(&mut self, root: RootName)
        requires { count_below self.old root + 1 < 2 ^ 64 }
        ensures { self.new ≡ one_more root self.old }
    {
        match root {
            RootName::Dkms => self.dkms += 1,
            RootName::Src => self.src += 1,
            RootName::Modules => self.modules += 1,
            RootName::Boot => self.boot += 1,
        }
    }
}
