// What a walk below a version neither counts nor enters.
ghost use Rattle.std.specs.Prelude.{◌≡◌};
ghost use Rattle.kb_store.specs.Notes.{is_deep, is_far};
ghost use Rattle.kb_store.specs.PrivateLaws.{far_below};

use kb_walk::Skips;
use kb_world::{Path, Roots, is_private};

/// Below a version, paths that are private or more than three names deeper are skipped: behind those nothing tells of a
/// store.
#[derive(Drop)]
pub(crate) struct Shallow<'a> {
    pub(crate) roots: &'a Roots,
    pub(crate) directory: &'a Path,
}

impl Shallow<'_> {
    fn is_deep(&self, path: &Path) -> bool
        ensures { result ≡ is_deep self.now.directory.now path.now }
    {
        match path.below(self.directory) {
            Some(names) => names.len() > 3,
            None => false,
        }
    }
}

impl Skips for Shallow<'_> {
    ghost skips = { λ it path. is_far it.roots.now it.directory.now path };

    fn skips(&self, path: &Path) -> bool {
        is_private(self.roots, path) || self.is_deep(path)
    }

    ghost deeper = { λ it path more. far_below it.roots.now it.directory.now path more };
}
