// The tool's own paths, which a walk of the store neither counts nor enters.
ghost use Rattle.kb_world.specs.Public.{is_private};
ghost use Rattle.kb_walk.specs.PrivateLaws.{private_below};

use crate::walking::Skips;
use kb_world::{Path, Roots, is_private};

/// Under these roots, the private paths are skipped.
impl Skips for Roots {
    ghost skips = { is_private };

    fn skips(&self, path: &Path) -> bool {
        is_private(self, path)
    }

    ghost deeper = { private_below };
}
