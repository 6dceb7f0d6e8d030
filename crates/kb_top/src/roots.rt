// The roots that a command needs.
ghost use Rattle.kb_world.specs.Read.{Decides};
ghost use Rattle.kb_top.specs.Machine.{no_root, no_roots_of_add};

use kb_world::{Kind, Path, Refusal, Roots, Stop, World};
use std::alloc::Global;

/// Refused where a root that the command needs isn't a directory.
pub fn require_root<W: World>(alloc: Global, world: &mut W, path: &Path) -> Result<(), Stop>
    ensures { Decides (no_root path.now) (W.state world.old) (W.state world.new) result }
{
    match world.look(alloc, path)? {
        Kind::Dir => Ok(()),
        _ => Err(Stop::Refused(Refusal::NoRoot {
            path: path.clone()?,
        })),
    }
}

/// Refused where a root that `dkms add` needs isn't a directory.
pub fn require_roots_of_add<W: World>(
    alloc: Global,
    world: &mut W,
    roots: &Roots,
) -> Result<(), Stop>
    ensures { Decides (no_roots_of_add roots.now) (W.state world.old) (W.state world.new) result }
{
    require_root(alloc, world, &roots.dkms)?;
    require_root(alloc, world, &roots.src)
}
