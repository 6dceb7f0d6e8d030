// Where the parts of a package stand, and what is in the way of its link.
ghost use Rattle.std.specs.Prelude.{◌≡◌, IfOk, IsTrue};
ghost use Rattle.kb_world.specs.Read.{Decides};
ghost use Rattle.kb_world.specs.Store.{is_key};
ghost use Rattle.kb_dkms.specs.Places.{package_places, standing, blocked_by, place_blocked};

use kb_world::{Key, Kind, Path, Refusal, Roots, Stop, Text, World};
use std::alloc::{AllocError, Global};

/// Where the parts of a package stand.
#[derive(Drop)]
pub(crate) struct Places {
    pub(crate) module: Path,
    pub(crate) version: Path,
    pub(crate) link: Path,
    pub(crate) source: Path,
    /// What the link says.
    pub(crate) text: Text,
}

pub(crate) fn find_places(alloc: Global, roots: &Roots, key: &Key) -> Result<Places, AllocError>
    requires { IsTrue (is_key key.now) }
    ensures { IfOk result (λ places. places ≡ package_places roots.now key.now) }
{
    let source = roots.source_dir(alloc, key)?;
    Ok(Places {
        module: roots.module_dir(alloc, &key.module)?,
        version: roots.version_dir(alloc, key)?,
        link: roots.source_link(alloc, key)?,
        text: source.text(alloc)?,
        source,
    })
}

/// Refused where something stands at the version's link.
pub(crate) fn require_unadded<W: World>(
    alloc: Global,
    world: &mut W,
    key: &Key,
    link: &Path,
) -> Result<(), Stop>
    ensures { Decides (standing key.now link.now) (W.state world.old) (W.state world.new) result }
{
    match world.look(alloc, link)? {
        Kind::Absent => Ok(()),
        _ => Err(Stop::Refused(Refusal::AlreadyAdded { key: key.clone()? })),
    }
}

// Refused where a file or a link stands at the path.
fn require_passable<W: World>(alloc: Global, world: &mut W, path: &Path) -> Result<(), Stop>
    ensures { Decides (blocked_by path.now) (W.state world.old) (W.state world.new) result }
{
    match world.look(alloc, path)? {
        Kind::Absent | Kind::Dir => Ok(()),
        _ => Err(Stop::Refused(Refusal::Damaged {
            path: path.clone()?,
        })),
    }
}

/// Refused where a file or a link stands where the version's link needs a directory.
pub(crate) fn require_unblocked<W: World>(
    alloc: Global,
    world: &mut W,
    places: &Places,
) -> Result<(), Stop>
    ensures { Decides (place_blocked places.now) (W.state world.old) (W.state world.new) result }
{
    require_passable(alloc, world, &places.module)?;
    require_passable(alloc, world, &places.version)
}
