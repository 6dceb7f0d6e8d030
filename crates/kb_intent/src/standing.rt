// What stands at a path, asked by a look.
ghost use Rattle.std.specs.Prelude.{◌≡◌, not, IfOk, is_some};
ghost use Rattle.std.specs.Option.{ForSome};
ghost use Rattle.kb_world.specs.State.{Looks};
ghost use Rattle.kb_world.specs.Tree.{node_at, is_dir, is_leaf};

use kb_world::{Kind, Path, World, WorldError};
use std::alloc::Global;

/// Whether a directory stands there.
pub fn is_directory<W: World>(alloc: Global, world: &mut W, path: &Path) -> Result<bool, WorldError>
    ensures told { IfOk result (λ told. ForSome (W.state world.old).tree (λ tree. told ≡ is_dir (node_at tree path.now))) }
    ensures same { Looks (W.state world.old) (W.state world.new) result }
{
    Ok(matches!(world.look(alloc, path)?, Kind::Dir))
}

/// Whether a file or a link stands there.
pub fn is_leaf<W: World>(alloc: Global, world: &mut W, path: &Path) -> Result<bool, WorldError>
    ensures told { IfOk result (λ told. ForSome (W.state world.old).tree (λ tree. told ≡ is_leaf (node_at tree path.now))) }
    ensures same { Looks (W.state world.old) (W.state world.new) result }
{
    Ok(matches!(world.look(alloc, path)?, Kind::File { .. } | Kind::Link))
}

/// Whether nothing stands there.
pub fn is_free<W: World>(alloc: Global, world: &mut W, path: &Path) -> Result<bool, WorldError>
    ensures told { IfOk result (λ told. ForSome (W.state world.old).tree (λ tree. told ≡ not (is_some (node_at tree path.now)))) }
    ensures same { Looks (W.state world.old) (W.state world.new) result }
{
    Ok(matches!(world.look(alloc, path)?, Kind::Absent))
}
