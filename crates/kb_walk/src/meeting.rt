// What is below a directory that is to be copied.
ghost use Rattle.std.specs.Prelude.{◌≡◌, IfOk, IsErrOf, None, true};
ghost use Rattle.std.specs.Option.{ForSome, option_map};
ghost use Rattle.kb_world.specs.Read.{Agrees, Decides};
ghost use Rattle.kb_world.specs.Tree.{node_at, is_dir};
ghost use Rattle.kb_world.specs.declared.refusal.Refusal.TheVariants as refusal;
ghost use Rattle.kb_world.specs.declared.stop.Stop.TheVariants.{Fault};
ghost use Rattle.kb_walk.specs.Copy.{first_too_large_to_copy, too_much_met, is_too_large_to_copy};
ghost use Rattle.kb_walk.specs.Walking as walking;

use crate::walking::{LIMITS, Met, Skips, Walk, walk_below};
use kb_world::{Kind, Path, Refusal, Sequence, Stop, World};
use std::alloc::Global;

// The size in bytes of the largest file that is copied.
const LARGEST_FILE: u64 = 268_435_456;

fn is_too_large(kind: Kind) -> bool
    ensures { result ≡ is_too_large_to_copy kind }
{
    match kind {
        Kind::File { len, .. } => len > LARGEST_FILE,
        Kind::Absent | Kind::Dir | Kind::Link => false,
    }
}

// Refused at the first file that is too large to be copied.
fn require_small(met: &[Met]) -> Result<(), Stop>
    ensures agrees { Agrees result (option_map refusal.TooLarge (first_too_large_to_copy met.now)) }
    ensures faultless { IsErrOf result Fault → ⊥ }
{
    for entry in met {
        if is_too_large(entry.kind) {
            return Err(Stop::Refused(Refusal::TooLarge {
                path: entry.path.clone()?,
            }));
        }
    }
    Ok(())
}

/// What stands below a directory that is to be copied, in the order of paths, but for what is skipped. Refused where
/// that is more than a walk may meet, and at the first file that is too large.
pub fn meet_to_copy<W: World, S: Skips>(
    alloc: Global,
    world: &mut W,
    skips: &S,
    from: &Path,
) -> Result<Sequence<Met>, Stop>
    requires { ForSome (W.state world.old).tree (λ tree. is_dir (node_at tree from.now) ≡ true) }
    ensures decides { Decides (λ tree. too_much_met (walking.walked walking.LIMITS tree (S.skips skips.now) from.now)) (W.state world.old) (W.state world.new) result }
    ensures met { IfOk result (λ met. ForSome (W.state world.old).tree (λ tree. met ≡ (walking.walked walking.LIMITS tree (S.skips skips.now) from.now).met)) }
{
    let Walk { met, over } = walk_below(alloc, world, skips, from, LIMITS)?;
    match over {
        None => {}
        Some(path) => return Err(Stop::Refused(Refusal::TooMany { path })),
    }
    match require_small(met.as_slice()) {
        Ok(()) => Ok(met),
        Err(stop) => Err(stop),
    }
}
