// The order of modules.
ghost use Rattle.std.specs.Prelude.{◌≡◌, IfOk};
ghost use Rattle.kb_auto.specs.Order.{NamesDiffer, modules_in_order};

use crate::turns::{Turns, first_turns, release};
use crate::web::{Web, places_of, web_of};
use crate::{Listed, Placed};
use std::alloc::{AllocError, Global};

/// The modules of the list in their order: repeatedly the least name of those whose dependencies
/// are placed, and where there is none the least name that is left, as cyclic. A dependency that
/// isn't in the list isn't waited for, nor one of a module on itself.
pub fn order(alloc: Global, list: &[Listed]) -> Result<Vec<Placed>, AllocError>
    requires { NamesDiffer list.now }
    ensures { IfOk result (λ placed. placed.items ≡ modules_in_order list.now) }
{
    let places = places_of(alloc, list)?;
    let Web { waits, rows } = web_of(alloc, list, &places)?;
    let queue = first_turns(alloc, list, &waits)?;
    let mut turns = Turns { waits, queue };
    let mut placed = Vec::new(alloc);
    for _ in 0..list.len() {
        let Some(turn) = turns.queue.pop_first() else {
            return Ok(placed);
        };
        release(&mut turns, list, &rows[turn.place])?;
        placed.push(Placed {
            name: turn.name,
            cyclic: turn.cyclic,
        })?;
    }
    Ok(placed)
}
