// Names that stand twice in a list, as one that is read from outside may have them.
ghost use Rattle.std.specs.Prelude.{◌↔◌, IfOk, IsTrue, MatchOption};
ghost use Rattle.kb_auto.specs.Order.{IsFirstDoubled, NamesDiffer};

use crate::Listed;
use std::alloc::{AllocError, Global};
use std::collections::BTreeMap;

/// The first place of the list whose name stands at an earlier one too.
pub fn first_doubled(alloc: Global, list: &[Listed]) -> Result<Option<usize>, AllocError>
    ensures { IfOk result (λ doubled. MatchOption doubled (NamesDiffer list.now) (IsFirstDoubled list.now)) }
{
    let mut places = BTreeMap::new(alloc);
    for (place, module) in list.iter().enumerate() {
        if places.insert(module.name.clone()?, place)?.is_some() {
            return Ok(Some(place));
        }
    }
    Ok(None)
}

/// Whether the names of the list differ, as `order` asks.
pub fn names_differ(alloc: Global, list: &[Listed]) -> Result<bool, AllocError>
    ensures { IfOk result (λ differ. IsTrue differ ↔ NamesDiffer list.now) }
{
    Ok(first_doubled(alloc, list)?.is_none())
}
