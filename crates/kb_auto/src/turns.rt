// The modules that are left, in the order of their turns.
ghost use Rattle.std.specs.Prelude.{◌≡◌, ◌<◌, ◌≤◌, ◌+◌, ◌-◌, ℕ, Bool, IfOk, OnOk, length, vec_len, slice_index, slice_set, nat_lt};
ghost use Rattle.kb_auto.specs.Queue.{Queues, occurs};

use crate::Listed;
use kb_world::Text;
use std::alloc::{AllocError, Global};
use std::collections::BTreeSet;

/// A module that is left. Those that wait for no dependency come first.
#[derive(Debug, Drop, PartialEq, Eq, PartialOrd, Ord)]
pub(crate) struct Turn {
    pub cyclic: bool,
    pub name: Text,
    pub place: usize,
}

/// For each module how many dependencies it waits for, and the turns of those that are left.
#[derive(Drop)]
pub(crate) struct Turns {
    pub waits: Vec<usize>,
    pub queue: BTreeSet<Turn>,
}

/// The turns of all modules of the list.
pub(crate) fn first_turns(
    alloc: Global,
    list: &[Listed],
    waits: &[usize],
) -> Result<BTreeSet<Turn>, AllocError>
    requires { length waits.now ≡ length list.now }
    ensures { IfOk result (Queues list.now waits.now (λ k. nat_lt k (length list.now))) }
{
    let mut queue = BTreeSet::new(alloc);
    for (place, module) in list.iter().enumerate() {
        let name = module.name.clone()?;
        let cyclic = waits[place] > 0;
        queue.insert(Turn {
            cyclic,
            name,
            place,
        })?;
    }
    Ok(queue)
}

// One dependency of a module is placed. With its last one the module waits no longer.
fn free(turns: &mut Turns, list: &[Listed], place: usize) -> Result<(), AllocError>
    requires within { place < length list.now }
    requires waits_len { vec_len turns.old.waits ≡ length list.now }
    requires positive { 0 < slice_index turns.old.waits.items place }
    ensures waits { OnOk result (turns.new.waits.items ≡ slice_set turns.old.waits.items place (slice_index turns.old.waits.items place - 1)) }
    ensures queue { OnOk result ((left : ℕ → Bool) → Queues list.now turns.old.waits.items left turns.old.queue → Queues list.now turns.new.waits.items left turns.new.queue) }
{
    turns.waits[place] -= 1;
    if turns.waits[place] > 0 {
        return Ok(());
    }
    let name = list[place].name.clone()?;
    let mut turn = Turn {
        cyclic: true,
        name,
        place,
    };
    if turns.queue.remove(&turn) {
        turn.cyclic = false;
        turns.queue.insert(turn)?;
    }
    Ok(())
}

/// A dependency of these modules is placed, once for each time that they stand here.
pub(crate) fn release(turns: &mut Turns, list: &[Listed], row: &[usize]) -> Result<(), AllocError>
    requires waits_len { vec_len turns.old.waits ≡ length list.now }
    requires within { (k : ℕ) → length list.now ≤ k → occurs k row.now ≡ 0 }
    requires enough { (k : ℕ) → occurs k row.now ≤ slice_index turns.old.waits.items k }
    ensures len { OnOk result (vec_len turns.new.waits ≡ length list.now) }
    ensures waits { OnOk result ((k : ℕ) → slice_index turns.new.waits.items k + occurs k row.now ≡ slice_index turns.old.waits.items k) }
    ensures queue { OnOk result ((left : ℕ → Bool) → Queues list.now turns.old.waits.items left turns.old.queue → Queues list.now turns.new.waits.items left turns.new.queue) }
{
    for place in row {
        free(turns, list, *place)?;
    }
    Ok(())
}
