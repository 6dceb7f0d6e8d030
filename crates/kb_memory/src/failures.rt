// Calls that are to fail, and how many have.
ghost use Rattle.std.specs.Prelude.{◌≡◌, ◌≤◌, [], true};
ghost use Rattle.kb_memory.specs.Plan.{is_due, after_call, risen};

use std::alloc::Global;

/// The planned failures of a world or a sink.
#[derive(Debug, Drop)]
pub struct Failures {
    /// The numbers of the calls that are to fail, counted from 1 from the next call on; 0 for those that are over.
    due: Vec<u64>,
    /// How often a call has failed; it stays at its greatest number.
    faults: u64,
}

impl Failures {
    /// No call is to fail, and none has.
    pub fn none(alloc: Global) -> Failures
        ensures due { result.due.items ≡ [] }
        ensures faults { result.faults ≡ 0 }
    {
        Failures {
            due: Vec::new(alloc),
            faults: 0,
        }
    }

    /// From now on the calls with these numbers are to fail, and no other.
    pub fn plan(&mut self, calls: Vec<u64>)
        ensures due { self.new.due.items ≡ calls.items }
        ensures faults { self.new.faults ≡ self.old.faults }
    {
        self.due = calls;
    }

    /// Counts the next call, and answers whether it fails.
    pub fn next_fails(&mut self) -> bool
        ensures fails { result ≡ is_due self.old.due.items }
        ensures due { self.new.due.items ≡ after_call self.old.due.items }
        ensures faults { self.new.faults ≡ risen result self.old.faults }
        ensures later { self.old.faults ≤ self.new.faults }
    {
        let fails = self.due.contains(&1);
        count_down(&mut self.due);
        if fails {
            self.rise();
        }
        fails
    }

    /// Something has failed that isn't among those calls.
    pub fn rise(&mut self)
        ensures due { self.new.due.items ≡ self.old.due.items }
        ensures faults { self.new.faults ≡ risen true self.old.faults }
        ensures later { self.old.faults ≤ self.new.faults }
    {
        self.faults = self.faults.saturating_add(1);
    }
}

// One call is over.
fn count_down(due: &mut Vec<u64>)
    ensures { due.new.items ≡ after_call due.old.items }
{
    for number in due.iter_mut() {
        *number = number.saturating_sub(1);
    }
}
