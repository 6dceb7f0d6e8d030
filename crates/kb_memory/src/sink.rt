// A sink in memory.
ghost use Rattle.std.specs.Prelude.{◌≡◌, []};
ghost use Rattle.kb_world.specs.SinkState.{Writes};
ghost use Rattle.kb_memory.specs.Plan.{is_over};

use crate::failures::Failures;
use kb_world::{Bytes, Sink, SinkError};
use std::alloc::Global;

/// What was written, kept in memory, with the planned failures of writes. It tells what was written.
#[derive(Debug, Drop)]
pub struct MemorySink {
    written: Bytes,
    failures: Failures,
}

impl MemorySink {
    ghost use Rattle.kb_memory.specs.Sink.{sink_state_of, written_of, sink_plan_of, new_sink_state};

    /// A sink to which nothing was written, and no write is to fail.
    pub fn new(alloc: Global) -> MemorySink
        ensures state { sink_state_of result ≡ new_sink_state }
        ensures plan { sink_plan_of result ≡ [] }
    {
        MemorySink {
            written: Bytes::new(alloc),
            failures: Failures::none(alloc),
        }
    }

    /// Makes the writes with these numbers fail, counted from 1 from the next write on. Writes that were to fail
    /// before and aren't among them don't.
    pub fn fail_at(&mut self, calls: Vec<u64>)
        ensures state { sink_state_of self.new ≡ record (sink_state_of self.old) { steady = is_over calls.items } }
        ensures plan { sink_plan_of self.new ≡ calls.items }
    {
        self.failures.plan(calls);
    }

    /// All that was written.
    pub fn bytes(&self) -> &[u8]
        ensures { result.now ≡ written_of self.now }
    {
        self.written.as_slice()
    }
}

impl Sink for MemorySink {
    ghost use Rattle.kb_memory.specs.Sink.{sink_state_of, WriteFollowsPlan};

    ghost state = { sink_state_of };

    fn write(&mut self, bytes: &[u8]) -> Result<(), SinkError>
        ensures written { Writes bytes.now (sink_state_of self.old) (sink_state_of self.new) result }
        ensures plan { WriteFollowsPlan self.old self.new result }
    {
        if self.failures.next_fails() {
            return Err(SinkError::Failed);
        }
        match self.written.push(bytes) {
            Ok(()) => Ok(()),
            Err(_) => Err(SinkError::NoMemory),
        }
    }
}
