// Standard output and standard error as sinks.
ghost use Rattle.std.specs.Prelude.{◌≡◌};
ghost use Rattle.kb_real.specs.Untold.{untold_sink};

use crate::faults::Faults;
use crate::pieces::write_whole;
use kb_world::{Sink, SinkError};
use std::io::{Stderr, Stdout, Write};

/// A writer of the system, as standard output and standard error are. It doesn't tell what was written. A write takes
/// no memory, so all that goes wrong is a fault.
#[derive(Drop)]
pub struct StdSink<W> {
    writer: W,
    faults: Faults,
}

impl<W: Write> StdSink<W> {
    pub(crate) fn new(writer: W) -> StdSink<W>
        ensures { ⟦<StdSink<W> as Sink>⟧.state result ≡ untold_sink 0 }
    {
        StdSink {
            writer,
            faults: Faults::none(),
        }
    }
}

impl StdSink<Stdout> {
    /// Standard output, and no fault so far.
    pub fn out(rt: HostRuntime) -> StdSink<Stdout>
        ensures { ⟦<StdSink<Stdout> as Sink>⟧.state result ≡ untold_sink 0 }
    {
        StdSink::new(rt.stdout())
    }
}

impl StdSink<Stderr> {
    /// Standard error, and no fault so far.
    pub fn err(rt: HostRuntime) -> StdSink<Stderr>
        ensures { ⟦<StdSink<Stderr> as Sink>⟧.state result ≡ untold_sink 0 }
    {
        StdSink::new(rt.stderr())
    }
}

impl<W: Write> Sink for StdSink<W> {
    ghost use Rattle.kb_real.specs.Untold.{untold_sink};

    ghost state = { λ sink. untold_sink sink.faults };

    fn write(&mut self, bytes: &[u8]) -> Result<(), SinkError> {
        match write_whole(&mut self.writer, bytes) {
            Ok(()) => Ok(()),
            Err(_) => {
                self.faults.rise();
                Err(SinkError::Failed)
            }
        }
    }
}
