// Where text goes: standard output and standard error.
ghost use Rattle.kb_world.specs.SinkState.{SinkState, Writes};

/// Why a write didn't take its whole piece.
#[derive(Clone, Copy, Debug, PartialEq, Eq)]
pub enum SinkError {
    /// The outside failed, after a part of the piece or none.
    Failed,
    /// Nothing was written.
    NoMemory,
}

/// A place that takes bytes, piece by piece.
pub trait Sink {
    /// All that the sink means: what was written, its count of faults, and whether it is steady.
    ghost state: { Self → SinkState };

    /// Appends a piece.
    fn write(&mut self, bytes: &[u8]) -> Result<(), SinkError>
        ensures { Writes bytes.now (state self.old) (state self.new) result };
}
