// Why no intent is read.
ghost use Rattle.std.specs.Prelude.{◌≡◌};
ghost use Rattle.kb_journal.specs.declared.error.IntentError.TheVariants.{Damaged, NoMemory};

use kb_world::PathError;
use std::alloc::{AllocError, AllocFailed};

/// Why no intent is read.
#[derive(Clone, Copy, Debug, PartialEq, Eq)]
pub enum IntentError {
    /// No valid intent has this text.
    Damaged,
    NoMemory,
}

impl From<AllocError> for IntentError {
    ghost from_gives = { λ _ e. e ≡ NoMemory };

    fn from(_: AllocError) -> Self {
        IntentError::NoMemory
    }
}

impl<T: Drop> From<AllocFailed<T>> for IntentError {
    ghost from_gives = { λ _ e. e ≡ NoMemory };

    fn from(_: AllocFailed<T>) -> Self {
        IntentError::NoMemory
    }
}
