// How a call ends that doesn't do what it is for.
ghost use Rattle.std.specs.Prelude.{◌≡◌};
ghost use Rattle.kb_world.specs.Stop.{stop_for};
ghost use Rattle.kb_world.specs.declared.stop.Stop.TheVariants.{NoMemory};

use crate::refusal::Refusal;
use crate::world::WorldError;
use std::alloc::{AllocError, AllocFailed};

/// Why a call stops.
#[derive(Debug, Drop)]
pub enum Stop {
    /// For a named cause.
    Refused(Refusal),
    /// A call of the world failed. It comes only where the world's count of faults rose.
    Fault,
    /// There was no memory. Any call that takes memory may end so.
    NoMemory,
}

impl From<AllocError> for Stop {
    ghost from_gives = { λ _ stop. stop ≡ NoMemory };

    fn from(_: AllocError) -> Self {
        Stop::NoMemory
    }
}

impl<T: Drop> From<AllocFailed<T>> for Stop {
    ghost from_gives = { λ _ stop. stop ≡ NoMemory };

    fn from(_: AllocFailed<T>) -> Self {
        Stop::NoMemory
    }
}

impl From<WorldError> for Stop {
    ghost from_gives = { λ error stop. stop ≡ stop_for error };

    fn from(error: WorldError) -> Self {
        match error {
            WorldError::Failed => Stop::Fault,
            WorldError::NoMemory => Stop::NoMemory,
        }
    }
}
