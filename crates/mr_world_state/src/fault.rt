//! Why a world does not take an event.
ghost use Rattle.std.specs.Prelude.{◌≡◌};
ghost use Rattle.mr_world_state.specs.declared.fault.WorldFault.TheVariants.{NoMemory};

use mr_world_events::Why;
use std::alloc::{AllocError, AllocFailed};
use thiserror::Error;

/// Why a world does not take an event. Nothing has changed then.
#[derive(Clone, Copy, Debug, PartialEq, Eq, Error)]
pub enum WorldFault {
    /// It is not permitted now, for this reason, the first that applies.
    #[error("{0}")]
    NotNow(Why),
    /// It would pass a limit of the world.
    #[error("Full")]
    Full,
    /// Memory was refused (allocation failure).
    #[error("NoMemory")]
    NoMemory,
}

impl WorldFault {
    /// What is left of it where a world has no refusal: a want of memory.
    pub fn wants_memory(self) -> AllocError
        requires { self ≡ WorldFault.NoMemory }
    {
        match self {
            WorldFault::NoMemory => AllocError,
            WorldFault::NotNow(_) => unreachable!(),
            WorldFault::Full => unreachable!(),
        }
    }
}

impl From<AllocError> for WorldFault {
    ghost from_gives = { λ _ e. e ≡ NoMemory };

    fn from(_e: AllocError) -> WorldFault {
        WorldFault::NoMemory
    }
}

impl<T: Drop> From<AllocFailed<T>> for WorldFault {
    ghost from_gives = { λ _ e. e ≡ NoMemory };

    fn from(_e: AllocFailed<T>) -> WorldFault {
        WorldFault::NoMemory
    }
}
