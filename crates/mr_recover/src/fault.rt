//! Why a master that starts gets no recovery plan.
ghost use Rattle.std.specs.Prelude.{◌≡◌};
ghost use Rattle.mr_recover.specs.declared.fault.RecoverFault.TheVariants.{NoMemory};

use std::alloc::{AllocError, AllocFailed};
use thiserror::Error;

/// Why there is no recovery plan.
#[derive(Clone, Copy, Debug, PartialEq, Eq, Error)]
pub enum RecoverFault {
    /// Memory was refused.
    #[error("NoMemory")]
    NoMemory,
}

impl From<AllocError> for RecoverFault {
    ghost from_gives = { λ _ e. e ≡ NoMemory };

    fn from(_e: AllocError) -> RecoverFault {
        RecoverFault::NoMemory
    }
}

impl<T: Drop> From<AllocFailed<T>> for RecoverFault {
    ghost from_gives = { λ _ e. e ≡ NoMemory };

    fn from(_e: AllocFailed<T>) -> RecoverFault {
        RecoverFault::NoMemory
    }
}
