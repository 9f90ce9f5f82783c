//! Why a function of a job, or a reading of bytes, gives no answer, and why a gate lets no work pass.
ghost use Rattle.std.specs.Prelude.{◌≡◌};
ghost use Rattle.mr_user.specs.declared.fault.UserFault.TheVariants.{NoMemory};

use std::alloc::{AllocError, AllocFailed};
use thiserror::Error;

/// Why a function of a job, or a reading of bytes, gives no answer.
#[derive(Clone, Copy, Debug, PartialEq, Eq, Error)]
pub enum UserFault {
    /// The job takes no such line.
    #[error("Refused")]
    Refused,
    /// The bytes begin with no value of the type.
    #[error("BadWire")]
    BadWire,
    /// Memory was refused.
    #[error("NoMemory")]
    NoMemory,
}

impl From<AllocError> for UserFault {
    ghost from_gives = { λ _ e. e ≡ NoMemory };

    fn from(_e: AllocError) -> UserFault {
        UserFault::NoMemory
    }
}

impl<T: Drop> From<AllocFailed<T>> for UserFault {
    ghost from_gives = { λ _ e. e ≡ NoMemory };

    fn from(_e: AllocFailed<T>) -> UserFault {
        UserFault::NoMemory
    }
}

/// Why a gate lets no work pass.
#[derive(Clone, Copy, Debug, PartialEq, Eq, Error)]
pub enum GateFault {
    /// The gate has waited as long as it may.
    #[error("Spent")]
    Spent,
}
