//! Why a map work or a reduce work gives no bytes, and why pieces can't be merged: for this crate and for `mr_shuffle`.
ghost use Rattle.std.specs.Prelude.{◌≡◌};
ghost use Rattle.mr_mapside.specs.declared.fault.ShuffleFault.TheVariants as shuffle;
ghost use Rattle.mr_mapside.specs.declared.fault.WorkFault.TheVariants as work;
ghost use Rattle.mr_mapside.specs.Work.{of_user};

use mr_user::{GateFault, UserFault};
use std::alloc::{AllocError, AllocFailed};
use thiserror::Error;

/// Why the pieces of a reduce can't be merged.
#[derive(Clone, Copy, Debug, PartialEq, Eq, Error)]
pub enum ShuffleFault {
    /// The piece at place i is not of map i and of this reduce.
    #[error("WrongPiece")]
    WrongPiece,
    /// At some place of a piece no pair can be read.
    #[error("Truncated")]
    Truncated,
    /// A key of a piece is less than the one before it.
    #[error("Disorder")]
    Disorder,
    /// A growth was refused.
    #[error("NoMemory")]
    NoMemory,
}

impl From<AllocError> for ShuffleFault {
    ghost from_gives = { λ _ e. e ≡ shuffle.NoMemory };

    fn from(_e: AllocError) -> ShuffleFault {
        ShuffleFault::NoMemory
    }
}

impl<T: Drop> From<AllocFailed<T>> for ShuffleFault {
    ghost from_gives = { λ _ e. e ≡ shuffle.NoMemory };

    fn from(_e: AllocFailed<T>) -> ShuffleFault {
        ShuffleFault::NoMemory
    }
}

/// Why a map work or a reduce work gives no bytes.
#[derive(Clone, Copy, Debug, PartialEq, Eq, Error)]
pub enum WorkFault {
    /// The job refuses a line of the split.
    #[error("User {0}")]
    User(UserFault),
    /// The gate lets no work pass.
    #[error("Gate {0}")]
    Gate(GateFault),
    /// The pieces can't be merged.
    #[error("Shuffle {0}")]
    Shuffle(ShuffleFault),
    /// The bytes would pass `MAX_OUTPUT_LEN`.
    #[error("Full")]
    Full,
    /// A growth was refused.
    #[error("NoMemory")]
    NoMemory,
}

impl From<AllocError> for WorkFault {
    ghost from_gives = { λ _ e. e ≡ work.NoMemory };

    fn from(_e: AllocError) -> WorkFault {
        WorkFault::NoMemory
    }
}

impl<T: Drop> From<AllocFailed<T>> for WorkFault {
    ghost from_gives = { λ _ e. e ≡ work.NoMemory };

    fn from(_e: AllocFailed<T>) -> WorkFault {
        WorkFault::NoMemory
    }
}

impl From<GateFault> for WorkFault {
    ghost from_gives = { λ fault e. e ≡ work.Gate fault };

    fn from(fault: GateFault) -> WorkFault {
        WorkFault::Gate(fault)
    }
}

impl From<UserFault> for WorkFault {
    ghost from_gives = { λ fault e. e ≡ of_user fault };

    fn from(fault: UserFault) -> WorkFault {
        match fault {
            UserFault::NoMemory => WorkFault::NoMemory,
            fault => WorkFault::User(fault),
        }
    }
}
