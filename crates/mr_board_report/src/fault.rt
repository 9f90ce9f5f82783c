//! Why there is no report.
ghost use Rattle.std.specs.Prelude.{◌≡◌};
ghost use Rattle.mr_board_report.specs.declared.fault.DriveFault.TheVariants.{NoMemory};

use std::alloc::AllocError;
use thiserror::Error;

/// Why there is no report.
#[derive(Clone, Copy, Debug, PartialEq, Eq, Error)]
pub enum DriveFault {
    /// A thread made all its turns, no thread found anything to do, or a gate let no work pass.
    #[error("turns spent")]
    TurnsSpent,
    /// An event was tried that is not planned, the seats do not account for the journal, or the run is of another plan.
    #[error("journal mismatch")]
    JournalMismatch,
    /// A thread could not be made.
    #[error("thread")]
    Thread,
    /// A limit of the world or of a work would be passed.
    #[error("full")]
    Full,
    /// Memory was refused.
    #[error("no memory")]
    NoMemory,
}

impl From<AllocError> for DriveFault {
    ghost from_gives = { λ _ e. e ≡ NoMemory };

    fn from(_e: AllocError) -> DriveFault {
        DriveFault::NoMemory
    }
}
