//! Why the file of a job is refused.
ghost use Rattle.std.specs.Prelude.{◌≡◌};
ghost use Rattle.mr_log_layout.specs.declared.fault.JobFault.TheVariants.{NoMemory};

use std::alloc::{AllocError, AllocFailed};
use thiserror::Error;

/// Why the file of a job is refused.
#[derive(Clone, Copy, Debug, Drop, PartialEq, Eq, Error)]
pub enum JobFault {
    /// Memory was refused.
    #[error("no memory")]
    NoMemory,
    /// The directory is one of the first form, which has a lock and no log.
    #[error("a directory of the first form of mrout, which has no log")]
    FirstForm,
    /// The directory is of another version.
    #[error("of another version of mrout")]
    OtherVersion,
    /// It is no line that a job is told by.
    #[error("damaged")]
    Damaged,
}

impl From<AllocError> for JobFault {
    ghost from_gives = { λ _ e. e ≡ NoMemory };

    fn from(_error: AllocError) -> JobFault {
        JobFault::NoMemory
    }
}

impl<T: Drop> From<AllocFailed<T>> for JobFault {
    ghost from_gives = { λ _ e. e ≡ NoMemory };

    fn from(_error: AllocFailed<T>) -> JobFault {
        JobFault::NoMemory
    }
}
