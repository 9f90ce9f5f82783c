//! Why the machine of a task refuses a call.
ghost use Rattle.std.specs.Prelude.{◌≡◌};
ghost use Rattle.mr_task.specs.declared.fault.TaskFault.TheVariants.{NoMemory};

use std::alloc::{AllocError, AllocFailed};
use thiserror::Error;

/// Why a call of a task's machine was refused.
#[derive(Clone, Copy, Debug, PartialEq, Eq, Error)]
pub enum TaskFault {
    /// An attempt at the task is Recording or Succeeded.
    #[error("AlreadyWon")]
    AlreadyWon,
    /// Two attempts at the task are live.
    #[error("TooManyLive")]
    TooManyLive,
    /// This generation has given away its 1,000 numbers.
    #[error("TooManyAttempts")]
    TooManyAttempts,
    /// The machine never had the attempt.
    #[error("Unknown")]
    Unknown,
    /// Memory was refused.
    #[error("NoMemory")]
    NoMemory,
}

impl From<AllocError> for TaskFault {
    ghost from_gives = { λ _ e. e ≡ NoMemory };

    fn from(_e: AllocError) -> TaskFault {
        TaskFault::NoMemory
    }
}

impl<T: Drop> From<AllocFailed<T>> for TaskFault {
    ghost from_gives = { λ _ e. e ≡ NoMemory };

    fn from(_e: AllocFailed<T>) -> TaskFault {
        TaskFault::NoMemory
    }
}
