//! Why a call of the job history is refused, or why bytes are no segment of one.
ghost use Rattle.std.specs.Prelude.{◌≡◌};
ghost use Rattle.mr_history.specs.declared.fault.HistoryFault.TheVariants.{NoMemory};

use std::alloc::{AllocError, AllocFailed};
use thiserror::Error;

/// Why a call of the history was refused, or why bytes are no segment.
#[derive(Clone, Copy, Debug, PartialEq, Eq, Error)]
pub enum HistoryFault {
    /// The caller's generation is below the fence, which is told.
    #[error("Superseded {0}")]
    Superseded(u32),
    /// The segment takes nothing more.
    #[error("Sealed")]
    Sealed,
    /// The whole line of this number, from 1, is no record.
    #[error("BadLine {0}")]
    BadLine(usize),
    /// The segment would be longer than `MAX_SEGMENT_LEN`.
    #[error("Full")]
    Full,
    /// Memory was refused.
    #[error("NoMemory")]
    NoMemory,
}

impl HistoryFault {
    /// What is left of it where a call has no refusal: a want of memory.
    pub fn wants_memory(self) -> AllocError
        requires { self ≡ HistoryFault.NoMemory }
    {
        match self {
            HistoryFault::NoMemory => AllocError,
            HistoryFault::Superseded(_) => unreachable!(),
            HistoryFault::Sealed => unreachable!(),
            HistoryFault::BadLine(_) => unreachable!(),
            HistoryFault::Full => unreachable!(),
        }
    }
}

impl From<AllocError> for HistoryFault {
    ghost from_gives = { λ _ e. e ≡ NoMemory };

    fn from(_e: AllocError) -> HistoryFault {
        HistoryFault::NoMemory
    }
}

impl<T: Drop> From<AllocFailed<T>> for HistoryFault {
    ghost from_gives = { λ _ e. e ≡ NoMemory };

    fn from(_e: AllocFailed<T>) -> HistoryFault {
        HistoryFault::NoMemory
    }
}
