//! Why there is no plan.
ghost use Rattle.std.specs.Prelude.{◌≡◌};
ghost use Rattle.mr_recover_plan.specs.declared.fault.PlanFault.TheVariants.{NoMemory};

use mr_recover::RecoverFault;
use std::alloc::AllocError;
use thiserror::Error;

/// Why there is no plan.
#[derive(Clone, Copy, Debug, PartialEq, Eq, Error)]
pub enum PlanFault {
    /// A line of a segment is no record.
    #[error("segment {segment}: bad line {line}")]
    BadLine {
        /// Which segment it is, from 1.
        segment: usize,
        /// The number of the line, from 1.
        line: usize,
    },
    /// A record of a segment is of an earlier generation than one before it, so the segments are not given oldest first.
    #[error("segment {segment}: earlier generation")]
    EarlierGeneration {
        /// Which segment it is, from 1.
        segment: usize,
    },
    /// There was no memory.
    #[error("no memory")]
    NoMemory,
}

impl From<AllocError> for PlanFault {
    ghost from_gives = { λ _ e. e ≡ NoMemory };

    fn from(_e: AllocError) -> PlanFault {
        PlanFault::NoMemory
    }
}

impl From<RecoverFault> for PlanFault {
    ghost from_gives = { λ _ e. e ≡ NoMemory };

    fn from(_e: RecoverFault) -> PlanFault {
        PlanFault::NoMemory
    }
}
