//! Why the committer refuses a step, and whether a step value has calls left.
ghost use Rattle.std.specs.Prelude.{◌≡◌};
ghost use Rattle.mr_commit.specs.Line.{fault_of};
ghost use Rattle.mr_commit.specs.declared.fault.CommitFault.TheVariants.{NoMemory};

use mr_names::NameFault;
use std::alloc::AllocError;
use thiserror::Error;

/// Whether a step value has calls left.
#[derive(Clone, Copy, Debug, PartialEq, Eq)]
pub enum StepDone {
    /// There are calls left.
    More,
    /// The call was the last one.
    Finished,
}

/// Why a step was refused. Each prints as its variant, `Names` as what it holds.
#[derive(Clone, Copy, Debug, PartialEq, Eq, Error)]
pub enum CommitFault {
    /// The namespace refused a call.
    #[error("{0}")]
    Names(NameFault),
    /// A task's attempt has no output to be committed, or a task none to be recovered.
    #[error("OutputMissing")]
    OutputMissing,
    /// A recovered part file has another length than the recorded one.
    #[error("WrongLength")]
    WrongLength,
    /// A job's destination is there already.
    #[error("DestinationExists")]
    DestinationExists,
    /// The answer is not one of the call that was made: another call has such an answer.
    #[error("WrongAnswer")]
    WrongAnswer,
    /// The step value had answered that it is finished, or a fault.
    #[error("Over")]
    Over,
    /// There was no memory. Nothing has changed.
    #[error("NoMemory")]
    NoMemory,
}

impl From<AllocError> for CommitFault {
    ghost from_gives = { λ _ e. e ≡ NoMemory };

    fn from(_e: AllocError) -> CommitFault {
        CommitFault::NoMemory
    }
}

impl From<NameFault> for CommitFault {
    ghost from_gives = { λ fault e. e ≡ fault_of fault };

    fn from(fault: NameFault) -> CommitFault {
        match fault {
            NameFault::NoMemory => CommitFault::NoMemory,
            fault => CommitFault::Names(fault),
        }
    }
}
