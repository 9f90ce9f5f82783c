//! Why a trace is not judged.
ghost use Rattle.std.specs.Prelude.{◌≡◌};
ghost use Rattle.mr_judge.specs.declared.fault.JudgeFault.TheVariants.{NoMemory};

use mr_script::ScriptFault;
use std::alloc::AllocError;
use thiserror::Error;

/// Why a trace is not judged.
#[derive(Clone, Copy, Debug, PartialEq, Eq, Error)]
pub enum JudgeFault {
    /// The first line that is no call with its answer, by its number.
    #[error("line {0}: bad line")]
    BadLine(usize),
    /// There are more than 16,777,216 bytes.
    #[error("input too long")]
    TooLong,
    /// There was no memory.
    #[error("no memory")]
    NoMemory,
}

impl From<AllocError> for JudgeFault {
    ghost from_gives = { λ _ e. e ≡ NoMemory };

    fn from(_e: AllocError) -> JudgeFault {
        JudgeFault::NoMemory
    }
}

impl From<ScriptFault> for JudgeFault {
    ghost use Rattle.mr_judge.specs.Trace.{judge_fault};

    ghost from_gives = { λ fault e. e ≡ judge_fault fault };

    fn from(fault: ScriptFault) -> JudgeFault {
        match fault {
            ScriptFault::BadCommand(line) => JudgeFault::BadLine(line),
            ScriptFault::NoMemory => JudgeFault::NoMemory,
        }
    }
}
