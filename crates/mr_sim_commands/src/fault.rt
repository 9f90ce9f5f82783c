//! Why a subcommand gives no output, with the exit status of each fault, and what is wrong with a job text.
ghost use Rattle.std.specs.Prelude.{◌≡◌};
ghost use Rattle.mr_sim_commands.specs.declared.fault.SimFault.TheVariants.{NoMemory};
ghost use Rattle.mr_sim_commands.specs.Faults.{status_of};

use std::alloc::{AllocError, AllocFailed};
use thiserror::Error;

/// What is wrong with a job text: it is no JSON object, or this key is missing or bad. Its text names the key.
#[derive(Clone, Copy, Debug, PartialEq, Eq, Error)]
pub enum JobTextFault {
    /// It is not one JSON object.
    #[error("text")]
    Text,
    /// It is no job's identifier in its canonical spelling.
    #[error("id")]
    Id,
    /// It is not `wordcount`, `maxbykey` or `lineindex`.
    #[error("job")]
    Job,
    /// It is no whole number from 1 to 1,000.
    #[error("reduces")]
    Reduces,
    /// It is no list of at most 1,000 texts of at most 16,777,216 bytes.
    #[error("splits")]
    Splits,
    /// It is there, and no whole number from 1 to 64.
    #[error("nodes")]
    Nodes,
    /// It is there, and no whole number from 1 to 100.
    #[error("limit")]
    Limit,
    /// It is there, and no list of at most 100 faults.
    #[error("faults")]
    Faults,
    /// It is there, and no whole number from 1 to 1,000.
    #[error("v2from")]
    V2From,
}

/// Why a subcommand gave no output. Its text is what the program prints to standard error.
#[derive(Clone, Copy, Debug, PartialEq, Eq, Error)]
pub enum SimFault {
    /// There was no memory for a part of the run.
    #[error("mrsim: no memory")]
    NoMemory,
    /// A read failed, or the input did not end within the most reads.
    #[error("mrsim: read")]
    Read,
    /// A write failed.
    #[error("mrsim: write")]
    Write,
    /// The input has more than 16,777,216 bytes.
    #[error("mrsim: input too long")]
    TooLong,
    /// This line of a script, counted from 1, is the first that is no command.
    #[error("mrsim: line {0}: bad command")]
    BadCommand(usize),
    /// This whole line of a history segment, counted from 1, is the first that is no record and not the version
    /// line at its head.
    #[error("mrsim: history: bad line {0}")]
    BadRecord(usize),
    /// The input is no job text: which of its keys is the first that is bad, if it is one JSON object.
    #[error("mrsim: job: {0}")]
    Job(JobTextFault),
    /// The job refuses a line of a split.
    #[error("mrsim: refused")]
    Refused,
    /// An event of the run, or a work, would pass a limit of the world.
    #[error("mrsim: full")]
    Full,
    /// Threads ran the job, and it was told that it failed, or its newest master stopped.
    #[error("mrsim: job failed")]
    JobFailed,
    /// A thread made all its turns, no thread found anything to do, or a gate let no work pass.
    #[error("mrsim: turns spent")]
    TurnsSpent,
    /// What the threads made does not account for the journal of the run.
    #[error("mrsim: journal mismatch")]
    JournalMismatch,
    /// A thread could not be made.
    #[error("mrsim: thread")]
    Thread,
}

impl SimFault {
    /// The exit status of the program: 1 for a job that failed, 3 for a refused input, 4 for a stream that failed,
    /// and 5 for an allocation failure. It is 6 where turns were spent, and 7 for a limit that was passed. It is also
    /// 7 for threads that could not be made or did not account for their run.
    pub fn status(&self) -> u8
        ensures { result ≡ status_of self.now }
    {
        match self {
            SimFault::TooLong
            | SimFault::BadCommand(_)
            | SimFault::BadRecord(_)
            | SimFault::Job(_)
            | SimFault::Refused => 3,
            SimFault::Read | SimFault::Write => 4,
            SimFault::NoMemory => 5,
            SimFault::JobFailed => 1,
            SimFault::TurnsSpent => 6,
            SimFault::Full | SimFault::JournalMismatch | SimFault::Thread => 7,
        }
    }
}

impl From<AllocError> for SimFault {
    ghost from_gives = { λ _ e. e ≡ NoMemory };

    fn from(_e: AllocError) -> SimFault {
        SimFault::NoMemory
    }
}

impl<T: Drop> From<AllocFailed<T>> for SimFault {
    ghost from_gives = { λ _ e. e ≡ NoMemory };

    fn from(_e: AllocFailed<T>) -> SimFault {
        SimFault::NoMemory
    }
}
