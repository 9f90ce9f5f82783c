//! A call of the namespace as a value, who makes it, and its answer: for committers and machines, whose next call is told before it is made.
ghost use Rattle.std.specs.Prelude.{◌≡◌, IfOk};

use mr_ids::{AppAttempt, AttemptId, Bytes};
use mr_names_tree::{Entries, Kind};
use mr_paths::Path;
use std::alloc::AllocError;

/// Who makes a call: a master, or a container.
#[derive(Clone, Copy, Debug, PartialEq, Eq)]
pub struct Caller {
    /// The generation of the master, or that of the master that launched the container.
    pub app: AppAttempt,
    /// The task attempt that a container runs. A master has none.
    pub attempt: Option<AttemptId>,
}

/// A call of the namespace as a value.
#[derive(Debug, PartialEq, Eq, Drop)]
pub enum Op {
    Mkdirs(Path),
    Create {
        /// Where the new file is.
        path: Path,
        /// Whether it is closed at once.
        closed: bool,
    },
    Append {
        /// Where the file is.
        path: Path,
        /// What is added at its end.
        bytes: Bytes,
    },
    Close(Path),
    Delete(Path),
    Rename {
        /// What is moved, with all beneath it.
        from: Path,
        /// Where it is afterwards.
        to: Path,
    },
    List(Path),
    Exists(Path),
    Read(Path),
    /// The attempt that is barred.
    Bar(AttemptId),
}

impl Op {
    /// An equal call. It may allocate, and refuses nothing else.
    pub fn copy(&self) -> Result<Op, AllocError>
        ensures { IfOk result (λ copy. copy ≡ self.now) }
    {
        Ok(match self {
            Op::Mkdirs(path) => Op::Mkdirs(path.copy()?),
            Op::Create { path, closed } => Op::Create {
                path: path.copy()?,
                closed: *closed,
            },
            Op::Append { path, bytes } => Op::Append {
                path: path.copy()?,
                bytes: bytes.copy()?,
            },
            Op::Close(path) => Op::Close(path.copy()?),
            Op::Delete(path) => Op::Delete(path.copy()?),
            Op::Rename { from, to } => Op::Rename {
                from: from.copy()?,
                to: to.copy()?,
            },
            Op::List(path) => Op::List(path.copy()?),
            Op::Exists(path) => Op::Exists(path.copy()?),
            Op::Read(path) => Op::Read(path.copy()?),
            Op::Bar(attempt) => Op::Bar(*attempt),
        })
    }
}

/// The answer of a call as a value: `Done` where the call only changes something.
#[derive(Debug, PartialEq, Eq, Drop)]
pub enum Answer {
    Done,
    Listed(Entries),
    Found(Option<Kind>),
    Contents(Bytes),
}
