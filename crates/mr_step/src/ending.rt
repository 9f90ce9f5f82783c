//! How an operation over a pipe ends.
use mr_commit::CommitFault;

/// How an operation ended.
#[derive(Clone, Copy, Debug, PartialEq, Eq)]
pub enum Ending {
    /// All its calls were made.
    Finished,
    /// It was refused, by the store or by what an answer said.
    Refused(CommitFault),
    /// The input ended before the operation did.
    Cut,
}
