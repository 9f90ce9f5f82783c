//! The store calls of a master, of the namespace or of the job history, as values, and their answers.
use mr_history::{HistoryFault, Record, Records};
use mr_names::{Answer, NameFault, Op};

/// A call of the namespace or of the history, as a value.
#[derive(Drop)]
pub enum StoreCall {
    /// A call of the namespace. The caller is the master's generation, with no attempt.
    Names(Op),
    /// The record is appended to the master's segment.
    Append(Record),
    /// The master's segment is flushed.
    Flush,
    /// All earlier segments are read.
    Read,
}

/// The answer of a store call.
#[derive(Drop)]
pub enum StoreAnswer {
    /// The namespace's.
    Names(Result<Answer, NameFault>),
    /// Of an append or a flush.
    Wrote(Result<(), HistoryFault>),
    /// What was read.
    Told(Records),
    /// The reading was refused.
    Unread(HistoryFault),
    /// The call was not applied, or its answer was lost: the master cannot tell which.
    Fault,
}
