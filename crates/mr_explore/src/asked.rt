//! What is asked of an exploration.

use mr_script::Expectation;

/// How the ends are told.
#[derive(Clone, Copy, Debug, PartialEq, Eq)]
pub enum Form {
    /// As inputs of `play`: all but the scripts stands in comments.
    Text,
    /// As lines of JSON.
    Json,
}

/// How many faults a run has at most, how many runs are made, in which time, how deep, which end is sought, and how the ends are told.
#[derive(Clone, Copy, Debug, PartialEq, Eq)]
pub struct Asked<'a> {
    /// How many faults a run has at most.
    pub faults: u32,
    /// How many runs are made at most.
    pub most: u64,
    /// After so many seconds no further run is made.
    pub seconds: Option<u64>,
    /// Where it is told no run is ended for making no progress, and each makes at most so many events by itself: behind the script, behind each fault
    /// and behind each packet that comes late.
    pub deep: Option<u64>,
    /// What is so of the end that is sought; all ends are told where no end is sought.
    pub goal: Option<&'a [Expectation]>,
    pub form: Form,
}
