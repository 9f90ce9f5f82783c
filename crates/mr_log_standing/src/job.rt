//! The numbers of a job.
use mr_ids::JobId;

/// The numbers of a job, by which its log is read.
#[derive(Clone, Copy, Debug, PartialEq, Eq)]
pub struct Job {
    pub id: JobId,
    /// How many tasks it has: their numbers are below this one.
    pub tasks: u32,
    /// How many failures of one task end the job, if any number does.
    pub limit: Option<u32>,
    /// Whether the job is published only once that is decided.
    pub hold: bool,
}
