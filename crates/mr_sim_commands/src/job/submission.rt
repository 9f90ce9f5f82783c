//! A job as it is submitted.
use crate::job::idle_keys::IdleKeys;
use mr_ids::JobId;
use mr_user::Splits;
use mr_world_events::PlanFaults;

/// Which of the three jobs is run.
#[derive(Clone, Copy, Debug, PartialEq, Eq)]
pub enum JobKind {
    /// How often each word stands: `wordcount`.
    WordCount,
    /// The greatest number of each key: `maxbykey`.
    MaxByKey,
    /// Where each word stands: `lineindex`.
    LineIndex,
}

/// A job as a job text says it.
#[derive(Drop)]
pub struct Submission {
    /// The job's identifier.
    pub id: JobId,
    /// What is computed.
    pub job: JobKind,
    /// How many reduces there are, from 1 to 1,000.
    pub reduces: u32,
    /// At most 1,000 splits, each of at most 16,777,216 bytes.
    pub splits: Splits,
    /// How many nodes there are, from 1 to 64.
    pub nodes: u32,
    /// How many failed attempts of a task fail the job, from 1 to 100.
    pub limit: u32,
    /// At most 100 faults. Each node that they name is below `nodes`.
    pub faults: PlanFaults,
    /// From which generation on a master writes history of version 2, from 1 to 1,000.
    pub v2_from: u32,
    /// The keys of its text that say nothing.
    pub idle_keys: IdleKeys,
}
