//! What a master is made for, once and for all. It has its generation, its job and how many maps, reduces and nodes
//! there are, the limit of failures, and the paths of the job's output.
use mr_ids::{AppAttempt, JobId};
use mr_paths::Layout;

/// What a master is for: its generation, its job, and where the job's output goes.
#[derive(Debug, PartialEq, Eq, Drop)]
pub struct Setting {
    pub app: AppAttempt,
    pub job: JobId,
    /// How many maps there are: one for each split.
    pub maps: u32,
    pub reduces: u32,
    /// How many nodes there are, numbered from 0.
    pub nodes: u32,
    /// How many failures of a task fail the job.
    pub limit: u32,
    pub layout: Layout,
}
