//! What an output directory with a log holds on the disk: the path of each name, the line that
//! tells its job, summaries of its entries.
//!
//! # What is proved
//!
//! - Each function is safe, and returns.
//! - Each path is that of specs/Paths, and no two names beneath `_mrout` have one path
//!   (`paths_are_apart`).
//! - `Job::line` is the job's one line. `Job::read` of the bytes of a file answers a job exactly
//!   where they are its line and its values are in range. Otherwise it answers why: `FirstForm`
//!   where the line tells version 1, `OtherVersion` where it tells another than 2, else `Damaged`
//!   (`IsFaultOf`); or `NoMemory`.
//! - `summary` is the texts of the entries, each ended by a line feed. `read_summary` answers
//!   entries exactly where the bytes are the summary of so many entries of the job. Otherwise it
//!   answers nothing; and it fails for want of memory alone.
//!
//! Only tested: that the calls succeed with ample memory, and the texts against some that are
//! worked out by hand. Not here yet: the names of tasks, and the list of what an attempt handed in.
#![tactic(auto)]

mod fault;
mod job;
mod laws;
mod path;
mod summaries;

pub use fault::JobFault;
pub use job::{Job, MAX_LIMIT, MAX_TASKS};
pub use laws::paths_are_apart;
pub use path::{
    BOOTS, HOME, JOB, KEPT, LOG, MARKER, MAX_SUFFIX_LEN, NAMES, SUCCESS, WORK, boot_path,
    entry_path, is_suffix, kept_path, list_path, part_name, path_below, summary_path, sync_path,
    work_path,
};
pub use summaries::{LONG_SUMMARY_LEN, SUMMARY_LEN, read_summary, summary};
