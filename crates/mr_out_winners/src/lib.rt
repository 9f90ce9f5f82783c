//! May a directory of `mrout` be read? Its history, its marker and its files have to agree.
//!
//! # What is proved
//!
//! - [`tasks_of`] tells of each task of a job, by the records of its history, the name of its part file, and how long its winner's file is, where that was
//!   noted (`specs/Tasks`).
//! - [`find`] is exactly the table of `specs/Findings`: of the marker, of each task and of each visible name, what does not agree. Lengths of files are
//!   compared, and not their bytes. [`answer_of`] is yes where nothing was found.
//! - [`put_answer`] writes exactly the text of `specs/Printed`.
//! - [`yes_means_whole`], a law: yes is told only where the marker was seen first and each winner's file was seen, of the length that was noted.
//! - Only tested: that calls succeed with ample memory.
#![tactic(auto)]

mod finding;
mod json;
mod laws;
mod name;
mod report;
mod task;
mod trouble;

pub use finding::{Finding, answer_of, find};
pub use laws::yes_means_whole;
pub use name::{Look, Name};
pub use report::put_answer;
pub use task::{Measured, Task, Won, tasks_of};
pub use trouble::{TROUBLES, Trouble};
