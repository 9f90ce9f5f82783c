//! The report of a job that threads ran: what is told of the world that they gave back.
//!
//! # What is proved
//!
//! - **`Run`**: whoever makes its events, its journal is as planned (`Planned`). Each fault of the plan comes as soon as
//!   it is due, in order, before all else: it is made, or the world refuses it. Behind a crash the next master starts
//!   at once, and keeps nothing of what was not flushed. No store call is disturbed, and no other fault happens.
//!   In plain words, over a whole run: `faults_are_made_or_refused`, `only_planned_faults_happen`. Each call is a step of
//!   the board with its answer, or `JournalMismatch` (`MakesPlanned`, `HandsIn`, `MakesDue`); a refusal changes nothing
//!   (`refusals_change_nothing`).
//! - **`reported`**, for every job and plan, and every run that is over. A `Report` is of that run's world, whose journal
//!   the seats account for. It is of the plan's config, follows the plan's faults (`Follows`), and has the seat that
//!   was noted for each event. Each result in its journal is what the job's functions give. An outcome was told, or the
//!   newest master is Stopped. `files` is what a reader of the destination sees. `succeeded` is whether success was
//!   told. Where it was, the files are the job's sequential execution's, and nothing else (`IsReported`).
//! - Where there is none, it is said why, in order (`IsUnreported`): `JournalMismatch` of another plan's run, or of seats
//!   that do not account for it; why its threads stopped, or `TurnsSpent`, of a run that did not come to its end;
//!   `NoMemory`. The last two hand the run's world back.
//!
//! Memory may be taken by `reported`, for the files.
#![tactic(auto)]

mod fault;
mod laws;
mod plan;
mod report;
mod run;
mod unreported;

pub use fault::DriveFault;
pub use laws::{faults_are_made_or_refused, only_planned_faults_happen, refusals_change_nothing};
pub use plan::Plan;
pub use report::{Report, reported};
pub use run::Run;
pub use unreported::Unreported;
