//! The machines of a master's tasks by place, maps first, and how far the tasks have come.
//!
//! None of them knows a container, a node or a record, and none calls the namespace. The machine that keeps them is
//! `mr_master_state`. Which past it stands for is said there.
//!
//! # What is proved
//!
//! - New machines are those of the job's tasks, and none of them got a call (`Tasks::new`). Each call that one of them
//!   takes is told to the task at its place, and all others stay. These calls are `report`, `note`, `fail`, `end`,
//!   `tell_end`, `die`, `lose`, `record`, `recover` and `put`.
//! - What is asked of a task is read off the calls that it got (`is_arrived`, `would_name`, `done_reply`,
//!   `is_live_at`, `would_spend`).
//! - `asked`, `launched` and `recovered` give a machine as the one at the place would be after the call. Nothing
//!   changes. Their only error is that memory was refused: `asked` is called where the task has the attempt, and
//!   `launched` where nothing refuses the launch.
//! - `first_waiting` is the first task that waits for a launch, maps first. `all_succeeded` tells whether each task of a
//!   kind has a Succeeded attempt. What both tell is kept up where a task takes a call, so nobody looks through all
//!   tasks.
//! - `recover_all` enters attempts one after another. One that is of no task of the job changes nothing.
//! - `copy` gives equal machines. `is_same` answers whether two hold the same machines at the same places.
//! - `place_of` is the place of a task of the job, and none of any other.
//! - Memory may be taken by `new`, `copy`, `asked`, `launched`, `recovered`, `recover` and `recover_all`, and by no other
//!   call.
#![tactic(auto)]

mod ask;
mod ending;
mod launch;
mod memory;
mod places;
mod progress;
mod takeover;
mod tasks;

pub use ending::Ending;
pub use places::{place_in_job, place_of};
pub use tasks::{Tasks, is_live};
