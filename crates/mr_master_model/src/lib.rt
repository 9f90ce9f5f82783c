//! What a master has seen, what it does next and what it sends, as readings of its past.
//!
//! # What is proved
//!
//! Definitions (the machine is `mr_master`), and laws on functions that do nothing. A past is a list of steps (a packet
//! delivered, a launch, an expiry, an answered store call). `seen w past` is what a master has seen, `duty` its next
//! store call with its name, and `sent` the packets of a step. `wanted` is the task that it would launch next;
//! `launch_refusal` and `expire_refusal` say why it does not. Proved, for every past:
//! - a task is only ever told more, so that all laws of tasks hold along a past (`calls_grow`);
//! - an accepted attempt stays accepted and is never over (`accepted_stays`);
//! - the name moves only when the named attempt is over (`name_stays`);
//! - of one reduce, the records of a success that are due or unflushed name one attempt (`one_is_recorded`);
//! - a master that is Ended or Stopped stays as it is and sends nothing (`over_is_final`).
//!
//! Worked out by computation: what a master that starts looks for and does (`fresh_master`), and a job of one map and
//! one reduce from Running to the job commit (`small_job`).
#![tactic(auto)]

mod launch;
mod laws;
mod phase;
mod setting;
mod store;

pub use launch::Launch;
pub use laws::{
    accepted_stays, calls_grow, fresh_master, launched_are_known, name_stays, one_is_recorded,
    over_is_final, small_job,
};
pub use phase::{DutyName, LaunchFault, Phase};
pub use setting::Setting;
pub use store::{StoreAnswer, StoreCall};
