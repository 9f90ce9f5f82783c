//! The events of a cluster: all that can happen in it, each as a value, and why one is not taken.
//!
//! Losses, repeats and reorderings of packets are lists of deliveries: an index that is never delivered, one that is delivered twice, any order of indices.
//! What an event changes, and when it is taken, is defined in `mr_world_model`, whose events and reasons these are.
//!
//! # What is here
//!
//! - `Event`: one thing that happens, with the numbers of those that it happens to, each under its name. Whoever holds a `World` (`mr_world`) hands it in by `apply`.
//! - `Weather`: what befalls the one store call of an event. It is made and answered (`Calm`), not made (`Unavailable`), or made with its answer lost (`Unanswered`); its caller can't tell the last two apart.
//! - `Why`: why an event is not permitted now. It prints as its variant's name, a task's reason behind `Task`, as `Task AlreadyWon`: derived by thiserror, and tested for each variant.
//! - `PlanFaults`: what is to befall a cluster, each `PlanFault` once a number of events have happened: a node restarts, the newest master crashes, or gives a node up.
//!
//! # What is proved
//!
//! - `Event::copy` gives an equal event, and takes memory for computed bytes alone. `PlanFaults::copy` gives equal
//!   faults, and may take memory; `from_vec`, `into_vec` and `as_slice` are what they say. No other call takes any.
//! - `==` of two events, and of the faults of two plans, holds exactly where they are equal (`events_are_compared`, `plans_are_compared`: laws, on functions that do nothing).
//! - Only tested: the texts of the reasons, and that the copies succeed with ample memory.
#![tactic(auto)]

mod event;
mod laws;
mod plan;
mod why;

pub use event::{Event, Weather};
pub use laws::{events_are_compared, plans_are_compared};
pub use plan::{PlanAct, PlanFault, PlanFaults};
pub use why::Why;
