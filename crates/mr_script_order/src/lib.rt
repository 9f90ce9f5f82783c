//! The order of scripts: which of two lists of events comes first.
//!
//! # What is proved
//!
//! - **`is_sooner`** holds exactly where a script comes before another (`sooner` of `specs/Order`). It has fewer events. Or it
//!   has as many, and at the first event that differs its own is the lesser one. Events are compared by their numbers from left
//!   to right: that of their kind, and then what they say. It takes no memory.
//! - The order is strict and total: of two scripts that differ just one comes before the other (`scripts_are_in_order`). So a
//!   set of scripts has one least, in whatever order they are made.
//! - It stays where both scripts go on by as many events, and behind a front of both it is that of what follows
//!   (`order_stays_behind`). No two events have the same numbers (`numbers_tell_events_apart`).
//!
//! All of it is our own profile.
#![tactic(auto)]

mod laws;
mod order;

pub use laws::{numbers_tell_events_apart, order_stays_behind, scripts_are_in_order};
pub use order::is_sooner;
