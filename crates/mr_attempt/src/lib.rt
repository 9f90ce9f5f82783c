//! The machine of one task attempt: which state each event leads to.
//!
//! # How to begin
//!
//! ```rust
//! fn killed_attempt(attempt: AttemptId) -> AttemptState {
//!     let mut machine = AttemptMachine::new(attempt);
//!     for event in [
//!         AttemptEvent::Launch,
//!         AttemptEvent::Heard,
//!         AttemptEvent::Kill,
//!         AttemptEvent::Done,
//!     ] {
//!         machine.on(event);
//!     }
//!     machine.state()
//! }
//! ```
//!
//! (It is run in `crates/tests_guides`.)
//!
//! # What is proved
//!
//! - **`AttemptMachine::on`** is exactly the table of the crate's README (`moved`, `reaction`). Where the table has a
//!   next state for the event, the attempt is in it and the answer is `Moved`. Else nothing changes and the answer is
//!   `Ignored`. No call of the crate takes memory. `AttemptState::next` is the table itself, for a program that asks
//!   without moving. `new` is in `New`, `copy` is equal, `attempt`, `state`, `is_live`, `is_won` and `is_over` are what
//!   they say.
//! - Laws, on functions that do nothing, for every list of events. An attempt that failed or was killed is never in
//!   another state (`ends_are_final`). Once `Done` was accepted a reduce's attempt is Recording or Succeeded for good,
//!   a map's too or it is Killed by `Lost` (`wins`). Only `Launch` makes an attempt live, and never again once it is
//!   not (`lives`).
//! - Proved: `{}` of a state prints its name. Only tested: three of the names, and what `{:?}` prints of an event.
#![tactic(auto)]

mod laws;
mod machine;
mod state;

pub use laws::{ends_are_final, lives, wins};
pub use machine::AttemptMachine;
pub use state::{AttemptEvent, AttemptState, Reaction};
