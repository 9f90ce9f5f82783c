//! What `play` shows of a run in place of its text: a picture of it.
//!
//! # What is proved
//!
//! For every input:
//!
//! - **`play_drawn`**: there is a picture only where `play` has a text (`Draws`). What a picture shows is tested by example, and no clause tells it;
//!   its faults are those of `play` (`PlayFails`);
//! - `drawn`, of any world, fails by nothing but an allocation failure;
//! - which events of the run a picture shows is told by `Part::places` of mr_trace_svg.
//!
//! The events of a journal happen once more, in a world of their own, and leave lanes, rows and arrows (`draw`). That
//! each can happen there in its turn is proved (`Replay`). The crate mr_trace_svg writes these as SVG, and mr_trace has
//! the words of an event. Each crate beneath is proved without this one, so that nothing else is proved anew where a
//! line of a picture changes.
#![tactic(auto)]

mod cast;
mod draw;
mod folds;
mod lanes;
mod picture;
mod replay;
mod rest;
mod rows;

pub use picture::{drawn, play_drawn};
