//! The store call of an application master that is due, and what its answer changes.
//!
//! Both calls read a machine (`mr_master_state::Machine`) and change nothing. Each kind of answer has its file.
//!
//! # What is proved
//!
//! - `next_duty` is exactly the store call that is due, with what it is for, whatever past the machine stands for. Where
//!   it is refused memory, a call is due.
//! - What `ready_for` gives are exactly the packets that are sent at the answer of the call that is due, and the change
//!   that makes what is seen then (`PlansFor`). Where no call is due, it is nothing.
//! - Both are told how many of the first bars are of no live attempt (`NoneLive`), and pass those over.
//! - Memory may be taken by both.
#![tactic(auto)]

mod answer;
mod duty;
mod failing;
mod flush;
mod mark;
mod reading;
mod running;
mod table;
mod takeover;

pub use answer::ready_for;
pub use duty::{next_duty, next_duty_name};
