//! The machine of an application master, part by part, and what a step changes of it.
//!
//! `Machine` stores what is read off a master's past: what it is at, the machines of the tasks, the launches, the nodes,
//! the records, the bars. Which past it stands for say the words of `specs/State.antt`. Its fields are public, since
//! what hears packets (`mr_master_events`) and what takes answers of store calls (`mr_master_calls`) decide by them. A clause sees a
//! machine as the record of its parts.
//!
//! `Prepared` is what those two decide: the packets that will be sent, and a `Change`. The machine makes room for it
//! (`reserve`), and makes the change (`take`). This crate decides nothing of that.
//!
//! # What is proved
//!
//! - A new machine stands for the empty past (`Machine::new`). `copy` gives a machine that keeps all that this one keeps, spare room aside.
//! - `keeps_same` is true exactly where two machines hold the same (`SameMachines`), `is_same` where they do for one
//!   setting. Neither compares spare room, or in which order the nodes were heard of.
//! - What is asked of a machine is what is read off all that it may stand for. Of attempts: `known`, `launched_in`,
//!   `is_live`, `succeeded`, `ready_at`, `is_lost_map`. Of tasks: `place_within`, `wanted`, `all_succeeded`. Of a node:
//!   `push_all_gone`, `all_gone`, `all_lost`. Of bars: `first_bar`, `passed`.
//! - `push_kill`, `push_each_kill`, `push_kills` and `kills_but` make the Kills that the definitions send.
//! - `reserve` makes room for what is prepared. Nothing else changes, also where memory is refused. Of an expiry the
//!   machine is the one that it was then.
//! - `take` makes exactly the change that was prepared (`changed_by`), notes which containers are sent a Kill, and gives
//!   the packets. It takes no memory and refuses nothing. What is prepared has to be sound (`IsSound`), and to have
//!   room.
//! - Memory may be taken by `new`, `copy`, `reserve`, by what makes a list of attempts or packets, and by `Boxed::new`
//!   and `Prepared::of_one` and `of_some`. No other call takes any.
#![tactic(auto)]

mod bars;
mod blame;
mod boxed;
mod change;
mod copy;
mod flush;
mod heard;
mod launched;
mod live;
mod machine;
mod nodes;
mod outputs;
mod prepared;
mod same;
mod send;
mod wanted;

pub use blame::Blame;
pub use boxed::Boxed;
pub use change::{Change, Room};
pub use machine::Machine;
pub use mr_master_phase;
pub use mr_master_tables;
pub use mr_master_tasks;
pub use prepared::Prepared;
