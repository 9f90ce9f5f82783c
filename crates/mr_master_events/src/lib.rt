//! What an application master does about a packet, a launch, and a node that is given up.
//!
//! Each call reads a machine (`mr_master_state::Machine`), changes nothing, and gives what is prepared: the packets that will
//! be sent, and what will change. Each kind of packet has its file.
//!
//! # What is proved
//!
//! - What `prepare_packet`, `prepare_launch` and `prepare_expiry` give are exactly the packets that are sent at the step,
//!   and the change that makes what is seen then (`PlansFor`), whatever past the machine stands for.
//! - `launch_refusal` and `expire_refusal` tell which refusal applies first, if one does.
//! - An error of `prepare_launch` is the first refusal that applies, else `Full` where 2^32 containers were launched, else
//!   `NoMemory`. An error of `prepare_expiry` is the first refusal, or `Task(NoMemory)` where none applies.
//! - Memory may be taken by each `prepare_..`, and by no other call.
#![tactic(auto)]

mod ask;
mod done;
mod end;
mod expiry;
mod launch;
mod node_up;
mod output;
mod packet;

pub use expiry::{expire_refusal, prepare_expiry};
pub use launch::{LaunchError, launch_refusal, no_memory, prepare_launch};
pub use mr_master_state::{self, mr_master_tables};
pub use packet::prepare_packet;
