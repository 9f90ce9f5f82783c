//! Faults that may befall a run of a job's cluster: what one fault is, which there are of each kind, and which of them the run makes by itself next.
//!
//! # What is proved
//!
//! - The calls named `add_of_..` put exactly the faults of their kind behind a list, each in its place (`specs/Kinds`): none is left out.
//! - `later` answers exactly what a fault puts off: that a packet that was passed over comes, or that the next master
//!   starts (`later` of `specs/Kinds`).
//! - `without_next` takes from a list exactly those that are what comes next anyway (`specs/Next`). So a run without
//!   a fault is never told as one with a fault.
//!
//! A call that adds fails where there is no memory, and then the list has what was added so far.
#![tactic(auto)]

mod adding;
mod fault;
mod next;

pub use adding::{
    add_of_bag, add_of_containers, add_of_ends, add_of_kept, add_of_nodes, add_of_tasks,
};
pub use fault::{Fault, later};
pub use next::without_next;
