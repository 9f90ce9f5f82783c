//! The machine of an application master: what it hears, which store call it makes next, what it launches, what it tells.
//!
//! `MasterMachine` stands for a past, a list of steps: packets that were heard, launches, expiries, answers of store
//! calls. What it stores is what is read off that past by the words of `mr_master_model`, part by part
//! (`mr_master_state`). Each public call promises the past that it stands for then. What it answers or sends is what
//! is read off the past before.
//!
//! Whoever runs a master keeps the bag. Each step is taken in the same way:
//!
//! 1. It is prepared (`prepare_packet`, `prepare_launch`, `prepare_expiry`, `prepare_answer`). All is decided then,
//!    and nothing changes. What is prepared lends the packets that will be sent. It can be let go.
//! 2. Room is made: for these packets in the bag, and in the master (`reserve`). Nothing else changes.
//! 3. Of a store call: `duty` tells which is due. Its answer is known beforehand (`Namespace::foresee`), or the call
//!    changes nothing and was made before the first step. Else it is made here. Where it is refused by an allocation
//!    failure, what was prepared is let go.
//! 4. It is taken (`take`), which takes no memory and refuses nothing; then the packets are pushed.
//!
//! `hear`, `launch`, `expire` and `answer` do the same in one call.
//!
//! # What is proved
//!
//! - Each machine stands for some past (`stands`), a new one for the empty past (`new`).
//! - `duty` is exactly the store call that is due, with what it is for; `phase` is the phase; `wanted` is the task
//!   that is launched next. They change nothing. Where `duty` is refused memory, a call is due.
//! - What is prepared lends exactly the packets that are sent at the step. Once there is room for it the master
//!   stands, after `take`, for what it stood for and this step. `reserve` leaves it standing for what it stood for,
//!   also where memory is refused.
//! - `launch_refusal` and `expire_refusal` tell which refusal applies first, if one does.
//! - An error of `prepare_launch` and `launch` is the first refusal that applies, else `Full` where 2^32 containers
//!   were launched, else `NoMemory`. An error of `prepare_expiry` and `expire` is the first refusal, or
//!   `Task(NoMemory)` where none applies. `wants_memory` takes that one.
//! - `hear`, `launch`, `expire` and `answer` give exactly the packets that are sent, and then the machine stands for
//!   what it stood for and this step. After an error it stands for what it stood for. After an error of `expire` it
//!   is the machine that it was.
//! - `copy` gives a machine that keeps what this one keeps, spare room aside (`Unchanged`). `keeps_same` is true exactly where two
//!   hold the same, `is_same` where they do for one setting.
//! - Memory may be taken by `new`, `copy`, `duty`, `duty_name` and `reserve`, by each `prepare_..`, and by `hear`, `launch`,
//!   `expire` and `answer`. No other call takes any.
//! - Only tested: that the calls succeed with ample memory, along a few ways through the phases (`crates/tests_world`).
#![tactic(auto)]

mod master;
mod memory;

pub use master::MasterMachine;
pub use memory::wants_memory;
pub use mr_master_events::LaunchError;
pub use mr_master_events::mr_master_state::Prepared;
pub use mr_master_events::mr_master_tables::Duty;
