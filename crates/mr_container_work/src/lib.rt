//! The work of a container: what it is given, as a value of its own, and the bytes that a job makes of that behind a gate.
//!
//! # What is proved
//!
//! - **`work(alloc, job, gate, input, reduces)`**, for every job and every gate: Ok is exactly the definition's bytes
//!   of the input (`made_of` of `mr_world_model`, at `job_of` of `mr_world_files`), at most 2^24 of them. A user function or
//!   the shuffle refuses only where there are no such bytes. `Full` is answered only where there are more, and `Gate`
//!   only where the gate refuses (`Works`). Which fault of the map side or of the shuffle it is, is proved too
//!   (`FaultIs`). `work_of_map` and `work_of_reduce` are the same over what is lent.
//! - **`Input`**, what a map or a reduce is given, as a value: it is copied, compared with its like (`==`), and with what is lent (`is_of_map`, `is_of_reduce`).
//! - `inputs_are_short`, a law on a function that does nothing: what a container of a cluster is given is as `work`
//!   asks. It is a split that is not too long, or one piece for each of its few maps.
//! - Memory may be taken by `work`, `work_of_map`, `work_of_reduce`, `Pieces::from_slice`, `Input::of_map`,
//!   `Input::of_reduce` and `Input::copy`. The last four fail by nothing but an allocation failure. No other call
//!   takes any.
//! - Only tested, through what `mrsim play` prints: that the calls succeed with ample memory.
#![tactic(auto)]

mod input;
mod works;

pub use input::{Input, Pieces};
pub use works::{inputs_are_short, work, work_of_map, work_of_reduce};
