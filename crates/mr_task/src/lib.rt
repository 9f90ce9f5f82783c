//! The machine of one task: its attempts, which of them is named to commit, and which is accepted.
//!
//! # How to begin
//!
//! ```rust
//! fn one_wins(task: &mut TaskMachine) -> Result<DoneReply, TaskFault> {
//!     let first = task.launch()?;
//!     let second = task.launch()?; // a speculative attempt
//!     task.pending(second)?; // it is ready to commit, and asks
//!     task.pending(first)?;
//!     if task.can_commit(first) || !task.can_commit(second) {
//!         return Err(TaskFault::Unknown); // never so of a new machine: the one that asked first may commit
//!     }
//!     let reply = task.done(second)?; // it committed: accepted, and named for good
//!     task.recorded(second)?; // its record is stable
//!     Ok(reply)
//! }
//! ```
//!
//! (It is run in `crates/tests_guides`.)
//!
//! # What is proved
//!
//! A `TaskMachine` stores attempt states, a queue of askers, bits and a number. It stores no past, but it *stands for*
//! one. `StandsFor m t k calls` equates, one clause a part, what it stores with what is read off the list of calls that
//! the machine of task t in generation k got. `new` stands for the empty list. Each call on a machine that stands for
//! `calls`, whatever they are, leaves one that stands for `call ∷ calls` (clause `stands`), and its answer is a reading
//! of `calls` (clause `answer`). That each machine stands for some list of calls is the type's own invariant, and the
//! call `stands`, which does nothing, tells it to whoever keeps a machine. A refused call changes nothing
//! (`self.new ≡ self.old`). So, for every list of calls:
//!
//! - `launch` answers the next number of the generation, or the first of `AlreadyWon`, `TooManyLive`,
//!   `TooManyAttempts` that applies, and `NoMemory` only where none does;
//! - `launch_refusal` is that refusal, memory aside, and `next_attempt` the attempt that `launch` would give, both
//!   without a change and without memory;
//! - `can_commit(a)` is yes exactly where a is the named attempt: of those that asked and are not over, the one
//!   that asked first;
//! - `done(a)` is `Unknown`, `Again`, `Accepted` or `Ignored` as the readings say. `done_reply(a)` finds the same
//!   without a change, and `report(a, reply)` is `done(a)` without finding it again. `state`, `winner`, `failures`,
//!   `is_won`, `numbered`, `arrived` are readings;
//! - memory may be taken by `launch`, `pending`, `recovered` and `copy`, and by no other call; `copy` is equal;
//! - `is_same` answers whether two machines store the same.
//!
//! Laws, on functions that do nothing, over the readings of every list of calls:
//! - the name moves only when the named attempt is over, and once `Done` of a reduce's named attempt was heard not at
//!   all (`name_stays`);
//! - an accepted attempt stays accepted and is never over, of one reduce at most one attempt is accepted, and once one
//!   is none is launched (`accepted_stays`);
//! - kills, asked ends and ends of accepted attempts never count as failures (`no_failures`);
//! - numbers never repeat, and those of generation k are from 1000 * (k - 1) and below 1000 * k (`numbers_are_fresh`);
//! - an attempt's state tells whether it is live, accepted or over. The Succeeded attempt is the one whose record was
//!   heard and whose output is not lost, and where one is Recording or Succeeded no attempt is launched
//!   (`states_tell`);
//! - an attempt is over only by a call that tells of its end while it is live, and accepted only by its Done or its
//!   recovery. The failures are the endings that are failures. A call that tells of an end changes nothing but who is
//!   over: the others that were live still are, in their order (`calls_change`);
//! - a reduce's output is never lost, so it is won exactly where an attempt is accepted (`reduces_are_kept`).
//!
//! `recovered` asks that the attempt is of this task and that the machine has no attempt yet; `next_attempt` that
//! its generation has numbers left (`launch_refusal` answering none says so). Only tested: that the calls succeed
//! with ample memory; the worked examples.
#![tactic(auto)]

mod attempts;
mod fault;
mod laws;
mod numbers;
mod reply;
mod task;

pub use fault::TaskFault;
pub use laws::{
    accepted_stays, calls_change, name_stays, no_failures, numbers_are_fresh, reduces_are_kept,
    states_tell,
};
pub use reply::DoneReply;
pub use task::{MAX_LAUNCHES, MAX_LIVE, TaskMachine};
