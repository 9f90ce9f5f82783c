//! Permission to commit a task: one attempt at a time has it, the one that asked first.
//!
//! # How to begin
//!
//! ```rust
//! fn passes_on(alloc: Global, first: AttemptId, second: AttemptId) -> Result<bool, AllocError> {
//!     let mut grant = Grant::new(alloc);
//!     grant.pending(first)?;
//!     grant.pending(second)?;
//!     let kept_waiting = grant.can_commit(first) && !grant.can_commit(second);
//!     grant.release(first);
//!     Ok(kept_waiting && grant.can_commit(second))
//! }
//! ```
//!
//! (It is run in `crates/tests_guides`.)
//!
//! # What is proved
//!
//! - **`Grant`** is the attempts that are kept, in order of arrival, and whether it is fixed; each call is an equation
//!   on that. `can_commit` is yes exactly for the first of those kept. `pending` adds an attempt as the last if it is
//!   not there, allocates only then, and where it is refused has changed nothing. `release` takes an attempt out
//!   exactly where the grant is not fixed. `fix` tells whether the attempt is the first, and if so the grant is fixed
//!   from then on, which `is_fixed` tells. `first` and `attempts` are what they say. Each attempt is kept once; `copy` is equal.
//!   `is_same` answers whether two grants keep the same attempts in the same order and are alike fixed or not. Memory may be taken by `pending` and `copy`, and by no
//!   other call.
//! - Laws, on functions that do nothing, for every list of calls. Who is first stays first until it is released itself
//!   (`first_stays`). A fixed grant stays fixed, and its first is the first for good (`fixed_stays`). Yes is for one
//!   attempt at a time (`one_is_first`), and the test for one attempt is equality (`same_attempts`).
//! - Only tested: that `pending` and `copy` succeed with ample memory.
#![tactic(auto)]

mod grant;
mod laws;

pub use grant::Grant;
pub use laws::{first_stays, fixed_stays, one_is_first, same_attempts};
