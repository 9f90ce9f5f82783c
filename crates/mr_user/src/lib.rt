//! What a job is, how its keys and values are written as bytes, and a job's sequential execution.
//!
//! # How to begin
//!
//! ```rust
//! fn count_words(alloc: Global, text: &[u8]) -> Result<Vec<Vec<u8>>, UserFault> {
//!     let split = Bytes::from_slice(alloc, text)?;
//!     if split.len() > MAX_SPLIT_LEN {
//!         return Err(UserFault::Refused);
//!     }
//!     sequential(alloc, &WordCount, &[split], 2)
//! }
//! ```
//!
//! (It is run in `crates/tests_guides`.)
//!
//! # What is proved
//!
//! - **A job** is a type with `map`, `partition`, `combine`, `reduce` and `key_text` (`trait Job`), over keys and
//!   values that can be written as bytes (`trait Wire`). What the functions give is a ghost member that depends on
//!   the type alone; each method is proved to give exactly that, an allocation failure aside. A job owes the *job laws*;
//!   one that breaks them is not proved and so not built. docs/USING.md is for who writes one.
//!   Three jobs stand in `mr_jobs`.
//! - **Forms**: `Text`, `u64` and `Position` are written as the tables of the crate's README say. What was written is
//!   read again whatever follows, and what is read fits and was written so. `read` answers `BadWire` exactly where the
//!   bytes begin with no value.
//! - `next_line`, `sort_pairs`, `shares` and `write_lines` give exactly the first line, a stable sort of pairs by key,
//!   the pairs of each reduce, and the lines of a key. The sequential execution and the works of a cluster are made of
//!   them.
//! - **`sequential(alloc, job, splits, reduces)`** answers exactly the sequential execution: `reduces` files, file
//!   r being `output reduces r splits`. `Refused` only where a line is refused (then no output exists), `NoMemory`
//!   only from a refused growth. It gathers the values of each key in a map as they come: n log k comparisons for n
//!   pairs of k keys, each key held once. Measured, not
//!   proved: `mrsim seq` is no slower than tools/plain_seq.rs, a program with no proof (`tools/bench seq`; figures
//!   in the README of this crate).
//! - `Splits` is the list of splits that it was made of. `from_vec`, `into_vec`, `as_slice`, `len`, `get` are what they
//!   say. `copy` gives equal splits (it refuses for want of memory alone), and `==` is that of the lists.
//! - **`groups`**: the keys of pairs, rising, each once and with its values in order. `one` is a list of one value, as
//!   `combine` and `reduce` mostly answer.
//! - Memory may be taken by `sequential`, `shares`, `write_lines`, `sort_pairs`, `groups`, `one`, `Text::from_slice` and
//!   `Splits::copy`, by the methods of a job but `partition`, and by `write` and `read` of a form. No other call takes
//!   any.
//! - **Gates**: `trait Gate`, whose `refuses` says where it may refuse work of a kind (anywhere, if it does not say
//!   it); `OpenGate` answers `Ok` at once and refuses nothing (proved).
//! - Laws on functions that do nothing:
//!   - `lines_are_pieces`: the lines are the pieces before each line feed, and the rest if not empty;
//!   - `keys_rise`: the rising keys of a list are its own, each once, each less than the next;
//!   - `least_group_first`: the group of a least key comes first, with all its values in order, and then the groups of
//!     the pairs of other keys. So the pairs of many sorted lists can be grouped one key at a time.
//! - Only tested (crates/tests_jobs/src/user.rt): that the calls do succeed with ample memory.
#![tactic(auto)]

mod execution;
mod fault;
mod gate;
mod gathering;
mod group;
mod job;
mod laws;
mod line;
mod position;
mod splits;
mod text;
mod wire;

pub use execution::{MAX_REDUCES, MAX_SPLIT_LEN, MAX_SPLITS, sequential, shares, write_lines};
pub use fault::{GateFault, UserFault};
pub use gate::{Gate, OpenGate};
pub use group::{groups, one, sort_pairs};
pub use job::Job;
pub use laws::{keys_rise, least_group_first, lines_are_pieces};
pub use line::next_line;
pub use position::Position;
pub use splits::Splits;
pub use text::{Text, known_bytes};
pub use wire::Wire;
