//! The machine of a container: what it wishes to call, send or compute next.
//!
//! # How to begin
//!
//! ```rust
//! fn container_step(
//!     names: &mut Namespace,
//!     layout: &Layout,
//!     bag: &mut Bag,
//!     container: &mut ContainerMachine,
//! ) -> Result<(), NameFault> {
//!     if let Some(op) = container.call(layout)? {
//!         match names.perform(container.caller(), &op) {
//!             Err(NameFault::NoMemory) => return Err(NameFault::NoMemory),
//!             answer => container.on(Reply::Answered(answer)),
//!         }
//!         return Ok(());
//!     }
//!     if bag.len() + 1 < MAX_PACKETS && bag.reserve(2).is_ok() {
//!         container.send(bag);
//!     }
//!     Ok(())
//! }
//! ```
//!
//! (It is run in `crates/tests_guides`.)
//!
//! # What is proved
//!
//! A `ContainerMachine` stores no past, but it *stands for* one (`StandsFor`). Read off the past are its id, what it
//! was launched as, the number of maps and its wish. So are the bytes got of the block that is fetched, the whole
//! blocks and its computed bytes. `new` stands for the past that has the launch alone. `hear`, `sent`, `on` and
//! `computed` on a machine that stands for a past, whatever it is, leave one that stands for that past and this step
//! (clause `stands`). The new value is the function `after` of the old one and the step (clause `after`). So, for every
//! past:
//!
//! - `wish` is the first wish of the table in the crate's README whose answer is not in the past. `call` is exactly its
//!   namespace call, `caller` who makes it, `packet` exactly its packet, and none where the wish is another;
//! - `send` adds to the bag exactly the packet of the wish, and `Ended` behind it if it was the last; `tell_end`
//!   adds `Ended` exactly where the container is over;
//! - `blocks` lends the whole blocks, in the order of the maps, without a copy;
//! - `is_same` of two machines, as `==`, is true exactly where they hold the same;
//! - a packet that the wish does not wait for changes nothing. `hear` and `copy` may allocate, and where that fails the
//!   machine is as it was. `call` may allocate and changes nothing. No other call takes memory, so nothing can be
//!   refused after a store was changed.
//!
//! Laws, on functions that do nothing, over every past:
//! - who looks, clears, renames, or reports as a reduce was told yes (`yes_first`);
//! - a reduce that reports has a rename that was done (`renamed_first`);
//! - at `compute` and all that comes after a reduce has the blocks of all maps, and it asks for map m with exactly m
//!   blocks (`all_fetched`);
//! - the calls of its commit and of its abort are those of the committer's tables (`commits_by_table`);
//! - bytes that were handed in are its output for good, and the blocks from which they were computed stay
//!   (`bytes_stay`).
//!
//! `send` asks for two spare places in the bag and for room for two below its limit, `tell_end` for one
//! (`Bag::reserve` and `Bag::len` tell). Each takes a place for each packet that it puts, and no more (clause `spare`): so who sends for
//! several containers may reserve once for all. Only tested: that `call`, `hear` and
//! `copy` succeed with ample memory; the worked examples.
#![tactic(auto)]

mod comparing;
mod laws;
mod machine;
mod namespace_call;
mod pieces;
mod place;
mod reply;
mod wish;

pub use laws::{all_fetched, bytes_stay, commits_by_table, renamed_first, yes_first};
pub use machine::ContainerMachine;
pub use place::Place;
pub use reply::Reply;
pub use wish::Wish;
