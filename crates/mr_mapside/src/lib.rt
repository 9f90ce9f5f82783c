//! The map side: a split's pairs, sorted, grouped and combined, as one block of bytes for each reduce.
//!
//! # How to begin
//!
//! ```rust
//! fn first_block(alloc: Global, text: &[u8]) -> Result<usize, WorkFault> {
//!     if text.len() > MAX_SPLIT_LEN {
//!         return Err(WorkFault::Full);
//!     }
//!     let output = map_work(alloc, &WordCount, &OpenGate, 0, text, 2)?;
//!     match blocks(output.bytes(), 2) {
//!         Some(all) => Ok(all.get(0).map_or(0, |block| block.len())),
//!         None => Ok(0), // never so: an output is cut into its blocks
//!     }
//! }
//! ```
//!
//! (It is run in `crates/tests_guides`.)
//!
//! # What is proved
//!
//! - **`map_work`**: proved that Ok is exactly the map's output, of at most 2^24 bytes. The output has, for each
//!   reduce in order, the length of its block in 4 bytes and then the block. A block is the pairs of the keys that go
//!   to that reduce, by rising keys, each key's values combined.
//! - Its faults: `User(Refused)` is answered only where the job refuses a line of the split, and no other `User` is
//!   ever answered. `Full` is answered only where the output's bytes pass 2^24, and `Shuffle` never.
//! - Read in the code, not proved: it holds at most 4,096 decoded pairs, beside those of the present line and the
//!   values of the one key that is combined. The others are kept as they are written, in sorted runs, which it merges
//!   at the end. The merge holds a pair of each run, which are more than 1,024 where a split has more than 16,777,216
//!   pairs.
//! - **`RunGroups`** merges lists of written pairs, each by rising keys. `next_group` gives the groups of all their
//!   pairs, by rising keys, each key's values by list and then by place. It holds one pair of each list, beside the
//!   group that it gives.
//! - Its condition asks that each list is pairs to its end. So it answers only an allocation failure, and that only
//!   where a growth was refused. Nothing comes after one.
//! - `read_pair` is the pair that bytes begin with. `read_value` is its value, read behind a key whose bytes are
//!   known.
//! - **`blocks`** cuts bytes into as many blocks as are asked for. It is some exactly where the bytes are that many
//!   blocks, each behind its length, and nothing else; then it is those blocks. `OutputBlocks::get` is the block at a
//!   place, and `count` is how many there are.
//! - `CutOutput` is an output with the places of its blocks. `new` finds them. `block` lends the block at a place,
//!   exactly where the bytes are as many blocks as are asked for. `share_block` gives it as bytes of its own, which share
//!   those of the output.
//! - `MapOutput` is a list of at most 2^24 bytes, made from a `Vec` or from bytes, and given back; `copy` is equal, and
//!   `part` is what it says. `share` changes nothing that is seen: after it copies and parts share the bytes.
//! - `is_same` of two outputs, and of two `CutOutput`s, is true exactly where they have the same bytes.
//! - Memory may be taken by `map_work`, `read_pair`, `read_value`, `RunGroups::new`, `next_group`, `CutOutput::new`,
//!   `share_block`, `part`, `share` and each `copy`. No other call takes any.
//! - Laws, on functions that do nothing: bytes are blocks behind their lengths in one way alone (`blocks_are_one`).
//!   For every job, a map's output is cut into exactly the blocks that the map hands to the reduces
//!   (`output_is_its_blocks`).
//! - Only tested: that the gate is entered, that the calls succeed with ample memory, the bytes of one output, and an
//!   output above the limit.
#![tactic(auto)]

mod cut_output;
mod cutting;
mod fault;
mod front;
mod kept;
mod laws;
mod merging;
mod output;
mod work;

pub use cut_output::CutOutput;
pub use cutting::{OutputBlocks, blocks};
pub use fault::{ShuffleFault, WorkFault};
pub use laws::{blocks_are_one, output_is_its_blocks};
pub use merging::{RunGroups, read_pair, read_value};
pub use output::MapOutput;
pub use work::map_work;

/// How many bytes a map's output has at most, and the text of a reduce.
pub const MAX_OUTPUT_LEN: usize = 16777216;
