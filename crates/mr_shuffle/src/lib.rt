//! The shuffle: the blocks of all maps for one reduce, merged by key and reduced to its text.
//!
//! # How to begin
//!
//! ```rust
//! fn reduced(alloc: Global, first: Vec<u8>, second: Vec<u8>) -> Result<Vec<u8>, WorkFault> {
//!     let mut pieces = Vec::new(alloc);
//!     for (map, bytes) in [(0, first), (1, second)] {
//!         let bytes = Bytes::from_vec(bytes);
//!         pieces.push(Piece {
//!             map,
//!             reduce: 0,
//!             bytes,
//!         })?;
//!     }
//!     reduce_work(alloc, &WordCount, &OpenGate, 0, &pieces)
//! }
//! ```
//!
//! (It is run in `crates/tests_guides`.)
//!
//! # What is proved
//!
//! Proved, for every `Job`:
//!
//! - *Shuffle gives the sequential text* (`shuffle_gives_sequential_text`, a function that does nothing). It holds
//!   for at most 1,000 splits of at most 2^24 bytes each, any number of reduces and any reduce r. The maps have
//!   blocks for r exactly where the sequential execution has a text for r, and then the part of the blocks is that
//!   text.
//! - `works_give_sequential_text` says it in the words of the calls. Let `map_work` give an output for each split,
//!   and let reduce r get of each the block that `blocks` cuts at place r. Then `reduce_work`'s text is the
//!   sequential execution's.
//! - `reduce_work`: Ok is exactly the part of the pieces, at most 2^24 bytes: keys rising, each reduced with all its
//!   values by piece and then by place. The pieces are then those of maps 0, 1, 2, .. and of this reduce.
//! - Its faults: `Shuffle(WrongPiece)` comes only where some piece is not. Else `Truncated` or `Disorder` comes only
//!   where that is the first fault in the order of the pieces and then of the bytes. `Full` comes only where the part
//!   is a text of more than 2^24 bytes, and `NoMemory` only where the pieces are in place. `User` and
//!   `Shuffle(NoMemory)` never come.
//! - `reduce_bytes` is the same of what the pieces hold, in the order of the maps. It has all these
//!   faults but `WrongPiece`.
//! - Of every work: `Gate` is answered only where the gate may refuse work of that kind (`Gate::refuses`, which a
//!   gate may leave open). So `OpenGate` never causes it.
//! - What a piece says, in whole lists (`piece_is_what_it_says`): Ok exactly where its bytes are pairs written one
//!   after the other, all fitting, no key less than the one before it. `Truncated` exactly where such pairs are
//!   followed by a rest, not empty, that does not begin with a pair that fits. `Disorder` exactly where they are
//!   followed by a pair whose key is less than the last, and any rest.
//! - `Merge` is an iterator, and `new` reads the pieces through. Where all pieces can be read and are in order, its
//!   items are exactly the groups of all pairs, and then nothing. Else it is the first fault in the order of the
//!   pieces and then of the bytes. That comes once, with no group before it and nothing after it.
//! - Each `next` gives the first of what is to come, or `NoMemory`, after which nothing comes. `NoMemory` comes only
//!   where something is to come. Read in the code, not proved: it holds one decoded pair of each piece, beside the
//!   values of the group that it gives, and so does `reduce_work`.
//! - `ShelfOfNode` is a finite map from attempts to bytes. `put` is an insert, and where memory is refused nothing
//!   has changed. `drop_all` empties it, and `copy` is an equal shelf. `get(a, r)` lends the block at place r of what
//!   was put of a. It is none where nothing was put, where that is not as many blocks as there are reduces, or where
//!   there is no such reduce.
//! - `put` finds the blocks, in one walk over the output, and keeps their places (8 bytes a block, a growth that
//!   `put` answers for). `get` is then a look-up and no walk (read in the code: no clause speaks of time).
//! - `is_same` of two shelves is true exactly where they are for as many reduces and have the same bytes of each
//!   attempt, in whatever order these were put.
//! - `share(a, r)` answers the block that `get` lends, as bytes of its own, and refuses for want of memory alone.
//!   Read in the code, not proved: where `put` had memory for it, they share those of the output, and no byte is
//!   copied.
//! - Memory may be taken by `reduce_work`, `reduce_bytes`, `Merge::new`, `Merge::next`, and `put`, `share` and `copy`
//!   of `ShelfOfNode`. No other call takes any.
//!
//! Only tested: that each work enters its gate, that calls succeed with ample memory, and the bytes of the worked
//! examples. Also every prefix and every change of a byte of a block, and texts of exactly 2^24 bytes and of one
//! more.
#![tactic(auto)]

mod laws;
mod merge;
mod piece;
mod reading;
mod shelf;
mod work;

pub use laws::{
    attempts_are_apart, piece_is_what_it_says, shuffle_gives_sequential_text,
    works_give_sequential_text,
};
pub use merge::Merge;
pub use mr_ids::Bytes;
pub use piece::Piece;
pub use shelf::ShelfOfNode;
pub use work::{reduce_bytes, reduce_work};
