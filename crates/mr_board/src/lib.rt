//! A world that several actors share, with a note of who made each of its events. docs/USING.md tells how several threads run one.
//!
//! # What is proved
//!
//! Contracts see a `Board` as its number, its world and, for each event of the journal, the number of the seat that
//! made it. They see a `Seat` as its board's number, its own, and the events that were made from it (`specs/Boards`).
//! For every job, board and seat:
//!
//! - `Board::new` has no event noted, and gives as many seats of this board as are asked for, numbered from 0, from which nothing was made;
//! - **`apply_as`** is `World::apply` on the world that it finds, with its answer and its refusals in order. The one
//!   exception is that every `Computed` is `WrongWish`. An event that is taken gets the seat's number and is the last
//!   of that seat's list. A refusal changes nothing of world, numbers and seat (`Applies`);
//! - **`computed_as`** is the same of the bytes of a `Finished`, where its container wishes to compute just that
//!   work. Else it answers `NoContainer`, then `WrongWish` (`Hands`). **`hand_in_as`** is the same of a `Finished`
//!   that is given away: its bytes are moved and not copied;
//! - `work` copies what a container is to compute, and **`Work::run`** gives a `Finished` with the definition's bytes of it, or the exact fault;
//! - **the headline** stands on `apply_as`, `computed_as` and `hand_in_as`, of the world before and after (`HeadlineHolds`), and on `world`. Its journal is faithful: once the success marker is there, the files
//!   are the job's sequential execution's (`SeesSequentialFiles`);
//! - **`close`** answers a `Closed` exactly where the seats are this board's and account for its journal (`Account`),
//!   and needs no other fact of the threads. It has the board's world and who made each event of its journal, which
//!   is faithful; no other call makes one.
//!
//! `world`, `close`, and the calls of a `Seat` and of a `Closed` take no memory. All others may fail for want of memory.
//!
//! No call here waits: each returns (`Work::run` where the gate's `enter` does). Whoever shares a board puts a lock round it.
//!
//! Only tested (crates/tests_board): that the calls succeed with ample memory, and that the gate is entered.
#![tactic(auto)]

mod board;
mod close;
mod closed;
mod seat;
mod work;

pub use board::Board;
pub use close::Mismatch;
pub use closed::Closed;
pub use mr_world;
pub use seat::Seat;
pub use work::{Finished, Work};
