//! A seat: the right to act on a board under a number.
ghost use Rattle.std.specs.Prelude.{◌≡◌, []};

use mr_world_events::Event;
use std::alloc::Global;
use std::marker::Model;

/// The right to act on a board under a number, and the events that were made from it, in order. `Board::new` alone makes seats.
#[derive(Drop)]
pub struct Seat {
    pub(crate) board: u64,
    pub(crate) number: u32,
    pub(crate) made: Vec<Event>,
}

impl Model for Seat {
    ghost use Rattle.mr_board.specs.Boards.{Seated};

    ghost Value = { Seated };

    ghost view = { λ s. record { board = s.board; number = s.number; made = s.made.items } };
}

impl Seat {
    // A seat of the board of this number, from which nothing was made.
    pub(crate) fn new(alloc: Global, board: u64, number: u32) -> Seat
        ensures { (result.board ≡ board) × (result.number ≡ number) × (result.made ≡ []) }
    {
        Seat {
            board,
            number,
            made: Vec::new(alloc),
        }
    }

    /// The number of its board.
    pub fn board(&self) -> u64
        ensures { result ≡ self.now.board }
    {
        self.board
    }

    /// Its number, from 0.
    pub fn number(&self) -> u32
        ensures { result ≡ self.now.number }
    {
        self.number
    }

    /// The events that were made from it, in order.
    pub fn made(&self) -> &[Event]
        ensures { result.now ≡ self.now.made }
    {
        self.made.as_slice()
    }
}
