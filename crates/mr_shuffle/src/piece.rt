//! Pieces: what each map handed to a reduce, and whether all of them are there for it.
ghost use Rattle.std.specs.Prelude.{◌≡◌, ◌↔◌, IsTrue};
ghost use Rattle.mr_shuffle.specs.Work.{ArePiecesOf};

use mr_ids::Bytes;

/// What a map handed to a reduce: the block of map `map` for reduce `reduce` (both numbered from 0).
#[derive(Debug, Drop)]
pub struct Piece {
    pub map: u32,
    pub reduce: u32,
    pub bytes: Bytes,
}

// Whether the piece at each place is of the map of that number, and of the reduce.
pub fn are_pieces_of(reduce: u32, parts: &[Piece]) -> bool
    ensures { IsTrue result ↔ ArePiecesOf reduce parts.now }
{
    for (place, part) in parts.iter().enumerate() {
        if part.map as usize != place || part.reduce != reduce {
            return false;
        }
    }
    true
}
