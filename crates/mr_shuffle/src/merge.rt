//! The merge of pieces by key.
ghost use Rattle.std.specs.Prelude.{IfOk};
ghost use Rattle.std.specs.Iterator.{item_count};
ghost use Rattle.mr_user.specs.Computation.{computation};
ghost use Rattle.mr_shuffle.specs.Work.{bytes_of};
ghost use Rattle.mr_shuffle.specs.Merging.{IsMergeOf, Gives};

use crate::piece::Piece;
use crate::work::open_pieces;
use mr_mapside::{RunGroups, ShuffleFault};
use mr_user::Job;
use std::alloc::{AllocError, Global};
use std::marker::Model;

/// The groups of pieces: the keys in any piece, rising, each with all its values by piece and then by place. Where a
/// piece can't be read or is not in order, the first fault comes alone, with no group before it and nothing after it.
/// It holds one pair of each piece at a time, beside the values of the group that it gives. Contracts see the items
/// that are still to come.
#[derive(Drop)]
pub struct Merge<'a, J: Job> {
    alloc: Global,
    groups: RunGroups<'a, J>,
    fault: Option<ShuffleFault>,
}

impl<'a, J: Job> Model for Merge<'a, J> {
    ghost use Rattle.std.specs.Prelude.{List};
    ghost use Rattle.mr_shuffle.specs.Merging.{Item, items_of};

    ghost Value = { List (Item J.Key J.Value) };

    ghost view = { λ m. items_of m.groups m.fault };
}

impl<'a, J: Job> Merge<'a, J> {
    /// The merge of pieces, in their order. They are read through once, and each pair is read again when it comes. It
    /// reads what they hold and not of which map and reduce they are. Its only fault is an allocation failure.
    pub fn new(alloc: Global, parts: &'a [Piece]) -> Result<Merge<'a, J>, AllocError>
        ensures { IfOk result (IsMergeOf (computation J.Key.cmp J.Key.codec J.Value.codec J.functions) (bytes_of parts.now)) }
    {
        match open_pieces::<J>(alloc, parts) {
            Ok(groups) => Ok(Merge {
                alloc,
                groups,
                fault: None,
            }),
            Err(fault) => match fault {
                ShuffleFault::NoMemory => Err(AllocError),
                _ => Ok(Merge {
                    alloc,
                    groups: RunGroups::new(alloc, Vec::new(alloc))?,
                    fault: Some(fault),
                }),
            },
        }
    }
}

impl<'a, J: Job> Iterator for Merge<'a, J> {
    type Item = Result<(J::Key, Vec<J::Value>), ShuffleFault>;

    ghost next_gives = { Gives (λ values. values.items) };

    ghost remaining = { item_count (λ items. items) };

    /// The next group or the fault. An allocation failure is answered as a fault, and only where something was to
    /// come. Nothing comes after it.
    fn next(&mut self) -> Option<Result<(J::Key, Vec<J::Value>), ShuffleFault>> {
        match self.groups.next_group(self.alloc) {
            Ok(Some(group)) => Some(Ok(group)),
            Ok(None) => match self.fault.take() {
                Some(fault) => Some(Err(fault)),
                None => None,
            },
            Err(_) => {
                self.fault = None;
                Some(Err(ShuffleFault::NoMemory))
            }
        }
    }
}
