//! Whether seats account for a journal.
ghost use Rattle.std.specs.Prelude.{◌≡◌, ◌↔◌, IsTrue, map, sum, length};
ghost use Rattle.std.specs.List.{All};
ghost use Rattle.mr_board.specs.Boards.{Account, Differ, made_by};

use crate::seat::Seat;
use mr_world_events::Event;
use thiserror::Error;

/// The seats do not account for the journal, or one of them is another board's.
#[derive(Clone, Copy, PartialEq, Eq, Debug, Error)]
#[error("mismatch")]
pub struct Mismatch;

/// Whether the seats account for the journal of the board of this number.
pub fn accounts(seats: &[Seat], number: u64, by: &[u32], journal: &[Event]) -> bool
    ensures { IsTrue result ↔ Account number by.now journal.now seats.now }
{
    are_of(seats, number)
        && differ(seats)
        && have(seats, journal.len())
        && all_have_their_own(seats, by, journal)
}

// Whether all seats are of the board of this number.
fn are_of(seats: &[Seat], number: u64) -> bool
    ensures { IsTrue result ↔ All (λ s. s.board ≡ number) seats.now }
{
    seats.iter().all(|seat| seat.board() == number)
}

// Whether no two seats have one number.
fn differ(seats: &[Seat]) -> bool
    ensures { IsTrue result ↔ Differ seats.now }
{
    let mut rest = seats;
    while let Some((seat, others)) = rest.split_first() {
        if others.iter().any(|other| other.number() == seat.number()) {
            return false;
        }
        rest = others;
    }
    true
}

// Whether the lists of the seats have this many events together.
fn have(seats: &[Seat], events: usize) -> bool
    ensures { IsTrue result ↔ (sum (map (λ s. length s.made) seats.now) ≡ events) }
{
    let mut left = events;
    let mut rest = seats;
    while let Some((seat, others)) = rest.split_first() {
        let made = seat.made().len();
        if left < made {
            return false;
        }
        left -= made;
        rest = others;
    }
    left == 0
}

fn all_have_their_own(seats: &[Seat], by: &[u32], journal: &[Event]) -> bool
    ensures { IsTrue result ↔ All (λ s. s.made ≡ made_by s.number by.now journal.now) seats.now }
{
    seats.iter().all(|seat| has_its_own(seat, by, journal))
}

// Whether a seat's list is the journal's events of its number.
fn has_its_own(seat: &Seat, by: &[u32], journal: &[Event]) -> bool
    ensures { IsTrue result ↔ (seat.now.made ≡ made_by seat.now.number by.now journal.now) }
{
    let mut left = seat.made();
    let mut numbers = by;
    let mut events = journal;
    while let (Some((number, more)), Some((event, later))) = (
        numbers.split_first(),
        events.split_first(),
    ) {
        if *number == seat.number() {
            match left.split_first() {
                Some((first, others)) if first == event => left = others,
                _ => return false,
            }
        }
        numbers = more;
        events = later;
    }
    left.is_empty()
}
