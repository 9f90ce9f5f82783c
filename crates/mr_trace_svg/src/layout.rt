//! Where the parts of a picture stand.
use crate::drawing::{Drawing, Row};
use crate::notes::is_later;
use crate::svg::Point;

/// From lane to lane.
pub const LANE: u64 = 112;

/// From row to row.
pub const ROW: u64 = 20;

/// After so many rows the names of the lanes stand once more, in a gap of this height.
pub const NAMED_ROWS: usize = 40;

const GAP: u64 = 40;

// The narrowest picture, in which the key has room.
const NARROWEST: u64 = 1340;

// Where the first row stands, and how much lower it does where a note above it tells what is left out.
const TOP: u64 = 152;

const NOTE: u64 = 44;

/// Most letters of what stands behind the lanes.
pub const MOST_LETTERS: usize = 200;

/// Where the parts of a picture stand.
#[derive(Clone, Copy, Debug, PartialEq, Eq)]
pub struct Places {
    /// The first row.
    pub top: u64,
    /// The first lane.
    pub lanes: u64,
    /// What stands behind the lanes.
    pub details: u64,
    /// Below the last row.
    pub below: u64,
    pub width: u64,
}

/// The places of the parts of a drawing.
pub fn places_of(drawing: &Drawing) -> Places {
    let top = if is_later(drawing) { TOP + NOTE } else { TOP };
    let lanes = letters(longest_words(&drawing.rows)).saturating_add(134);
    let count = drawing.lanes.len() as u64;
    let details = lanes.saturating_add(count.saturating_mul(LANE));
    let width = details
        .saturating_add(letters(longest_detail(&drawing.rows)))
        .saturating_add(20);
    Places {
        top,
        lanes,
        details,
        below: below(top, drawing.rows.len()).saturating_add(14),
        width: width.max(NARROWEST),
    }
}

// How wide `count` letters are.
fn letters(count: u64) -> u64 {
    count.saturating_mul(61) / 10
}

fn longest_words(rows: &[Row]) -> u64 {
    let mut most = 0;
    for row in rows {
        most = most.max(row.words.len() as u64);
    }
    most
}

fn longest_detail(rows: &[Row]) -> u64 {
    let mut most = 0u64;
    for row in rows {
        let note = row.note.len() as u64;
        let detail = row.detail.len().min(MOST_LETTERS) as u64;
        most = most.max(note.saturating_add(detail).saturating_add(4));
    }
    most
}

/// Where a row stands.
pub fn row_at(places: &Places, row: usize) -> u64 {
    height_of(places.top, row)
}

// Where a row stands, with the gaps above it, in a picture whose first row stands at `top`.
fn height_of(top: u64, row: usize) -> u64 {
    let gaps = (row / NAMED_ROWS) as u64;
    (row as u64)
        .saturating_mul(ROW)
        .saturating_add(gaps.saturating_mul(GAP))
        .saturating_add(top)
}

// Below the last of so many rows.
fn below(top: u64, rows: usize) -> u64 {
    match rows.checked_sub(1) {
        Some(last) => height_of(top, last).saturating_add(ROW),
        None => top,
    }
}

/// Where a row and a lane meet.
pub fn place(places: &Places, lane: usize, row: usize) -> Point {
    Point {
        x: places
            .lanes
            .saturating_add((lane as u64).saturating_mul(LANE)),
        y: row_at(places, row),
    }
}

/// This place.
pub fn at(x: u64, y: u64) -> Point {
    Point { x, y }
}
