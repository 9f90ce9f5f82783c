//! The picture of a drawing: where its parts stand, and how they are written.
//! It is written as SVG, for `drawn`.
use crate::arrows::{put_arrows, put_hint};
use crate::drawing::{Begin, Drawing, End, Lane, Row, Sign};
use crate::layout::{LANE, MOST_LETTERS, NAMED_ROWS, Places, ROW, at, place, places_of, row_at};
use crate::notes::{foot_lines, is_later, put_before, put_ending, title_of};
use crate::signs::{
    put_begin, put_dead, put_earlier_key, put_given_up, put_key, put_later_key, put_over, put_sign,
};
use crate::svg::{Point, close, close_hint, line, noted, open, rectangle, text};
use itoa::Buffer;
use mr_packet::Address;
use std::alloc::{AllocError, Global};

/// The picture of a drawing, as SVG.
pub fn picture_of(alloc: Global, drawing: &Drawing) -> Result<Vec<u8>, AllocError> {
    let mut out = String::new(alloc);
    let places = places_of(drawing);
    put_top(&mut out, drawing, &places)?;
    put_bands(&mut out, drawing, &places)?;
    put_guides(&mut out, drawing, &places)?;
    put_lives(&mut out, drawing, &places)?;
    put_arrows(&mut out, drawing, &drawing.arrows, false, &places)?;
    put_arrows(&mut out, drawing, &drawing.repeats, true, &places)?;
    put_signs(&mut out, drawing, &places)?;
    put_words(&mut out, drawing, &places)?;
    put_heads(&mut out, drawing, &places, places.top.saturating_sub(36))?;
    put_heads_between(&mut out, drawing, &places)?;
    put_heads(&mut out, drawing, &places, places.below)?;
    put_ending(&mut out, drawing, places.below.saturating_add(40))?;
    close(&mut out)?;
    Ok(out.into_bytes())
}

// The title, and what the signs mean.
fn put_top(out: &mut String, drawing: &Drawing, places: &Places) -> Result<(), AllocError> {
    let foot = (foot_lines(drawing) as u64).saturating_mul(14);
    let height = places.below.saturating_add(70).saturating_add(foot);
    let title = title_of(*out.allocator(), drawing)?;
    open(out, at(places.width, height), &title)?;
    text(out, "title", at(16, 26), &title)?;
    put_key(out, at(24, 50))?;
    if drawing.behind.count > 0 {
        put_later_key(out, at(24, 94))?;
    }
    if is_later(drawing) {
        put_earlier_key(out, at(396, 94))?;
        put_before(out, drawing)?;
    }
    Ok(())
}

// Rows that stand out.
fn put_bands(out: &mut String, drawing: &Drawing, places: &Places) -> Result<(), AllocError> {
    for (number, row) in drawing.rows.iter().enumerate() {
        let y = row_at(places, number);
        if let Some(class) = band_of(row.sign) {
            let upper = at(0, y.saturating_sub(ROW / 2));
            rectangle(out, class, upper, at(places.width, ROW))?;
        }
    }
    Ok(())
}

fn band_of(sign: Sign) -> Option<&'static str> {
    match sign {
        Sign::Dot => None,
        Sign::Crash
        | Sign::Death
        | Sign::Restart
        | Sign::Expiry
        | Sign::Stop
        | Sign::Failure
        | Sign::Refusal => Some("bad"),
        Sign::Permission | Sign::TaskCommit | Sign::Winner => Some("good"),
        Sign::Marker | Sign::Success => Some("best"),
        Sign::Start | Sign::JobCommit => Some("band"),
    }
}

// A faint line for each row, and for each lane where nobody is.
fn put_guides(out: &mut String, drawing: &Drawing, places: &Places) -> Result<(), AllocError> {
    let left = places.lanes.saturating_sub(LANE / 2);
    let right = places.details.saturating_sub(LANE);
    for number in 0..drawing.rows.len() {
        let y = row_at(places, number);
        line(out, "rule", at(left, y), at(right, y))?;
    }
    for number in 0..drawing.lanes.len() {
        let x = place(places, number, 0).x;
        line(
            out,
            "guide",
            at(x, places.top.saturating_sub(16)),
            at(x, places.below.saturating_sub(16)),
        )?;
    }
    Ok(())
}

// The lives of the lanes.
fn put_lives(out: &mut String, drawing: &Drawing, places: &Places) -> Result<(), AllocError> {
    for (number, lane) in drawing.lanes.iter().enumerate() {
        if let Some(begins) = lane.begins {
            put_life(out, drawing, places, number, lane, begins)?;
        }
    }
    Ok(())
}

fn put_life(
    out: &mut String,
    drawing: &Drawing,
    places: &Places,
    number: usize,
    lane: &Lane,
    begins: Begin,
) -> Result<(), AllocError> {
    let first = match begins {
        Begin::At(row) => place(places, number, row),
        Begin::Before => at(place(places, number, 0).x, upper_edge(drawing, places)),
    };
    let last = match lane.ends {
        Some((row, End::Over)) => beneath(place(places, number, row)),
        Some((row, End::Died)) => place(places, number, row),
        None => at(first.x, places.below.saturating_sub(16)),
    };
    line(out, class_of(&lane.who), first, last)?;
    if let Begin::At(row) = begins {
        put_cause(out, drawing, places, row, first)?;
        put_begin(out, first)?;
        text(
            out,
            "label",
            at(first.x.saturating_add(9), first.y.saturating_sub(3)),
            &lane.attempt,
        )?;
    }
    match lane.ends {
        Some((_, End::Over)) => put_over(out, last),
        Some((row, End::Died)) => {
            put_cause(out, drawing, places, row, last)?;
            put_dead(out, last)
        }
        None => Ok(()),
    }
}

// Half a row beneath: a life that ends by itself leaves room for the sign of its last event.
fn beneath(here: Point) -> Point {
    at(here.x, here.y.saturating_add(ROW / 2))
}

// Where what began before the rows comes in: above the first one, where the run has events before it.
fn upper_edge(drawing: &Drawing, places: &Places) -> u64 {
    if is_later(drawing) {
        places.top.saturating_sub(16)
    } else {
        places.top
    }
}

fn class_of(who: &Address) -> &'static str {
    match who {
        Address::Master(_) => "master",
        Address::Node(_) => "node",
        Address::Container(_) => "container",
    }
}

// From the one who acts in a row to what begins or ends by it.
fn put_cause(
    out: &mut String,
    drawing: &Drawing,
    places: &Places,
    row: usize,
    to: Point,
) -> Result<(), AllocError> {
    match lane_in(drawing, row) {
        Some(lane) => line(out, "cause", place(places, lane, row), to),
        None => Ok(()),
    }
}

fn lane_in(drawing: &Drawing, row: usize) -> Option<usize> {
    match drawing.rows.get(row) {
        Some(row) => row.lane,
        None => None,
    }
}

// The sign of each row, with what stands beside it. Whoever points at it sees the event's number and words.
fn put_signs(out: &mut String, drawing: &Drawing, places: &Places) -> Result<(), AllocError> {
    for (number, row) in drawing.rows.iter().enumerate() {
        if let Some(lane) = row.lane {
            let here = place(places, lane, number);
            if let Some(other) = row.other {
                let there = place(places, other, number);
                line(out, "expiry", here, there)?;
                put_given_up(out, there)?;
            }
            put_hint(out, row)?;
            put_sign(out, row.sign, here)?;
            put_label(out, row, here)?;
            close_hint(out)?;
        }
    }
    Ok(())
}

fn put_label(out: &mut String, row: &Row, here: Point) -> Result<(), AllocError> {
    let y = here.y.saturating_sub(3);
    let aside = reach_of(row.sign);
    if row.leftwards {
        text(out, "left", at(here.x.saturating_sub(aside), y), &row.label)
    } else {
        text(
            out,
            "label",
            at(here.x.saturating_add(aside), y),
            &row.label,
        )
    }
}

// How far from the lane its label stands, beside its sign.
fn reach_of(sign: Sign) -> u64 {
    match sign {
        Sign::Marker | Sign::Success | Sign::Failure => 14,
        Sign::TaskCommit => 11,
        Sign::Dot
        | Sign::Start
        | Sign::Crash
        | Sign::Death
        | Sign::Restart
        | Sign::Expiry
        | Sign::Permission
        | Sign::Winner
        | Sign::JobCommit
        | Sign::Refusal
        | Sign::Stop => 9,
    }
}

// The number and the words of each row, and what it called or delivered.
fn put_words(out: &mut String, drawing: &Drawing, places: &Places) -> Result<(), AllocError> {
    for (number, row) in drawing.rows.iter().enumerate() {
        let y = row_at(places, number).saturating_add(3);
        let mut buffer = Buffer::new();
        text(
            out,
            "number",
            at(30, y),
            buffer.format(row.event).as_bytes(),
        )?;
        text(out, "words", at(38, y), &row.words)?;
        put_row_detail(out, row, at(places.details, y))?;
    }
    Ok(())
}

fn put_row_detail(out: &mut String, row: &Row, here: Point) -> Result<(), AllocError> {
    if row.note.is_empty() && row.detail.is_empty() {
        return Ok(());
    }
    match row.detail.get(..MOST_LETTERS) {
        Some(front) => noted(out, here, &row.note, front, ".."),
        None => noted(out, here, &row.note, &row.detail, ""),
    }
}

// The names of the lanes once more, in the gaps between the rows.
fn put_heads_between(
    out: &mut String,
    drawing: &Drawing,
    places: &Places,
) -> Result<(), AllocError> {
    let gaps = drawing.rows.len().saturating_sub(1) / NAMED_ROWS;
    for gap in 0..gaps {
        let row = gap.saturating_add(1).saturating_mul(NAMED_ROWS);
        put_heads(out, drawing, places, row_at(places, row).saturating_sub(32))?;
    }
    Ok(())
}

// The names of the lanes.
fn put_heads(
    out: &mut String,
    drawing: &Drawing,
    places: &Places,
    y: u64,
) -> Result<(), AllocError> {
    for (number, lane) in drawing.lanes.iter().enumerate() {
        let x = place(places, number, 0).x;
        text(out, "head", at(x, y), &lane.name)?;
        text(out, "under", at(x, y.saturating_add(13)), &lane.attempt)?;
    }
    Ok(())
}
