//! What a picture says in words above and below its rows: its title, which events are left out, and what came of the run.
use crate::drawing::Drawing;
use crate::svg::{Point, text};
use itoa::Buffer;
use std::alloc::{AllocError, Global};

// Most lines of what came of the run.
const MOST_LINES: usize = 24;

fn at(x: u64, y: u64) -> Point {
    Point { x, y }
}

/// Whether the part that is drawn does not begin with the run.
pub fn is_later(drawing: &Drawing) -> bool {
    drawing.part.from > 0
}

/// The title of a picture: the job, how many events the run has, its marker and its outcome.
pub fn title_of(alloc: Global, drawing: &Drawing) -> Result<Vec<u8>, AllocError> {
    let mut title = Vec::new(alloc);
    let mut buffer = Buffer::new();
    title.extend_from_slice(&drawing.job)?;
    title.extend_from_slice(b": a run of ")?;
    title.extend_from_slice(buffer.format(drawing.events).as_bytes())?;
    title.extend_from_slice(b" events")?;
    let mut mark: &[u8] = b": ";
    for words in drawing.ending.split(|byte| *byte == b'\n') {
        if words.starts_with(b"marker ") || words.starts_with(b"outcome ") {
            title.extend_from_slice(mark)?;
            title.extend_from_slice(words)?;
            mark = b", ";
        }
    }
    title.extend_from_slice(b" (time goes down)")?;
    Ok(title)
}

/// Which events before the rows are left out; or, where there are no rows, that the run ends before.
pub fn put_before(out: &mut String, drawing: &Drawing) -> Result<(), AllocError> {
    let alloc = *out.allocator();
    let rest = &drawing.before;
    let note = if drawing.rows.is_empty() {
        none_note(alloc, drawing)?
    } else {
        cut_note(alloc, rest.count, b" events before these are not drawn")?
    };
    text(out, "title", at(16, 124), &note)?;
    text(out, "words", at(38, 138), &rest.kinds)
}

// That no event is drawn.
fn none_note(alloc: Global, drawing: &Drawing) -> Result<Vec<u8>, AllocError> {
    let mut note = Vec::new(alloc);
    put_number(
        &mut note,
        b"no event is drawn: the run has ",
        drawing.events as u64,
    )?;
    put_number(&mut note, b" events, and none at ", drawing.part.from)?;
    note.extend_from_slice(b" or behind it (the first is 0)")?;
    Ok(note)
}

// A word and a number behind it.
fn put_number(out: &mut Vec<u8>, word: &[u8], number: u64) -> Result<(), AllocError> {
    let mut buffer = Buffer::new();
    out.extend_from_slice(word)?;
    out.extend_from_slice(buffer.format(number).as_bytes())
}

// How many lines tell what came of the run, with the empty one behind the last line feed.
fn line_count(drawing: &Drawing) -> usize {
    drawing.ending.split(|byte| *byte == b'\n').count()
}

// How many of them are left out. Empty ones don't count.
fn hidden_lines(drawing: &Drawing) -> usize {
    let mut hidden = 0usize;
    for words in drawing.ending.split(|byte| *byte == b'\n').skip(MOST_LINES) {
        if !words.is_empty() {
            hidden = hidden.saturating_add(1);
        }
    }
    hidden
}

/// How many lines stand below the rows, with those that tell what is left out.
pub fn foot_lines(drawing: &Drawing) -> usize {
    line_count(drawing)
        .min(MOST_LINES)
        .saturating_add(usize::from(drawing.behind.count > 0))
        .saturating_add(usize::from(hidden_lines(drawing) > 0))
}

// The note that `count` things are left out; `behind` names them.
fn cut_note(alloc: Global, count: usize, behind: &[u8]) -> Result<Vec<u8>, AllocError> {
    let mut note = Vec::new(alloc);
    let mut buffer = Buffer::new();
    note.extend_from_slice(b"cut here: ")?;
    note.extend_from_slice(buffer.format(count).as_bytes())?;
    note.extend_from_slice(behind)?;
    Ok(note)
}

/// Which events behind the rows are left out, and what came of the run, from this height on.
pub fn put_ending(out: &mut String, drawing: &Drawing, top: u64) -> Result<(), AllocError> {
    let alloc = *out.allocator();
    let mut y = top;
    let rest = &drawing.behind;
    if rest.count > 0 {
        let note = cut_note(alloc, rest.count, b" more events are not drawn")?;
        text(out, "title", at(16, y), &note)?;
        y = y.saturating_add(14);
        text(out, "words", at(38, y), &rest.kinds)?;
    }
    for words in drawing.ending.split(|byte| *byte == b'\n').take(MOST_LINES) {
        y = y.saturating_add(14);
        text(out, "words", at(38, y), words)?;
    }
    let hidden = hidden_lines(drawing);
    if hidden > 0 {
        let note = cut_note(alloc, hidden, b" more lines are not shown")?;
        text(out, "words", at(38, y.saturating_add(14)), &note)?;
    }
    Ok(())
}
