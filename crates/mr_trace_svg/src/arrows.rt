//! The packets of a picture: arrows from where they are sent to where they are delivered.
use crate::drawing::{Arrow, Delivery, Drawing, Row, Sending, Tone};
use crate::layout::{Places, at, place};
use crate::svg::{Point, close_hint, line, open_hint};
use std::alloc::AllocError;

/// Packets, from where they were sent to where they were delivered.
pub fn put_arrows(
    out: &mut String,
    drawing: &Drawing,
    arrows: &[Arrow],
    again: bool,
    places: &Places,
) -> Result<(), AllocError> {
    for arrow in arrows {
        match arrow.delivery {
            Delivery::At(row) => put_delivered(out, drawing, arrow, row, again, places)?,
            _ => put_packet(out, arrow, again, places)?,
        }
    }
    Ok(())
}

// A packet that is delivered in a row: whoever points at it sees by which event, and what it says.
fn put_delivered(
    out: &mut String,
    drawing: &Drawing,
    arrow: &Arrow,
    row: usize,
    again: bool,
    places: &Places,
) -> Result<(), AllocError> {
    match drawing.rows.get(row) {
        Some(delivered) => {
            put_hint(out, delivered)?;
            put_packet(out, arrow, again, places)?;
            close_hint(out)
        }
        None => put_packet(out, arrow, again, places),
    }
}

/// The head of a group that shows the event of a row where one points at it.
pub fn put_hint(out: &mut String, row: &Row) -> Result<(), AllocError> {
    open_hint(out, row.event, &row.words, &row.detail)
}

fn put_packet(
    out: &mut String,
    arrow: &Arrow,
    again: bool,
    places: &Places,
) -> Result<(), AllocError> {
    match arrow.sent {
        Sending::At(row) => put_sent(out, arrow, row, again, places),
        Sending::Before(_) => put_earlier(out, arrow, again, places),
    }
}

// A packet that is sent in a row.
fn put_sent(
    out: &mut String,
    arrow: &Arrow,
    sent: usize,
    again: bool,
    places: &Places,
) -> Result<(), AllocError> {
    let (Some(from), Some(to)) = (arrow.from, arrow.to) else {
        return Ok(());
    };
    let start = place(places, from, sent);
    match arrow.delivery {
        Delivery::At(row) => {
            let class = arrow_class(arrow.tone, again);
            put_arrow(out, class, start, place(places, to, row))
        }
        Delivery::Later => put_stub(out, "later", start, from < to),
        Delivery::Never => put_stub(out, "lost", start, from < to),
        Delivery::Before => Ok(()),
    }
}

// A packet that was sent before the rows: a short stroke to where it is delivered, if that is in a row.
fn put_earlier(
    out: &mut String,
    arrow: &Arrow,
    again: bool,
    places: &Places,
) -> Result<(), AllocError> {
    let (Some(to), Delivery::At(row)) = (arrow.to, arrow.delivery) else {
        return Ok(());
    };
    let end = place(places, to, row);
    let x = match arrow.from {
        Some(from) if from > to => end.x.saturating_add(30),
        _ => end.x.saturating_sub(30),
    };
    let class = if again { "repeat" } else { "earlier" };
    put_arrow(out, class, at(x, end.y.saturating_sub(12)), end)
}

fn arrow_class(tone: Tone, again: bool) -> &'static str {
    match (tone, again) {
        (_, true) => "repeat",
        (Tone::Plain, false) => "packet",
        (Tone::Yes, false) => "yes",
        (Tone::No, false) => "no",
    }
}

// Its head stops short of the lane.
fn put_arrow(out: &mut String, class: &str, from: Point, to: Point) -> Result<(), AllocError> {
    let x = if from.x < to.x {
        to.x.saturating_sub(5)
    } else {
        to.x.saturating_add(5)
    };
    line(out, class, from, at(x, to.y))
}

fn put_stub(
    out: &mut String,
    class: &str,
    from: Point,
    rightwards: bool,
) -> Result<(), AllocError> {
    let x = if rightwards {
        from.x.saturating_add(30)
    } else {
        from.x.saturating_sub(30)
    };
    line(out, class, from, at(x, from.y.saturating_add(12)))
}
