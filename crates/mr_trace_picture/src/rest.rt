//! The events of a run before and behind those that are drawn: what they are, and what they deliver.
use itoa::Buffer;
use mr_trace_svg::{Delivery, Rest};
use mr_world_events::Event;
use std::alloc::{AllocError, Global};

// The kinds of events, by the first word of their commands.
const KINDS: [&[u8]; 10] = [
    b"start", b"crash", b"duty", b"launch", b"deliver", b"step", b"compute", b"die", b"restart",
    b"expire",
];

fn kind_of(event: &Event) -> &'static [u8] {
    match event {
        Event::Start { .. } => b"start",
        Event::Crash { .. } => b"crash",
        Event::Duty { .. } => b"duty",
        Event::LaunchOn { .. } => b"launch",
        Event::Deliver { .. } => b"deliver",
        Event::ContainerStep { .. } => b"step",
        Event::Computed { .. } => b"compute",
        Event::Die { .. } => b"die",
        Event::NodeRestart { .. } => b"restart",
        Event::Expire { .. } => b"expire",
    }
}

/// Events that are not drawn: how many there are, and how many of each kind, as `2 deliver, 1 restart`.
pub fn left_out(alloc: Global, events: &[Event]) -> Result<Rest, AllocError> {
    let mut kinds = Vec::new(alloc);
    for kind in KINDS {
        let mut count = 0u64;
        for event in events {
            if kind_of(event) == kind {
                count = count.saturating_add(1);
            }
        }
        if count > 0 {
            put_count(&mut kinds, count, kind)?;
        }
    }
    Ok(Rest {
        count: events.len(),
        kinds,
    })
}

fn put_count(out: &mut Vec<u8>, count: u64, kind: &[u8]) -> Result<(), AllocError> {
    let mut buffer = Buffer::new();
    if !out.is_empty() {
        out.extend_from_slice(b", ")?;
    }
    out.extend_from_slice(buffer.format(count).as_bytes())?;
    out.extend_from_slice(b" ")?;
    out.extend_from_slice(kind)
}

/// Where the journal first delivers each of the first `packets` packets of the bag. The events from the place `start` of the journal on are drawn in these
/// rows.
pub fn deliveries(
    alloc: Global,
    journal: &[Event],
    packets: usize,
    start: usize,
    rows: &[usize],
) -> Result<Vec<Delivery>, AllocError> {
    let mut first = Vec::new(alloc);
    for _ in 0..packets {
        first.push(Delivery::Never)?;
    }
    for (place, event) in journal.iter().enumerate() {
        if let Event::Deliver { packet: i } = event {
            deliver(&mut first, *i as usize, delivery_at(place, start, rows));
        }
    }
    Ok(first)
}

// Where the event at this place of the journal delivers a packet.
fn delivery_at(place: usize, start: usize, rows: &[usize]) -> Delivery {
    match place.checked_sub(start) {
        Some(number) => match rows.get(number) {
            Some(row) => Delivery::At(*row),
            None => Delivery::Later,
        },
        None => Delivery::Before,
    }
}

// The packet at this place of the bag is delivered there, if it was not before.
fn deliver(first: &mut [Delivery], packet: usize, at: Delivery) {
    if let Some(delivery) = first.get_mut(packet) {
        if *delivery == Delivery::Never {
            *delivery = at;
        }
    }
}
