//! A run is drawn: its events happen once more, and each leaves a row, and an arrow for each packet.
ghost use Rattle.std.specs.Prelude.{◌≡◌, IfErr};
ghost use Rattle.mr_sim_commands.specs.declared.fault.SimFault.TheVariants.{NoMemory};

use crate::cast::{join_actor, join_addressees};
use crate::folds::Folds;
use crate::lanes::{end_at, lanes_of, live, live_on};
use crate::replay::Replay;
use crate::rest::{deliveries, left_out};
use crate::rows::{
    Facts, event_of, facts_before, facts_behind, name_label, put_consequences, put_detail, sign_of,
};
use mr_packet::{Address, Envelope, Packet};
use mr_sim_commands::SimFault;
use mr_trace::mr_world::World;
use mr_trace::{Makers, maker_of, put_address, put_maker, put_number, put_packet};
use mr_trace_svg::{
    Arrow, Delivery, Drawing, End, Lane, Part, Row, Sending, Sign, Tone, container_lane, lane_of,
    master_lane,
};
use mr_world_events::Event;
use std::alloc::{AllocError, Global};
use std::ops::Range;

/// The drawing of a part of the events of a world's journal, with what came of them all.
pub fn drawing_of(
    alloc: Global,
    world: &World,
    makers: &Makers<'_>,
    part: Part,
    ending: Vec<u8>,
) -> Result<Drawing, SimFault>
    ensures { IfErr result (λ e. e ≡ SimFault.NoMemory) }
{
    let drawing = shown(alloc, world, makers, part, ending)?;
    Ok(drawing)
}

fn shown(
    alloc: Global,
    world: &World,
    makers: &Makers<'_>,
    part: Part,
    ending: Vec<u8>,
) -> Result<Drawing, AllocError> {
    let journal = world.journal();
    let places = part.places(journal.len());
    let Ahead { lanes, rows } = look_ahead(alloc, world, part, &places)?;
    let mut drawing = blank(alloc, world, part, &places, ending, lanes)?;
    let ways = deliveries(alloc, journal, world.bag().len(), places.start, &rows)?;
    let mut replay = Replay::new(alloc, world)?;
    for place in 0..places.start {
        send_before(&mut drawing, &mut replay, &ways, place)?;
    }
    live_on(&mut drawing.lanes, replay.world());
    for row in &rows {
        draw_next(alloc, &mut drawing, &mut replay, &ways, makers, *row)?;
    }
    Ok(drawing)
}

// What is found out of the events that are to be drawn, before they are.
#[derive(Drop)]
struct Ahead {
    // The lanes of those who take part.
    lanes: Vec<Lane>,
    // The row of each event.
    rows: Vec<usize>,
}

// What is found out of the events at these places of a world's journal.
fn look_ahead(
    alloc: Global,
    world: &World,
    part: Part,
    places: &Range<usize>,
) -> Result<Ahead, AllocError> {
    let mut replay = Replay::new(alloc, world)?;
    for _ in 0..places.start {
        replay.happen()?;
    }
    let mut cast = Vec::new(alloc);
    let mut folds = Folds::new(alloc, part.fold);
    for _ in places.start..places.end {
        join_next(&mut cast, &mut folds, &mut replay)?;
    }
    Ok(Ahead {
        lanes: lanes_of(alloc, replay.world(), &cast)?,
        rows: folds.rows,
    })
}

// The next event happens, is given its row, and whoever takes part in it joins the cast.
fn join_next(
    cast: &mut Vec<Address>,
    folds: &mut Folds,
    replay: &mut Replay<'_>,
) -> Result<(), AllocError> {
    let first = replay.world().bag().len();
    if let Some(event) = replay.next_event() {
        folds.add(replay.world(), event)?;
        join_actor(cast, replay.world(), event)?;
    }
    replay.happen()?;
    join_addressees(cast, replay.world(), first)
}

// A drawing with the lanes of those who take part, and nothing in them.
fn blank(
    alloc: Global,
    world: &World,
    part: Part,
    places: &Range<usize>,
    ending: Vec<u8>,
    lanes: Vec<Lane>,
) -> Result<Drawing, AllocError> {
    let journal = world.journal();
    let before = left_out(alloc, journal.get(..places.start).unwrap_or(&[]))?;
    let behind = left_out(alloc, journal.get(places.end..).unwrap_or(&[]))?;
    let mut job = Vec::new(alloc);
    world.config().job.write(&mut job)?;
    Ok(Drawing {
        job,
        events: journal.len(),
        lanes,
        rows: Vec::new(alloc),
        arrows: Vec::new(alloc),
        repeats: Vec::new(alloc),
        part,
        before,
        behind,
        ending,
    })
}

// The next event happens before the rows, at this place of the journal: only its packets are drawn, where they arrive.
fn send_before(
    drawing: &mut Drawing,
    replay: &mut Replay<'_>,
    ways: &[Delivery],
    place: usize,
) -> Result<(), AllocError> {
    let Some(event) = replay.next_event() else {
        return Ok(());
    };
    let from = actor_of(&drawing.lanes, replay.world(), event);
    replay.happen()?;
    send(drawing, from, Sending::Before(place), replay.world(), ways)
}

// The next event happens, and is drawn in this row: it shares the last one, or has one of its own.
fn draw_next(
    alloc: Global,
    drawing: &mut Drawing,
    replay: &mut Replay<'_>,
    ways: &[Delivery],
    makers: &Makers<'_>,
    row: usize,
) -> Result<(), AllocError> {
    if row < drawing.rows.len() {
        fold(drawing, replay, ways)
    } else {
        add(alloc, drawing, replay, ways, makers)
    }
}

// The next event happens, and is drawn. Each packet is delivered where its place tells.
fn add(
    alloc: Global,
    drawing: &mut Drawing,
    replay: &mut Replay<'_>,
    ways: &[Delivery],
    makers: &Makers<'_>,
) -> Result<(), AllocError> {
    let Some(event) = replay.next_event() else {
        return Ok(());
    };
    let world = replay.world();
    let place = drawing.rows.len();
    let end = end_at(world, event);
    let mut row = row_of(alloc, &drawing.lanes, world, event)?;
    if let Makers::Threads(_) = makers {
        put_maker(&mut row.words, maker_of(world, makers))?;
    }
    let first = world.bag().len();
    let before = facts_before(alloc, world, event)?;
    row.leftwards = arrive(drawing, event, place)?;
    put_sending(&mut row.detail, drawing, event)?;
    replay.happen()?;
    let world = replay.world();
    live(&mut drawing.lanes, world, place, end);
    send(drawing, row.lane, Sending::At(place), world, ways)?;
    put_lost(&mut row.detail, world, ways, first)?;
    let after = facts_behind(alloc, world, event, &before)?;
    finish(&mut row, event, &before, &after)?;
    drawing.rows.push(row)?;
    Ok(())
}

// The next event happens, and shares the last row, since both are parts of fetches. Its packets are not drawn; those whose delivery is not
// drawn either are told.
fn fold(
    drawing: &mut Drawing,
    replay: &mut Replay<'_>,
    ways: &[Delivery],
) -> Result<(), AllocError> {
    let Some(event) = replay.next_event() else {
        return Ok(());
    };
    let last = drawing.rows.len().saturating_sub(1);
    let end = end_at(replay.world(), event);
    let first = replay.world().bag().len();
    replay.happen()?;
    live(&mut drawing.lanes, replay.world(), last, end);
    send(drawing, None, Sending::At(last), replay.world(), ways)?;
    match drawing.rows.get_mut(last) {
        Some(row) => {
            count_one_more(row)?;
            put_lost(&mut row.detail, replay.world(), ways, first)
        }
        None => Ok(()),
    }
}

// A row of fetches has one event more, and tells how many it has, in place of what the first one was.
fn count_one_more(row: &mut Row) -> Result<(), AllocError> {
    let events = row.events.saturating_add(1);
    if row.events == 1 {
        row.detail.clear();
    }
    row.events = events;
    row.words.clear();
    row.label.clear();
    put_number(&mut row.words, b"", events as u64)?;
    row.words.extend_from_slice(b" events of fetches")?;
    row.label.extend_from_slice(b"fetches")
}

// The row of an event, as far as it can be told before the event.
fn row_of(alloc: Global, lanes: &[Lane], world: &World, event: &Event) -> Result<Row, AllocError> {
    let mut row = Row {
        event: world.journal().len(),
        events: 1,
        lane: actor_of(lanes, world, event),
        other: other_of(lanes, event),
        words: event_of(alloc, world, event)?,
        leftwards: false,
        label: name_label(alloc, world, event)?,
        note: Vec::new(alloc),
        detail: Vec::new(alloc),
        sign: Sign::Dot,
    };
    put_detail(&mut row.detail, world, event)?;
    Ok(row)
}

// What can be told only when it has happened.
fn finish(row: &mut Row, event: &Event, before: &Facts, after: &Facts) -> Result<(), AllocError> {
    row.sign = sign_of(event, before, after);
    put_consequences(&mut row.note, row.sign, event, before, after)
}

// The lane of the one who acts.
fn actor_of(lanes: &[Lane], world: &World, event: &Event) -> Option<usize> {
    match event {
        Event::Start { generation: k, .. }
        | Event::Crash { generation: k, .. }
        | Event::Duty { generation: k, .. }
        | Event::LaunchOn { generation: k, .. }
        | Event::Expire { generation: k, .. } => master_lane(lanes, *k),
        Event::NodeRestart { node: n } => lane_of(lanes, &Address::Node(*n)),
        Event::ContainerStep { container: c, .. }
        | Event::Computed { container: c, .. }
        | Event::Die { container: c } => container_lane(lanes, c),
        Event::Deliver { packet: i } => match world.bag().get(*i as usize) {
            Some(envelope) => lane_of(lanes, &envelope.to),
            None => None,
        },
    }
}

// The lane of the node that is given up.
fn other_of(lanes: &[Lane], event: &Event) -> Option<usize> {
    match event {
        Event::Expire { node: n, .. } => lane_of(lanes, &Address::Node(*n)),
        _ => None,
    }
}

// The packet that the event delivers arrives in this row, for the first time or once more. Tells whether it comes from the right.
fn arrive(drawing: &mut Drawing, event: &Event, row: usize) -> Result<bool, AllocError> {
    let Event::Deliver { packet: i } = event else {
        return Ok(false);
    };
    let Some(arrow) = drawing.arrows.get(*i as usize) else {
        return Ok(false);
    };
    let leftwards = arrow.to < arrow.from;
    if arrow.delivery != Delivery::At(row) {
        let mut repeat = *arrow;
        repeat.delivery = Delivery::At(row);
        drawing.repeats.push(repeat)?;
    }
    Ok(leftwards)
}

// Where the packet that the event delivers was sent, if that was before the rows.
fn put_sending(out: &mut Vec<u8>, drawing: &Drawing, event: &Event) -> Result<(), AllocError> {
    let Event::Deliver { packet: i } = event else {
        return Ok(());
    };
    match drawing.arrows.get(*i as usize) {
        Some(
            Arrow {
                sent: Sending::Before(place),
                ..
            },
        ) => put_number(out, b"; sent before, at event ", *place as u64),
        _ => Ok(()),
    }
}

// An arrow from a lane for each packet that has none yet.
fn send(
    drawing: &mut Drawing,
    from: Option<usize>,
    sent: Sending,
    world: &World,
    ways: &[Delivery],
) -> Result<(), AllocError> {
    let first = drawing.arrows.len();
    for envelope in world.bag().get(first..).unwrap_or(&[]) {
        let place = drawing.arrows.len();
        let arrow = Arrow {
            from,
            sent,
            to: lane_of(&drawing.lanes, &envelope.to),
            delivery: delivery_of(ways, place),
            tone: tone_of(&envelope.body),
        };
        drawing.arrows.push(arrow)?;
    }
    Ok(())
}

fn delivery_of(ways: &[Delivery], place: usize) -> Delivery {
    match ways.get(place) {
        Some(delivery) => *delivery,
        None => Delivery::Never,
    }
}

fn tone_of(packet: &Packet) -> Tone {
    match packet {
        Packet::Answer { yes: true, .. } => Tone::Yes,
        Packet::Answer { yes: false, .. } => Tone::No,
        _ => Tone::Plain,
    }
}

// The packets from this place of the bag on whose delivery is not drawn.
fn put_lost(
    out: &mut Vec<u8>,
    world: &World,
    ways: &[Delivery],
    first: usize,
) -> Result<(), AllocError> {
    let packets = world.bag().get(first..).unwrap_or(&[]);
    for (number, envelope) in packets.iter().enumerate() {
        match delivery_of(ways, first.saturating_add(number)) {
            Delivery::Before | Delivery::At(_) => {}
            Delivery::Later => put_undrawn(out, b"delivered later to ", envelope)?,
            Delivery::Never => put_undrawn(out, b"not delivered to ", envelope)?,
        }
    }
    Ok(())
}

fn put_undrawn(out: &mut Vec<u8>, words: &[u8], envelope: &Envelope) -> Result<(), AllocError> {
    if !out.is_empty() {
        out.extend_from_slice(b"; ")?;
    }
    out.extend_from_slice(words)?;
    put_address(out, &envelope.to)?;
    out.extend_from_slice(b": ")?;
    put_packet(out, &envelope.body)
}
