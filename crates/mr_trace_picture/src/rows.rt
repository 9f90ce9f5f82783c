//! What the row of an event says in a drawing.
use crate::lanes::put_short;
use mr_ids::AttemptId;
use mr_master_model::Phase;
use mr_packet::{Envelope, Packet};
use mr_script::{EventName, event_word};
use mr_trace::mr_play::read;
use mr_trace::mr_world::World;
use mr_trace::{name_of, put_address, put_call, put_container, put_event, put_packet, put_small};
use mr_trace_svg::Sign;
use mr_world_events::Event;
use std::alloc::{AllocError, Global};

/// What is read of a world to tell what an event brought about.
#[derive(Drop)]
pub struct Facts {
    /// What the duty or the wish of the one who acts is.
    name: Option<EventName>,
    /// Whether the master that acts does nothing more, though it told no outcome.
    stopped: bool,
    /// Whether the packet that is delivered permits an attempt to commit.
    permits: bool,
    marker: bool,
    // How many packets there are.
    packets: usize,
    // The outcome that the event tells first.
    told: Option<bool>,
    // The winners, where the event is a flush: no other makes one.
    winners: Vec<Option<AttemptId>>,
}

impl Facts {
    fn is_flush(&self) -> bool {
        matches!(self.name, Some(EventName::Flush))
    }
}

/// The facts of a world, for an event that is to happen.
pub fn facts_before(alloc: Global, world: &World, event: &Event) -> Result<Facts, AllocError> {
    let is_flush = matches!(name_of(world, event)?, Some(EventName::Flush));
    facts_of(alloc, world, event, is_flush, None)
}

/// The facts of a world in which it has happened. Before it they were these.
pub fn facts_behind(
    alloc: Global,
    world: &World,
    event: &Event,
    before: &Facts,
) -> Result<Facts, AllocError> {
    let told = told_from(world.bag(), before.packets);
    facts_of(alloc, world, event, before.is_flush(), told)
}

fn facts_of(
    alloc: Global,
    world: &World,
    event: &Event,
    is_flush: bool,
    told: Option<bool>,
) -> Result<Facts, AllocError> {
    let marker = read(world.marker())?;
    let winners = winners_in(alloc, world, is_flush)?;
    Ok(Facts {
        name: name_of(world, event)?,
        stopped: is_stopped(world, event),
        permits: is_permission(world, event),
        marker,
        packets: world.bag().len(),
        told,
        winners,
    })
}

// The winners, where they are asked for: the whole history is read for them.
fn winners_in(
    alloc: Global,
    world: &World,
    is_asked: bool,
) -> Result<Vec<Option<AttemptId>>, AllocError> {
    if is_asked {
        read(world.winners())
    } else {
        Ok(Vec::new(alloc))
    }
}

// The outcome that the packets from this place of the bag on tell, where none before them tells one.
fn told_from(bag: &[Envelope], first: usize) -> Option<bool> {
    let told = outcome_in(bag.get(first..).unwrap_or(&[]))?;
    match outcome_in(bag.get(..first).unwrap_or(&[])) {
        Some(_) => None,
        None => Some(told),
    }
}

fn outcome_in(packets: &[Envelope]) -> Option<bool> {
    for envelope in packets {
        if let Packet::Outcome { succeeded } = &envelope.body {
            return Some(*succeeded);
        }
    }
    None
}

fn is_stopped(world: &World, event: &Event) -> bool {
    match event {
        Event::Duty { generation: k, .. } => matches!(world.phase(*k), Some(Phase::Stopped)),
        _ => false,
    }
}

fn is_permission(world: &World, event: &Event) -> bool {
    match event {
        Event::Deliver { packet: i } => match world.bag().get(*i as usize) {
            Some(envelope) => matches!(envelope.body, Packet::Answer { yes: true, .. }),
            None => false,
        },
        _ => false,
    }
}

/// The event in the words of a script, with the name of the duty or the wish.
pub fn event_of(alloc: Global, world: &World, event: &Event) -> Result<Vec<u8>, AllocError> {
    let mut out = Vec::new(alloc);
    put_event(&mut out, event)?;
    if let Some(name) = name_of(world, event)? {
        out.extend_from_slice(b" ")?;
        out.extend_from_slice(event_word(name))?;
    }
    Ok(out)
}

/// What stands beside the sign of an event.
pub fn name_label(alloc: Global, world: &World, event: &Event) -> Result<Vec<u8>, AllocError> {
    let mut out = Vec::new(alloc);
    match event {
        Event::Deliver { packet: i } => {
            if let Some(envelope) = world.bag().get(*i as usize) {
                out.extend_from_slice(packet_word(&envelope.body))?;
            }
        }
        Event::Duty { .. } | Event::ContainerStep { .. } => {
            if let Some(name) = name_of(world, event)? {
                out.extend_from_slice(event_word(name))?;
            }
        }
        _ => out.extend_from_slice(kind_word(event))?,
    }
    Ok(out)
}

fn kind_word(event: &Event) -> &'static [u8] {
    match event {
        Event::Start { .. } => b"start",
        Event::Crash { .. } => b"crash",
        Event::LaunchOn { .. } => b"launch",
        Event::Computed { .. } => b"compute",
        Event::Die { .. } => b"die",
        Event::NodeRestart { .. } => b"restart",
        Event::Expire { .. } => b"expire",
        Event::Duty { .. } | Event::Deliver { .. } | Event::ContainerStep { .. } => b"",
    }
}

fn packet_word(packet: &Packet) -> &'static [u8] {
    match packet {
        Packet::Launch { .. } => b"Launch",
        Packet::Kill { .. } => b"Kill",
        Packet::Fetch { .. } => b"Fetch",
        Packet::Won { .. } => b"Won",
        Packet::Outcome { .. } => b"Outcome",
        Packet::Pending { .. } => b"Pending",
        Packet::Poll { .. } => b"Poll",
        Packet::Done { .. } => b"Done",
        Packet::Failed { .. } => b"Failed",
        Packet::Ended { .. } => b"Ended",
        Packet::NodeUp { .. } => b"NodeUp",
        Packet::Where { .. } => b"Where",
        Packet::FetchLost { .. } => b"FetchLost",
        Packet::Answer { yes: true, .. } => b"yes",
        Packet::Answer { .. } => b"no",
        Packet::DoneAck { .. } => b"DoneAck",
        Packet::MapReady { .. } => b"MapReady",
        Packet::Piece { .. } => b"Piece",
    }
}

/// The store call that the event makes, with its answer, or the packet that it delivers.
pub fn put_detail(out: &mut Vec<u8>, world: &World, event: &Event) -> Result<(), AllocError> {
    let Event::Deliver { packet: i } = event else {
        return put_call(out, world, event);
    };
    match world.bag().get(*i as usize) {
        Some(envelope) => {
            out.extend_from_slice(b"to ")?;
            put_address(out, &envelope.to)?;
            out.extend_from_slice(b": ")?;
            put_packet(out, &envelope.body)
        }
        None => Ok(()),
    }
}

/// The sign of an event, by what it is and what it brought about.
pub fn sign_of(event: &Event, before: &Facts, after: &Facts) -> Sign {
    match event {
        Event::Start { .. } => Sign::Start,
        Event::Crash { .. } => Sign::Crash,
        Event::Die { .. } => Sign::Death,
        Event::NodeRestart { .. } => Sign::Restart,
        Event::Expire { .. } => Sign::Expiry,
        Event::Deliver { .. } if before.permits => Sign::Permission,
        Event::Duty { .. } => duty_sign(before, after),
        Event::ContainerStep { .. } => step_sign(before, after),
        _ => Sign::Dot,
    }
}

fn duty_sign(before: &Facts, after: &Facts) -> Sign {
    if !before.marker && after.marker {
        Sign::Marker
    } else if after.stopped {
        Sign::Stop
    } else if let Some(succeeded) = after.told {
        if succeeded {
            Sign::Success
        } else {
            Sign::Failure
        }
    } else if is_won(before, after) {
        Sign::Winner
    } else if matches!(before.name, Some(EventName::Started)) {
        Sign::JobCommit
    } else {
        Sign::Dot
    }
}

// An attempt has committed where its container goes on to report, and lost a call where it goes on to abort.
fn step_sign(before: &Facts, after: &Facts) -> Sign {
    match (before.name, after.name) {
        (Some(EventName::Rename), Some(EventName::Report)) => Sign::TaskCommit,
        (Some(EventName::Abort), _) => Sign::Dot,
        (_, Some(EventName::Abort)) => Sign::Refusal,
        _ => Sign::Dot,
    }
}

// Whether a reduce has a winner that it had not.
fn is_won(before: &Facts, after: &Facts) -> bool {
    won(before) < won(after)
}

fn won(facts: &Facts) -> usize {
    facts
        .winners
        .iter()
        .filter(|winner| winner.is_some())
        .count()
}

/// What stands out in an event, in words.
pub fn put_consequences(
    out: &mut Vec<u8>,
    sign: Sign,
    event: &Event,
    before: &Facts,
    after: &Facts,
) -> Result<(), AllocError> {
    match sign {
        Sign::Dot => {}
        Sign::Permission => out.extend_from_slice(b"permission to commit")?,
        Sign::TaskCommit => out.extend_from_slice(b"task commit")?,
        Sign::JobCommit => out.extend_from_slice(b"the job commit starts")?,
        Sign::Marker => out.extend_from_slice(b"the success marker is there")?,
        Sign::Success => out.extend_from_slice(b"the job succeeded, and this is told")?,
        Sign::Failure => out.extend_from_slice(b"the job failed, and this is told")?,
        Sign::Refusal => out.extend_from_slice(b"its attempt aborts")?,
        Sign::Winner => put_winners(out, before, after)?,
        _ => put_end(out, event)?,
    }
    Ok(())
}

fn put_end(out: &mut Vec<u8>, event: &Event) -> Result<(), AllocError> {
    match event {
        Event::Start { generation: k, .. } => {
            put_small(out, b"master ", *k)?;
            put_small(out, b" starts, the fence rises to ", *k)
        }
        Event::Crash { generation: k, .. } => {
            put_small(out, b"master ", *k)?;
            out.extend_from_slice(b" crashes")
        }
        Event::Duty { generation: k, .. } => {
            put_small(out, b"master ", *k)?;
            out.extend_from_slice(b" stops")
        }
        Event::Die { container: c } => {
            put_container(out, b"container ", c)?;
            out.extend_from_slice(b" dies")
        }
        Event::NodeRestart { node: n } => {
            put_small(out, b"node ", *n)?;
            out.extend_from_slice(b" restarts, its containers end")
        }
        Event::Expire {
            generation: k,
            node: n,
        } => {
            put_small(out, b"master ", *k)?;
            put_small(out, b" gives up node ", *n)
        }
        _ => Ok(()),
    }
}

fn put_winners(out: &mut Vec<u8>, before: &Facts, after: &Facts) -> Result<(), AllocError> {
    for (reduce, winner) in after.winners.iter().enumerate() {
        let old = before.winners.get(reduce);
        if let (Some(None), Some(winner)) = (old, winner) {
            if !out.is_empty() {
                out.extend_from_slice(b", ")?;
            }
            out.extend_from_slice(b"winner: ")?;
            put_short(out, winner)?;
        }
    }
    Ok(())
}
