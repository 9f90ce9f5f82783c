//! The lanes of a drawing: who takes part in a run, and from when to when.
use mr_ids::{AppAttempt, AttemptId, TaskKind};
use mr_master_model::Phase;
use mr_packet::{Address, Packet};
use mr_trace::mr_world::World;
use mr_trace::{put_address, put_small};
use mr_trace_svg::{Begin, End, Lane};
use mr_world_events::Event;
use std::alloc::{AllocError, Global};

/// A lane for each master of the world that is of the cast, each node, and each container of the cast that was launched.
pub fn lanes_of(alloc: Global, world: &World, cast: &[Address]) -> Result<Vec<Lane>, AllocError> {
    let mut lanes = Vec::new(alloc);
    push_masters(alloc, &mut lanes, world.newest(), cast)?;
    push_nodes(alloc, &mut lanes, world.config().nodes)?;
    push_containers(alloc, &mut lanes, world, cast)?;
    Ok(lanes)
}

fn push_masters(
    alloc: Global,
    lanes: &mut Vec<Lane>,
    newest: u32,
    cast: &[Address],
) -> Result<(), AllocError> {
    for k in 1..=newest {
        if let Some(app) = AppAttempt::new(k) {
            let who = Address::Master(app);
            if cast.contains(&who) {
                lanes.push(lane(alloc, who)?)?;
            }
        }
    }
    Ok(())
}

fn push_nodes(alloc: Global, lanes: &mut Vec<Lane>, nodes: u32) -> Result<(), AllocError> {
    for n in 0..nodes {
        lanes.push(lane(alloc, Address::Node(n))?)?;
    }
    Ok(())
}

fn push_containers(
    alloc: Global,
    lanes: &mut Vec<Lane>,
    world: &World,
    cast: &[Address],
) -> Result<(), AllocError> {
    for envelope in world.bag() {
        if let Packet::Launch {
            container,
            attempt,
            ..
        } = &envelope.body
        {
            let who = Address::Container(*container);
            if cast.contains(&who) {
                lanes.push(container_lane(alloc, who, attempt)?)?;
            }
        }
    }
    Ok(())
}

fn container_lane(alloc: Global, who: Address, a: &AttemptId) -> Result<Lane, AllocError> {
    let mut lane = lane(alloc, who)?;
    put_short(&mut lane.attempt, a)?;
    Ok(lane)
}

// A lane whose life has not begun.
fn lane(alloc: Global, who: Address) -> Result<Lane, AllocError> {
    let mut name = Vec::new(alloc);
    put_address(&mut name, &who)?;
    Ok(Lane {
        who,
        name,
        attempt: Vec::new(alloc),
        begins: None,
        ends: None,
    })
}

/// An attempt without its job: `r 0 attempt 1000`.
pub fn put_short(out: &mut Vec<u8>, a: &AttemptId) -> Result<(), AllocError> {
    let task = a.task();
    match task.kind {
        TaskKind::Map => put_small(out, b"m ", task.number)?,
        TaskKind::Reduce => put_small(out, b"r ", task.number)?,
    }
    put_small(out, b" attempt ", a.number())
}

/// The lanes whose life began before the rows, where the world is this before the first one.
pub fn live_on(lanes: &mut [Lane], world: &World) {
    for lane in lanes.iter_mut() {
        if is_alive(world, &lane.who) {
            lane.begins = Some(Begin::Before);
        }
    }
}

/// The lanes whose life begins or ends in this row, behind which the world is this.
pub fn live(lanes: &mut [Lane], world: &World, row: usize, end: End) {
    for lane in lanes.iter_mut() {
        let alive = is_alive(world, &lane.who);
        if alive && lane.begins.is_none() {
            lane.begins = Some(Begin::At(row));
        }
        if !alive && lane.begins.is_some() && lane.ends.is_none() {
            lane.ends = Some((row, end));
        }
    }
}

// Whether somebody is alive in a world, and can still do something.
fn is_alive(world: &World, who: &Address) -> bool {
    match who {
        Address::Master(app) => match world.phase(app.number()) {
            Some(Phase::Ended | Phase::Stopped) | None => false,
            Some(_) => true,
        },
        Address::Node(_) => true,
        Address::Container(c) => world.wish(c).is_some(),
    }
}

/// How a life ends that ends at this event.
pub fn end_at(world: &World, event: &Event) -> End {
    match event {
        Event::Crash { .. }
        | Event::Die { .. }
        | Event::NodeRestart { .. }
        | Event::Computed { .. } => End::Died,
        Event::Deliver { packet: i } => match world.bag().get(*i as usize) {
            Some(envelope) if matches!(envelope.body, Packet::Kill { .. }) => End::Died,
            _ => End::Over,
        },
        _ => End::Over,
    }
}
