//! The turns of a node: deliveries to it and to its containers, steps of its containers, works.
use crate::actor::Actor;
use crate::fault::{DriveFault, stopping};
use crate::fetching::Fetching;
use crate::made::made;
use crate::turn::Turn;
use mr_board::Seat;
use mr_board::mr_world::{Input, World};
use mr_board_report::Run;
use mr_ids::TaskKind;
use mr_packet::ContainerId;
use mr_user::Job;
use mr_world_events::{Event, Weather};
use std::alloc::Global;

/// At most one event of a node, or a work of one of its containers. The node answers fetches before it computes: the work of a reduce waits while
/// another reduce fetches, until a round begins.
pub(crate) fn node_turn<J: Job>(
    alloc: Global,
    run: &mut Run<J>,
    fetching: &mut Fetching,
    seat: &mut Seat,
    actor: &mut Actor,
) -> Result<Turn, DriveFault> {
    if let Some(place) = actor.next_packet(run.world()) {
        if let Some(envelope) = run.world().bag().get(place) {
            fetching.heard(envelope);
            actor.heard(envelope)?;
        }
        let packet = place as u64;
        return made(run, seat, Event::Deliver { packet });
    }
    let Some(c) = actor.next_ready() else {
        return held_work(alloc, run, fetching, actor);
    };
    let Some(kind) = kind_of_work(run.world(), &c) else {
        return step(run, seat, actor, c);
    };
    if kind == TaskKind::Reduce && actor.is_early() && fetching.goes_on(run.world()) {
        actor.hold(&c)?;
        return Ok(Turn::Made);
    }
    work_of(alloc, run, c)
}

// Whose work a container is to compute now, if it is to compute.
fn kind_of_work(world: &World, c: &ContainerId) -> Option<TaskKind> {
    match world.input(c)? {
        Input::Map { .. } => Some(TaskKind::Map),
        Input::Reduce { .. } => Some(TaskKind::Reduce),
    }
}

// The work of a reduce that waited, once no reduce fetches.
fn held_work<J: Job>(
    alloc: Global,
    run: &Run<J>,
    fetching: &mut Fetching,
    actor: &mut Actor,
) -> Result<Turn, DriveFault> {
    if !actor.holds() || fetching.goes_on(run.world()) {
        return Ok(Turn::Nothing);
    }
    match actor.next_held() {
        Some(c) => work_of(alloc, run, c),
        None => Ok(Turn::Nothing),
    }
}

// The work of a container.
fn work_of<J: Job>(alloc: Global, run: &Run<J>, c: ContainerId) -> Result<Turn, DriveFault> {
    match run.board().work(alloc, &c) {
        Ok(work) => Ok(Turn::Compute(c, work)),
        Err(fault) => match stopping(fault) {
            Some(fault) => Err(fault),
            None => Ok(Turn::Made),
        },
    }
}

// A container steps. It stays ready if it wishes something else then; if not, it waits for an answer.
fn step<J: Job>(
    run: &mut Run<J>,
    seat: &mut Seat,
    actor: &mut Actor,
    container: ContainerId,
) -> Result<Turn, DriveFault> {
    let before = run.world().wish(&container);
    made(
        run,
        seat,
        Event::ContainerStep {
            container,
            weather: Weather::Calm,
        },
    )?;
    if run.world().wish(&container) != before {
        actor.is_ready(&container)?;
    }
    Ok(Turn::Made)
}
