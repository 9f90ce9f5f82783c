//! How to run a world.

use mr_packet::{Bytes, ContainerId};
use mr_world::{Event, Input, Weather, World, WorldFault};
use std::alloc::{AllocError, Global};

/// The first master runs its job, and nothing goes wrong: packets first, then its store calls, then launches, then a step of the next container.
/// Each map makes the one text, each reduce the other.
pub fn run_job(
    alloc: Global,
    world: &mut World,
    map_made: &[u8],
    reduce_made: &[u8],
) -> Result<Option<bool>, WorldFault> {
    world.apply(Event::Start {
        generation: 1,
        kept: 0,
    })?;
    let (mut next, mut last) = (0, None);
    for _ in 0..10_000 {
        let event = if next < world.bag().len() {
            let packet = next as u64;
            next += 1;
            Event::Deliver { packet }
        } else if world.duty(1)?.is_some() {
            Event::Duty {
                generation: 1,
                weather: Weather::Calm,
            }
        } else if let Some(task) = world.wanted(1) {
            Event::LaunchOn {
                generation: 1,
                task,
                node: 0,
            }
        } else if let Some(container) = world.next_living(last) {
            last = Some(container);
            step_of(alloc, world, container, map_made, reduce_made)?
        } else {
            break; // nothing is left to do
        };
        match world.apply(event) {
            Ok(_) | Err(WorldFault::NotNow(_)) => {} // who is gone hears no packet
            Err(fault) => return Err(fault),
        }
    }
    Ok(world.outcome())
}

/// What the container does next: it hands in its text where it is to compute, else it takes a step.
pub fn step_of(
    alloc: Global,
    world: &World,
    container: ContainerId,
    map_made: &[u8],
    reduce_made: &[u8],
) -> Result<Event, AllocError> {
    let made = match world.input(&container) {
        Some(Input::Map { .. }) => map_made,
        Some(Input::Reduce { .. }) => reduce_made,
        None => {
            return Ok(Event::ContainerStep {
                container,
                weather: Weather::Calm,
            });
        }
    };
    let bytes = Bytes::from_vec(Vec::from_slice(alloc, made)?);
    Ok(Event::Computed { container, bytes })
}
