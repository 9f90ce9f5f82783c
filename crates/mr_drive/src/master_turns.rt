//! The turns of a master: it hears, makes its store calls, launches.
use crate::actor::Actor;
use crate::fault::DriveFault;
use crate::fetching::Fetching;
use crate::made::made;
use crate::turn::Turn;
use mr_board::Seat;
use mr_board::mr_world::World;
use mr_board_report::Run;
use mr_user::Job;
use mr_world_events::{Event, Weather};

/// At most one event of the master of generation `k`: a packet for it, else its store call, else its launch.
pub(crate) fn master_turn<J: Job>(
    run: &mut Run<J>,
    fetching: &mut Fetching,
    seat: &mut Seat,
    actor: &mut Actor,
    k: u32,
) -> Result<Turn, DriveFault> {
    if let Some(place) = actor.next_packet(run.world()) {
        let packet = place as u64;
        return made(run, seat, Event::Deliver { packet });
    }
    match next_of_master(run.world(), k)? {
        Some(event) => {
            let launches = matches!(event, Event::LaunchOn { .. });
            let turn = made(run, seat, event)?;
            if launches && matches!(turn, Turn::Made) {
                fetching.launched();
            }
            Ok(turn)
        }
        None => Ok(Turn::Nothing),
    }
}

// The store call of a master, else its launch of the task that it wants, on the node whose number is the task's, modulo the number of nodes.
fn next_of_master(world: &World, k: u32) -> Result<Option<Event>, DriveFault> {
    let due = match world.duty(k) {
        Ok(due) => due,
        Err(fault) => return Err(DriveFault::from(fault.wants_memory())),
    };
    if due.is_some() {
        return Ok(Some(Event::Duty {
            generation: k,
            weather: Weather::Calm,
        }));
    }
    let Some(task) = world.wanted(k) else {
        return Ok(None);
    };
    world.config().ranges();
    Ok(Some(Event::LaunchOn {
        generation: k,
        task,
        node: task.number % world.config().nodes,
    }))
}
