//! The works of containers: what a container computes from its input.
ghost use Rattle.std.specs.Prelude.{◌≡◌, Some};
ghost use Rattle.std.specs.Option.{option_map};
ghost use Rattle.mr_world_model.specs.Sequential.{made_of};
ghost use Rattle.mr_world_files.specs.Jobs.{job_of};
ghost use Rattle.mr_world_model.specs.Claims.{Limits};
ghost use Rattle.mr_user.specs.Computation.{computation};
ghost use Rattle.mr_world.specs.Readings.{as_input};
ghost use Rattle.mr_play.specs.Text.{job_as};
ghost use Rattle.mr_play.specs.Played.{computed_of};
ghost use Rattle.mr_play.specs.Players.{IsEvent, IsShort, Works};

use crate::fault::PlayerFault;
use mr_container_work::{work_of_map, work_of_reduce};
use mr_jobs::{LineIndex, MaxByKey, WordCount};
use mr_mapside::WorkFault;
use mr_packet::{Bytes, ContainerId};
use mr_sim_commands::JobKind;
use mr_user::{Job, OpenGate};
use mr_world::{Config, Input};
use mr_world_events::Event;
use std::alloc::Global;

/// The event of a container's `compute`. Its bytes are handed in, and these are no bytes where it has no input. It
/// ends where a user function or the shuffle refuses. Answers `Full` where the bytes are more than a work may give,
/// and `NoMemory` only where a growth was refused.
pub fn computed(
    alloc: Global,
    job: JobKind,
    config: &Config,
    c: ContainerId,
    input: Option<Input<'_>>,
) -> Result<Event, PlayerFault>
    requires short { IsShort (option_map as_input input) }
    ensures { (l : Limits) → IsEvent (computed_of (job_as job) config.now l c (option_map as_input input.entry)) result }
{
    let Some(input) = input else {
        return Ok(Event::Computed {
            container: c,
            bytes: Bytes::new(alloc),
        });
    };
    match work(alloc, job, config, input) {
        Ok(bytes) => Ok(Event::Computed {
            container: c,
            bytes,
        }),
        Err(WorkFault::User(_) | WorkFault::Gate(_) | WorkFault::Shuffle(_)) => Ok(Event::Die {
            container: c,
        }),
        Err(WorkFault::Full) => Err(PlayerFault::Full),
        Err(WorkFault::NoMemory) => Err(PlayerFault::NoMemory),
    }
}

// What the job of a kind makes of an input.
#[tactic(auto, unfolding(crate::specs::Text::job_as))]
fn work(alloc: Global, job: JobKind, config: &Config, input: Input<'_>) -> Result<Bytes, WorkFault>
    requires short { IsShort (Some (as_input input)) }
    ensures { Works (made_of (job_as job) config.now (as_input input.entry)) result }
{
    match job {
        JobKind::WordCount => made(alloc, &WordCount, config, input),
        JobKind::MaxByKey => made(alloc, &MaxByKey, config, input),
        JobKind::LineIndex => made(alloc, &LineIndex, config, input),
    }
}

// What a job makes of an input.
fn made<J: Job>(
    alloc: Global,
    job: &J,
    config: &Config,
    input: Input<'_>,
) -> Result<Bytes, WorkFault>
    requires short { IsShort (Some (as_input input)) }
    ensures { let all = computation J.Key.cmp J.Key.codec J.Value.codec J.functions in
        Works (made_of (job_of all) config.now (as_input input.entry)) result }
{
    match input {
        Input::Map { split, bytes } => {
            config.ranges();
            work_of_map(
                alloc,
                job,
                &OpenGate,
                split,
                bytes.as_slice(),
                config.reduce_count(),
            )
        }
        Input::Reduce { reduce, pieces } => work_of_reduce(alloc, job, &OpenGate, reduce, pieces),
    }
}
