//! Launches of attempts.
//! Why one is refused, and what it leaves: the task's next attempt, its container, the record of its start, and the
//! packet to the node.
ghost use Rattle.std.specs.Prelude.{◌≡◌, ◌<◌, ◌≤◌, None, IfOk, IfErr, IfSome, IfNone, OnOk, length};
ghost use Rattle.mr_task.specs.Calls.{Launches};
ghost use Rattle.mr_packet.specs.Sends.{to_node};
ghost use Rattle.mr_master_model.specs.Readings.{launch_refusal, launched_as, by_task};
ghost use Rattle.mr_master_model.specs.Past as past;
ghost use Rattle.mr_master_events.specs.inner.Launching.{IsFree, LaunchesNext};
ghost use Rattle.mr_master_state.specs.Prepared.{IsOne, PlansFor};
ghost use Rattle.mr_master_state.specs.State.{Reads, StandsForSome};
ghost use Rattle.mr_master_events.specs.Refused.{MOST_CONTAINERS, launch_error};

use mr_ids::{AttemptId, TaskId};
use mr_master_model::{Launch, LaunchFault};
use mr_master_state::mr_master_tables::to_node;
use mr_master_state::mr_master_tasks::place_of;
use mr_master_state::{Boxed, Change, Machine, Prepared};
use mr_packet::{ContainerId, Envelope, Packet};
use mr_task::TaskFault;
use std::alloc::AllocError;
use thiserror::Error;

/// Why a launch came to nothing. `Refused` prints as its reason.
#[derive(Clone, Copy, Debug, PartialEq, Eq, Error)]
pub enum LaunchError {
    /// It is refused, for this reason, the first that applies.
    #[error("{0}")]
    Refused(LaunchFault),
    /// The master launched 2^32 containers: there is no number for another one.
    #[error("Full")]
    Full,
    /// Memory was refused.
    #[error("NoMemory")]
    NoMemory,
}

/// Why no attempt of the task is launched on the node, memory aside.
pub fn launch_refusal(master: &Machine, task: TaskId, node: u32) -> Option<LaunchFault>
    ensures { Reads master.now (λ w s. launch_refusal w s task node) result }
{
    if !master.work.is_running() {
        return Some(LaunchFault::NotRunning);
    }
    let Some(place) = place_of(&master.setting, task) else {
        return Some(LaunchFault::NoTask);
    };
    if node >= master.setting.nodes {
        return Some(LaunchFault::NoNode);
    }
    match master.tasks.at(place) {
        Some(machine) => by_task(machine.launch_refusal()),
        None => None,
    }
}

/// What is sent where the next attempt of the task is launched on the node, and what will change.
pub fn prepare_launch(master: &Machine, task: TaskId, node: u32) -> Result<Prepared, LaunchError>
    requires { StandsForSome master.now }
    ensures planned { IfOk result (λ prepared. PlansFor master.now (past.Launches task node) prepared) }
    ensures one { IfOk result (λ prepared. IsOne prepared.packets) }
    ensures allowed { OnOk result (Reads master.now (λ w s. launch_refusal w s task node) None) }
    ensures memory { OnOk result (Reads master.now (λ w s. launch_error w s task node) LaunchError.NoMemory) }
    ensures refused { IfErr result (λ error. Reads master.now (λ w s. launch_error w s task node) error) }
{
    if let Some(fault) = launch_refusal(master, task, node) {
        return Err(LaunchError::Refused(fault));
    }
    let Some(place) = master.place_within(task) else {
        unreachable!()
    };
    let Some(number) = number_after(master.launches.len()) else {
        return Err(LaunchError::Full);
    };
    match prepare_next(master, place, launch_on(master, node, number)) {
        Ok(prepared) => Ok(prepared),
        Err(_) => Err(LaunchError::NoMemory),
    }
}

// The same where nothing refuses it: the next attempt of the task at this place is launched so.
fn prepare_next(master: &Machine, place: usize, launch: Launch) -> Result<Prepared, AllocError>
    requires within { place < length master.now.tasks.machines }
    requires free { IsFree master.now place }
    ensures { IfOk result (λ prepared. LaunchesNext master.now place launch prepared) }
{
    let (attempt, launched) = master.tasks.launched(place)?;
    let machine = Boxed::new(master.alloc, launched)?;
    let prepared = Prepared::of_one(
        master.alloc,
        told(attempt, &launch),
        Change::Launches {
            place,
            attempt,
            machine,
            launch,
        },
    )?;
    Ok(prepared)
}

// What an attempt is launched as, by the number of its container.
fn launch_on(master: &Machine, node: u32, number: u32) -> Launch
    requires { number ≡ length master.now.launches.entries }
    ensures { Reads master.now (λ w s. launched_as w s node) result }
{
    Launch {
        container: ContainerId {
            app: master.setting.app,
            number,
        },
        node,
        incarnation: master.nodes.incarnation(node),
    }
}

fn by_task(refusal: Option<TaskFault>) -> Option<LaunchFault>
    ensures { result ≡ by_task refusal }
{
    match refusal {
        Some(fault) => Some(LaunchFault::Task(fault)),
        None => None,
    }
}

// The number of the next container, after `count` of them; none where no number is left.
fn number_after(count: usize) -> Option<u32>
    ensures some { IfSome result (λ number. number ≡ count) }
    ensures none { IfNone result (MOST_CONTAINERS ≤ count) }
{
    if count <= u32::MAX as usize {
        Some(count as u32)
    } else {
        None
    }
}

/// Memory was refused.
pub fn no_memory() -> LaunchFault
    ensures { result ≡ LaunchFault.Task TaskFault.NoMemory }
{
    LaunchFault::Task(TaskFault::NoMemory)
}

// The packet that tells a node of a launch.
fn told(attempt: AttemptId, launch: &Launch) -> Envelope
    ensures { result ≡ to_node launch.now.node (Packet.Launch launch.now.container attempt launch.now.incarnation) }
{
    to_node(
        launch.node,
        Packet::Launch {
            container: launch.container,
            attempt,
            incarnation: launch.incarnation,
        },
    )
}
