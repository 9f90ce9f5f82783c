//! Where outputs of maps lie.
ghost use Rattle.std.specs.Prelude.{◌≡◌, ◌&&◌};
ghost use Rattle.std.specs.Option.{option_map};
ghost use Rattle.mr_master_model.specs.Readings.{succeeded};
ghost use Rattle.mr_master_model.specs.Hearing.{is_lost_map, is_attempt};
ghost use Rattle.mr_master_model.specs.Sends.{ready_at};
ghost use Rattle.mr_packet.specs.Sends.{to_container};
ghost use Rattle.mr_master_model.specs.Readings as reading;
ghost use Rattle.mr_master_model.specs.Job.{is_task};
ghost use Rattle.mr_master_tables.specs.Earlier.{where_told, listed};
ghost use Rattle.mr_master_state.specs.State.{Reads};

use crate::machine::Machine;
use crate::send::is_same;
use mr_ids::{AttemptId, TaskId, TaskKind};
use mr_master_tables::to_container;
use mr_master_tasks::place_of;
use mr_packet::{ContainerId, Envelope, Packet};

impl Machine {
    /// The Succeeded attempt of a task.
    pub fn succeeded(&self, task: TaskId) -> Option<AttemptId>
        ensures { Reads self.now (λ w s. succeeded w s task) result }
    {
        let Some(place) = place_of(&self.setting, task) else {
            return None;
        };
        match self.tasks.at(place) {
            Some(machine) => machine.winner(),
            None => None,
        }
    }

    // Where the output of an attempt lies: the node and its incarnation.
    pub(crate) fn place(&self, attempt: AttemptId) -> Option<(u32, u32)>
        ensures { Reads self.now (λ w s. option_map where_told (reading.place_of w s attempt)) result }
    {
        if let Some((_place, launch)) = self.known(attempt) {
            return Some((launch.node, launch.incarnation));
        }
        self.earlier.place(&attempt)
    }

    /// That the output of a map is this attempt's, and where it lies.
    pub fn ready_at(&self, container: ContainerId, map: u32, attempt: AttemptId) -> Option<Envelope>
        ensures { Reads self.now (λ w s. ready_at container map attempt (reading.place_of w s attempt)) (listed result) }
    {
        match self.place(attempt) {
            Some((node, incarnation)) => Some(map_ready(
                container,
                map,
                attempt,
                node,
                incarnation,
            )),
            None => None,
        }
    }

    /// Whether it is a map's, and that map's Succeeded one.
    pub fn is_lost_map(&self, attempt: AttemptId) -> bool
        ensures { Reads self.now (λ w s. is_lost_map w s attempt attempt.task.kind) result }
    {
        match attempt.task().kind {
            TaskKind::Map => self.is_winner(attempt),
            TaskKind::Reduce => false,
        }
    }

    // Whether it is the Succeeded attempt of a task of the job.
    fn is_winner(&self, attempt: AttemptId) -> bool
        ensures { Reads self.now (λ w s. is_task w attempt.task && is_attempt (succeeded w s attempt.task) attempt) result }
    {
        match self.succeeded(attempt.task()) {
            Some(winner) => is_same(&winner, &attempt),
            None => false,
        }
    }
}

fn map_ready(
    container: ContainerId,
    map: u32,
    attempt: AttemptId,
    node: u32,
    incarnation: u32,
) -> Envelope
    ensures { result ≡ to_container container (Packet.MapReady map attempt node incarnation) }
{
    to_container(
        container,
        Packet::MapReady {
            map,
            attempt,
            node,
            incarnation,
        },
    )
}
