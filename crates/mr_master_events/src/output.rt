//! A container asks where the output of a map lies, or did not find it there.
ghost use Rattle.std.specs.Prelude.{◌≡◌, true, false, [], IfOk, IfSome, IfNone, if◌then◌else◌};
ghost use Rattle.mr_ids.specs.declared.id.TaskKind.TheVariants.{Map};
ghost use Rattle.mr_task.specs.Calls.{Loses};
ghost use Rattle.mr_master_model.specs.Job.{task_of};
ghost use Rattle.mr_master_model.specs.Readings.{launched_in, succeeded, tell};
ghost use Rattle.mr_master_model.specs.Hearing.{after_where, after_fetch_lost, is_lost_map};
ghost use Rattle.mr_master_model.specs.Sends.{ready_to, ready_by};
ghost use Rattle.mr_master_state.specs.mr_master_tables.specs.Earlier.{listed};
ghost use Rattle.mr_master_state.specs.Prepared.{IsAt, Plans};
ghost use Rattle.mr_master_state.specs.State.{Reads};

use mr_ids::{AttemptId, JobId, TaskId, TaskKind};
use mr_master_state::{Change, Machine, Prepared};
use mr_packet::{ContainerId, Envelope};
use std::alloc::AllocError;

// Its attempt is heard of, and it is told where the output lies, if the map has a Succeeded attempt.
pub fn prepare_where(
    master: &Machine,
    container: &ContainerId,
    map: u32,
) -> Result<Prepared, AllocError>
    ensures { IfOk result (λ ready. Plans master.now ready (λ w s. ready_to w s container.now map (launched_in w s container.now)) (λ w s. after_where s (launched_in w s container.now))) }
{
    let Some((place, launched)) = master.launched_in(*container) else {
        return Ok(Prepared::silent(master.alloc, Change::Nothing));
    };
    let ready = Prepared::of_some(
        master.alloc,
        map_answer(master, container, map),
        Change::Hears {
            place,
            attempt: launched.0,
        },
    )?;
    Ok(ready)
}

// That the output of a map lies there, if the map has a Succeeded attempt.
fn map_answer(master: &Machine, container: &ContainerId, map: u32) -> Option<Envelope>
    ensures { Reads master.now (λ w s. ready_by w s container.now map (succeeded w s (task_of w Map map))) (listed result) }
{
    match master.succeeded(map_task(master.setting.job, map)) {
        Some(attempt) => master.ready_at(*container, map, attempt),
        None => None,
    }
}

// The output of the attempt is lost, if it is its map's Succeeded one.
pub fn prepare_loss(master: &Machine, container: ContainerId, attempt: AttemptId) -> Prepared
    ensures { Plans master.now result (λ w s. []) (λ w s. after_fetch_lost w s attempt (launched_in w s container)) }
{
    match master.launched_in(container) {
        Some(_launched) => prepare_lost(master, attempt),
        None => Prepared::silent(master.alloc, Change::Nothing),
    }
}

// The same where the container is known.
fn prepare_lost(master: &Machine, attempt: AttemptId) -> Prepared
    ensures { Plans master.now result (λ w s. []) (λ w s. if is_lost_map w s attempt attempt.task.kind then tell s attempt.task (Loses attempt) else s) }
{
    match place_if_lost(master, attempt) {
        Some(place) => Prepared::silent(master.alloc, Change::Loses { place, attempt }),
        None => Prepared::silent(master.alloc, Change::Nothing),
    }
}

// Where the task of the attempt stands, if that is a map, and the attempt its Succeeded one.
fn place_if_lost(master: &Machine, attempt: AttemptId) -> Option<usize>
    ensures lost { IfSome result (λ place. Reads master.now (λ w s. is_lost_map w s attempt attempt.task.kind) true) }
    ensures at { IfSome result (λ place. IsAt master.now place attempt) }
    ensures none { IfNone result (Reads master.now (λ w s. is_lost_map w s attempt attempt.task.kind) false) }
{
    if !master.is_lost_map(attempt) {
        return None;
    }
    match master.place_within(attempt.task()) {
        Some(place) => Some(place),
        None => None,
    }
}

fn map_task(job: JobId, number: u32) -> TaskId
    ensures { result ≡ record { job = job; kind = TaskKind.Map; number = number } }
{
    TaskId {
        job,
        kind: TaskKind::Map,
        number,
    }
}
