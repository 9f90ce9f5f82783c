//! An attempt says that it failed, or its container ended.
ghost use Rattle.std.specs.Prelude.{◌≡◌, true, IfOk};
ghost use Rattle.mr_master_model.specs.Readings.{is_running, launch_of, launched_in};
ghost use Rattle.mr_master_model.specs.Hearing.{after_failed, after_ended};
ghost use Rattle.mr_master_events.specs.inner.Ends.{blame_of, ended, end_sends, kills_by, kills_if_over};
ghost use Rattle.mr_master_state.specs.Prepared.{IsAt, Plans};
ghost use Rattle.mr_master_state.specs.State.{Reads};

use mr_ids::AttemptId;
use mr_master_state::mr_master_tasks::Ending;
use mr_master_state::{Blame, Change, Machine, Prepared};
use mr_packet::{ContainerId, Envelope};
use std::alloc::AllocError;

// It says that it failed.
pub fn prepare_failed(master: &Machine, attempt: AttemptId) -> Result<Prepared, AllocError>
    requires { is_running master.now.work ≡ true }
    ensures { IfOk result (λ ready. Plans master.now ready (λ w s. kills_if_over w (after_failed w s attempt (launch_of w s attempt))) (λ w s. after_failed w s attempt (launch_of w s attempt))) }
{
    let Some((place, _launch)) = master.known(attempt) else {
        return Ok(Prepared::silent(master.alloc, Change::Nothing));
    };
    prepare_end(master, place, attempt, &Ending::Failure)
}

// Its container ended.
pub fn prepare_ended(master: &Machine, container: &ContainerId) -> Result<Prepared, AllocError>
    requires { is_running master.now.work ≡ true }
    ensures { IfOk result (λ ready. Plans master.now ready (λ w s. kills_if_over w (after_ended w s container.now (launched_in w s container.now))) (λ w s. after_ended w s container.now (launched_in w s container.now))) }
{
    let Some((place, launched)) = master.launched_in(*container) else {
        return Ok(Prepared::silent(master.alloc, Change::Nothing));
    };
    let was_killed = master.launches.is_killed(container.number as usize);
    prepare_end(master, place, launched.0, &Ending::Exit(was_killed))
}

// The attempt ends so. Where that fails the job, a Kill is sent to every other live attempt.
fn prepare_end(
    master: &Machine,
    place: usize,
    attempt: AttemptId,
    end: &Ending,
) -> Result<Prepared, AllocError>
    requires runs { is_running master.now.work ≡ true }
    requires at { IsAt master.now place attempt }
    ensures { IfOk result (λ ready. Plans master.now ready (λ w s. end_sends w s attempt end.now) (λ w s. ended w s attempt end.now)) }
{
    let blame = blame_of(master, place, attempt, end);
    let packets = blame_packets(master, attempt, blame)?;
    Ok(Prepared::new(
        packets,
        Change::Ends {
            place,
            attempt,
            end: *end,
            blame,
        },
    ))
}

// Whose failure it is.
fn blame_of(master: &Machine, place: usize, attempt: AttemptId, end: &Ending) -> Blame
    requires { IsAt master.now place attempt }
    ensures { Reads master.now (λ w s. blame_of w s attempt end.now) result }
{
    if !end.is_failure() {
        return Blame::Nobody;
    }
    if !master.tasks.is_live_at(place, attempt) {
        return Blame::Nobody;
    }
    if master
        .tasks
        .would_spend(place, attempt, master.setting.limit)
    {
        Blame::Job
    } else {
        Blame::Attempt
    }
}

// The Kills to every live attempt but the one that ended, where the job fails.
fn blame_packets(
    master: &Machine,
    ended: AttemptId,
    blame: Blame,
) -> Result<Vec<Envelope>, AllocError>
    ensures { IfOk result (λ packets. Reads master.now (λ w s. kills_by w s ended blame) packets.items) }
{
    match blame {
        Blame::Job => master.kills_but(&ended),
        Blame::Nobody | Blame::Attempt => Ok(Vec::new(master.alloc)),
    }
}
