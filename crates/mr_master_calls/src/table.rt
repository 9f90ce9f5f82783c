//! What is ready for the answers of a committer's calls: setup, recovery, job commit.
ghost use Rattle.std.specs.Prelude.{◌≡◌, true, drop, Some, IfOk};
ghost use Rattle.mr_master_model.specs.Readings.{is_running};
ghost use Rattle.mr_master_state.specs.mr_master_phase.specs.WorkKinds.{is_step, finished_by, others_of, with_others};
ghost use Rattle.mr_master_state.specs.mr_master_phase.specs.Coming.{begun_by};
ghost use Rattle.mr_master_calls.specs.Placed.{IsPlaced};
ghost use Rattle.mr_master_state.specs.State.{Reads};
ghost use Rattle.mr_master_state.specs.mr_master_phase.specs.Taking.{winner_of, won_of, after_winner, after_table};
ghost use Rattle.mr_master_state.specs.Prepared.{Plans, PlansDue};

use crate::mark::becoming;
use crate::takeover::tasks_after;
use mr_master_model::StoreAnswer;
use mr_master_state::mr_master_phase::{Coming, Work};
use mr_master_state::mr_master_tables::push_won;
use mr_master_state::mr_master_tasks::place_in_job;
use mr_master_state::{Boxed, Change, Machine, Prepared};
use mr_packet::Envelope;
use mr_recover::TaskWinner;
use std::alloc::AllocError;

// A call of a committer's table is answered. Where calls are left, what changes are the lines that follow alone.
pub fn ready_step(master: &Machine, answer: &StoreAnswer) -> Result<Prepared, AllocError>
    requires step { is_step master.now.work ≡ true }
    requires placed { IsPlaced master.now }
    ensures { IfOk result (λ ready. PlansDue master.now answer.now ready) }
{
    let coming = master.work.follow(answer)?;
    match coming {
        Coming::More(following) => Ok(Prepared::silent(master.alloc, Change::GoesOn(following))),
        Coming::Finished => ready_finished(master),
        Coming::Refused => becoming(master, master.work.refused(answer)),
    }
}

// The call was the last one: what is taken over will be entered, and told to every node. Where nothing is, the
// work alone changes, and as long as the master does not run, a reduce changes the machine of its task alone.
fn ready_finished(master: &Machine) -> Result<Prepared, AllocError>
    requires step { is_step master.now.work ≡ true }
    requires placed { IsPlaced master.now }
    ensures { IfOk result (λ ready. Plans master.now ready (λ w s. won_of w (winner_of s.work)) (λ w s. record s { calls = (after_table w s (winner_of s.work) (is_running (finished_by w s s.work))).calls; work = finished_by w s s.work })) }
{
    let next = next_work(master)?;
    if next.is_running() {
        return ready_start(master, next);
    }
    let Some(winner) = master.work.winner() else {
        return becoming(master, next);
    };
    ready_winner(master, &winner, next)
}

// The master will run: the reduce that was taken over last is entered, and the maps are.
fn ready_start(master: &Machine, next: Work) -> Result<Prepared, AllocError>
    requires runs { is_running next ≡ true }
    requires placed { IsPlaced master.now }
    ensures { IfOk result (λ ready. Plans master.now ready (λ w s. won_of w (winner_of s.work)) (λ w s. record s { calls = (after_table w s (winner_of s.work) (is_running next)).calls; work = next })) }
{
    let after = tasks_after(master)?;
    let tasks = Boxed::new(master.alloc, after)?;
    let packets = won_packets(master)?;
    Ok(Prepared::new(packets, Change::Enters { tasks, work: next }))
}

// The output of a reduce was taken over, and the master will not run yet: to the next work will be moved the
// reduces that are left.
fn ready_winner(master: &Machine, winner: &TaskWinner, next: Work) -> Result<Prepared, AllocError>
    requires winner { Some winner.now ≡ winner_of master.now.work }
    requires placed { IsPlaced master.now }
    ensures { IfOk result (λ ready. Plans master.now ready (λ w s. won_of w (winner_of s.work)) (λ w s. record s { calls = (after_winner s (winner_of s.work)).calls; work = with_others next (drop 1 (others_of s.work)) })) }
{
    let place = place_in_job(&master.setting, winner.task);
    let recovered = master.tasks.recovered(place, winner.attempt)?;
    let machine = Boxed::new(master.alloc, recovered)?;
    let packets = won_packets(master)?;
    Ok(Prepared::new(
        packets,
        Change::EntersOne {
            place,
            machine,
            work: next,
        },
    ))
}

// What is next after the last call of the table. Where a reduce was taken over, those that are left after the
// next one are not in it yet.
fn next_work(master: &Machine) -> Result<Work, AllocError>
    requires { is_step master.now.work ≡ true }
    ensures { IfOk result (λ next. Reads master.now (λ w s. begun_by w s s.work) next) }
{
    let next = master
        .work
        .finished(master.alloc, &master.setting, master.earlier.as_slice())?;
    Ok(next)
}

// Where a reduce was taken over, every node is told of it.
fn won_packets(master: &Machine) -> Result<Vec<Envelope>, AllocError>
    ensures { IfOk result (λ packets. Reads master.now (λ w s. won_of w (winner_of s.work)) packets.items) }
{
    let mut packets = Vec::new(master.alloc);
    let Some(winner) = master.work.winner() else {
        return Ok(packets);
    };
    push_won(
        &mut packets,
        master.setting.nodes,
        winner.task,
        winner.attempt,
    )?;
    Ok(packets)
}
