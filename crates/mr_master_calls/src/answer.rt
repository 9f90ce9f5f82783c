//! What is prepared for the answer of the store call that is due, in each phase.
//! Each kind of call has its file.
ghost use Rattle.std.specs.Prelude.{◌≡◌, false, IfOk};
ghost use Rattle.std.specs.Option.{is_some};
ghost use Rattle.mr_master_model.specs.Duty.{duty};
ghost use Rattle.mr_master_model.specs.Past.{Answered};
ghost use Rattle.mr_master_state.specs.mr_master_phase.specs.WorkKinds.{is_read};
ghost use Rattle.mr_master_state.specs.State.{Reads};
ghost use Rattle.mr_master_calls.specs.Answering.{IsDue};
ghost use Rattle.mr_master_state.specs.Passing.{NoneLive};
ghost use Rattle.mr_master_calls.specs.Placed.{IsPlaced};
ghost use Rattle.mr_master_state.specs.Prepared.{PlansFor, PlansDue};

use crate::duty::next_duty_name;
use crate::failing::ready_failing;
use crate::mark::{ready_look, ready_tell};
use crate::reading::ready_read;
use crate::running::ready_running;
use crate::table::ready_step;
use mr_master_model::StoreAnswer;
use mr_master_state::{Change, Machine, Prepared};
use std::alloc::AllocError;

/// What the answer of the call that is due will change and send. Where none is due, it is nothing. None of the
/// first `passed` bars is of a live attempt, and what is taken over is of a task of the job.
pub fn ready_for(
    master: &Machine,
    answer: StoreAnswer,
    passed: usize,
) -> Result<Prepared, AllocError>
    requires none_live { NoneLive master.now passed }
    requires placed { IsPlaced master.now }
    ensures { IfOk result (λ ready. PlansFor master.now (Answered answer) ready) }
{
    let is_due = is_due(master, passed)?;
    if !is_due {
        return Ok(Prepared::silent(master.alloc, Change::Nothing));
    }
    ready_due(master, answer, passed)
}

// Whether a call is due.
fn is_due(master: &Machine, passed: usize) -> Result<bool, AllocError>
    requires { NoneLive master.now passed }
    ensures { IfOk result (λ due. Reads master.now (λ w s. is_some (duty w s)) due) }
{
    let name = next_duty_name(master, passed)?;
    Ok(name.is_some())
}

// A call is due. The answer of the reading hands on its records.
fn ready_due(master: &Machine, answer: StoreAnswer, passed: usize) -> Result<Prepared, AllocError>
    requires due { IsDue master.now }
    requires none_live { NoneLive master.now passed }
    requires placed { IsPlaced master.now }
    ensures { IfOk result (λ ready. PlansDue master.now answer ready) }
{
    if master.work.is_read() {
        return ready_read(master, answer);
    }
    ready_unread(master, &answer, passed)
}

// A call is due that is not the reading.
fn ready_unread(
    master: &Machine,
    answer: &StoreAnswer,
    passed: usize,
) -> Result<Prepared, AllocError>
    requires unread { is_read master.now.work ≡ false }
    requires due { IsDue master.now }
    requires none_live { NoneLive master.now passed }
    requires placed { IsPlaced master.now }
    ensures { IfOk result (λ ready. PlansDue master.now answer.now ready) }
{
    if master.work.is_look() {
        return ready_look(master, answer);
    }
    if master.work.is_tell() {
        return ready_tell(master, answer);
    }
    if master.work.is_step() {
        return ready_step(master, answer);
    }
    if let Some(is_stable) = master.work.fails() {
        return ready_failing(master, is_stable, answer);
    }
    if master.work.is_running() {
        return ready_running(master, answer, passed);
    }
    Ok(Prepared::silent(master.alloc, Change::Nothing))
}
