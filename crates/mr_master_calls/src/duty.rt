//! The next store call of a master.
//! While Running it is a bar, else an append or a flush, else COMMIT_STARTED once all reduces are Succeeded. In most
//! other phases it follows from `work`.
ghost use Rattle.std.specs.Prelude.{◌≡◌, true, IfOk, OnErr};
ghost use Rattle.std.specs.Option.{is_some};
ghost use Rattle.mr_master_model.specs.Past.{Runs, Fails};
ghost use Rattle.mr_master_model.specs.Answered.{name_of};
ghost use Rattle.mr_master_model.specs.Duty.{duty, duty_at};
ghost use Rattle.mr_master_state.specs.Passing.{NoneLive};
ghost use Rattle.mr_master_state.specs.State.{Reads};

use mr_ids::TaskKind;
use mr_master_model::{DutyName, StoreCall};
use mr_master_state::Machine;
use mr_master_state::mr_master_phase::{abort_duty, of_mark, started_mark};
use mr_master_state::mr_master_tables::Duty;
use mr_names::Op;
use std::alloc::AllocError;

/// The next store call, if there is one to make. None of the first `passed` bars is of a live attempt.
pub fn next_duty(master: &Machine, passed: usize) -> Result<Option<Duty>, AllocError>
    requires { NoneLive master.now passed }
    ensures due { IfOk result (λ due. Reads master.now (λ w s. duty w s) due) }
    ensures due_on_memory { OnErr result (Reads master.now (λ w s. is_some (duty w s)) true) }
{
    if master.work.is_running() {
        let due = running_duty(master, passed)?;
        return Ok(due);
    }
    if let Some(is_stable) = master.work.fails() {
        let due = failing_duty(master, is_stable)?;
        return Ok(due);
    }
    let due = master.work.duty(&master.setting)?;
    Ok(due)
}

/// What that call is for. It is made up only where that takes no path.
pub fn next_duty_name(master: &Machine, passed: usize) -> Result<Option<DutyName>, AllocError>
    requires { NoneLive master.now passed }
    ensures { IfOk result (λ name. Reads master.now (λ w s. name_of (duty w s)) name) }
{
    if master.work.is_running() {
        return made_up_name(master, passed);
    }
    if let Some(_) = master.work.fails() {
        return made_up_name(master, passed);
    }
    Ok(master.work.duty_name())
}

// The same, by the call itself.
fn made_up_name(master: &Machine, passed: usize) -> Result<Option<DutyName>, AllocError>
    requires { NoneLive master.now passed }
    ensures { IfOk result (λ name. Reads master.now (λ w s. name_of (duty w s)) name) }
{
    let due = next_duty(master, passed)?;
    Ok(name_of(&due))
}

fn name_of(due: &Option<Duty>) -> Option<DutyName>
    ensures { result ≡ name_of due.now }
{
    match due {
        Some(due) => Some(due.name()),
        None => None,
    }
}

fn running_duty(master: &Machine, passed: usize) -> Result<Option<Duty>, AllocError>
    requires { NoneLive master.now passed }
    ensures due { IfOk result (λ due. Reads master.now (λ w s. duty_at w s Runs) due) }
    ensures due_on_memory { OnErr result (Reads master.now (λ w s. is_some (duty_at w s Runs)) true) }
{
    if let Some(attempt) = master.first_bar(passed) {
        return Ok(Some(Duty::new(DutyName::Bar, StoreCall::Names(Op::Bar(attempt)))));
    }
    if let Some(due) = master.writing.duty() {
        return Ok(Some(due));
    }
    if !master.all_succeeded(TaskKind::Reduce) {
        return Ok(None);
    }
    let mark = started_mark(master.alloc)?;
    Ok(of_mark(DutyName::Started, mark))
}

fn failing_duty(master: &Machine, is_stable: bool) -> Result<Option<Duty>, AllocError>
    ensures due { IfOk result (λ due. Reads master.now (λ w s. duty_at w s (Fails is_stable)) due) }
    ensures due_on_memory { OnErr result (Reads master.now (λ w s. is_some (duty_at w s (Fails is_stable))) true) }
{
    if let Some(due) = master.writing.duty() {
        return Ok(Some(due));
    }
    if !is_stable {
        return Ok(None);
    }
    let due = abort_duty(&master.setting)?;
    Ok(due)
}
