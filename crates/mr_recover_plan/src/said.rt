//! How a plan is said.
ghost use Rattle.std.specs.Prelude.{◌≡◌, ◌++◌, IfOk, OnOk};
ghost use Rattle.std.specs.List.{flat_map};
ghost use Rattle.mr_recover_plan.specs.Said.{length_text, plan_text, said_of, status_of, winner_line};

use crate::fault::PlanFault;
use crate::object::plan_json;
use itoa::Buffer;
use mr_pipe::Form;
use mr_recover::{Recovery, TaskWinner};
use std::alloc::{AllocError, Global};

/// The lines of a plan: `resume`, and `recover TASK ATTEMPT BYTES` for each task that is taken over; or `report succeeded`, or `report failed`.
pub fn plan_text(alloc: Global, plan: &Recovery) -> Result<Vec<u8>, AllocError>
    ensures { IfOk result (λ said. said.items ≡ plan_text plan.now) }
{
    match plan {
        Recovery::Resume(winners) => {
            let mut said = Vec::from_slice(alloc, b"resume\n")?;
            put_winners(&mut said, winners.as_slice())?;
            Ok(said)
        }
        Recovery::Succeeded => Vec::from_slice(alloc, b"report succeeded\n"),
        Recovery::Failed => Vec::from_slice(alloc, b"report failed\n"),
    }
}

// A line for each of these.
fn put_winners(out: &mut Vec<u8>, winners: &[TaskWinner]) -> Result<(), AllocError>
    ensures { OnOk result (out.new.items ≡ out.old.items ++ flat_map winner_line winners.now) }
{
    for winner in winners {
        put_winner(out, winner)?;
    }
    Ok(())
}

// The task, its winner, and the length of its part file, where it is recorded.
fn put_winner(out: &mut Vec<u8>, winner: &TaskWinner) -> Result<(), AllocError>
    ensures { OnOk result (out.new.items ≡ out.old.items ++ winner_line winner.now) }
{
    out.extend_from_slice(b"recover ")?;
    winner.task.write(out)?;
    out.extend_from_slice(b" ")?;
    winner.attempt.write(out)?;
    put_length(out, winner.bytes)?;
    out.extend_from_slice(b"\n")
}

fn put_length(out: &mut Vec<u8>, bytes: Option<u32>) -> Result<(), AllocError>
    ensures { OnOk result (out.new.items ≡ out.old.items ++ length_text bytes) }
{
    let Some(bytes) = bytes else {
        return Ok(());
    };
    let mut buffer = Buffer::new();
    out.extend_from_slice(b" ")?;
    out.extend_from_slice(buffer.format(bytes).as_bytes())
}

/// What is said: the lines of the plan, or its object; nothing where there is none.
pub fn said_of(
    alloc: Global,
    form: Form,
    planned: &Result<Recovery, PlanFault>,
) -> Result<Vec<u8>, AllocError>
    ensures { IfOk result (λ said. said.items ≡ said_of form planned.now) }
{
    match planned {
        Ok(plan) => match form {
            Form::Text => plan_text(alloc, plan),
            Form::Json => plan_json(alloc, plan),
        },
        Err(_) => Ok(Vec::new(alloc)),
    }
}

/// The exit status: 0 where there is a plan, 3 where a segment is refused, 5 where there was no memory.
pub fn status_of(planned: &Result<Recovery, PlanFault>) -> u8
    ensures { result ≡ status_of planned.now }
{
    match planned {
        Ok(_) => 0,
        Err(PlanFault::BadLine { .. } | PlanFault::EarlierGeneration { .. }) => 3,
        Err(PlanFault::NoMemory) => 5,
    }
}
