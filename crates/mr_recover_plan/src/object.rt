//! A plan as an object of JSON.
ghost use Rattle.std.specs.Prelude.{◌≡◌, IfOk, OnOk, map};
ghost use Rattle.serde_json.specs.View.{members_view, view};
ghost use Rattle.mr_sim_json.specs.Members.{line_of, with_all};
ghost use Rattle.mr_recover_plan.specs.Said.{length_member, plan_object, winner_object};

use mr_recover::{Recovery, TaskWinner};
use mr_sim_json::{Object, into_value, put_count, put_line, put_list, put_text, put_word};
use serde_json::Value;
use std::alloc::{AllocError, Global};

/// The line of a plan's object.
pub fn plan_json(alloc: Global, plan: &Recovery) -> Result<Vec<u8>, AllocError>
    ensures { IfOk result (λ said. said.items ≡ line_of (plan_object plan.now)) }
{
    let value = plan_value(alloc, plan)?;
    let mut said = Vec::new(alloc);
    put_line(&mut said, alloc, &value)?;
    Ok(said)
}

fn plan_value(alloc: Global, plan: &Recovery) -> Result<Value, AllocError>
    ensures { IfOk result (λ value. view value ≡ plan_object plan.now) }
{
    let mut object = Object::new(alloc);
    match plan {
        Recovery::Resume(winners) => {
            let recover = winner_values(alloc, winners.as_slice())?;
            put_word(&mut object, alloc, "plan", "resume")?;
            put_list(&mut object, alloc, "recover", recover)?;
        }
        Recovery::Succeeded => put_word(&mut object, alloc, "plan", "report succeeded")?,
        Recovery::Failed => put_word(&mut object, alloc, "plan", "report failed")?,
    }
    Ok(into_value(object))
}

fn winner_values(alloc: Global, winners: &[TaskWinner]) -> Result<Vec<Value>, AllocError>
    ensures { IfOk result (λ values. map view values.items ≡ map winner_object winners.now) }
{
    let mut values = Vec::new(alloc);
    for winner in winners {
        values.push(winner_value(alloc, winner)?)?;
    }
    Ok(values)
}

fn winner_value(alloc: Global, winner: &TaskWinner) -> Result<Value, AllocError>
    ensures { IfOk result (λ value. view value ≡ winner_object winner.now) }
{
    let mut object = Object::new(alloc);
    let mut name = Vec::new(alloc);
    winner.task.write(&mut name)?;
    put_text(&mut object, alloc, "task", &name)?;
    name.clear();
    winner.attempt.write(&mut name)?;
    put_text(&mut object, alloc, "winner", &name)?;
    put_length(&mut object, alloc, winner.bytes)?;
    Ok(into_value(object))
}

fn put_length(object: &mut Object, alloc: Global, bytes: Option<u32>) -> Result<(), AllocError>
    ensures { OnOk result (members_view object.new.entries ≡ with_all (length_member bytes) (members_view object.old.entries)) }
{
    match bytes {
        None => Ok(()),
        Some(bytes) => put_count(object, alloc, "bytes", u64::from(bytes)),
    }
}
