//! What succeeded under earlier masters is entered where the master begins to run, into machines of the tasks that are
//! built beside the ones that are there. So nothing has changed where memory is refused.
ghost use Rattle.std.specs.Prelude.{◌≡◌, true, length, List, flat_map, OnOk, IfOk};
ghost use Rattle.mr_ids.specs.declared.id.TaskId.{TaskId};
ghost use Rattle.mr_task.specs.Calls.{TaskCall};
ghost use Rattle.mr_master_model.specs.Job.{all_maps};
ghost use Rattle.mr_master_model.specs.Readings.{Seen, newest_in};
ghost use Rattle.mr_master_model.specs.declared.setting.Setting.{Setting};
ghost use Rattle.mr_master_model.specs.Answered.{taken, taken_of, with_maps};
ghost use Rattle.mr_master_state.specs.mr_master_tasks.specs.Tasks.{KeepsTasks};
ghost use Rattle.mr_master_state.specs.mr_master_phase.specs.Taking.{winner_of, calls_with};
ghost use Rattle.mr_master_state.specs.Taking.{KeepsAfter};
ghost use Rattle.mr_master_state.specs.State.{Keeps, Reads, Adds};
ghost use Rattle.mr_master_calls.specs.Placed.{IsPlaced};

use mr_ids::{AttemptId, TaskId, TaskKind};
use mr_master_state::Machine;
use mr_master_state::mr_master_tasks::{Tasks, place_in_job};
use std::alloc::AllocError;

// Adds the map's newest success, unless its node is known in a higher incarnation.
fn push_taken(
    master: &Machine,
    attempts: &mut Vec<AttemptId>,
    task: &TaskId,
) -> Result<(), AllocError>
    ensures { OnOk result (Adds master.now attempts.old.items (λ w s. taken s (newest_in s.earlier task.now)) attempts.new.items) }
{
    let Some(success) = master.earlier.newest(task) else {
        return Ok(());
    };
    if success.2 < master.nodes.incarnation(success.1) {
        return Ok(());
    }
    attempts.push(success.0)?;
    Ok(())
}

// The newest successes of the maps, by map number.
fn all_taken(master: &Machine) -> Result<Vec<AttemptId>, AllocError>
    ensures { IfOk result (λ attempts. Reads master.now (λ w s. flat_map (taken_of s) (all_maps w)) attempts.items) }
{
    let mut attempts = Vec::new(master.alloc);
    for number in 0..master.setting.maps {
        let task = TaskId {
            job: master.setting.job,
            kind: TaskKind::Map,
            number,
        };
        push_taken(master, &mut attempts, &task)?;
    }
    Ok(attempts)
}

// The maps' newest successes are entered.
fn enter_maps(master: &Machine, tasks: &mut Tasks) -> Result<(), AllocError>
    ensures { OnOk result ((w : Setting) (s : Seen) → Keeps master.now w s → (calls : TaskId → List TaskCall) → KeepsTasks tasks.old w calls → KeepsTasks tasks.new w (with_maps w (record s { calls = calls })).calls) }
{
    let attempts = all_taken(master)?;
    tasks.recover_all(&master.setting, &attempts)?;
    Ok(())
}

// The attempt of the reduce that is taken over is entered.
fn enter_winner(master: &Machine, tasks: &mut Tasks) -> Result<(), AllocError>
    requires placed { IsPlaced master.now }
    requires tasks { length tasks.old.machines ≡ length master.now.tasks.machines }
    ensures { OnOk result ((w : Setting) (s : Seen) → Keeps master.now w s → KeepsTasks tasks.old w s.calls → KeepsTasks tasks.new w (calls_with (winner_of master.now.work) s.calls)) }
{
    let Some(winner) = master.work.winner() else {
        return Ok(());
    };
    let place = place_in_job(&master.setting, winner.task);
    tasks.recover(place, winner.attempt)?;
    Ok(())
}

// The machines of the tasks after the last call of a committer's table, where the master begins to run.
pub fn tasks_after(master: &Machine) -> Result<Tasks, AllocError>
    requires { IsPlaced master.now }
    ensures { IfOk result (λ tasks. KeepsAfter master.now (winner_of master.now.work) true tasks) }
{
    let mut tasks = master.tasks.copy(master.alloc)?;
    enter_winner(master, &mut tasks)?;
    enter_maps(master, &mut tasks)?;
    Ok(tasks)
}
