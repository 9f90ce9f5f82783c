//! Where the machines of tasks stand: maps first.
//! A place is the index of a task's machine in the list that `tasks` keeps.
ghost use Rattle.std.specs.Prelude.{◌≡◌, Some, None, if◌then◌else◌};
ghost use Rattle.mr_master_model.specs.Job.{is_task};
ghost use Rattle.mr_master_tasks.specs.Places.{place_of};

use mr_ids::{TaskId, TaskKind};
use mr_master_model::Setting;

/// Where a task of the job stands among all.
pub fn place_in_job(setting: &Setting, task: TaskId) -> usize
    ensures { result ≡ place_of setting.now task }
{
    match task.kind {
        TaskKind::Map => task.number as usize,
        TaskKind::Reduce => setting.maps as usize + task.number as usize,
    }
}

/// Where a task stands among all: maps first.
pub fn place_of(setting: &Setting, task: TaskId) -> Option<usize>
    ensures { result ≡ (if is_task setting.now task then Some (place_of setting.now task) else None) }
{
    if task.job.start != setting.job.start || task.job.number != setting.job.number {
        return None;
    }
    match task.kind {
        TaskKind::Map => {
            if task.number < setting.maps {
                Some(task.number as usize)
            } else {
                None
            }
        }
        TaskKind::Reduce => {
            if task.number < setting.reduces {
                Some(setting.maps as usize + task.number as usize)
            } else {
                None
            }
        }
    }
}
