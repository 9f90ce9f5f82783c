//! What the history says of each task.
ghost use Rattle.std.specs.Prelude.{◌≡◌, IfOk, map};
ghost use Rattle.mr_ids.specs.Same.{same_attempt};
ghost use Rattle.mr_out_winners.specs.Tasks.{as_part, length_of, part_at, part_name, parts, won_by};

use mr_history::Record;
use mr_ids::{AttemptId, JobId, TaskId, TaskKind};
use mr_out_machine::winner;
use std::alloc::{AllocError, Global};

/// How long the file is that an attempt handed in, as it was noted.
#[derive(Clone, Copy, Debug)]
pub struct Measured {
    /// The attempt.
    pub attempt: AttemptId,
    /// How many bytes its file has.
    pub len: u64,
}

/// What is known of a winner's file.
#[derive(Clone, Copy, Debug)]
pub struct Won {
    /// How many bytes it has, where that was noted.
    pub len: Option<u64>,
}

/// A task.
#[derive(Debug, Drop)]
pub struct Task {
    /// The name of its part file.
    pub name: Vec<u8>,
    /// What is known of its winner's file, if it is won.
    pub won: Option<Won>,
}

fn is_same(a: &AttemptId, b: &AttemptId) -> bool
    ensures { result ≡ same_attempt a.now b.now }
{
    a == b
}

// How long the file is that an attempt handed in, where that was noted.
fn length_of(a: &AttemptId, measured: &[Measured]) -> Option<u64>
    ensures { result ≡ length_of a.now measured.now }
{
    for one in measured {
        if is_same(&one.attempt, a) {
            return Some(one.len);
        }
    }
    None
}

fn won_by(winner: Option<AttemptId>, measured: &[Measured]) -> Option<Won>
    ensures { result ≡ won_by winner measured.now }
{
    match winner {
        None => None,
        Some(a) => Some(Won {
            len: length_of(&a, measured),
        }),
    }
}

fn part_name(alloc: Global, number: u32, suffix: &[u8]) -> Result<Vec<u8>, AllocError>
    ensures { IfOk result (λ name. name.items ≡ part_name number suffix.now) }
{
    let front = mr_paths::part_name(alloc, number)?;
    let mut name = Vec::from_slice(alloc, front.as_bytes())?;
    name.extend_from_slice(suffix)?;
    Ok(name)
}

// The task of this number.
fn task_at(
    alloc: Global,
    job: &JobId,
    suffix: &[u8],
    records: &[Record],
    measured: &[Measured],
    number: u32,
) -> Result<Task, AllocError>
    ensures { IfOk result (λ task. as_part task ≡ part_at job.now suffix.now records.now measured.now number) }
{
    let task = TaskId {
        job: *job,
        kind: TaskKind::Reduce,
        number,
    };
    let won = won_by(winner(records, &task), measured);
    let name = part_name(alloc, number, suffix)?;
    Ok(Task { name, won })
}

/// The tasks of a job, in order, by the records of its history: for each the name of its part file, which ends with the suffix, and what is known of its
/// winner's file. It fails where there is no memory.
pub fn tasks_of(
    alloc: Global,
    job: &JobId,
    suffix: &[u8],
    records: &[Record],
    measured: &[Measured],
    tasks: u32,
) -> Result<Vec<Task>, AllocError>
    ensures { IfOk result (λ all. map as_part all.items ≡ parts job.now suffix.now records.now measured.now tasks) }
{
    let mut all = Vec::new(alloc);
    for number in 0..tasks {
        let task = task_at(alloc, job, suffix, records, measured, number)?;
        all.push(task)?;
    }
    Ok(all)
}
