//! The attempts at a task, as far as the records of a job's history tell.
ghost use Rattle.std.specs.Prelude.{◌≡◌, not, ◌&&◌, ◌∷◌, nat_lt, count_by, is_some, Some, None, IfOk, if◌then◌else◌};
ghost use Rattle.std.specs.List.{filter, list_any};
ghost use Rattle.mr_ids.specs.Same.{same_task};
ghost use Rattle.mr_out_steps.specs.Standing.{task_of, tells_failure, starts_at, tells_any_start, next_attempt, is_alive_at, first_alive, has_winner, is_idle, or_idle, first_idle, fails_at, fails_out, has_failed_out};
ghost use Rattle.mr_out_machine.specs.Successes.{tells_success};
ghost use Rattle.mr_out_machine.specs.inner.Standing.{alive_of};

use crate::standing::{has_failed, is_same_task, successes, winner};
use mr_history::Record;
use mr_ids::{AttemptId, JobId, TaskId, TaskKind};
use std::alloc::{AllocError, Global};

// Most attempts of a job.
const MAX_ATTEMPTS: usize = 50_000;

pub(crate) fn task_of(job: JobId, number: u32) -> TaskId
    ensures { result ≡ task_of job number }
{
    TaskId {
        job,
        kind: TaskKind::Reduce,
        number,
    }
}

/// The attempt at the task that comes next, where there is room for one.
#[tactic(auto, unfolding(mr_out_steps::specs::Standing::next_attempt))]
pub(crate) fn next_attempt(records: &[Record], task: TaskId) -> Option<AttemptId>
    ensures { result ≡ next_attempt records.now task }
{
    let number = starts_at(records, &task);
    if all_starts(records) < MAX_ATTEMPTS && number < 1_000_000 {
        AttemptId::new(task, number as u32)
    } else {
        None
    }
}

fn all_starts(records: &[Record]) -> usize
    ensures { result ≡ count_by tells_any_start records.now }
{
    records.iter().filter(|told| tells_any_start(told)).count()
}

fn starts_at(records: &[Record], task: &TaskId) -> usize
    ensures { result ≡ count_by (starts_at task.now) records.now }
{
    records
        .iter()
        .filter(|told| is_start_at(task, told))
        .count()
}

/// Whether two attempts at the task are under way.
pub(crate) fn is_busy(records: &[Record], task: &TaskId) -> bool
    ensures { result ≡ not (nat_lt (count_by (is_alive_at records.now task.now) records.now) 2) }
{
    let alive = records
        .iter()
        .filter(|told| is_alive_at(records, task, told))
        .count();
    alive >= 2
}

/// The first attempt at the task that is under way.
pub fn first_alive(records: &[Record], task: &TaskId) -> Option<AttemptId>
    ensures { result ≡ first_alive records.now task.now records.now }
{
    for told in records {
        if let Some(a) = alive(records, task, told) {
            return Some(a);
        }
    }
    None
}

pub(crate) fn has_winner(records: &[Record], task: &TaskId) -> bool
    ensures { result ≡ has_winner records.now task.now }
{
    winner(records, task).is_some()
}

/// The first of the first tasks of a job that has no winner, and no attempt under way.
pub(crate) fn first_idle(
    alloc: Global,
    job: JobId,
    records: &[Record],
    tasks: u32,
) -> Result<Option<u32>, AllocError>
    ensures { IfOk result (λ first. first ≡ first_idle job records.now tasks) }
{
    let won = successes(alloc, records)?;
    Ok(first_idle_by(job, records, won.as_slice(), tasks))
}

// The same, where winners are looked for in the successes alone.
#[tactic(auto, using(crate::proofs::Alive::one_task, crate::proofs::Alive::no_task))]
fn first_idle_by(job: JobId, records: &[Record], successes: &[Record], tasks: u32) -> Option<u32>
    requires { successes.now ≡ filter tells_success records.now }
    ensures { result ≡ first_idle job records.now tasks }
{
    let mut first = None;
    for number in 0..tasks {
        first = or_idle(job, records, successes, number, first);
    }
    first
}

fn or_idle(
    job: JobId,
    records: &[Record],
    successes: &[Record],
    number: u32,
    first: Option<u32>,
) -> Option<u32>
    requires { successes.now ≡ filter tells_success records.now }
    ensures { result ≡ or_idle job records.now number first }
{
    match first {
        Some(first) => Some(first),
        None => if_idle(job, records, successes, number),
    }
}

fn if_idle(job: JobId, records: &[Record], successes: &[Record], number: u32) -> Option<u32>
    requires { successes.now ≡ filter tells_success records.now }
    ensures { result ≡ (if is_idle records.now (task_of job number) then Some number else None) }
{
    let task = task_of(job, number);
    if is_idle(records, successes, &task) {
        Some(number)
    } else {
        None
    }
}

fn is_idle(records: &[Record], successes: &[Record], task: &TaskId) -> bool
    requires { successes.now ≡ filter tells_success records.now }
    ensures { result ≡ is_idle records.now task.now }
{
    !is_won(records, successes, task) && !is_any_alive(records, task)
}

fn is_won(records: &[Record], successes: &[Record], task: &TaskId) -> bool
    requires { successes.now ≡ filter tells_success records.now }
    ensures { result ≡ has_winner records.now task.now }
{
    has_winner(successes, task)
}

fn is_any_alive(records: &[Record], task: &TaskId) -> bool
    ensures { result ≡ list_any (is_alive_at records.now task.now) records.now }
{
    records.iter().any(|told| is_alive_at(records, task, told))
}

/// Whether some task has failed as often as the limit.
pub(crate) fn has_failed_out(limit: Option<u32>, records: &[Record]) -> bool
    ensures { result ≡ has_failed_out limit records.now }
{
    match limit {
        None => false,
        Some(limit) => has_failed_often(limit, records),
    }
}

fn has_failed_often(limit: u32, records: &[Record]) -> bool
    ensures { result ≡ list_any (fails_out limit records.now) records.now }
{
    records.iter().any(|told| fails_out(limit, records, told))
}

fn fails_out(limit: u32, records: &[Record], told: &Record) -> bool
    ensures { result ≡ fails_out limit records.now told.now }
{
    match *told {
        Record::AttemptFailed { attempt } => failures(records, &attempt.task()) >= limit as usize,
        _ => false,
    }
}

fn failures(records: &[Record], task: &TaskId) -> usize
    ensures { result ≡ count_by (fails_at task.now) records.now }
{
    records
        .iter()
        .filter(|told| is_failure_at(task, told))
        .count()
}

// The attempt that the record tells was started at the task, where it is under way.
fn alive(records: &[Record], task: &TaskId, told: &Record) -> Option<AttemptId>
    ensures { result ≡ alive_of records.now task.now told.now }
{
    match *told {
        Record::AttemptStarted { attempt, node: _ } => {
            if is_alive_at(records, task, told) {
                Some(attempt)
            } else {
                None
            }
        }
        _ => None,
    }
}

/// Whether the record tells that an attempt at the task was started, which has not failed by the records.
pub fn is_alive_at(records: &[Record], task: &TaskId, told: &Record) -> bool
    ensures { result ≡ is_alive_at records.now task.now told.now }
{
    match *told {
        Record::AttemptStarted { attempt, node: _ } => {
            is_same_task(&attempt.task(), task) && !has_failed(records, &attempt)
        }
        _ => false,
    }
}

fn is_start_at(task: &TaskId, told: &Record) -> bool
    ensures { result ≡ starts_at task.now told.now }
{
    match *told {
        Record::AttemptStarted { attempt, node: _ } => is_same_task(&attempt.task(), task),
        _ => false,
    }
}

fn tells_any_start(told: &Record) -> bool
    ensures { result ≡ tells_any_start told.now }
{
    match *told {
        Record::AttemptStarted {
            attempt: _,
            node: _,
        } => true,
        _ => false,
    }
}

fn is_failure_at(task: &TaskId, told: &Record) -> bool
    ensures { result ≡ fails_at task.now told.now }
{
    match *told {
        Record::AttemptFailed { attempt } => is_same_task(&attempt.task(), task),
        _ => false,
    }
}
