//! What the records of a job's history tell of an attempt, and of the whole job.
ghost use Rattle.std.specs.Prelude.{◌≡◌, true, None, IfOk, if◌then◌else◌};
ghost use Rattle.std.specs.List.{filter, list_any};
ghost use Rattle.mr_history.specs.Winner.{winner_in};
ghost use Rattle.mr_ids.specs.Same.{same_attempt, same_task};
ghost use Rattle.mr_out_steps.specs.Standing.{tells_start, tells_failure, tells_end, is_over, is_of_job, standing, unwon, beside, task_of, winners, with_winner};
ghost use Rattle.mr_out_machine.specs.Successes.{tells_success};
ghost use Rattle.mr_out_machine.specs.inner.Standing.{success_of};

use crate::attempts::task_of;
use mr_history::{Record, Records};
use mr_ids::{AttemptId, JobId, TaskId, TaskKind};
use mr_out_steps::Standing;
use std::alloc::{AllocError, Global};
use std::collections::LinkedList;

/// How an attempt stands in a job of so many tasks. Its task's winner comes first, then whether it was given up, then
/// whether the job is over.
#[tactic(auto, unfolding(mr_out_steps::specs::Standing::standing))]
pub fn standing_of(job: JobId, tasks: u32, records: &[Record], a: AttemptId) -> Standing
    ensures { result ≡ standing job tasks records.now a }
{
    match winner(records, &a.task()) {
        None => unwon(job, tasks, records, a),
        Some(winner) => beside(&winner, &a),
    }
}

fn beside(winner: &AttemptId, a: &AttemptId) -> Standing
    ensures { result ≡ (if same_attempt winner.now a.now then Standing.Won else Standing.Beaten) }
{
    if is_same(winner, a) {
        Standing::Won
    } else {
        Standing::Beaten
    }
}

// How an attempt stands at a task that nobody has won yet.
fn unwon(job: JobId, tasks: u32, records: &[Record], a: AttemptId) -> Standing
    ensures { result ≡ unwon job tasks records.now a }
{
    if has_failed(records, &a) {
        return Standing::GivenUp;
    }
    if is_over(records) {
        return Standing::JobOver;
    }
    if is_of_job(&job, tasks, &a) && has_started(records, &a) {
        return Standing::UnderWay;
    }
    Standing::Unknown
}

pub(crate) fn has_failed(records: &[Record], a: &AttemptId) -> bool
    ensures { result ≡ list_any (tells_failure a.now) records.now }
{
    records.iter().any(|told| tells_failure(a, told))
}

fn has_started(records: &[Record], a: &AttemptId) -> bool
    ensures { result ≡ list_any (tells_start a.now) records.now }
{
    records.iter().any(|told| tells_start(a, told))
}

/// Whether the job was ended as failed.
pub fn is_over(records: &[Record]) -> bool
    ensures { result ≡ is_over records.now }
{
    records.iter().any(|told| tells_end(told))
}

/// The winners of the first `tasks` tasks of a job, the last task's first, where each has one.
pub fn winners(
    alloc: Global,
    job: JobId,
    records: &[Record],
    tasks: u32,
) -> Result<Option<LinkedList<AttemptId>>, AllocError>
    ensures { IfOk result (λ all. all ≡ winners job records.now tasks) }
{
    if lacks_last(job, records, tasks) {
        return Ok(None);
    }
    let won = successes(alloc, records)?;
    winners_by(alloc, job, records, won.as_slice(), tasks)
}

// The same by the successes alone.
fn winners_by(
    alloc: Global,
    job: JobId,
    records: &[Record],
    successes: &[Record],
    tasks: u32,
) -> Result<Option<LinkedList<AttemptId>>, AllocError>
    requires { successes.now ≡ filter tells_success records.now }
    ensures { IfOk result (λ all. all ≡ winners job records.now tasks) }
{
    winners_in_turn(alloc, job, successes, tasks)
}

/// The records that tell a success, in their order. By them each task has the winner that it has by all.
pub fn successes(alloc: Global, records: &[Record]) -> Result<Records, AllocError>
    ensures { IfOk result (λ kept. kept ≡ filter tells_success records.now) }
{
    let mut kept = Vec::new(alloc);
    for item in records {
        if tells_success(item) {
            kept.push(*item)?;
        }
    }
    Ok(Records::from_vec(kept))
}

fn tells_success(told: &Record) -> bool
    ensures { result ≡ tells_success told.now }
{
    match *told {
        Record::ReduceSucceeded {
            attempt: _,
            bytes: _,
        } => true,
        _ => false,
    }
}

// Whether the last task has no winner: mostly it is the last to have one, and then no other task is looked for.
#[tactic(auto, using(crate::proofs::Winning::lacks_last))]
fn lacks_last(job: JobId, records: &[Record], tasks: u32) -> bool
    ensures { result ≡ true → winners job records.now tasks ≡ None }
{
    match tasks.checked_sub(1) {
        Some(last) => winner(records, &task_of(job, last)).is_none(),
        None => false,
    }
}

// The same, one task after another, up to the first that has none.
#[tactic(auto, using(crate::proofs::Winning::one_more, crate::proofs::Winning::no_task, crate::proofs::Winning::none_stays))]
fn winners_in_turn(
    alloc: Global,
    job: JobId,
    records: &[Record],
    tasks: u32,
) -> Result<Option<LinkedList<AttemptId>>, AllocError>
    ensures { IfOk result (λ all. all ≡ winners job records.now tasks) }
{
    let mut all = Some(LinkedList::new(alloc));
    for number in 0..tasks {
        if all.is_none() {
            return Ok(None);
        }
        all = with_winner(winner(records, &task_of(job, number)), all)?;
    }
    Ok(all)
}

fn with_winner(
    winner: Option<AttemptId>,
    others: Option<LinkedList<AttemptId>>,
) -> Result<Option<LinkedList<AttemptId>>, AllocError>
    ensures { IfOk result (λ all. all ≡ with_winner winner others) }
{
    match (winner, others) {
        (Some(a), Some(mut others)) => {
            others.push_front(a)?;
            Ok(Some(others))
        }
        _ => Ok(None),
    }
}

/// The winner of a task: the attempt of the first record of its success.
pub fn winner(records: &[Record], task: &TaskId) -> Option<AttemptId>
    ensures { result ≡ winner_in records.now task.now }
{
    for told in records {
        if let Some(winner) = success(told, task) {
            return Some(winner);
        }
    }
    None
}

// The attempt of which the record tells that it succeeded at the task.
fn success(told: &Record, task: &TaskId) -> Option<AttemptId>
    ensures { result ≡ success_of told.now task.now }
{
    match *told {
        Record::ReduceSucceeded { attempt, bytes: _ } => by_task(&attempt, task),
        _ => None,
    }
}

fn by_task(a: &AttemptId, task: &TaskId) -> Option<AttemptId>
    ensures { result ≡ (if same_task a.now.task task.now then Some a.now else None) }
{
    if is_same_task(&a.task(), task) {
        Some(*a)
    } else {
        None
    }
}

fn is_of_job(job: &JobId, tasks: u32, a: &AttemptId) -> bool
    ensures { result ≡ is_of_job job.now tasks a.now }
{
    let number = a.task().number;
    let task = TaskId {
        job: *job,
        kind: TaskKind::Reduce,
        number,
    };
    is_same_task(&a.task(), &task) && number < tasks
}

fn tells_start(a: &AttemptId, told: &Record) -> bool
    ensures { result ≡ tells_start a.now told.now }
{
    match *told {
        Record::AttemptStarted { attempt, node: _ } => is_same(a, &attempt),
        _ => false,
    }
}

fn tells_failure(a: &AttemptId, told: &Record) -> bool
    ensures { result ≡ tells_failure a.now told.now }
{
    match *told {
        Record::AttemptFailed { attempt } => is_same(a, &attempt),
        _ => false,
    }
}

fn tells_end(told: &Record) -> bool
    ensures { result ≡ tells_end told.now }
{
    match *told {
        Record::JobUnsuccessful => true,
        _ => false,
    }
}

fn is_same(a: &AttemptId, b: &AttemptId) -> bool
    ensures { result ≡ same_attempt a.now b.now }
{
    a == b
}

pub(crate) fn is_same_task(a: &TaskId, b: &TaskId) -> bool
    ensures { result ≡ same_task a.now b.now }
{
    a == b
}
