//! `explore` with a goal: the job has to have each reduce that the goal names, and each attempt has to be one of it.
ghost use Rattle.std.specs.Prelude.{◌≡◌, true, IfOk, IfErr, OnOk};
ghost use Rattle.std.specs.List.{list_all};
ghost use Rattle.std.specs.Option.{option_map};
ghost use Rattle.mr_trace.specs.mr_play.specs.Text.{job_line};
ghost use Rattle.mr_ids.specs.Same.{same_task};
ghost use Rattle.mr_ids.specs.declared.id.TaskKind.TheVariants.{Reduce};
ghost use Rattle.mr_sim.specs.Goals.{GoalFails, MergedSoughtFails, Names, PrintsMergedSought, PrintsSought, SoughtFails, can_be, can_meet, may_win};

use mr_explore::{Asked, Unwatched, Watch, explore_output};
use mr_explore_merged::{Question, merged_by_threads, merged_output};
use mr_explore_threads::explore_by_threads;
use mr_ids::{AttemptId, JobId, TaskId, TaskKind};
use mr_script::{Expectation, split_once};
use mr_sim_commands::{Printed, SimFault, read_job_text};
use std::alloc::Global;
use std::thread::Threads;

/// What `explore` prints of an input, with the faults of `explore_output`. Before all of them but those of the job text comes `Refused`: the goal names
/// a reduce that the job does not have, or an attempt of another task, so no end can meet it.
#[tactic(auto, using(crate::proofs::Sought::fails_goal, crate::proofs::Sought::fails_sought))]
pub(crate) fn explored(alloc: Global, input: &[u8], asked: &Asked<'_>) -> Result<Printed, SimFault>
    ensures ok { IfOk result (λ v. PrintsSought asked.now input.now v.text.items) }
    ensures met { IfOk result (λ v. v.met ≡ true) }
    ensures fault { IfErr result (SoughtFails asked.now input.now) }
{
    check_goal(alloc, input, asked.goal)?;
    explore_output(alloc, input, asked, &Unwatched)
}

/// The same, by so many threads.
#[tactic(auto, using(crate::proofs::Sought::fails_goal, crate::proofs::Sought::fails_sought))]
pub(crate) fn explored_by_threads<R: Threads + Sync, W: Watch>(
    rt: &R,
    alloc: Global,
    threads: usize,
    input: &[u8],
    asked: &Asked<'_>,
    watch: &W,
) -> Result<Printed, SimFault>
    ensures ok { IfOk result (λ v. PrintsSought asked.now input.now v.text.items) }
    ensures met { IfOk result (λ v. v.met ≡ true) }
    ensures fault { IfErr result (SoughtFails asked.now input.now) }
{
    check_goal(alloc, input, asked.goal)?;
    explore_by_threads(rt, alloc, threads, input, asked, watch)
}

/// What `explore --merge` prints of an input, with the faults of `merged_output`. Before all of them but those of the job text comes `Refused`, as of `explored`.
#[tactic(auto, using(crate::proofs::Sought::merged_goal, crate::proofs::Sought::merged_sought))]
pub(crate) fn merged(alloc: Global, input: &[u8], asked: &Question<'_>) -> Result<Printed, SimFault>
    ensures ok { IfOk result (λ v. PrintsMergedSought asked.now input.now v.text.items) }
    ensures met { IfOk result (λ v. v.met ≡ true) }
    ensures fault { IfErr result (MergedSoughtFails asked.now input.now) }
{
    check_goal(alloc, input, asked.goal)?;
    merged_output(alloc, input, asked, &Unwatched)
}

/// The same, by so many threads.
#[tactic(auto, using(crate::proofs::Sought::merged_goal, crate::proofs::Sought::merged_sought))]
pub(crate) fn merged_with<R: Threads + Sync, W: Watch>(
    rt: &R,
    alloc: Global,
    threads: usize,
    input: &[u8],
    asked: &Question<'_>,
    watch: &W,
) -> Result<Printed, SimFault>
    ensures ok { IfOk result (λ v. PrintsMergedSought asked.now input.now v.text.items) }
    ensures met { IfOk result (λ v. v.met ≡ true) }
    ensures fault { IfErr result (MergedSoughtFails asked.now input.now) }
{
    check_goal(alloc, input, asked.goal)?;
    merged_by_threads(rt, alloc, threads, input, asked, watch)
}

// Refuses a goal that names a reduce which the job does not have, or an attempt of another task.
#[tactic(auto, using(crate::proofs::Sought::bad_text, crate::proofs::Sought::names))]
fn check_goal(alloc: Global, input: &[u8], goal: Option<&[Expectation]>) -> Result<(), SimFault>
    ensures ok { OnOk result (Names (option_map (λ g. g.now) goal.entry) input.now true) }
    ensures fault { IfErr result (GoalFails (option_map (λ g. g.now) goal.entry) input.now) }
{
    let job = job_line(input);
    let submission = read_job_text(alloc, job)?;
    let are_there = can_meet(submission.id, submission.reduces, goal);
    drop(submission);
    if are_there {
        Ok(())
    } else {
        Err(SimFault::Refused)
    }
}

// The job text of an input: its first line.
fn job_line(input: &[u8]) -> &[u8]
    ensures { result.now ≡ job_line input.now }
{
    match split_once(input, b'\n') {
        Some((job, _)) => job,
        None => input,
    }
}

// Whether a job with this many reduces has each reduce that the goal names, and each attempt is one of it.
fn can_meet(job: JobId, reduces: u32, goal: Option<&[Expectation]>) -> bool
    ensures { result ≡ can_meet job reduces (option_map (λ g. g.now) goal.entry) }
{
    match goal {
        Some(goal) => can_be_each(job, reduces, goal),
        None => true,
    }
}

fn can_be_each(job: JobId, reduces: u32, goal: &[Expectation]) -> bool
    ensures { result ≡ list_all (can_be job reduces) goal.now }
{
    goal.iter().all(|line| can_be(job, reduces, line))
}

/// Whether a job with this many reduces has the reduce that the line names, and the attempt is one of it.
pub(crate) fn can_be(job: JobId, reduces: u32, line: &Expectation) -> bool
    ensures { result ≡ can_be job reduces line.now }
{
    match line {
        Expectation::Winner(reduce, won) => *reduce < reduces && may_win(job, *reduce, won),
        Expectation::Marker(_) | Expectation::Outcome(_) => true,
    }
}

// Whether the attempt is one of this reduce of the job, if one is named.
fn may_win(job: JobId, reduce: u32, won: &Option<AttemptId>) -> bool
    ensures { result ≡ may_win job reduce won.now }
{
    match won {
        Some(attempt) => are_one_task(&attempt.task(), &reduce_of(job, reduce)),
        None => true,
    }
}

/// The reduce of this number of a job.
pub(crate) fn reduce_of(job: JobId, number: u32) -> TaskId
    ensures { result ≡ record { job = job; kind = Reduce; number = number } }
{
    TaskId {
        job,
        kind: TaskKind::Reduce,
        number,
    }
}

fn are_one_task(task: &TaskId, other: &TaskId) -> bool
    ensures { result ≡ same_task task.now other.now }
{
    task == other
}
