//! How a job stands by its log, kept up entry by entry.
ghost use Rattle.std.specs.Prelude.{ℕ, Option, ◌≡◌, ◌<◌, ◌++◌, ◌∷◌, [], ◌&&◌, not, ◌||◌, IfOk, OnOk, length, slice_index_or, if◌then◌else◌};
ghost use Rattle.std.specs.List.{list_any, filter};
ghost use Rattle.mr_log_entries.specs.Recorded.{lines_of};
ghost use Rattle.mr_log_standing.specs.Standing.{task_of, is_of_job, winner_of, has_winner, failures, is_over, is_released, is_published, unwon, against, standing, next_attempt, begun_in, win_of, ends_job, releases, is_publication};
ghost use Rattle.mr_log_standing.specs.Front.{Front};
ghost use Rattle.mr_log_standing.specs.inner.Notes.{note, notes_by, notes_at, task_in};
ghost use Rattle.mr_log_standing.specs.inner.Kept.{HasNoted, number_in};

use crate::job::Job;
use crate::notes::{self, Note, Notes};
use crate::standing::{Standing, Win};
use mr_ids::{AttemptId, JobId, TaskId, TaskKind};
use mr_log_entries::{Entries, Entry, Line, Origin};
use std::alloc::{AllocError, Global};
use std::marker::Model;

/// How a job stands by a front of its log. Each question is answered from what is kept of one task,
/// without a walk over all lines.
pub struct Standings {
    job: Job,
    entries: Entries,
    tasks: Vec<Notes>,
    over: bool,
    released: bool,
    published: bool,
}

// Written by hand, so that the check takes the drop of standings as one call.
impl Drop for Standings {
    fn drop(self) {
        let Standings {
            job: _,
            entries: _,
            tasks: _,
            over: _,
            released: _,
            published: _,
        } = self;
    }
}

impl Model for Standings {
    ghost use Rattle.mr_log_standing.specs.Front.{Front};
    ghost use Rattle.mr_log_standing.specs.inner.Kept.{AreKept};

    ghost Value = { Front };

    ghost view = { λ s. record { job = s.job; entries = s.entries } };

    ghost invariant = { λ s. AreKept s.job s.entries s.tasks.items s.over s.released s.published };
}

impl Standings {
    /// A job of which nothing is recorded. Memory may be refused.
    pub fn new(alloc: Global, job: Job) -> Result<Standings, AllocError>
        ensures { IfOk result (λ s. s ≡ record { job = job; entries = [] }) }
    {
        let tasks = no_notes(alloc, job.tasks)?;
        Ok(Standings {
            job,
            entries: Entries::new(alloc),
            tasks,
            over: false,
            released: false,
            published: false,
        })
    }

    /// The next entry of the log is read. Where memory is refused, the standings are let go.
    pub fn take(self, entry: Entry) -> Result<Standings, AllocError>
        ensures { IfOk result (λ s.
            s ≡ record { job = self.job; entries = self.entries ++ entry ∷ [] }) }
    {
        let Standings {
            job,
            mut entries,
            mut tasks,
            over,
            released,
            published,
        } = self;
        note_all(job.id, &mut tasks, &entry)?;
        let lines = entry.lines.as_slice();
        let over = either(over, any_ends(lines));
        let released = either(released, any_releases(lines));
        let published = either(published, any_publication(lines));
        entries.push(entry)?;
        Ok(Standings {
            job,
            entries,
            tasks,
            over,
            released,
            published,
        })
    }

    /// The numbers of the job.
    pub fn job(&self) -> Job
        ensures { result ≡ self.now.job }
    {
        self.job
    }

    /// Whether the job was ended as failed.
    pub fn is_over(&self) -> bool
        ensures { result ≡ is_over (lines_of self.now.entries) }
    {
        self.over
    }

    /// Whether it was decided to publish a held job.
    pub fn is_released(&self) -> bool
        ensures { result ≡ is_released (lines_of self.now.entries) }
    {
        self.released
    }

    /// Whether the job is published for good.
    pub fn is_published(&self) -> bool
        ensures { result ≡ is_published (lines_of self.now.entries) }
    {
        self.published
    }

    // The lines about the task with this number.
    pub(crate) fn notes(&self, n: u32) -> &[Note]
        requires { n < self.now.job.tasks }
        ensures { result.now ≡ notes_at self.now.job.id self.now.entries n }
    {
        self.tasks[n as usize].as_slice()
    }

    pub(crate) fn task(&self, n: u32) -> TaskId
        ensures { result ≡ task_of self.now.job.id n }
    {
        TaskId {
            job: self.job.id,
            kind: TaskKind::Reduce,
            number: n,
        }
    }

    /// The winner of the task with this number, and what it handed in.
    #[tactic(auto, using(crate::proofs::Asked::win_is))]
    pub fn win(&self, n: u32) -> Option<Win>
        requires { n < self.now.job.tasks }
        ensures { result ≡ win_of self.now.entries (task_of self.now.job.id n) }
    {
        let task = self.task(n);
        notes::win(self.notes(n), &task)
    }
}

// So many tasks about which nothing is recorded.
fn no_notes(alloc: Global, count: u32) -> Result<Vec<Notes>, AllocError>
    ensures count { IfOk result (λ tasks. length tasks.items ≡ count) }
    ensures empty { IfOk result (λ tasks. (k : ℕ) → slice_index_or tasks.items k [] ≡ []) }
{
    let mut tasks = Vec::with_capacity(alloc, count as usize)?;
    for _ in 0..count {
        tasks.push(Notes::new(alloc))?;
    }
    Ok(tasks)
}

// The lines of the entry are kept, each with its task.
fn note_all(job: JobId, tasks: &mut Vec<Notes>, entry: &Entry) -> Result<(), AllocError>
    ensures { OnOk result (HasNoted job (notes_by entry.now.origin entry.now.lines)
        tasks.old.items tasks.new.items) }
{
    let lines = entry.lines.as_slice();
    for item in lines {
        note_one(job, tasks, *item, entry.origin)?;
    }
    Ok(())
}

fn note_one(
    job: JobId,
    tasks: &mut Vec<Notes>,
    line: Line,
    origin: Origin,
) -> Result<(), AllocError>
    ensures { OnOk result (HasNoted job (note origin line ∷ []) tasks.old.items tasks.new.items) }
{
    match number_in(&job, tasks.len(), &line) {
        None => Ok(()),
        Some(n) => tasks[n].push(line, origin),
    }
}

fn number_in(job: &JobId, count: usize, line: &Line) -> Option<usize>
    ensures { result ≡ number_in job.now count (task_in line.now) }
{
    match notes::task_in(line) {
        None => None,
        Some(task) => number_of(job, count, &task),
    }
}

fn number_of(job: &JobId, count: usize, task: &TaskId) -> Option<usize>
    ensures { result ≡ number_in job.now count (Option.Some task.now) }
{
    let number = task.number;
    let own = TaskId {
        job: *job,
        kind: TaskKind::Reduce,
        number,
    };
    if (number as usize) < count && notes::is_same_task(task, &own) {
        Some(number as usize)
    } else {
        None
    }
}

fn either(before: bool, now: bool) -> bool
    ensures { result ≡ (before || now) }
{
    before || now
}

fn any_ends(lines: &[Line]) -> bool
    ensures { result ≡ list_any ends_job lines.now }
{
    lines.iter().any(|line| ends_job(line))
}

fn any_releases(lines: &[Line]) -> bool
    ensures { result ≡ list_any releases lines.now }
{
    lines.iter().any(|line| releases(line))
}

fn any_publication(lines: &[Line]) -> bool
    ensures { result ≡ list_any is_publication lines.now }
{
    lines.iter().any(|line| is_publication(line))
}

fn ends_job(line: &Line) -> bool
    ensures { result ≡ ends_job line.now }
{
    match *line {
        Line::Unsuccessful => true,
        _ => false,
    }
}

fn releases(line: &Line) -> bool
    ensures { result ≡ releases line.now }
{
    match *line {
        Line::Publish => true,
        _ => false,
    }
}

fn is_publication(line: &Line) -> bool
    ensures { result ≡ is_publication line.now }
{
    match *line {
        Line::Published => true,
        _ => false,
    }
}
