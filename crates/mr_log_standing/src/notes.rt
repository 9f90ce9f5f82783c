//! The lines about one task, in their order, each with where it came from.
ghost use Rattle.std.specs.Prelude.{ℕ, ◌≡◌, ◌++◌, ◌∷◌, [], OnOk, OnErr, count_by, if◌then◌else◌, Some, None};
ghost use Rattle.std.specs.List.{list_any};
ghost use Rattle.mr_ids.specs.Same.{same_attempt, same_task};
ghost use Rattle.mr_log_standing.specs.Standing.{is_start_of, gives_up, start_at, is_start_at, is_failure_at, win_by};
ghost use Rattle.mr_log_standing.specs.inner.Notes.{note, task_in, is_at, is_about, notes_start, notes_giving_up, notes_start_at, notes_failure_at, start_in, win_in, boot_in, first_in};

use crate::standing::Win;
use mr_ids::{AttemptId, TaskId};
use mr_log_entries::{Line, Origin};
use std::alloc::{AllocError, Global};
use std::marker::Model;

/// A line, and where it came from.
#[derive(Clone, Copy, Debug, PartialEq, Eq)]
pub struct Note {
    pub line: Line,
    pub origin: Origin,
}

/// Lines in their order.
#[derive(Drop)]
pub struct Notes {
    items: Vec<Note>,
}

impl Model for Notes {
    ghost use Rattle.std.specs.Prelude.{List};
    ghost use Rattle.mr_log_standing.specs.declared.notes.Note.{Note};

    ghost Value = { List Note };

    ghost view = { λ r. r.items.items };
}

impl Notes {
    /// None.
    pub fn new(alloc: Global) -> Notes
        ensures { result ≡ [] }
    {
        Notes {
            items: Vec::new(alloc),
        }
    }

    /// Adds a line at the end.
    pub fn push(&mut self, line: Line, origin: Origin) -> Result<(), AllocError>
        ensures ok { OnOk result (self.new ≡ self.old ++ note origin line ∷ []) }
        ensures err { OnErr result (self.new ≡ self.old) }
    {
        self.items.push(Note { line, origin })?;
        Ok(())
    }

    /// All of them.
    pub fn as_slice(&self) -> &[Note]
        ensures { result.now ≡ self.now }
    {
        &self.items
    }
}

/// The task that a line is about.
pub fn task_in(line: &Line) -> Option<TaskId>
    ensures { result ≡ task_in line.now }
{
    match *line {
        Line::Started(a) => Some(a.task()),
        Line::Won { attempt, handed: _ } => Some(attempt.task()),
        Line::Failed(a) => Some(a.task()),
        Line::Interrupted(a) => Some(a.task()),
        Line::Unsuccessful | Line::Publish | Line::Published => None,
    }
}

/// The winner of the task, and what it handed in.
pub fn win(notes: &[Note], task: &TaskId) -> Option<Win>
    ensures { result ≡ first_in Win (win_in task.now) notes.now }
{
    for item in notes {
        if let Some(win) = win_in(task, item) {
            return Some(win);
        }
    }
    None
}

fn win_in(task: &TaskId, note: &Note) -> Option<Win>
    ensures { result ≡ win_in task.now note.now }
{
    match note.line {
        Line::Won { attempt, handed } => {
            if is_same_task(&attempt.task(), task) {
                Some(Win {
                    attempt,
                    handed,
                    id: note.origin.id,
                })
            } else {
                None
            }
        }
        _ => None,
    }
}

/// The boot in which the attempt was begun.
pub fn begun_in(notes: &[Note], a: &AttemptId) -> Option<u64>
    ensures { result ≡ first_in ℕ (boot_in a.now) notes.now }
{
    for item in notes {
        if let Some(boot) = boot_in(a, item) {
            return Some(boot);
        }
    }
    None
}

fn boot_in(a: &AttemptId, note: &Note) -> Option<u64>
    ensures { result ≡ boot_in a.now note.now }
{
    if notes_start(a, note) {
        Some(note.origin.boot)
    } else {
        None
    }
}

/// Whether the attempt was started.
pub fn has_started(notes: &[Note], a: &AttemptId) -> bool
    ensures { result ≡ list_any (notes_start a.now) notes.now }
{
    notes.iter().any(|note| notes_start(a, note))
}

/// Whether the attempt was given up.
pub fn has_given_up(notes: &[Note], a: &AttemptId) -> bool
    ensures { result ≡ list_any (notes_giving_up a.now) notes.now }
{
    notes.iter().any(|note| notes_giving_up(a, note))
}

/// How many attempts were started at the task.
pub fn starts_at(notes: &[Note], task: &TaskId) -> usize
    ensures { result ≡ count_by (notes_start_at task.now) notes.now }
{
    notes
        .iter()
        .filter(|note| notes_start_at(task, note))
        .count()
}

/// How often the task has failed.
pub fn failures_at(notes: &[Note], task: &TaskId) -> usize
    ensures { result ≡ count_by (notes_failure_at task.now) notes.now }
{
    notes
        .iter()
        .filter(|note| notes_failure_at(task, note))
        .count()
}

/// The attempt that the line starts at the task.
pub fn start_in(task: &TaskId, note: &Note) -> Option<AttemptId>
    ensures { result ≡ start_in task.now note.now }
{
    match note.line {
        Line::Started(a) => if_at(task, &a),
        _ => None,
    }
}

fn if_at(task: &TaskId, a: &AttemptId) -> Option<AttemptId>
    ensures { result ≡ (if same_task a.now.task task.now then Some a.now else None) }
{
    if is_same_task(&a.task(), task) {
        Some(*a)
    } else {
        None
    }
}

fn notes_start(a: &AttemptId, note: &Note) -> bool
    ensures { result ≡ notes_start a.now note.now }
{
    match note.line {
        Line::Started(b) => is_same(a, &b),
        _ => false,
    }
}

fn notes_giving_up(a: &AttemptId, note: &Note) -> bool
    ensures { result ≡ notes_giving_up a.now note.now }
{
    match note.line {
        Line::Failed(b) => is_same(a, &b),
        Line::Interrupted(b) => is_same(a, &b),
        _ => false,
    }
}

fn notes_start_at(task: &TaskId, note: &Note) -> bool
    ensures { result ≡ notes_start_at task.now note.now }
{
    start_in(task, note).is_some()
}

fn notes_failure_at(task: &TaskId, note: &Note) -> bool
    ensures { result ≡ notes_failure_at task.now note.now }
{
    match note.line {
        Line::Failed(a) => is_same_task(&a.task(), task),
        _ => false,
    }
}

/// Whether two attempts are one.
pub fn is_same(a: &AttemptId, b: &AttemptId) -> bool
    ensures { result ≡ same_attempt a.now b.now }
{
    a == b
}

/// Whether two tasks are one.
pub fn is_same_task(a: &TaskId, b: &TaskId) -> bool
    ensures { result ≡ same_task a.now b.now }
{
    a == b
}
