//! The words of marks.
ghost use Rattle.std.specs.Prelude.{◌≡◌, ◌++◌, ◌∷◌, IfOk, OnOk, decimal, filter};
ghost use Rattle.std.specs.List.{flat_map};
ghost use Rattle.mr_trace_marks.specs.Marks.{is_deciding};
ghost use Rattle.mr_trace_marks.specs.Words.{attempt_name, clause_text, joined, kind_word, sentence, sign_word, subject_name, verb};

use crate::mark::{Mark, Sign, Subject, is_deciding};
use itoa::Buffer;
use mr_ids::{AttemptId, TaskKind};
use std::alloc::{AllocError, Global};

/// What a mark says, in a word.
pub fn sign_word(sign: Sign) -> &'static str
    ensures { result.now ≡ sign_word sign }
{
    match sign {
        Sign::Launched => "launched",
        Sign::Allowed => "allowed",
        Sign::Denied => "denied",
        Sign::Committed => "committed",
        Sign::Recorded => "recorded",
        Sign::Won => "won",
        Sign::Lost => "lost",
        Sign::Refused => "refused",
        Sign::Barred => "barred",
        Sign::Failed => "failed",
        Sign::Killed => "killed",
        Sign::Died => "died",
        Sign::Restarted => "ended with its node",
        Sign::GivenUp => "given up",
        Sign::Superseded => "superseded",
        Sign::Ended => "ended",
        Sign::Starts => "starts",
        Sign::Crashes => "crashes",
        Sign::Stops => "stops",
        Sign::Begins => "begins the job commit",
        Sign::Publishes => "publishes",
        Sign::Completes => "completes",
        Sign::Restarts => "restarts",
        Sign::Leaves => "is given up",
        Sign::Succeeds => "succeeded",
        Sign::Fails => "failed",
    }
}

// The same behind the subject of a sentence.
fn verb(sign: Sign) -> &'static str
    ensures { result.now ≡ verb sign }
{
    match sign {
        Sign::Launched => " is launched.",
        Sign::Allowed => " hears that it may commit.",
        Sign::Denied => " hears that it may not commit.",
        Sign::Committed => {
            " commits: its output takes the place of the task's. This alone does not make it the winner."
        }
        Sign::Recorded => {
            " is recorded as done. That is not stable yet: a crash can still lose it."
        }
        Sign::Won => " is the winner from now on: its success is stable.",
        Sign::Lost => " loses its success, which was recorded and not stable.",
        Sign::Refused => " makes a store call, which is refused.",
        Sign::Barred => " is barred from the store.",
        Sign::Failed => " gives up, and reports that it failed.",
        Sign::Killed => " is killed.",
        Sign::Died => " dies.",
        Sign::Restarted => " ends with its node.",
        Sign::GivenUp => " is given up with its node, and may still run.",
        Sign::Superseded => " is superseded: a newer master starts.",
        Sign::Ended => " ends.",
        Sign::Starts => " starts.",
        Sign::Crashes => " crashes.",
        Sign::Stops => " stops: a call of it was refused, or its answer was lost.",
        Sign::Begins => " begins the job commit.",
        Sign::Publishes => " moves a part file into the destination.",
        Sign::Completes => " makes _SUCCESS.",
        Sign::Restarts => " restarts: its containers end, and its map outputs are gone.",
        Sign::Leaves => " is given up, and may still run.",
        Sign::Succeeds => " is reported succeeded.",
        Sign::Fails => " is reported failed.",
    }
}

/// A word, and a number behind it.
pub fn put_number(out: &mut Vec<u8>, word: &str, number: u64) -> Result<(), AllocError>
    ensures { OnOk result (out.new.items ≡ out.old.items ++ word.now ++ decimal number) }
{
    let mut buffer = Buffer::new();
    out.extend_from_slice(word.as_bytes())?;
    out.extend_from_slice(buffer.format(number).as_bytes())
}

fn kind_word(kind: TaskKind) -> &'static str
    ensures { result.now ≡ kind_word kind }
{
    match kind {
        TaskKind::Map => "Map ",
        TaskKind::Reduce => "Reduce ",
    }
}

// An attempt by its task and its number.
fn put_attempt(out: &mut Vec<u8>, attempt: &AttemptId) -> Result<(), AllocError>
    ensures { OnOk result (out.new.items ≡ out.old.items ++ attempt_name attempt.now) }
{
    let task = attempt.task();
    put_number(out, kind_word(task.kind), u64::from(task.number))?;
    put_number(out, " attempt ", u64::from(attempt.number()))
}

/// The subject of a sentence, as `Reduce 0 attempt 0`.
pub fn put_subject(out: &mut Vec<u8>, subject: &Subject) -> Result<(), AllocError>
    ensures { OnOk result (out.new.items ≡ out.old.items ++ subject_name subject.now) }
{
    match subject {
        Subject::Attempt(attempt) => put_attempt(out, attempt),
        Subject::Master(k) => put_number(out, "Master ", u64::from(*k)),
        Subject::Node(n) => put_number(out, "Node ", u64::from(*n)),
        Subject::Job => out.extend_from_slice(b"The job"),
    }
}

fn put_clause(out: &mut Vec<u8>, mark: &Mark) -> Result<(), AllocError>
    ensures { OnOk result (out.new.items ≡ out.old.items ++ clause_text mark.now) }
{
    put_subject(out, &mark.subject)?;
    out.extend_from_slice(verb(mark.sign).as_bytes())
}

fn put_next(out: &mut Vec<u8>, mark: &Mark) -> Result<(), AllocError>
    ensures { OnOk result (out.new.items ≡ out.old.items ++ 32 ∷ clause_text mark.now) }
{
    out.extend_from_slice(b" ")?;
    put_clause(out, mark)
}

fn put_rest(out: &mut Vec<u8>, marks: &[Mark]) -> Result<(), AllocError>
    ensures { OnOk result (out.new.items ≡ out.old.items ++ flat_map (λ m. 32 ∷ clause_text m) marks.now) }
{
    for mark in marks {
        put_next(out, mark)?;
    }
    Ok(())
}

/// Those of these marks that decide something.
pub fn deciding(alloc: Global, marks: &[Mark]) -> Result<Vec<Mark>, AllocError>
    ensures { IfOk result (λ all. all.items ≡ filter is_deciding marks.now) }
{
    let mut all = Vec::new(alloc);
    for mark in marks {
        if is_deciding(mark) {
            all.push(*mark)?;
        }
    }
    Ok(all)
}

/// A sentence for each of these marks, with a space between them.
pub fn put_sentences(out: &mut Vec<u8>, marks: &[Mark]) -> Result<(), AllocError>
    ensures { OnOk result (out.new.items ≡ out.old.items ++ joined marks.now) }
{
    match marks.split_first() {
        Some((first, rest)) => {
            put_clause(out, first)?;
            put_rest(out, rest)
        }
        None => Ok(()),
    }
}
