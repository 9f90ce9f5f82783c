//! The words of fates.
ghost use Rattle.std.specs.Prelude.{◌≡◌, ◌++◌, OnOk};
ghost use Rattle.mr_trace_marks.specs.Words.{aside, at_event, at_place, commit_at, committed_at, ending, fate_word, had_committed, lead, reason, recorded_at, recorded_before, was_recorded};

use crate::fate::{Fate, event_of, place_of};
use crate::mark::{Mark, Sign};
use crate::words::put_number;
use mr_ids::AttemptId;
use std::alloc::AllocError;

/// A fate in a word.
pub fn fate_word(fate: Fate) -> &'static str
    ensures { result.now ≡ fate_word fate }
{
    match fate {
        Fate::Won => "won",
        Fate::Lost => "lost",
        Fate::Failed => "failed",
        Fate::Died => "died",
        Fate::Restarted => "ended with its node",
        Fate::GivenUp => "given up",
        Fate::Killed => "killed",
        Fate::Undecided => "undecided",
        Fate::Refused => "refused",
        Fate::Superseded => "superseded",
        Fate::Unfinished => "unfinished",
    }
}

// How a reason begins, in front of the event that decided it.
fn lead(fate: Fate) -> &'static str
    ensures { result.now ≡ lead fate }
{
    match fate {
        Fate::Won => "Its success was the first of its reduce to be stable",
        Fate::Lost => ", and lost before it was stable",
        Fate::Failed => "It reported that it failed",
        Fate::Died => "Its container died",
        Fate::Restarted => "Its node restarted",
        Fate::GivenUp => "Its node was given up",
        Fate::Killed => "It was killed",
        Fate::Undecided => "Its success was recorded",
        Fate::Refused => "A store call of it was refused",
        Fate::Superseded => "A newer master started",
        Fate::Unfinished => "The run ends before it is done",
    }
}

// And how it ends.
fn ending(fate: Fate) -> &'static str
    ensures { result.now ≡ ending fate }
{
    match fate {
        Fate::Won => ".",
        Fate::Lost => ".",
        Fate::Failed => ".",
        Fate::Died => ".",
        Fate::Restarted => ".",
        Fate::GivenUp => ": nothing that it does later counts.",
        Fate::Killed => ".",
        Fate::Undecided => ", and is not stable where the run ends.",
        Fate::Refused => ".",
        Fate::Superseded => ": nothing that it does later counts.",
        Fate::Unfinished => ".",
    }
}

// An event in brackets, if there is one.
fn put_event(out: &mut Vec<u8>, place: Option<u64>) -> Result<(), AllocError>
    ensures { OnOk result (out.new.items ≡ out.old.items ++ at_event place) }
{
    match place {
        Some(place) => put_place(out, place),
        None => Ok(()),
    }
}

// Words, and an event in brackets behind them, if there is one.
fn put_words(out: &mut Vec<u8>, words: &str, place: Option<u64>) -> Result<(), AllocError>
    ensures { OnOk result (out.new.items ≡ out.old.items ++ words.now ++ at_event place) }
{
    out.extend_from_slice(words.as_bytes())?;
    put_event(out, place)
}

// The event of this place, in brackets.
#[tactic(auto, unfolding(crate::specs::Words::at_place))]
fn put_place(out: &mut Vec<u8>, place: u64) -> Result<(), AllocError>
    ensures { OnOk result (out.new.items ≡ out.old.items ++ at_place place) }
{
    put_number(out, " (event ", place)?;
    out.extend_from_slice(b")")
}

fn put_recorded_at(out: &mut Vec<u8>, place: Option<u64>) -> Result<(), AllocError>
    ensures { OnOk result (out.new.items ≡ out.old.items ++ recorded_at place) }
{
    put_words(out, "Its success was recorded", place)
}

// Of what was lost, when it was recorded.
fn put_recorded(
    out: &mut Vec<u8>,
    marks: &[Mark],
    attempt: &AttemptId,
    fate: Fate,
) -> Result<(), AllocError>
    ensures { OnOk result (out.new.items ≡ out.old.items ++ recorded_before marks.now attempt.now fate) }
{
    match fate {
        Fate::Lost => put_recorded_at(out, place_of(marks, attempt, Sign::Recorded)),
        Fate::Won
        | Fate::Failed
        | Fate::Died
        | Fate::Restarted
        | Fate::GivenUp
        | Fate::Killed
        | Fate::Undecided
        | Fate::Refused
        | Fate::Superseded
        | Fate::Unfinished => Ok(()),
    }
}

// Whether the success of an attempt with this fate was recorded.
fn was_recorded(fate: Fate) -> bool
    ensures { result ≡ was_recorded fate }
{
    match fate {
        Fate::Won | Fate::Lost | Fate::Undecided => true,
        Fate::Failed
        | Fate::Died
        | Fate::Restarted
        | Fate::GivenUp
        | Fate::Killed
        | Fate::Refused
        | Fate::Superseded
        | Fate::Unfinished => false,
    }
}

fn put_committed(out: &mut Vec<u8>, place: Option<u64>) -> Result<(), AllocError>
    ensures { OnOk result (out.new.items ≡ out.old.items ++ committed_at place) }
{
    match place {
        Some(_) => put_had_committed(out, place),
        None => Ok(()),
    }
}

fn put_commit(out: &mut Vec<u8>, place: Option<u64>) -> Result<(), AllocError>
    ensures { OnOk result (out.new.items ≡ out.old.items ++ commit_at place) }
{
    put_words(out, " It had committed", place)
}

fn put_had_committed(out: &mut Vec<u8>, place: Option<u64>) -> Result<(), AllocError>
    ensures { OnOk result (out.new.items ≡ out.old.items ++ had_committed place) }
{
    put_commit(out, place)?;
    out.extend_from_slice(b", which alone does not count.")
}

// That an attempt had committed, where its success was not recorded.
fn put_aside(
    out: &mut Vec<u8>,
    marks: &[Mark],
    attempt: &AttemptId,
    fate: Fate,
) -> Result<(), AllocError>
    ensures { OnOk result (out.new.items ≡ out.old.items ++ aside marks.now attempt.now fate) }
{
    if was_recorded(fate) {
        Ok(())
    } else {
        put_committed(out, place_of(marks, attempt, Sign::Committed))
    }
}

/// Why an attempt has this fate, in sentences that name the events.
pub fn put_reason(
    out: &mut Vec<u8>,
    marks: &[Mark],
    attempt: &AttemptId,
    fate: Fate,
) -> Result<(), AllocError>
    ensures { OnOk result (out.new.items ≡ out.old.items ++ reason marks.now attempt.now fate) }
{
    put_recorded(out, marks, attempt, fate)?;
    out.extend_from_slice(lead(fate).as_bytes())?;
    put_event(out, event_of(marks, attempt, fate))?;
    out.extend_from_slice(ending(fate).as_bytes())?;
    put_aside(out, marks, attempt, fate)
}
