//! One line of a store's trace.
ghost use Rattle.std.specs.Prelude.{◌≡◌, ◌∷◌, ℕ, List, Option, IfOk, IfSome, IfNone, IfErr, decimal};
ghost use Rattle.mr_ids.specs.Attempt.{Attempt};
ghost use Rattle.mr_script.specs.Lines.{AreLines, IsNoLine, lines_of};
ghost use Rattle.mr_script.specs.Script.{IsGeneration};
ghost use Rattle.mr_script.specs.ScriptFault.{IsScriptFault};
ghost use Rattle.mr_judge.specs.declared.line.Told.TheVariants.{Raised};
ghost use Rattle.mr_judge.specs.Trace.{IsLine, IsWho, who_word};
ghost use Rattle.mr_judge.specs.inner.Reading.{ReadsAnswered, ReadsCalled, ReadsSaid, ReadsTold};

use mr_call_words::call_in;
use mr_ids::{AppAttempt, AttemptId, Bytes};
use mr_names::{Caller, Op};
use mr_script::{Language, ScriptFault, attempt, generation, script_in, split_once};
use std::alloc::{AllocError, Global};

/// One line of a store's trace.
#[derive(Drop)]
pub enum Told {
    /// The fence is raised to this generation.
    Raised(AppAttempt),
    /// A call was made.
    Called {
        /// Who made it.
        caller: Caller,
        /// Which call it was.
        call: Op,
        /// The words of its answer.
        answer: Bytes,
    },
}

// The language of a store's trace.
#[derive(Drop)]
struct StoreTrace;

impl Language for StoreTrace {
    type Command = Told;

    ghost is_line = { λ _. IsLine };

    fn command_in(&self, alloc: Global, line: &[u8]) -> Result<Option<Told>, AllocError> {
        told_in(alloc, line)
    }
}

/// The lines of a trace, each with its number.
pub fn trace_of(alloc: Global, bytes: &[u8]) -> Result<Vec<(usize, Told)>, ScriptFault>
    ensures ok { IfOk result (λ v. AreLines IsLine 1 (lines_of bytes.now) v.items) }
    ensures bad { IfErr result (IsScriptFault IsLine 1 bytes.now) }
{
    script_in(alloc, &StoreTrace, bytes, 1)
}

// What the line tells.
fn told_in(alloc: Global, line: &[u8]) -> Result<Option<Told>, AllocError>
    ensures some { IfOk result (λ r. IfSome r (IsLine line.now)) }
    ensures none { IfOk result (λ r. IfNone r (IsNoLine IsLine line.now)) }
{
    match split_once(line, b' ') {
        Some((word, rest)) => told_of(alloc, word, rest),
        None => Ok(None),
    }
}

// What a first word and the rest behind it tell.
fn told_of(alloc: Global, word: &[u8], rest: &[u8]) -> Result<Option<Told>, AllocError>
    ensures { IfOk result (λ r. ReadsTold word.now rest.now r) }
{
    if word == b"raise".as_slice() {
        return Ok(raised_in(rest));
    }
    match generation(word) {
        Some(app) => called_in(alloc, app, rest),
        None => Ok(None),
    }
}

// The fence that is raised to this generation.
fn raised_in(word: &[u8]) -> Option<Told>
    ensures some { IfSome result (λ told. (k : ℕ) × IsGeneration k × (word.now ≡ decimal k) × (told ≡ Raised k)) }
    ensures none { IfNone result ((k : ℕ) → IsGeneration k → word.now ≡ decimal k → ⊥) }
{
    match generation(word) {
        Some(k) => Some(Told::Raised(k)),
        None => None,
    }
}

// The call of a caller of this generation, with its answer.
fn called_in(alloc: Global, app: AppAttempt, rest: &[u8]) -> Result<Option<Told>, AllocError>
    ensures { IfOk result (λ r. ReadsCalled app rest.now r) }
{
    match split_once(rest, b' ') {
        Some((word, behind)) => match who_in(word) {
            Some(attempt) => said_by(alloc, Caller { app, attempt }, behind),
            None => Ok(None),
        },
        None => Ok(None),
    }
}

// The call of this caller, with its answer.
fn said_by(alloc: Global, caller: Caller, behind: &[u8]) -> Result<Option<Told>, AllocError>
    ensures { IfOk result (λ r. ReadsSaid caller behind.now r) }
{
    match split_once(behind, b':') {
        Some((call, last)) => match behind_space(last) {
            Some(answer) => answered(alloc, caller, call, answer),
            None => Ok(None),
        },
        None => Ok(None),
    }
}

// What stands behind the first byte, if that is a space.
fn behind_space(text: &[u8]) -> Option<&[u8]>
    ensures some { IfSome result (λ rest. text.now ≡ 32 ∷ rest.now) }
    ensures none { IfNone result ((rest : List ℕ) → text.now ≡ 32 ∷ rest → ⊥) }
{
    match text {
        [b' ', rest @ ..] => Some(rest),
        _ => None,
    }
}

// The call of this caller that has these words, with the words of its answer.
fn answered(
    alloc: Global,
    caller: Caller,
    call: &[u8],
    answer: &[u8],
) -> Result<Option<Told>, AllocError>
    ensures { IfOk result (λ r. ReadsAnswered caller call.now answer.now r) }
{
    let Some(call) = call_in(alloc, call)? else {
        return Ok(None);
    };
    let answer = Bytes::from_slice(alloc, answer)?;
    Ok(Some(Told::Called {
        caller,
        call,
        answer,
    }))
}

// Who makes a call beside its master.
fn who_in(word: &[u8]) -> Option<Option<AttemptId>>
    ensures some { IfSome result (λ who. IsWho who × (word.now ≡ who_word who)) }
    ensures none { IfNone result ((who : Option Attempt) → IsWho who → word.now ≡ who_word who → ⊥) }
{
    if word == b"none".as_slice() {
        return Some(None);
    }
    match attempt(word) {
        Some(attempt) => Some(Some(attempt)),
        None => None,
    }
}
