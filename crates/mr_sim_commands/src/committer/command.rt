//! One line of a script.
//! Of a script of committer calls: which command it is, of which task or attempt.
ghost use Rattle.std.specs.Prelude.{◌≡◌, ℕ, List, ◌∷◌, ◌++◌, IfSome, IfNone, IfOk, Option, Some, None};
ghost use Rattle.mr_ids.specs.Attempt.{Attempt};
ghost use Rattle.mr_ids.specs.Text.{IsTask, IsAttempt};
ghost use Rattle.mr_script.specs.Words.{attempt_word};
ghost use Rattle.mr_sim_commands.specs.committer.Script.{task_word, caller_word, IsCaller, IsCommand, IsLine, IsBad};
ghost use Rattle.mr_sim_commands.specs.committer.Script.{NamesNone};
ghost use Rattle.mr_sim_commands.specs.inner.Verb.{verb_of, verb_text, rest_of};

use mr_ids::{AppAttempt, AttemptId, TaskId, TaskKind};
use mr_names::Bytes;
use mr_script::{attempt, generation, number, split_once};
use std::alloc::{AllocError, Global};
use std::str;

/// A command of a committer script.
#[derive(Drop)]
pub enum ScriptCommand {
    /// The generation that makes the calls from here on.
    As(AppAttempt),
    /// Raises the fence of the namespace to this generation.
    Raise(AppAttempt),
    /// Tests that the destination does not exist.
    Check,
    /// Sets the job up.
    Setup,
    /// An attempt of a reduce writes its part file: this text and a line feed.
    Write(AttemptId, Bytes),
    /// Asks whether the attempt has output to be committed.
    Needs(AttemptId),
    /// Commits the attempt's output as its task's.
    Commit(AttemptId),
    /// Aborts the attempt.
    Abort(AttemptId),
    /// Recovers the task, whose part file has the recorded length, if there is one.
    Recover(TaskId, Option<u32>),
    /// Commits the job.
    CommitJob,
    /// Aborts the job.
    AbortJob,
    /// Bars the attempt.
    Bar(AttemptId),
    /// The attempt that makes the calls from here on, or none.
    By(Option<AttemptId>),
}

/// The first word of a command.
#[derive(Clone, Copy, Debug, PartialEq, Eq)]
pub enum Verb {
    As,
    Raise,
    Check,
    Setup,
    Write,
    Needs,
    Commit,
    Abort,
    Recover,
    CommitJob,
    AbortJob,
    Bar,
    By,
}

/// All verbs.
const VERBS: [Verb; 13] = [
    Verb::As,
    Verb::Raise,
    Verb::Check,
    Verb::Setup,
    Verb::Write,
    Verb::Needs,
    Verb::Commit,
    Verb::Abort,
    Verb::Recover,
    Verb::CommitJob,
    Verb::AbortJob,
    Verb::Bar,
    Verb::By,
];

/// The word of a verb.
fn word_of(verb: Verb) -> &'static [u8]
    ensures { result.now ≡ verb_text verb }
{
    match verb {
        Verb::As => b"as",
        Verb::Raise => b"raise",
        Verb::Check => b"check",
        Verb::Setup => b"setup",
        Verb::Write => b"write",
        Verb::Needs => b"needs",
        Verb::Commit => b"commit",
        Verb::Abort => b"abort",
        Verb::Recover => b"recover",
        Verb::CommitJob => b"commitjob",
        Verb::AbortJob => b"abortjob",
        Verb::Bar => b"bar",
        Verb::By => b"by",
    }
}

/// The verb that the word is.
fn verb_named(word: &[u8]) -> Option<Verb>
    ensures some { IfSome result (λ v. word.now ≡ verb_text v) }
    ensures none { IfNone result ((v : Verb) → word.now ≡ verb_text v → ⊥) }
{
    for verb in &VERBS {
        if word == word_of(*verb) {
            return Some(*verb);
        }
    }
    None
}

/// The task that the word names.
fn task(word: &[u8]) -> Option<TaskId>
    ensures found { IfSome result (λ t. IsTask t × (word.now ≡ task_word t)) }
    ensures only { (t : TaskId) → IsTask t → word.now ≡ task_word t → result ≡ Some t }
{
    let Ok(text) = str::from_utf8(word) else {
        return None;
    };
    match TaskId::parse(text) {
        Ok(task) => Some(task),
        Err(_) => None,
    }
}

/// The recovery of a task, and of a recorded length, if there is one.
fn recover_command(rest: &[u8]) -> Option<ScriptCommand>
    ensures some { IfSome result (λ c. IsCommand c × (verb_of c ≡ Verb.Recover) × (rest_of c ≡ Some rest.now)) }
    ensures none { IfNone result (NamesNone rest.now) }
{
    match split_once(rest, b' ') {
        None => match task(rest) {
            Some(task) => Some(ScriptCommand::Recover(task, None)),
            None => None,
        },
        Some((word, length)) => match task(word) {
            Some(task) => match number(length) {
                Some(bytes) => Some(ScriptCommand::Recover(task, Some(bytes))),
                None => None,
            },
            None => None,
        },
    }
}

/// The caller's attempt, or none.
fn by_command(rest: &[u8]) -> Option<ScriptCommand>
    ensures some { IfSome result (λ c. IsCommand c × (verb_of c ≡ Verb.By) × (rest_of c ≡ Some rest.now)) }
    ensures none { IfNone result ((who : Option Attempt) → IsCaller who → rest.now ≡ caller_word who → ⊥) }
{
    if rest == b"none".as_slice() {
        return Some(ScriptCommand::By(None));
    }
    match attempt(rest) {
        Some(attempt) => Some(ScriptCommand::By(Some(attempt))),
        None => None,
    }
}

/// The attempt, if it is one of a reduce.
fn reduce_attempt(word: &[u8]) -> Option<AttemptId>
    ensures found { IfSome result (λ a. IsAttempt a × (a.task.kind ≡ TaskKind.Reduce) × (word.now ≡ attempt_word a)) }
    ensures only { (a : Attempt) → IsAttempt a → a.task.kind ≡ TaskKind.Reduce → word.now ≡ attempt_word a → result ≡ Some a }
{
    match attempt(word) {
        Some(attempt) => match attempt.task().kind {
            TaskKind::Reduce => Some(attempt),
            TaskKind::Map => None,
        },
        None => None,
    }
}

/// The attempt that writes, and the text that it writes.
fn write_command(alloc: Global, rest: &[u8]) -> Result<Option<ScriptCommand>, AllocError>
    ensures some { IfOk result (λ r. IfSome r (λ c. IsCommand c × (verb_of c ≡ Verb.Write) × (rest_of c ≡ Some rest.now))) }
    ensures none { IfOk result (λ r. IfNone r ((a : Attempt) (text : List ℕ) → IsAttempt a → a.task.kind ≡ TaskKind.Reduce → rest.now ≡ attempt_word a ++ 32 ∷ text → ⊥)) }
{
    let Some((word, text)) = split_once(rest, b' ') else {
        return Ok(None);
    };
    let Some(attempt) = reduce_attempt(word) else {
        return Ok(None);
    };
    let bytes = Vec::from_slice(alloc, text)?;
    Ok(Some(ScriptCommand::Write(attempt, Bytes::from_vec(bytes))))
}

/// The command of one word.
fn command_of_word(verb: Verb) -> Option<ScriptCommand>
    ensures some { IfSome result (λ c. IsCommand c × (verb_of c ≡ verb) × (rest_of c ≡ None)) }
    ensures none { IfNone result ((o : ScriptCommand) → IsCommand o → verb_of o ≡ verb → rest_of o ≡ None → ⊥) }
{
    match verb {
        Verb::Check => Some(ScriptCommand::Check),
        Verb::Setup => Some(ScriptCommand::Setup),
        Verb::CommitJob => Some(ScriptCommand::CommitJob),
        Verb::AbortJob => Some(ScriptCommand::AbortJob),
        _ => None,
    }
}

/// The command of this verb and what stands after it.
fn command_with_rest(
    alloc: Global,
    verb: Verb,
    rest: &[u8],
) -> Result<Option<ScriptCommand>, AllocError>
    ensures some { IfOk result (λ r. IfSome r (λ c. IsCommand c × (verb_of c ≡ verb) × (rest_of c ≡ Some rest.now))) }
    ensures none { IfOk result (λ r. IfNone r ((o : ScriptCommand) → IsCommand o → verb_of o ≡ verb → rest_of o ≡ Some rest.now → ⊥)) }
{
    match verb {
        Verb::As => match generation(rest) {
            Some(k) => Ok(Some(ScriptCommand::As(k))),
            None => Ok(None),
        },
        Verb::Raise => match generation(rest) {
            Some(k) => Ok(Some(ScriptCommand::Raise(k))),
            None => Ok(None),
        },
        Verb::Write => write_command(alloc, rest),
        Verb::Needs => match attempt(rest) {
            Some(attempt) => Ok(Some(ScriptCommand::Needs(attempt))),
            None => Ok(None),
        },
        Verb::Commit => match attempt(rest) {
            Some(attempt) => Ok(Some(ScriptCommand::Commit(attempt))),
            None => Ok(None),
        },
        Verb::Abort => match attempt(rest) {
            Some(attempt) => Ok(Some(ScriptCommand::Abort(attempt))),
            None => Ok(None),
        },
        Verb::Recover => Ok(recover_command(rest)),
        Verb::Bar => match attempt(rest) {
            Some(attempt) => Ok(Some(ScriptCommand::Bar(attempt))),
            None => Ok(None),
        },
        Verb::By => Ok(by_command(rest)),
        Verb::Check | Verb::Setup | Verb::CommitJob | Verb::AbortJob => Ok(None),
    }
}

/// The command that the line is.
pub fn read_command(alloc: Global, line: &[u8]) -> Result<Option<ScriptCommand>, AllocError>
    ensures some { IfOk result (λ r. IfSome r (IsLine line.now)) }
    ensures none { IfOk result (λ r. IfNone r (IsBad line.now)) }
{
    match split_once(line, b' ') {
        Some((word, rest)) => match verb_named(word) {
            Some(verb) => command_with_rest(alloc, verb, rest),
            None => Ok(None),
        },
        None => match verb_named(line) {
            Some(verb) => Ok(command_of_word(verb)),
            None => Ok(None),
        },
    }
}
