//! What the machine of a task answers to a line.
ghost use Rattle.std.specs.Prelude.{◌≡◌, IfOk, Ok};
ghost use Rattle.mr_task_talk.specs.Talk.{done_words, fault_text, launch_words, noted_words, poll_words, refused};
ghost use Rattle.mr_task_talk.specs.inner.Turns.{Hears};

use crate::line::{Line, Verb};
use mr_ids::AttemptId;
use mr_pipe::PipeFault;
use mr_task::{DoneReply, TaskFault, TaskMachine};
use std::alloc::{AllocError, Global};

/// The words of the answer to a line.
pub fn answer(alloc: Global, machine: &mut TaskMachine, line: Line) -> Result<Vec<u8>, PipeFault>
    ensures { IfOk result (λ text. Hears machine.old line text.items machine.new) }
{
    match line {
        Line::Launch => launch(alloc, machine),
        Line::Of(verb, attempt) => answer_of(alloc, machine, verb, attempt),
    }
}

// The same of what is said of an attempt.
fn answer_of(
    alloc: Global,
    machine: &mut TaskMachine,
    verb: Verb,
    attempt: AttemptId,
) -> Result<Vec<u8>, PipeFault>
    ensures { IfOk result (λ text. Hears machine.old (Line.Of verb attempt) text.items machine.new) }
{
    match verb {
        Verb::Pending => pending(alloc, machine, attempt),
        Verb::Poll => poll(alloc, machine, attempt),
        Verb::Done => done(alloc, machine, attempt),
        Verb::Recorded => recorded(alloc, machine, attempt),
        Verb::Failed => failed(alloc, machine, attempt),
        Verb::Ended => ended(alloc, machine, attempt),
        Verb::Killed => killed(alloc, machine, attempt),
        Verb::Lost => lost(alloc, machine, attempt),
    }
}

// An attempt is launched.
#[tactic(auto, using(crate::proofs::Heard::launched, crate::proofs::Heard::launch_refused))]
fn launch(alloc: Global, machine: &mut TaskMachine) -> Result<Vec<u8>, PipeFault>
    ensures { IfOk result (λ text. Hears machine.old Line.Launch text.items machine.new) }
{
    match machine.launch() {
        Ok(attempt) => Ok(launched(alloc, attempt)?),
        Err(fault) => refused_or_memory(alloc, fault),
    }
}

// The attempt asks for permission.
#[tactic(auto, using(crate::proofs::Heard::asked, crate::proofs::Heard::ask_refused))]
fn pending(
    alloc: Global,
    machine: &mut TaskMachine,
    attempt: AttemptId,
) -> Result<Vec<u8>, PipeFault>
    ensures { IfOk result (λ text. Hears machine.old (Line.Of Verb.Pending attempt) text.items machine.new) }
{
    match machine.pending(attempt) {
        Ok(()) => Ok(Vec::from_slice(alloc, b"noted")?),
        Err(fault) => refused_or_memory(alloc, fault),
    }
}

// Whether the attempt has the permission.
#[tactic(auto, using(crate::proofs::Heard::polled))]
fn poll(alloc: Global, machine: &TaskMachine, attempt: AttemptId) -> Result<Vec<u8>, PipeFault>
    ensures { IfOk result (λ text. Hears machine.now (Line.Of Verb.Poll attempt) text.items machine.now) }
{
    let may_commit = machine.can_commit(attempt);
    Ok(Vec::from_slice(alloc, poll_word(may_commit))?)
}

// The attempt committed.
#[tactic(auto, using(crate::proofs::Heard::reported))]
fn done(alloc: Global, machine: &mut TaskMachine, attempt: AttemptId) -> Result<Vec<u8>, PipeFault>
    ensures { IfOk result (λ text. Hears machine.old (Line.Of Verb.Done attempt) text.items machine.new) }
{
    let told = machine.done(attempt);
    Ok(won(alloc, told)?)
}

// Its success is on record.
#[tactic(auto, using(crate::proofs::Heard::was_recorded))]
fn recorded(
    alloc: Global,
    machine: &mut TaskMachine,
    attempt: AttemptId,
) -> Result<Vec<u8>, PipeFault>
    ensures { IfOk result (λ text. Hears machine.old (Line.Of Verb.Recorded attempt) text.items machine.new) }
{
    let told = machine.recorded(attempt);
    Ok(noted(alloc, told)?)
}

// It failed.
#[tactic(auto, using(crate::proofs::Heard::has_failed))]
fn failed(
    alloc: Global,
    machine: &mut TaskMachine,
    attempt: AttemptId,
) -> Result<Vec<u8>, PipeFault>
    ensures { IfOk result (λ text. Hears machine.old (Line.Of Verb.Failed attempt) text.items machine.new) }
{
    let told = machine.failed(attempt);
    Ok(noted(alloc, told)?)
}

// Its container ended, and nobody had stopped it.
#[tactic(auto, using(crate::proofs::Heard::has_ended))]
fn ended(alloc: Global, machine: &mut TaskMachine, attempt: AttemptId) -> Result<Vec<u8>, PipeFault>
    ensures { IfOk result (λ text. Hears machine.old (Line.Of Verb.Ended attempt) text.items machine.new) }
{
    let told = machine.ended(attempt, false);
    Ok(noted(alloc, told)?)
}

// It was stopped.
#[tactic(auto, using(crate::proofs::Heard::was_killed))]
fn killed(
    alloc: Global,
    machine: &mut TaskMachine,
    attempt: AttemptId,
) -> Result<Vec<u8>, PipeFault>
    ensures { IfOk result (λ text. Hears machine.old (Line.Of Verb.Killed attempt) text.items machine.new) }
{
    let told = machine.killed(attempt);
    Ok(noted(alloc, told)?)
}

// Its output is lost.
#[tactic(auto, using(crate::proofs::Heard::was_lost))]
fn lost(alloc: Global, machine: &mut TaskMachine, attempt: AttemptId) -> Result<Vec<u8>, PipeFault>
    ensures { IfOk result (λ text. Hears machine.old (Line.Of Verb.Lost attempt) text.items machine.new) }
{
    let told = machine.lost(attempt);
    Ok(noted(alloc, told)?)
}

fn poll_word(may_commit: bool) -> &'static [u8]
    ensures { result.now ≡ poll_words may_commit }
{
    if may_commit { b"yes" } else { b"no" }
}

// That an attempt was launched.
fn launched(alloc: Global, attempt: AttemptId) -> Result<Vec<u8>, AllocError>
    ensures { IfOk result (λ text. text.items ≡ launch_words (Ok attempt)) }
{
    let mut text = Vec::from_slice(alloc, b"launched ")?;
    attempt.write(&mut text)?;
    Ok(text)
}

// What came of a report that an attempt committed.
fn won(alloc: Global, told: Result<DoneReply, TaskFault>) -> Result<Vec<u8>, AllocError>
    ensures { IfOk result (λ text. text.items ≡ done_words told) }
{
    match told {
        Ok(DoneReply::Accepted) => Vec::from_slice(alloc, b"wins"),
        Ok(DoneReply::Again) => Vec::from_slice(alloc, b"wins already"),
        Ok(DoneReply::Ignored) => Vec::from_slice(alloc, b"ignored"),
        Err(fault) => refused(alloc, fault),
    }
}

// That something was noted, or why not.
fn noted(alloc: Global, told: Result<(), TaskFault>) -> Result<Vec<u8>, AllocError>
    ensures { IfOk result (λ text. text.items ≡ noted_words told) }
{
    match told {
        Ok(()) => Vec::from_slice(alloc, b"noted"),
        Err(fault) => refused(alloc, fault),
    }
}

// Why nothing was done, unless there was no memory.
fn refused_or_memory(alloc: Global, fault: TaskFault) -> Result<Vec<u8>, PipeFault>
    ensures other { IfOk result (λ _. fault ≡ TaskFault.NoMemory → ⊥) }
    ensures text { IfOk result (λ text. text.items ≡ refused fault) }
{
    match fault {
        TaskFault::NoMemory => Err(PipeFault::NoMemory),
        _ => Ok(refused(alloc, fault)?),
    }
}

// Why nothing was done.
fn refused(alloc: Global, fault: TaskFault) -> Result<Vec<u8>, AllocError>
    ensures { IfOk result (λ text. text.items ≡ refused fault) }
{
    let mut text = Vec::from_slice(alloc, b"refused ")?;
    text.extend_from_slice(fault_word(fault))?;
    Ok(text)
}

fn fault_word(fault: TaskFault) -> &'static [u8]
    ensures { result.now ≡ fault_text fault }
{
    match fault {
        TaskFault::AlreadyWon => b"AlreadyWon",
        TaskFault::TooManyLive => b"TooManyLive",
        TaskFault::TooManyAttempts => b"TooManyAttempts",
        TaskFault::Unknown => b"Unknown",
        TaskFault::NoMemory => b"NoMemory",
    }
}
