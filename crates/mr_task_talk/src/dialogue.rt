//! A task over a pipe, line by line.
ghost use Rattle.std.specs.Prelude.{◌≡◌, ◌++◌, [], IfOk, OnOk, IfSome, List, ℕ, codes, decimal};
ghost use Rattle.std.specs.Io.KnownBytes.{Appends};
ghost use Rattle.mr_pipe.specs.Stream.{lines_in};
ghost use Rattle.mr_pipe_json.specs.Form.{said_as, told_as};
ghost use Rattle.mr_task_talk.specs.Program.{Runs};
ghost use Rattle.mr_task_talk.specs.Talk.{ReadsTold, Talks};
ghost use Rattle.mr_task_talk.specs.inner.Turns.{HearsLine, TalksFor, Turns};

use crate::answer::answer;
use crate::line::{Line, line_in};
use itoa::Buffer;
use mr_ids::{AppAttempt, TaskId};
use mr_pipe::{Form, PipeFault, next_line, say, send, status_of};
use mr_pipe_json::{Key, said_as, told_as};
use mr_task::TaskMachine;
use std::alloc::{AllocError, Global};
use std::io::{BufRead, Write};

/// Runs `mrsim task` of a task under the master of a generation, and answers its exit status: 0 at the end of the input, 4 if a stream failed, 5 if
/// there was no memory.
#[tactic(auto, using(crate::proofs::Programs::to_the_end, crate::proofs::Programs::failed))]
pub fn run<R: BufRead, W: Write, E: Write>(
    alloc: Global,
    task: TaskId,
    app: AppAttempt,
    form: Form,
    reader: &mut R,
    writer: &mut W,
    errors: &mut E,
) -> u8
    ensures { Runs form task app (R.remaining reader.old) (W.contents writer.old) (W.contents writer.new) result }
{
    match talk(alloc, task, app, form, reader, writer) {
        Ok(()) => 0,
        Err(fault) => {
            // Where it cannot be written it is dropped, and the status says it.
            let _ = say(errors, fault);
            status_of(fault)
        }
    }
}

/// Talks for a task under the master of a generation, which has no attempt yet: reads a line, writes its answer, flushed before the next one is read,
/// and so on to the end of the input.
///
/// `Read`: a read failed. `Write`: a write or a flush failed. `NoMemory`: memory was refused. After a fault what was written is a front of what would
/// have been.
#[tactic(auto, using(crate::proofs::Talking::talks_at))]
pub fn talk<R: BufRead, W: Write>(
    alloc: Global,
    task: TaskId,
    app: AppAttempt,
    form: Form,
    reader: &mut R,
    writer: &mut W,
) -> Result<(), PipeFault>
    ensures { OnOk result (IfSome (R.remaining reader.old) (λ input. (said : List ℕ)
        × Appends (W.contents writer.old) (W.contents writer.new) said × Talks form task app [] 1 (lines_in input) said)) }
{
    let mut machine = TaskMachine::new(alloc, task, app);
    go_on(alloc, form, &mut machine, reader, writer)?;
    Ok(())
}

// From the first line on.
#[tactic(auto, using(crate::proofs::Talking::kept_first, crate::proofs::Talking::kept_more, crate::proofs::Talking::kept_end))]
fn go_on<R: BufRead, W: Write>(
    alloc: Global,
    form: Form,
    machine: &mut TaskMachine,
    reader: &mut R,
    writer: &mut W,
) -> Result<(), PipeFault>
    ensures { OnOk result (TalksFor form machine.old (R.remaining reader.old) (W.contents writer.old) (W.contents writer.new)) }
{
    for number in 1..u64::MAX {
        let goes_on = turn(alloc, form, machine, number, reader, writer)?;
        if !goes_on {
            return Ok(());
        }
    }
    Err(PipeFault::Read)
}

// A line is read, heard and answered, if there is one.
#[tactic(auto, using(crate::proofs::Talking::end_turns, crate::proofs::Talking::line_turns))]
fn turn<R: BufRead, W: Write>(
    alloc: Global,
    form: Form,
    machine: &mut TaskMachine,
    number: u64,
    reader: &mut R,
    writer: &mut W,
) -> Result<bool, PipeFault>
    ensures { IfOk result (λ goes_on. Turns form goes_on machine.old machine.new number (R.remaining reader.old) (R.remaining reader.new) (W.contents writer.old) (W.contents writer.new)) }
{
    let mut line = Vec::new(alloc);
    if !next_line(reader, &mut line)? {
        return Ok(false);
    }
    let text = hear(alloc, form, machine, number, &line)?;
    send(writer, &text)?;
    Ok(true)
}

// Line n: it is one of a task, or it is none.
#[tactic(auto, using(crate::proofs::Heard::is_line, crate::proofs::Heard::is_none))]
fn hear(
    alloc: Global,
    form: Form,
    machine: &mut TaskMachine,
    n: u64,
    line: &[u8],
) -> Result<Vec<u8>, PipeFault>
    ensures { IfOk result (λ text. HearsLine form machine.old n line.now text.items machine.new) }
{
    match heard(alloc, form, line)? {
        Some(said) => {
            let words = answer(alloc, machine, said)?;
            Ok(said_as(alloc, form, Key::Answer, &words)?)
        }
        None => Ok(no_line(alloc, form, n)?),
    }
}

// What a line says, in the form that was asked for.
#[tactic(auto, using(crate::proofs::Heard::told, crate::proofs::Heard::nothing_told))]
fn heard(alloc: Global, form: Form, line: &[u8]) -> Result<Option<Line>, AllocError>
    ensures { IfOk result (λ found. ReadsTold (told_as form Key.Event line.now) found) }
{
    match told_as(alloc, form, Key::Event, line)? {
        Some(line) => Ok(line_in(&line)),
        None => Ok(None),
    }
}

// That line n is none of a task.
fn no_line(alloc: Global, form: Form, n: u64) -> Result<Vec<u8>, AllocError>
    ensures { IfOk result (λ text. text.items ≡ said_as form Key.Error (codes "no line " ++ decimal n)) }
{
    let mut buffer = Buffer::new();
    let mut line = Vec::from_slice(alloc, b"no line ")?;
    line.extend_from_slice(buffer.format(n).as_bytes())?;
    said_as(alloc, form, Key::Error, &line)
}
