//! The verdict of a trace, and how it is said.
ghost use Rattle.std.specs.Prelude.{◌≡◌, IfOk};
ghost use Rattle.serde_json.specs.View.{view};
ghost use Rattle.mr_judge.specs.Said.{said_of, status_of, verdict_json, verdict_object, verdict_text};

use crate::fault::JudgeFault;
use itoa::Buffer;
use mr_ids::Bytes;
use mr_pipe::Form;
use mr_sim_json::{Object, into_value, put_count, put_flag, put_line, put_text};
use serde_json::Value;
use std::alloc::{AllocError, Global};

/// The verdict of a store's trace.
#[derive(Drop)]
pub enum Verdict {
    /// Each answer is the one that the namespace gives.
    Right,
    /// The first answer that is another one.
    Wrong {
        /// The number of its line, from 1.
        line: usize,
        /// Its words.
        answered: Bytes,
        /// The words of the answer that the namespace gives.
        expected: Bytes,
    },
}

/// The line that says a verdict: `right`, or `line 2: answered done, expected Missing`.
pub fn verdict_text(alloc: Global, verdict: &Verdict) -> Result<Vec<u8>, AllocError>
    ensures { IfOk result (λ said. said.items ≡ verdict_text verdict.now) }
{
    match verdict {
        Verdict::Right => Vec::from_slice(alloc, b"right\n"),
        Verdict::Wrong {
            line,
            answered,
            expected,
        } => {
            let mut buffer = Buffer::new();
            let mut said = Vec::from_slice(alloc, b"line ")?;
            said.extend_from_slice(buffer.format(*line).as_bytes())?;
            said.extend_from_slice(b": answered ")?;
            said.extend_from_slice(answered.as_slice())?;
            said.extend_from_slice(b", expected ")?;
            said.extend_from_slice(expected.as_slice())?;
            said.extend_from_slice(b"\n")?;
            Ok(said)
        }
    }
}

/// The line of JSON that says a verdict: `{"right":true}`, or an object with `answered`, `expected` and `line` too.
#[tactic(auto, using(crate::proofs::Objects::is_plain))]
pub fn verdict_json(alloc: Global, verdict: &Verdict) -> Result<Vec<u8>, AllocError>
    ensures { IfOk result (λ said. said.items ≡ verdict_json verdict.now) }
{
    let value = verdict_value(alloc, verdict)?;
    let mut said = Vec::new(alloc);
    put_line(&mut said, alloc, &value)?;
    Ok(said)
}

fn verdict_value(alloc: Global, verdict: &Verdict) -> Result<Value, AllocError>
    ensures { IfOk result (λ value. view value ≡ verdict_object verdict.now) }
{
    let mut object = Object::new(alloc);
    match verdict {
        Verdict::Right => put_flag(&mut object, alloc, "right", true)?,
        Verdict::Wrong {
            line,
            answered,
            expected,
        } => {
            put_flag(&mut object, alloc, "right", false)?;
            put_count(&mut object, alloc, "line", *line as u64)?;
            put_text(&mut object, alloc, "answered", answered.as_slice())?;
            put_text(&mut object, alloc, "expected", expected.as_slice())?;
        }
    }
    Ok(into_value(object))
}

/// What is said of a judgement: the line of its verdict; nothing where there is none.
pub fn said_of(
    alloc: Global,
    form: Form,
    judged: &Result<Verdict, JudgeFault>,
) -> Result<Vec<u8>, AllocError>
    ensures { IfOk result (λ said. said.items ≡ said_of form judged.now) }
{
    match judged {
        Ok(verdict) => match form {
            Form::Text => verdict_text(alloc, verdict),
            Form::Json => verdict_json(alloc, verdict),
        },
        Err(_) => Ok(Vec::new(alloc)),
    }
}

/// The exit status of a judgement: 0 where all is right, 1 where an answer is wrong, 3 where a line is none or the trace is too long, 5 where there was
/// no memory.
pub fn status_of(judged: &Result<Verdict, JudgeFault>) -> u8
    ensures { result ≡ status_of judged.now }
{
    match judged {
        Ok(Verdict::Right) => 0,
        Ok(Verdict::Wrong { .. }) => 1,
        Err(JudgeFault::BadLine(_) | JudgeFault::TooLong) => 3,
        Err(JudgeFault::NoMemory) => 5,
    }
}
