//! `mrsim judge`: its streams and its status.
ghost use Rattle.std.specs.Prelude.{◌≡◌, IfOk, IfSome};
ghost use Rattle.std.specs.Io.KnownBytes.{Appends};
ghost use Rattle.mr_judge.specs.Program.{Runs};
ghost use Rattle.mr_judge.specs.Said.{said_of};
ghost use Rattle.mr_judge.specs.Trace.{JudgedAs};

use crate::fault::JudgeFault;
use crate::judge::judged;
use crate::verdict::{Verdict, said_of, status_of};
use itoa::Buffer;
use mr_pipe::{Form, PipeFault, read_all, say, send};
use std::alloc::Global;
use std::io;
use std::io::{Read, Write};

/// Judges the trace that the reader has, and writes the verdict. Where a line is none, it has more than 16,777,216 bytes, or there was no memory, nothing is
/// written.
///
/// `Read`: a read failed. `Write`: a write or a flush failed. `NoMemory`: memory was refused outside the judgement.
#[tactic(auto, using(crate::proofs::Commands::judges))]
pub fn judge_input<R: Read, W: Write>(
    alloc: Global,
    form: Form,
    reader: &mut R,
    writer: &mut W,
) -> Result<Result<Verdict, JudgeFault>, PipeFault>
    ensures { IfOk result (λ judged. IfSome (R.remaining reader.old) (λ input. JudgedAs input judged
        × Appends (W.contents writer.old) (W.contents writer.new) (said_of form judged))) }
{
    let judged = judgement_of(alloc, reader)?;
    let text = said_of(alloc, form, &judged)?;
    send(writer, &text)?;
    Ok(judged)
}

// The judgement of all that the reader has.
#[tactic(auto, using(crate::proofs::Commands::judged_as, crate::proofs::Commands::too_long))]
fn judgement_of<R: Read>(
    alloc: Global,
    reader: &mut R,
) -> Result<Result<Verdict, JudgeFault>, PipeFault>
    ensures { IfOk result (λ judged. IfSome (R.remaining reader.old) (λ input. JudgedAs input judged)) }
{
    match read_all(alloc, reader)? {
        Some(input) => Ok(judged(alloc, &input)),
        None => Ok(Err(JudgeFault::TooLong)),
    }
}

/// Runs `mrsim judge`, and answers its exit status: 0 where each answer is right, 1 where one is wrong, 3 where a line is none or the trace is too long, 4
/// if a stream failed, 5 if there was no memory.
#[tactic(auto, using(crate::proofs::Programs::is_judged, crate::proofs::Programs::failed))]
pub fn run<R: Read, W: Write, E: Write>(
    alloc: Global,
    form: Form,
    reader: &mut R,
    writer: &mut W,
    errors: &mut E,
) -> u8
    ensures { Runs form (R.remaining reader.old) (W.contents writer.old) (W.contents writer.new) result }
{
    match judge_input(alloc, form, reader, writer) {
        Ok(judged) => {
            // Where it cannot be written it is dropped, and the status says it; below too.
            let _ = say_fault(errors, &judged);
            status_of(&judged)
        }
        Err(fault) => {
            let _ = say(errors, fault);
            mr_pipe::status_of(fault)
        }
    }
}

// Says why there is no verdict; and of one that shows no difference what it is.
fn say_fault<E: Write>(errors: &mut E, judged: &Result<Verdict, JudgeFault>) -> io::Result<()> {
    match judged {
        Ok(verdict) => say_blank(errors, verdict),
        Err(JudgeFault::BadLine(line)) => say_line(errors, *line),
        Err(JudgeFault::TooLong) => {
            errors.write_all(b"mrsim: input too long\n  at most 16777216 bytes are read\n")
        }
        Err(JudgeFault::NoMemory) => say(errors, PipeFault::NoMemory),
    }
}

// Says that a blank is missing, which can't be seen: that of a file without bytes.
fn say_blank<E: Write>(errors: &mut E, verdict: &Verdict) -> io::Result<()> {
    if lacks_blank(verdict) {
        errors.write_all(b"  of an empty file the answer is bytes, and a blank behind it\n")
    } else {
        Ok(())
    }
}

fn lacks_blank(verdict: &Verdict) -> bool {
    match verdict {
        Verdict::Right => false,
        Verdict::Wrong {
            line: _,
            answered,
            expected,
        } => answered.as_slice() == b"bytes".as_slice()
            && expected.as_slice() == b"bytes ".as_slice(),
    }
}

fn say_line<E: Write>(errors: &mut E, line: usize) -> io::Result<()> {
    let mut buffer = Buffer::new();
    errors.write_all(b"mrsim: line ")?;
    errors.write_all(buffer.format(line).as_bytes())?;
    errors.write_all(
        b": bad line\n  expected GENERATION ATTEMPT CALL: ANSWER, GENERATION none CALL: ANSWER, raise GENERATION, or # ..\n",
    )
}
