//! `mrsim recovery`: what it writes, and its status.
ghost use Rattle.std.specs.Prelude.{◌≡◌, IfOk};
ghost use Rattle.std.specs.Io.KnownBytes.{Appends};
ghost use Rattle.mr_recover_plan.specs.Plans.{PlannedAs};
ghost use Rattle.mr_recover_plan.specs.Program.{Runs};
ghost use Rattle.mr_recover_plan.specs.Said.{said_of};

use crate::fault::PlanFault;
use crate::plan::planned;
use crate::said::{said_of, status_of};
use itoa::Buffer;
use mr_ids::Bytes;
use mr_pipe::{Form, PipeFault, say, send};
use mr_recover::{Recovery, Staging};
use std::alloc::Global;
use std::io;
use std::io::Write;

/// Finds the plan for these segments, the oldest first, and writes it. Where a segment is refused, or there was no memory, nothing is written.
///
/// `Write`: a write or a flush failed. `NoMemory`: memory was refused once there was a plan.
#[tactic(auto, using(crate::proofs::Commands::planned_as))]
pub fn recover<W: Write>(
    alloc: Global,
    form: Form,
    segments: &[Bytes],
    staging: Staging,
    writer: &mut W,
) -> Result<Result<Recovery, PlanFault>, PipeFault>
    ensures plan { IfOk result (λ planned. PlannedAs segments.now staging planned) }
    ensures said { IfOk result (λ planned. Appends (W.contents writer.old) (W.contents writer.new) (said_of form planned)) }
{
    let planned = planned(alloc, segments, staging);
    let text = said_of(alloc, form, &planned)?;
    send(writer, &text)?;
    Ok(planned)
}

/// Runs `mrsim recovery`, and answers its exit status: 0 where there is a plan, 3 where a segment is refused, 4 if a stream failed, 5 if there was no memory.
#[tactic(auto, using(crate::proofs::Programs::is_planned, crate::proofs::Programs::failed))]
pub fn run<W: Write, E: Write>(
    alloc: Global,
    form: Form,
    segments: &[Bytes],
    staging: Staging,
    writer: &mut W,
    errors: &mut E,
) -> u8
    ensures { Runs form segments.now staging (W.contents writer.old) (W.contents writer.new) result }
{
    match recover(alloc, form, segments, staging, writer) {
        Ok(planned) => {
            // Where it cannot be written it is dropped, and the status says it; below too.
            let _ = say_fault(errors, &planned);
            status_of(&planned)
        }
        Err(fault) => {
            let _ = say(errors, fault);
            mr_pipe::status_of(fault)
        }
    }
}

// Says why there is no plan.
fn say_fault<E: Write>(errors: &mut E, planned: &Result<Recovery, PlanFault>) -> io::Result<()> {
    match planned {
        Ok(_) => Ok(()),
        Err(PlanFault::BadLine { segment, line }) => say_line(errors, *segment, *line),
        Err(PlanFault::EarlierGeneration { segment }) => say_earlier(errors, *segment),
        Err(PlanFault::NoMemory) => say(errors, PipeFault::NoMemory),
    }
}

fn say_line<E: Write>(errors: &mut E, segment: usize, line: usize) -> io::Result<()> {
    let mut buffer = Buffer::new();
    errors.write_all(b"mrsim: segment ")?;
    errors.write_all(buffer.format(segment).as_bytes())?;
    errors.write_all(b": bad line ")?;
    errors.write_all(buffer.format(line).as_bytes())?;
    errors.write_all(b"\n")
}

fn say_earlier<E: Write>(errors: &mut E, segment: usize) -> io::Result<()> {
    let mut buffer = Buffer::new();
    errors.write_all(b"mrsim: segment ")?;
    errors.write_all(buffer.format(segment).as_bytes())?;
    errors.write_all(
        b": earlier generation\n  an attempt in it is of an earlier master than one before it: name the oldest segment first\n",
    )
}
