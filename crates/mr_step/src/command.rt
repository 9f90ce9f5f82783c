//! `mrsim step`: its streams and its status.
ghost use Rattle.std.specs.Prelude.{◌≡◌};
ghost use Rattle.mr_step.specs.Program.{Runs, Talked};
ghost use Rattle.mr_step.specs.Status.{status_of};
ghost use Rattle.mr_step.specs.Wish.{table};

use crate::dialogue::talk;
use crate::ending::Ending;
use crate::wish::Moves;
use crate::words::Asked;
use mr_pipe::{Form, PipeFault};
use std::alloc::Global;
use std::io;
use std::io::{BufRead, Write};

/// Runs `mrsim step`, and answers its exit status: 0 if the operation finished, 1 if it was refused, 3 if the input ended first, 4 if a stream failed, 5
/// if there was no memory.
#[tactic(auto, using(crate::proofs::Programs::runs))]
pub fn run<R: BufRead, W: Write, E: Write>(
    alloc: Global,
    form: Form,
    asked: &Asked,
    reader: &mut R,
    writer: &mut W,
    errors: &mut E,
) -> u8
    ensures { Runs form (table asked.now.wish asked.now.layout.dest asked.now.generation) (R.remaining reader.old) (W.contents writer.old) (W.contents writer.new) result }
{
    let ended = talk_of(alloc, form, asked, reader, writer);
    // Where it cannot be written it is dropped, and the status says it.
    let _ = say(errors, ended);
    status_of(ended)
}

// The operation that is asked for, from its first call on.
#[tactic(auto, using(crate::proofs::Programs::asked_for))]
fn talk_of<R: BufRead, W: Write>(
    alloc: Global,
    form: Form,
    asked: &Asked,
    reader: &mut R,
    writer: &mut W,
) -> Result<Ending, PipeFault>
    ensures { Talked form (table asked.now.wish asked.now.layout.dest asked.now.generation) (R.remaining reader.old) (W.contents writer.old) (W.contents writer.new) result }
{
    let mut moves = Moves::new(&asked.layout, asked.generation, asked.wish)?;
    talk(alloc, form, &mut moves, reader, writer)
}

// Says what failed.
fn say<E: Write>(errors: &mut E, ended: Result<Ending, PipeFault>) -> io::Result<()> {
    match ended {
        Ok(Ending::Finished) | Ok(Ending::Refused(_)) => Ok(()),
        Ok(Ending::Cut) => errors.write_all(b"mrsim: end of input\n"),
        Err(fault) => mr_pipe::say(errors, fault),
    }
}

/// The exit status of an ending.
pub fn status_of(ended: Result<Ending, PipeFault>) -> u8
    ensures { result ≡ status_of ended }
{
    match ended {
        Ok(Ending::Finished) => 0,
        Ok(Ending::Refused(_)) => 1,
        Ok(Ending::Cut) => 3,
        Err(fault) => mr_pipe::status_of(fault),
    }
}
