//! `mrsim committer` alone: the committer's calls, built in half a minute.
//!
//! Proved of `run_streams`, for every reader and writer that tell their bytes: what it prints, and each fault but its text, as of `mrsim committer`.
//! It returns where their calls return. The exit status of a run is proved too. Only tested: texts of faults, and that words are refused.
#![tactic(auto)]

ghost use Rattle.std.specs.Prelude.{◌≡◌, ◌≢◌, ◌<◌, ◌≤◌, ◌^◌, IfOk, IfErr, IfSome, IsErrOf, MatchResult, OnOk, length, vec_len};
ghost use Rattle.std.specs.Io.KnownBytes.{Keeps};
ghost use Rattle.std.specs.Process.{exit_status};
ghost use Rattle.mr_sim_commands.specs.Faults.{status_of};
ghost use Rattle.mrsim_committer.specs.Printed.{IsReadFault, Refuses, Writes};

use mr_pipe::{PipeFault, read_all, send};
use mr_sim_commands::{SimFault, committer_output};
use std::alloc::Global;
use std::io::{ErrorKind, Read, Write};
use std::process::ExitCode;
use std::{env, io};

// All that the reader has, if that is no more than the limit of `read_all`.
fn read_input<R: Read>(alloc: Global, reader: &mut R) -> Result<Vec<u8>, SimFault>
    ensures limit { IfOk result (λ v. vec_len v ≤ 2 ^ 24) }
    ensures all { IfOk result (λ v. IfSome (R.remaining reader.old) (λ xs. v.items ≡ xs)) }
    ensures long { IsErrOf result SimFault.TooLong → IfSome (R.remaining reader.old) (λ xs. 2 ^ 24 < length xs) }
    ensures kinds { IfErr result IsReadFault }
{
    match read_all(alloc, reader) {
        Ok(Some(bytes)) => Ok(bytes),
        Ok(None) => Err(SimFault::TooLong),
        Err(PipeFault::NoMemory) => Err(SimFault::NoMemory),
        Err(_) => Err(SimFault::Read),
    }
}

/// Reads a script of at most 2^24 bytes to its end, forms all that is printed for it, and then writes and flushes that.
pub fn run_streams<R: Read, W: Write>(
    alloc: Global,
    reader: &mut R,
    writer: &mut W,
) -> Result<(), SimFault>
    // Ok: the writer has what it had, then what is printed for what was read, and nothing else.
    ensures ok { OnOk result (IfSome (R.remaining reader.old) (λ input.
        Writes input (W.contents writer.old) (W.contents writer.new))) }
    // A fault is one that the input has.
    ensures fault { IfErr result (λ e. IfSome (R.remaining reader.old) (λ input. Refuses input e)) }
    // Only a failed write leaves anything in the writer.
    ensures nothing { IfErr result (λ e. e ≢ SimFault.Write → Keeps (W.contents writer.old) (W.contents writer.new)) }
{
    let input = read_input(alloc, reader)?;
    let text = committer_output(alloc, &input)?;
    send(writer, &text).map_err(|_| SimFault::Write)
}

// The exit code of a run, when it has said what failed. What can't be said is dropped.
fn code_of(rt: &impl Eprint, ran: Result<(), SimFault>) -> ExitCode
    ensures { MatchResult ran (λ _. exit_status result ≡ 0) (λ fault. exit_status result ≡ status_of fault) }
{
    let Err(fault) = ran else {
        return ExitCode::SUCCESS;
    };
    let _ = rt.eprintln(fault);
    ExitCode::from(fault.status())
}

fn main(rt: HostRuntime) -> ExitCode {
    let ran = match env::args(&rt) {
        Ok(args) if args.len() <= 1 => {
            run_streams(rt.alloc(), &mut rt.reader(), &mut io::writer(&rt))
        }
        Err(error) if error.kind() == ErrorKind::OutOfMemory => Err(SimFault::NoMemory),
        _ => {
            let _ = rt.eprintln("error: mrsim_committer takes no words, `mrsim committer` does");
            return ExitCode::from(2);
        }
    };
    code_of(&rt, ran)
}
