//! The files of the sequential execution.
ghost use Rattle.std.specs.Prelude.{◌≡◌, IfOk, IfErr};
ghost use Rattle.std.specs.Option.{option_map};
ghost use Rattle.mr_sim_commands.specs.job.Text.{submission_of};
ghost use Rattle.mr_play.specs.Text.{IsBadPlayJob, job_line};
ghost use Rattle.mr_explore.specs.Ends.{AreFilesOf, IsSequentialOf};
ghost use Rattle.mr_explore.specs.Checks.{IsUnsaid};

use mr_explore_ends::Sequential;
use mr_script::split_once;
use mr_sim_commands::{IdleKeys, SimFault, read_job_text, seq_output};
use std::alloc::Global;

/// The files of the sequential execution of the job of an input, and the keys of its job text that say nothing.
///
/// The first bad key of the job text is told (`Job`). `NoMemory` may come at any input.
pub fn sequential_of(alloc: Global, input: &[u8]) -> Result<(Sequential, IdleKeys), SimFault>
    ensures is { IfOk result (λ told. IsSequentialOf input.now told.0) }
    ensures fault { IfErr result (IsUnsaid (job_line input.now)) }
{
    let job = job_line_of(input);
    let submission = read_job_text(alloc, job)?;
    let files = files_of(alloc, job)?;
    Ok((Sequential::new(files), submission.idle_keys))
}

// The job text of an input: its first line.
fn job_line_of(input: &[u8]) -> &[u8]
    ensures { result.now ≡ job_line input.now }
{
    match split_once(input, b'\n') {
        Some((job, _)) => job,
        None => input,
    }
}

// What `seq` prints of a job text; nothing where the job refuses a line of a split.
fn files_of(alloc: Global, job: &[u8]) -> Result<Option<Vec<u8>>, SimFault>
    ensures files { IfOk result (λ files. AreFilesOf job.now (option_map (λ v. v.items) files)) }
    ensures fault { IfErr result (IsUnsaid job.now) }
{
    match seq_output(alloc, job) {
        Ok(printed) => Ok(Some(printed.text)),
        Err(fault) => match fault {
            SimFault::Refused => Ok(None),
            fault => Err(fault),
        },
    }
}
