//! Scripts of a run.
//! All lines are read as commands for one job before any of them is obeyed.
ghost use Rattle.std.specs.Prelude.{◌≡◌, ◌<◌, ◌+◌, ◌^◌, length, IfSome, IfNone, IfOk, IfErr, Ok};
ghost use Rattle.mr_script.specs.Lines.{lines_of, IsNoLine};
ghost use Rattle.mr_script.specs.ScriptFault.{IsScriptFault};
ghost use Rattle.mr_script.specs.Script.{AreCommands, IsLine};

use crate::command::Command;
use crate::line::command_in;
use crate::script::{Language, ScriptFault, script_in};
use mr_ids::JobId;
use std::alloc::{AllocError, Global};

// The language of scripts for a run of this job.
#[derive(Drop)]
struct OfJob {
    job: JobId,
}

impl Language for OfJob {
    type Command = Command;

    ghost is_line = { λ l. IsLine l.job };

    fn command_in(&self, _alloc: Global, line: &[u8]) -> Result<Option<Command>, AllocError> {
        Ok(command_in(self.job, line))
    }
}

/// The commands of a script for a run of the job, each with the number of its line; its lines are numbered from `first` on.
pub fn commands_of(
    alloc: Global,
    job: JobId,
    bytes: &[u8],
    first: usize,
) -> Result<Vec<(usize, Command)>, ScriptFault>
    requires few { first + length bytes.now < 2 ^ 64 }
    ensures ok { IfOk result (λ v. AreCommands job first (lines_of bytes.now) v.items) }
    ensures bad { IfErr result (IsScriptFault (IsLine job) first bytes.now) }
{
    script_in(alloc, &OfJob { job }, bytes, first)
}
