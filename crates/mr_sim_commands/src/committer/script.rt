//! Scripts of committer calls.
//! Their language, for the reader of scripts in `mr_script`.
ghost use Rattle.std.specs.Prelude.{◌≡◌, IfSome, IfNone, IfOk, IfErr};
ghost use Rattle.mr_script.specs.Lines.{lines_of, IsNoLine};
ghost use Rattle.mr_script.specs.ScriptFault.{IsScriptFault};
ghost use Rattle.mr_sim_commands.specs.committer.Script.{AreCommands, IsLine};

use crate::committer::command::{ScriptCommand, read_command};
use mr_script::{Language, ScriptFault, script_in};
use std::alloc::{AllocError, Global};

// The language of scripts of committer calls.
#[derive(Drop)]
struct CommitterCalls;

impl Language for CommitterCalls {
    type Command = ScriptCommand;

    ghost is_line = { λ _. IsLine };

    fn command_in(&self, alloc: Global, line: &[u8]) -> Result<Option<ScriptCommand>, AllocError> {
        read_command(alloc, line)
    }
}

/// The commands of a script of committer calls, each with the number of its line.
pub fn committer_script(
    alloc: Global,
    bytes: &[u8],
) -> Result<Vec<(usize, ScriptCommand)>, ScriptFault>
    ensures ok { IfOk result (λ v. AreCommands 1 (lines_of bytes.now) v.items) }
    ensures bad { IfErr result (IsScriptFault IsLine 1 bytes.now) }
{
    script_in(alloc, &CommitterCalls, bytes, 1)
}
