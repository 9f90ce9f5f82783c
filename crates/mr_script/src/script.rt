//! A whole script, in any language.
//! Both scripts of a run and scripts of committer calls are read by it, to the first line that is no command.
ghost use Rattle.std.specs.Prelude.{◌≡◌, ◌<◌, ◌≤◌, ◌+◌, ◌^◌, [], ◌∷◌, ℕ, List, length, IfSome, IfNone, IfOk, IfErr};
ghost use Rattle.mr_script.specs.Lines.{said, lines_of, AreLines, IsNoLine};
ghost use Rattle.mr_script.specs.ScriptFault.{IsScriptFault};
ghost use Rattle.mr_script.specs.declared.script.ScriptFault.TheVariants.{NoMemory};

use crate::word::cut;
use std::alloc::{AllocError, AllocFailed, Global};
use thiserror::Error;

/// Why a script was not read.
#[derive(Clone, Copy, Debug, PartialEq, Eq, Error)]
pub enum ScriptFault {
    /// There was no memory for its commands.
    #[error("NoMemory")]
    NoMemory,
    /// The first line that is no command, by its number.
    #[error("BadCommand({0})")]
    BadCommand(usize),
}

impl From<AllocError> for ScriptFault {
    ghost from_gives = { λ _ e. e ≡ NoMemory };

    fn from(_e: AllocError) -> ScriptFault {
        ScriptFault::NoMemory
    }
}

impl<T: Drop> From<AllocFailed<T>> for ScriptFault {
    ghost from_gives = { λ _ e. e ≡ NoMemory };

    fn from(_e: AllocFailed<T>) -> ScriptFault {
        ScriptFault::NoMemory
    }
}

/// A language of scripts: which lines are commands, and of which.
pub trait Language {
    /// What a line says.
    type Command: Drop;

    /// Whether a line is a command.
    ghost is_line: { Self → List ℕ → Self.Command → Type 0 };

    /// The command that the line is, or none where it is no command.
    fn command_in(&self, alloc: Global, line: &[u8]) -> Result<Option<Self::Command>, AllocError>
        ensures some { IfOk result (λ r. IfSome r (is_line self.now line.now)) }
        ensures none { IfOk result (λ r. IfNone r (IsNoLine (is_line self.now) line.now)) };
}

/// What the line says: nothing where it is a comment.
fn said(line: &[u8]) -> &[u8]
    ensures { result.now ≡ said line.now }
{
    if line.starts_with(b"#") { &[] } else { line }
}

/// What the first line says, without its line feed, and the bytes after it.
fn next_line(bytes: &[u8]) -> Option<(&[u8], &[u8])>
    ensures some { IfSome result (λ p. (lines_of bytes.now ≡ p.0.now ∷ lines_of p.1.now) × (length p.1.now < length bytes.now)) }
    ensures none { IfNone result (bytes.now ≡ []) }
{
    if bytes.is_empty() {
        return None;
    }
    match cut(bytes, b'\n') {
        Some((line, rest)) => Some((said(line), rest)),
        None => Some((said(bytes), &[])),
    }
}

/// The commands of a script in a language, each with the number of its line; its lines are numbered from `first` on.
pub fn script_in<L: Language>(
    alloc: Global,
    language: &L,
    bytes: &[u8],
    first: usize,
) -> Result<Vec<(usize, L::Command)>, ScriptFault>
    requires few { first + length bytes.now < 2 ^ 64 }
    ensures ok { IfOk result (λ v. AreLines (L.is_line language.now) first (lines_of bytes.now) v.items) }
    ensures bad { IfErr result (IsScriptFault (L.is_line language.now) first bytes.now) }
{
    let mut commands = Vec::new(alloc);
    let mut rest = bytes;
    let mut number = first;
    while let Some((line, after)) = next_line(rest) {
        if !line.is_empty() {
            match language.command_in(alloc, line)? {
                Some(command) => commands.push((number, command))?,
                None => return Err(ScriptFault::BadCommand(number)),
            }
        }
        number += 1;
        rest = after;
    }
    Ok(commands)
}
