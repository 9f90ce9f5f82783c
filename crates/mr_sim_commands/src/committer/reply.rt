//! What a command prints.
//! In a script of committer calls: nothing, or `yes`, `no` or the name of the refusal behind the number of its line.
ghost use Rattle.std.specs.Prelude.{◌≡◌, ◌++◌, IfOk, OnOk, string_bytes};
ghost use Rattle.mr_sim_commands.specs.committer.Text.{fault_text, name_fault_text, reply_text, said};

use crate::committer::scene::Reply;
use itoa::Buffer;
use mr_commit::CommitFault;
use mr_names::NameFault;
use std::alloc::{AllocError, Global};

/// The variant of a refusal of the namespace.
fn name_fault_text(alloc: Global, fault: NameFault) -> Result<String, AllocError>
    ensures { IfOk result (λ text. string_bytes text ≡ name_fault_text fault) }
{
    match fault {
        NameFault::Superseded(fence) => format!(in alloc; "Superseded {fence}"),
        NameFault::Barred => format!(in alloc; "Barred"),
        NameFault::Missing => format!(in alloc; "Missing"),
        NameFault::Exists => format!(in alloc; "Exists"),
        NameFault::NotDir => format!(in alloc; "NotDir"),
        NameFault::NotFile => format!(in alloc; "NotFile"),
        NameFault::Closed => format!(in alloc; "Closed"),
        NameFault::NoParent => format!(in alloc; "NoParent"),
        NameFault::IntoItself => format!(in alloc; "IntoItself"),
        NameFault::Full => format!(in alloc; "Full"),
        NameFault::NoMemory => format!(in alloc; "NoMemory"),
    }
}

/// The variant of a refusal.
fn fault_text(alloc: Global, fault: CommitFault) -> Result<String, AllocError>
    ensures { IfOk result (λ text. string_bytes text ≡ fault_text fault) }
{
    match fault {
        CommitFault::Names(fault) => name_fault_text(alloc, fault),
        CommitFault::OutputMissing => format!(in alloc; "OutputMissing"),
        CommitFault::WrongLength => format!(in alloc; "WrongLength"),
        CommitFault::DestinationExists => format!(in alloc; "DestinationExists"),
        CommitFault::WrongAnswer => format!(in alloc; "WrongAnswer"),
        CommitFault::Over => format!(in alloc; "Over"),
        CommitFault::NoMemory => format!(in alloc; "NoMemory"),
    }
}

/// One line of what is printed.
fn print_line(out: &mut Vec<u8>, line: usize, text: &[u8]) -> Result<(), AllocError>
    ensures { OnOk result (out.new.items ≡ out.old.items ++ said line text.now) }
{
    let mut buffer = Buffer::new();
    out.extend_from_slice(buffer.format(line).as_bytes())?;
    out.extend_from_slice(b": ")?;
    out.extend_from_slice(text)?;
    out.extend_from_slice(b"\n")
}

/// What the command of a line prints.
#[tactic(auto, unfolding(crate::specs::committer::Text::reply_text))]
pub fn print_reply(
    alloc: Global,
    out: &mut Vec<u8>,
    line: usize,
    reply: Result<Reply, CommitFault>,
) -> Result<(), AllocError>
    ensures { OnOk result (out.new.items ≡ out.old.items ++ reply_text line reply) }
{
    match reply {
        Ok(Reply::Silent) => Ok(()),
        Ok(Reply::Yes) => print_line(out, line, b"yes"),
        Ok(Reply::No) => print_line(out, line, b"no"),
        Err(fault) => {
            let text = fault_text(alloc, fault)?;
            print_line(out, line, text.as_bytes())
        }
    }
}
