//! `judge` and `recovery`, which read inputs by their names.
ghost use Rattle.std.specs.Prelude.{◌≡◌, ◌∷◌, [], IfErr, IfOk, map};
ghost use Rattle.mr_pipe_commands.specs.Named.{AreBytesOf, JudgesNamed, RecoversNamed};
ghost use Rattle.mr_pipe_commands.specs.inner.Reading.{AreUnread, IsUnread, status_of_unread};

use crate::inputs::Inputs;
use crate::unread::{Unread, say_unread, status_of_unread};
use mr_ids::Bytes;
use mr_pipe::{Form, PipeFault};
use mr_recover::Staging;
use std::alloc::Global;
use std::io::Write;

/// Judges the trace that an input has, all of it, and answers the exit status. Says what failed.
#[tactic(auto, using(crate::proofs::Judging::judges))]
pub(crate) fn judge<I: Inputs, W: Write, E: Write>(
    alloc: Global,
    inputs: &I,
    form: Form,
    name: &str,
    writer: &mut W,
    errors: &mut E,
) -> u8
    ensures { JudgesNamed (I.bytes inputs.now) form name.now (W.contents writer.old) (W.contents writer.new) result }
{
    match bytes_of(alloc, inputs, name) {
        Ok(bytes) => {
            let mut trace = bytes.as_slice();
            mr_judge::run(alloc, form, &mut trace, writer, errors)
        }
        Err(unread) => refuse(inputs, unread, errors),
    }
}

/// Plans by all bytes of each input, the oldest segment first, and answers the exit status. Says what failed.
#[tactic(auto, using(crate::proofs::Planning::recovers, crate::proofs::Planning::refused))]
pub(crate) fn recovery<I: Inputs, W: Write, E: Write>(
    alloc: Global,
    inputs: &I,
    form: Form,
    names: &[&str],
    staging: Staging,
    writer: &mut W,
    errors: &mut E,
) -> u8
    ensures { RecoversNamed (I.bytes inputs.now) form (map (λ n. n.now) names.now) staging (W.contents writer.old) (W.contents writer.new) result }
{
    match segments_of(alloc, inputs, names) {
        Ok(segments) => mr_recover_plan::run(alloc, form, &segments, staging, writer, errors),
        Err(unread) => refuse(inputs, unread, errors),
    }
}

// Says that an input is not read, and answers the exit status.
fn refuse<I: Inputs, E: Write>(inputs: &I, unread: Unread<'_>, errors: &mut E) -> u8
    ensures { result ≡ status_of_unread unread.entry }
{
    let name = match unread {
        Unread::TooLong(name) | Unread::Failed(name, _) => name,
    };
    // Where it cannot be written it is dropped, and the status says it.
    let _ = say_unread(errors, unread, inputs.why_unread(name));
    status_of_unread(unread)
}

// All bytes of an input.
fn bytes_of<'n, I: Inputs>(alloc: Global, inputs: &I, name: &'n str) -> Result<Vec<u8>, Unread<'n>>
    ensures ok { IfOk result (λ bytes. AreBytesOf (I.bytes inputs.now) (name.now ∷ []) (bytes.items ∷ [])) }
    ensures bad { IfErr result (λ e. IsUnread (I.bytes inputs.now) name.now e) }
{
    match inputs.read(alloc, name) {
        Ok(Some(bytes)) => Ok(bytes),
        Ok(None) => Err(Unread::TooLong(name)),
        Err(fault) => Err(Unread::Failed(name, fault)),
    }
}

// All bytes of each input, in their order.
#[tactic(auto, using(crate::proofs::Planning::none_read, crate::proofs::Planning::all_read))]
fn segments_of<'n, I: Inputs>(
    alloc: Global,
    inputs: &I,
    names: &[&'n str],
) -> Result<Vec<Bytes>, Unread<'n>>
    ensures ok { IfOk result (λ segments. AreBytesOf (I.bytes inputs.now) (map (λ n. n.now) names.now) segments.items) }
    ensures bad { IfErr result (λ e. AreUnread (I.bytes inputs.now) (map (λ n. n.now) names.now) e) }
{
    let mut segments = Vec::new(alloc);
    for name in names {
        let bytes = match bytes_of(alloc, inputs, name) {
            Ok(bytes) => bytes,
            Err(unread) => return Err(unread),
        };
        if segments.push(Bytes::from_vec(bytes)).is_err() {
            return Err(Unread::Failed(name, PipeFault::NoMemory));
        }
    }
    Ok(segments)
}
