//! How long a file is that was handed in: a name tells it, beside that of the file. The history tells no lengths.
//!
//! The names of that folder are made durable before the attempt's success is appended. So a length needs no sync of its own.
ghost use Rattle.std.specs.Prelude.{◌≡◌, IfOk, IfSome};
ghost use Rattle.std.specs.String.{string_bytes};
ghost use Rattle.mr_out_layout.specs.Layout.{length_name, length_path};

use mr_ids::AttemptId;
use std::alloc::{AllocError, Global};

/// How long the file is that an attempt handed in.
#[derive(Clone, Copy, Debug)]
pub struct Length {
    /// The attempt.
    pub attempt: AttemptId,
    /// How many bytes its file has.
    pub len: u64,
}

/// The name that tells how long the file is that an attempt handed in.
pub fn length_path(alloc: Global, a: AttemptId, len: u64) -> Result<String, AllocError>
    ensures { IfOk result (λ s. string_bytes s ≡ length_path a len) }
{
    format!(in alloc; "_mrout/kept/{a}.{len}")
}

/// The length that a name in the folder of what was handed in tells, if it tells one.
pub fn length_named(alloc: Global, name: &str) -> Result<Option<Length>, AllocError>
    ensures { IfOk result (λ told. IfSome told (λ l. name.now ≡ length_name l.attempt l.len)) }
{
    let Some((attempt, len)) = name.split_once('.') else {
        return Ok(None);
    };
    match (AttemptId::parse(attempt), len.parse::<u64>()) {
        (Ok(attempt), Ok(len)) => spelled(alloc, name, Length { attempt, len }),
        _ => Ok(None),
    }
}

// The length, where the name is spelled as it is.
fn spelled(alloc: Global, name: &str, told: Length) -> Result<Option<Length>, AllocError>
    ensures { IfOk result (λ told. IfSome told (λ l. name.now ≡ length_name l.attempt l.len)) }
{
    let own = name_of(alloc, told.attempt, told.len)?;
    Ok(if own.as_str() == name {
        Some(told)
    } else {
        None
    })
}

fn name_of(alloc: Global, a: AttemptId, len: u64) -> Result<String, AllocError>
    ensures { IfOk result (λ s. string_bytes s ≡ length_name a len) }
{
    format!(in alloc; "{a}.{len}")
}
