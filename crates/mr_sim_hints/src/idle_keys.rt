//! Keys of a job text that say nothing, as they are told.
use crate::near::is_near;
use serde_json::Value;
use std::alloc::{AllocError, Global};

// The keys that a job has.
const KEYS: &[&str] = &[
    "id", "job", "reduces", "splits", "nodes", "limit", "faults", "v2from",
];

/// Puts, behind what is there, a line for each of these keys of a job text, which no job has, with the key that may be meant. It fails
/// where there is no memory.
pub fn put_idle_keys(out: &mut Vec<u8>, alloc: Global, keys: &[String]) -> Result<(), AllocError> {
    for key in keys {
        put_idle_key(out, alloc, key.as_str())?;
    }
    Ok(())
}

// The line of a key, which is spelled as in JSON.
fn put_idle_key(out: &mut Vec<u8>, alloc: Global, key: &str) -> Result<(), AllocError> {
    let spelled = Value::try_from_str(alloc, key)?.to_string(alloc)?;
    out.extend_from_slice(b"mrsim: job: no such key: ")?;
    out.extend_from_slice(spelled.as_bytes())?;
    for meant in KEYS {
        if is_near(alloc, key, *meant)? {
            put_meant(out, *meant)?;
        }
    }
    out.extend_from_slice(b"\n")
}

fn put_meant(out: &mut Vec<u8>, meant: &str) -> Result<(), AllocError> {
    out.extend_from_slice(b"; did you mean \"")?;
    out.extend_from_slice(meant.as_bytes())?;
    out.extend_from_slice(b"\"?")
}
