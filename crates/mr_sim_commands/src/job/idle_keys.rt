//! Keys of a job text that say nothing, as a misspelt one does. A job text may have other keys beside those of a job, and they are ignored: with `"node":3`
//! the job runs on one node.
ghost use Rattle.std.specs.Prelude.{◌≡◌, [], map, string_bytes, IfOk};
ghost use Rattle.serde_json.specs.View.{view};
ghost use Rattle.mr_sim_commands.specs.job.IdleKeys.{idle_keys, is_job_key};

use serde_json::Value;
use std::alloc::{AllocError, Global};
use std::marker::Model;

/// The keys of a job text that no job has, in the order of their bytes. Contracts see them as a list of texts.
#[derive(Drop)]
pub struct IdleKeys {
    keys: Vec<String>,
}

impl Model for IdleKeys {
    ghost use Rattle.std.specs.Prelude.{ℕ, List, map, string_bytes};

    ghost Value = { List (List ℕ) };

    ghost view = { λ k. map string_bytes k.keys.items };
}

impl IdleKeys {
    /// No key: of an input that has no job text.
    pub fn none(alloc: Global) -> IdleKeys
        ensures { result ≡ [] }
    {
        IdleKeys {
            keys: Vec::new(alloc),
        }
    }

    /// The keys.
    pub fn as_slice(&self) -> &[String]
        ensures { map string_bytes result.now ≡ self.now }
    {
        &self.keys
    }
}

// Whether a job has this key.
fn is_job_key(key: &str) -> bool
    ensures { result ≡ is_job_key key.now }
{
    matches!(
        key,
        "id" | "job" | "reduces" | "splits" | "nodes" | "limit" | "faults" | "v2from"
    )
}

/// The keys of a value that no job has: none where it is no object. It fails by an allocation failure.
pub fn idle_keys_in(alloc: Global, value: &Value) -> Result<IdleKeys, AllocError>
    ensures { IfOk result (λ keys. keys ≡ idle_keys (view value.now)) }
{
    let mut keys = Vec::new(alloc);
    let Some(members) = value.as_object() else {
        return Ok(IdleKeys { keys });
    };
    for key in members.keys() {
        if !is_job_key(key.as_str()) {
            keys.push(key.clone()?)?;
        }
    }
    Ok(IdleKeys { keys })
}
