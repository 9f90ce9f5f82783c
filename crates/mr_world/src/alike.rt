//! Whether two worlds are alike, and how many containers one has launched.
//! For programs that leave out runs which go on as others do.
ghost use Rattle.std.specs.Prelude.{◌≡◌, ◌↔◌, IfOk, IfErr, IsTrue};
ghost use Rattle.mr_world_alike.specs.Alike.{Alike};
ghost use Rattle.mr_world_model.specs.World.{World};
ghost use Rattle.mr_world_state.specs.Limits.{launch_count};
ghost use Rattle.mr_world_state.specs.Standing.{Standing};
ghost use Rattle.mr_world_state.specs.declared.fault.WorldFault.TheVariants.{NoMemory};

use crate::results::outcome;
use mr_world_state::{Parts, WorldFault};

/// Whether both parts hold the same, and the same outcome was told. Then the worlds that they stand for are alike. Its
/// only fault is an allocation failure.
pub fn are_alike(parts: &Parts, others: &Parts) -> Result<bool, WorldFault>
    ensures alike { IfOk result (λ alike. IsTrue alike → (w u : World) → Standing parts.now w → Standing others.now u → Alike parts.now.config w u) }
    ensures config { IfOk result (λ alike. IsTrue alike → parts.now.config ≡ others.now.config) }
    ensures history { IfOk result (λ alike. IsTrue alike → parts.now.history ≡ others.now.history) }
    ensures memory { IfErr result (λ fault. fault ≡ WorldFault.NoMemory) }
{
    if !is_one(outcome(parts), outcome(others)) {
        return Ok(false);
    }
    let same = parts.is_same(others)?;
    Ok(same)
}

// Whether two outcomes are one.
fn is_one(told: Option<bool>, other: Option<bool>) -> bool
    ensures { IsTrue result ↔ (told ≡ other) }
{
    told == other
}

/// How many containers were launched.
pub fn launches(parts: &Parts) -> u32
    ensures { (w : World) → Standing parts.now w → result ≡ launch_count w }
{
    parts.launched
}
