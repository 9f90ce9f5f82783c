//! Who lives.
//! All containers that are alive, or the next one after another: for programs that run a world.
ghost use Rattle.std.specs.Prelude.{◌≡◌, IfOk, IfErr};
ghost use Rattle.mr_world_model.specs.World.{World};
ghost use Rattle.mr_world_state.specs.declared.fault.WorldFault.TheVariants.{NoMemory};
ghost use Rattle.mr_world.specs.Readings.{living, next_living};
ghost use Rattle.mr_world_state.specs.Standing.{Standing};

use mr_packet::ContainerId;
use mr_world_state::{Parts, WorldFault};

/// The containers that are alive, by generation, then number. Its only fault is an allocation failure.
pub fn living(parts: &Parts) -> Result<Vec<ContainerId>, WorldFault>
    ensures is { IfOk result (λ all. (w : World) → Standing parts.now w → all.items ≡ living parts.now.config w) }
    ensures memory { IfErr result (λ fault. fault ≡ WorldFault.NoMemory) }
{
    // For the prover: the containers stand in order.
    parts.living.tell_order();
    let all = parts.living.all(parts.layout.dest.allocator())?;
    Ok(all)
}

/// The next container that is alive after another, in cyclic order by generation, then number. Where none is
/// given, it is the first. It walks over none.
pub fn next_living(parts: &Parts, after: Option<ContainerId>) -> Option<ContainerId>
    ensures { (w : World) → Standing parts.now w → result ≡ next_living (living parts.now.config w) after }
{
    // For the prover: the containers stand in order.
    parts.living.tell_order();
    parts.living.next(after)
}
