//! A packet is delivered to a container, which may come to its end by it.
ghost use Rattle.std.specs.Prelude.{◌≡◌, ◌≤◌, ◌+◌, length, slice_get, is_some, IsSome, true, Some, IfOk, OnOk, OnErr};
ghost use Rattle.mr_packet.specs.declared.packet.Address.TheVariants.{Container};
ghost use Rattle.mr_packet.specs.declared.packet.Envelope.{Envelope};
ghost use Rattle.mr_container.specs.Past.{Hears};
ghost use Rattle.mr_world_model.specs.World.{Deliver};
ghost use Rattle.mr_world_actors.specs.Living.{kept, Changes, Same, stepped};
ghost use Rattle.mr_world_state.specs.Standing.{IsTo, Foresees, Tries};
ghost use Rattle.mr_world_state.specs.inner.Replying.{ends_by, one_if};

use crate::die::ended;
use crate::fault::WorldFault;
use crate::parts::Parts;
use crate::room::reserve;
use mr_packet::{Bag, ContainerId, MAX_PACKETS};
use mr_world_actors::Living;
use mr_world_events::Why;
use std::alloc::AllocError;

impl Parts {
    /// Whether the packet at this place can be delivered to its container now.
    pub(crate) fn check_hear_container(&self, i: usize, c: &ContainerId) -> Result<(), WorldFault>
        requires { IsTo self.now i (Container c.now) }
        ensures foresees { Foresees self.now (Deliver i) result }
        ensures there { OnOk result (is_some (kept self.now.living c.now) ≡ true) }
        ensures room { OnOk result (length self.now.bag.packets + one_if (ends_by self.now.living c.now (slice_get self.now.bag.packets i)) ≤ MAX_PACKETS) }
    {
        if !self.living.contains(c) {
            return Err(WorldFault::NotNow(Why::NoAddressee));
        }
        if self.bag.len() < MAX_PACKETS {
            return Ok(());
        }
        let ends = would_end(&self.bag, i, &self.living, c);
        if ends {
            return Err(WorldFault::Full);
        }
        Ok(())
    }

    /// The packet at this place is delivered to its container, which may come to its end by it; then its master is
    /// told so.
    pub(crate) fn hear_container(&mut self, i: usize, c: &ContainerId) -> Result<(), WorldFault>
        requires { IsTo self.old i (Container c.now) }
        ensures tries { Tries self.old (Deliver i) result self.new }
        ensures config { self.new.config ≡ self.old.config }
        ensures history { self.new.history ≡ self.old.history }
    {
        self.check_hear_container(i, c)?;
        reserve(&mut self.bag, 1)?;
        let ends = hear(&self.bag, i, &mut self.living, c)?;
        if ends {
            self.living.remove(c);
            self.bag.push_reserved(ended(c));
        }
        Ok(())
    }
}

// Whether the packet at this place would end the container.
fn would_end(bag: &Bag, i: usize, living: &Living, c: &ContainerId) -> bool
    requires { IsSome (slice_get bag.now.packets i) }
    ensures { result ≡ ends_by living.now c.now (slice_get bag.now.packets i) }
{
    match bag.get(i) {
        Some(envelope) => living.would_end(c, &envelope.body),
        None => unreachable!(),
    }
}

// The container hears the packet at this place: whether it came to its end. Where memory is refused nothing changes.
fn hear(bag: &Bag, i: usize, living: &mut Living, c: &ContainerId) -> Result<bool, AllocError>
    requires { IsSome (slice_get bag.now.packets i) }
    ensures heard { OnOk result ((e : Envelope) → slice_get bag.now.packets i ≡ Some e → Changes living.old c.now (stepped living.old c.now (Hears e.body)) living.new) }
    ensures over { IfOk result (λ ends. ends ≡ ends_by living.old c.now (slice_get bag.now.packets i)) }
    ensures err { OnErr result (Same living.old living.new) }
{
    match bag.get(i) {
        Some(envelope) => living.hear(c, &envelope.body),
        None => unreachable!(),
    }
}
