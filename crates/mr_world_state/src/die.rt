//! The event by which a container ends before it is done, and the packet that tells its master of an end.
ghost use Rattle.std.specs.Prelude.{◌≡◌, ◌<◌, length, OnOk};
ghost use Rattle.mr_packet.specs.Sends.{ended};
ghost use Rattle.mr_world_model.specs.World.{Die};
ghost use Rattle.mr_world_state.specs.Standing.{Foresees, Tries};

use crate::fault::WorldFault;
use crate::parts::Parts;
use crate::room::reserve;
use mr_packet::{Address, ContainerId, Envelope, MAX_PACKETS, Packet};
use mr_world_events::Why;

impl Parts {
    /// Whether a container can die now.
    pub(crate) fn check_die(&self, c: &ContainerId) -> Result<(), WorldFault>
        ensures foresees { Foresees self.now (Die c.now) result }
        ensures room { OnOk result (length self.now.bag.packets < MAX_PACKETS) }
    {
        if !self.living.contains(c) {
            return Err(WorldFault::NotNow(Why::NoContainer));
        }
        self.check_room(1)
    }

    /// A container dies, and its master is told that it ended.
    pub(crate) fn die(&mut self, c: &ContainerId) -> Result<(), WorldFault>
        ensures tries { Tries self.old (Die c.now) result self.new }
        ensures config { self.new.config ≡ self.old.config }
        ensures history { self.new.history ≡ self.old.history }
    {
        self.check_die(c)?;
        reserve(&mut self.bag, 1)?;
        self.living.remove(c);
        self.bag.push_reserved(ended(c));
        Ok(())
    }
}

// The packet by which its master is told that the container came to its end.
pub fn ended(c: &ContainerId) -> Envelope
    ensures { result ≡ ended c.now }
{
    Envelope {
        to: Address::Master(c.app),
        body: Packet::Ended { container: *c },
    }
}
