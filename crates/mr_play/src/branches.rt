//! Players of which others are forked, and that are taken further by parts, for whoever tries what may befall a run.
ghost use Rattle.std.specs.Prelude.{Some, OnOk, IfOk};
ghost use Rattle.mr_world.specs.Limits.{within};
ghost use Rattle.mr_play.specs.Branches.{Forks, Tries, told_by};
ghost use Rattle.mr_play.specs.Text.{job_as};
ghost use Rattle.mr_play.specs.Played.{losing};
ghost use Rattle.mr_play.specs.Players.{state_in, Reaches};

use crate::fault::PlayerFault;
use crate::memory::read;
use crate::player::Player;
use mr_sim_commands::IdleKeys;
use mr_world_events::Event;
use std::alloc::{AllocError, Global};

impl Player {
    /// A player of its own that is as far as this one, in a copy of its world. Which line made which events, and the lines for standard
    /// error, it does not have. It fails by an allocation failure alone.
    pub fn fork(&self, alloc: Global) -> Result<Player, AllocError>
        ensures { IfOk result (Forks self.now) }
    {
        let world = read(self.world.copy())?;
        let dropped = self.dropped.clone()?;
        let told = Vec::from_slice(alloc, &self.told)?;
        Ok(Player {
            job: self.job,
            world,
            cursor: self.cursor,
            dropped,
            stepped: self.stepped,
            told,
            met: self.met,
            stretches: Vec::new(alloc),
            notes: Vec::new(alloc),
            idle_keys: IdleKeys::none(alloc),
        })
    }

    /// From here on no calm delivers the packet at this place of the bag.
    pub fn drop_packet(&mut self, packet: u64) -> Result<(), AllocError>
        ensures { OnOk result (Reaches self.old (Some (losing (job_as self.old.job) self.old.world.config (within self.old.world.config) packet (state_in self.old))) self.new) }
    {
        self.dropped.insert(packet)?;
        Ok(())
    }

    /// The event happens as that of a line; whether it did. Where it is not permitted, or would pass a limit, it does not. It fails by an allocation failure.
    pub fn tell(&mut self, event: Event) -> Result<bool, AllocError>
        ensures { Tries self.old (told_by self.old event) result self.new }
    {
        let stepped = self.stepped_by(&event);
        match self.apply(event, stepped) {
            Ok(None) => Ok(true),
            Ok(Some(_)) => Ok(false),
            Err(PlayerFault::Full) => Ok(false),
            Err(PlayerFault::NoMemory) => Err(AllocError),
        }
    }
}
