//! A container's step that is no store call: the packet that it sends, and its end where that was its last.
ghost use Rattle.std.specs.Prelude.{◌≡◌, ◌≤◌, ◌+◌, length, IfOk, OnOk};
ghost use Rattle.mr_world_model.specs.World.{ContainerStep};
ghost use Rattle.mr_world_actors.specs.Letters.{letters_of, count_of};
ghost use Rattle.mr_world_actors.specs.Living.{kept};
ghost use Rattle.mr_world_state.specs.Standing.{Foresees, Tries};
ghost use Rattle.mr_world_state.specs.inner.Calling.{IsAlone};

use crate::die::ended;
use crate::fault::WorldFault;
use crate::parts::Parts;
use crate::room::reserve;
use mr_packet::{ContainerId, MAX_PACKETS};
use mr_world_actors::Letters;
use mr_world_events::Weather;

impl Parts {
    /// Whether the container can take its next step, which is permitted and no store call; and what it puts into the bag.
    pub(crate) fn check_send(
        &self,
        c: &ContainerId,
        weather: Weather,
    ) -> Result<Letters, WorldFault>
        requires { IsAlone self.now c.now weather }
        ensures foresees { Foresees self.now (ContainerStep c.now weather) result }
        ensures letters { IfOk result (λ letters. letters ≡ letters_of (kept self.now.living c.now)) }
        ensures room { IfOk result (λ letters. length self.now.bag.packets + count_of letters ≤ MAX_PACKETS) }
    {
        let letters = self.living.letters(c);
        self.check_room(letters.count())?;
        Ok(letters)
    }

    /// The container takes its next step, which is permitted and no store call: it sends the packet that it wishes to
    /// send, if it wishes to.
    pub(crate) fn send_packet(
        &mut self,
        c: &ContainerId,
        weather: Weather,
    ) -> Result<(), WorldFault>
        requires { IsAlone self.old c.now weather }
        ensures tries { Tries self.old (ContainerStep c.now weather) result self.new }
        ensures config { self.new.config ≡ self.old.config }
        ensures history { self.new.history ≡ self.old.history }
    {
        match self.check_send(c, weather)? {
            Letters::Nothing => Ok(()),
            Letters::One(packet) => {
                reserve(&mut self.bag, 1)?;
                self.bag.push_reserved(packet);
                self.living.sent(c);
                Ok(())
            }
            Letters::Last(packet) => {
                reserve(&mut self.bag, 2)?;
                self.bag.push_reserved(packet);
                self.bag.push_reserved(ended(c));
                self.living.remove(c);
                Ok(())
            }
        }
    }
}
