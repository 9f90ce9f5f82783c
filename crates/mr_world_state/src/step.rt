//! The event by which a container takes its next step: the store call of `call`, or what `send` sends.
ghost use Rattle.std.specs.Prelude.{◌≡◌};
ghost use Rattle.mr_world_model.specs.World.{ContainerStep};
ghost use Rattle.mr_world_state.specs.Standing.{Foresees, Tries};

use crate::fault::WorldFault;
use crate::parts::Parts;
use mr_packet::ContainerId;
use mr_world_events::Weather;

impl Parts {
    /// Whether the container can take its next step now, in this weather.
    pub(crate) fn check_step(&self, c: &ContainerId, weather: Weather) -> Result<(), WorldFault>
        ensures { Foresees self.now (ContainerStep c.now weather) result }
    {
        match self.foresee_call(c, weather)? {
            Some(_call) => Ok(()),
            None => {
                self.check_send(c, weather)?;
                Ok(())
            }
        }
    }

    /// The container takes its next step: it makes a store call and hears the answer, or sends a packet, or nothing
    /// happens.
    pub(crate) fn step(&mut self, c: &ContainerId, weather: Weather) -> Result<(), WorldFault>
        ensures tries { Tries self.old (ContainerStep c.now weather) result self.new }
        ensures config { self.new.config ≡ self.old.config }
        ensures history { self.new.history ≡ self.old.history }
    {
        match self.foresee_call(c, weather)? {
            Some(call) => {
                self.call_store(c, weather, &call)?;
                Ok(())
            }
            None => self.send_packet(c, weather),
        }
    }
}
