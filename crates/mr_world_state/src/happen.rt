//! Any event, handed on to the file of its kind: whether it can happen now, and that it happens.
ghost use Rattle.std.specs.Prelude.{◌≡◌, IfErr};
ghost use Rattle.mr_world_model.specs.World.{World, Compute};
ghost use Rattle.mr_world_state.specs.declared.fault.WorldFault.TheVariants.{NoMemory};
ghost use Rattle.mr_world_state.specs.Histories.{LeavesHistory};
ghost use Rattle.mr_world_state.specs.Standing.{Foresees, Standing, Tries};

use crate::fault::WorldFault;
use crate::parts::Parts;
use mr_packet::{Bytes, ContainerId};
use mr_world_events::Event;

impl Parts {
    /// Whether an event can happen now.
    pub fn check(&self, event: &Event) -> Result<(), WorldFault>
        ensures { Foresees self.now event.now result }
    {
        match event {
            Event::Start { generation, kept } => {
                self.check_start(*generation, *kept)?;
                Ok(())
            }
            Event::Crash { generation, kept } => {
                self.check_crash(*generation, *kept)?;
                Ok(())
            }
            Event::Duty {
                generation,
                weather,
            } => self.check_duty(*generation, *weather),
            Event::LaunchOn {
                generation,
                task,
                node,
            } => {
                self.check_launch(*generation, *task, *node)?;
                Ok(())
            }
            Event::Deliver { packet } => self.check_deliver(*packet as usize),
            Event::ContainerStep { container, weather } => self.check_step(container, *weather),
            Event::Computed { container, bytes } => {
                self.check_compute(container, bytes)?;
                Ok(())
            }
            Event::Die { container } => self.check_die(container),
            Event::NodeRestart { node } => self.check_restart(*node),
            Event::Expire { generation, node } => {
                self.check_expire(*generation, *node)?;
                Ok(())
            }
        }
    }

    /// An event happens.
    pub fn happen(&mut self, event: &Event) -> Result<(), WorldFault>
        requires { (w : World) × Standing self.old w }
        ensures tries { Tries self.old event.now result self.new }
        ensures config { self.new.config ≡ self.old.config }
        ensures history { LeavesHistory self.old event.now result self.new }
    {
        match event {
            Event::Start { generation, kept } => self.start(*generation, *kept),
            Event::Crash { generation, kept } => self.crash(*generation, *kept),
            Event::Duty {
                generation,
                weather,
            } => self.duty(*generation, *weather),
            Event::LaunchOn {
                generation,
                task,
                node,
            } => self.launch(*generation, *task, *node),
            Event::Deliver { packet } => self.deliver(*packet as usize),
            Event::ContainerStep { container, weather } => self.step(container, *weather),
            Event::Computed { container, bytes } => self.hand_in(container, bytes),
            Event::Die { container } => self.die(container),
            Event::NodeRestart { node } => self.restart(*node),
            Event::Expire { generation, node } => self.expire(*generation, *node),
        }
    }

    /// Whether these bytes can be handed in to the container now. It takes no memory, so it never wants for any.
    pub fn check_computed(&self, c: &ContainerId, bytes: &Bytes) -> Result<(), WorldFault>
        ensures foresees { Foresees self.now (Compute c.now bytes.now) result }
        ensures memory { IfErr result (λ fault. fault ≡ WorldFault.NoMemory → ⊥) }
    {
        self.check_compute(c, bytes)?;
        Ok(())
    }

    // A copy of the bytes is handed in to the container.
    fn hand_in(&mut self, c: &ContainerId, bytes: &Bytes) -> Result<(), WorldFault>
        ensures tries { Tries self.old (Compute c.now bytes.now) result self.new }
        ensures config { self.new.config ≡ self.old.config }
        ensures history { self.new.history ≡ self.old.history }
    {
        self.check_compute(c, bytes)?;
        let copy = bytes.copy()?;
        self.compute(c, copy)
    }
}
