//! The event by which a container's bytes are handed in. A map's lie on its node's shelf from then on; a reduce's are
//! kept, to be written.
ghost use Rattle.std.specs.Prelude.{◌≡◌, IfOk, IfErr, None, ℕ};
ghost use Rattle.mr_ids.specs.declared.id.TaskKind.TheVariants.{Map, Reduce};
ghost use Rattle.mr_world_model.specs.World.{Compute};
ghost use Rattle.mr_world_actors.specs.Living.{kept};
ghost use Rattle.mr_world_state.specs.inner.Computing.{bytes_fault, unless_fault, Computes};
ghost use Rattle.mr_world_state.specs.Standing.{Foresees, Tries};

use crate::fault::WorldFault;
use crate::parts::Parts;
use crate::room::tell_most;
use mr_container::Place;
use mr_ids::TaskKind;
use mr_mapside::{MAX_OUTPUT_LEN, MapOutput, blocks};
use mr_packet::{Bytes, ContainerId};
use mr_world_events::Why;

impl Parts {
    /// Whether these bytes can be handed in to the container now, and what it was launched as. It takes no memory:
    /// `foresee_computed` rests on that.
    pub(crate) fn check_compute(&self, c: &ContainerId, bytes: &Bytes) -> Result<Place, WorldFault>
        ensures foresees { Foresees self.now (Compute c.now bytes.now) result }
        ensures computes { IfOk result (λ place. Computes (kept self.now.living c.now) place) }
        ensures memory { IfErr result (λ fault. fault ≡ WorldFault.NoMemory → ⊥) }
        ensures fine { IfOk result (λ place. bytes_fault place.attempt.task.kind self.now.config.reduces bytes.now ≡ None) }
    {
        // For the prover: a bag holds at most 1,000,000 packets.
        tell_most(&self.bag);
        let machine = match self.living.get(c) {
            Some(machine) => machine,
            None => return Err(WorldFault::NotNow(Why::NoContainer)),
        };
        if !machine.wish().is_computing() {
            return Err(WorldFault::NotNow(Why::WrongWish));
        }
        let place = machine.place();
        check_bytes(place.attempt.task().kind, self.reduce_count(), bytes)?;
        Ok(place)
    }

    /// Bytes are handed in to the container. Those of a map lie on its node's shelf from then on.
    pub(crate) fn compute(&mut self, c: &ContainerId, bytes: Bytes) -> Result<(), WorldFault>
        ensures tries { Tries self.old (Compute c.now bytes) result self.new }
        ensures config { self.new.config ≡ self.old.config }
        ensures history { self.new.history ≡ self.old.history }
    {
        let place = self.check_compute(c, &bytes)?;
        match place.attempt.task().kind {
            TaskKind::Map => {
                let none = Bytes::new(bytes.allocator());
                self.nodes
                    .put(place.node, place.attempt, MapOutput::from_bytes(bytes))?;
                self.living.computed(c, none);
            }
            TaskKind::Reduce => self.living.computed(c, bytes),
        }
        Ok(())
    }
}

fn check_bytes(kind: TaskKind, reduces: u32, bytes: &Bytes) -> Result<(), WorldFault>
    ensures { result ≡ unless_fault (bytes_fault kind reduces bytes.now) }
{
    match kind {
        TaskKind::Map => check_output(reduces, bytes),
        TaskKind::Reduce => check_result(bytes),
    }
}

fn check_output(reduces: u32, bytes: &Bytes) -> Result<(), WorldFault>
    ensures { result ≡ unless_fault (bytes_fault Map reduces bytes.now) }
{
    if blocks(bytes.as_slice(), reduces).is_none() {
        return Err(WorldFault::NotNow(Why::NotBlocks));
    }
    if bytes.len() > MAX_OUTPUT_LEN {
        return Err(WorldFault::Full);
    }
    Ok(())
}

fn check_result(bytes: &Bytes) -> Result<(), WorldFault>
    ensures { (reduces : ℕ) → result ≡ unless_fault (bytes_fault Reduce reduces bytes.now) }
{
    if bytes.len() >= 4_294_967_296 {
        return Err(WorldFault::Full);
    }
    Ok(())
}
