//! The store call of a container's step: whether it can be made now, and what the container hears of it.
ghost use Rattle.std.specs.Prelude.{◌≡◌, IfOk, OnOk, OnErr, is_some, true};
ghost use Rattle.mr_world_model.specs.Effect.{is_calm};
ghost use Rattle.mr_world_model.specs.Stored.{left_in, heard_in};
ghost use Rattle.mr_world_actors.specs.Living.{kept};
ghost use Rattle.mr_world_stores.specs.Calls.{answer_of};
ghost use Rattle.mr_world_state.specs.inner.Calling.{is_call, step_fault, permitted, ForeseesCall, HasCalled};

use crate::fault::WorldFault;
use crate::parts::Parts;
use crate::room::tell_most;
use mr_container::{Reply, Wish};
use mr_names::Namespace;
use mr_packet::ContainerId;
use mr_world_actors::Shared;
use mr_world_events::{Weather, Why};
use mr_world_stores::{ContainerCall, answer_container, would_be_full};
use std::alloc::AllocError;

impl Parts {
    /// The store call that the container makes in its next step, if it can take one now. None where that step is no
    /// store call.
    pub(crate) fn foresee_call(
        &self,
        c: &ContainerId,
        weather: Weather,
    ) -> Result<Option<ContainerCall>, WorldFault>
        ensures foresees { ForeseesCall self.now c.now weather result }
        ensures lives { OnOk result (is_some (kept self.now.living c.now) ≡ true) }
    {
        // For the prover: a bag holds at most 1,000,000 packets.
        tell_most(&self.bag);
        let machine = match self.living.get(c) {
            Some(machine) => machine,
            None => return Err(WorldFault::NotNow(Why::NoContainer)),
        };
        let wish = machine.wish();
        check_step(&wish, weather)?;
        if !is_call(&wish) {
            return Ok(None);
        }
        let call = match machine.call(&self.layout)? {
            Some(op) => ContainerCall {
                caller: machine.caller(),
                op,
            },
            None => return Ok(None),
        };
        if would_be_full(&self.names, &call, weather) {
            return Err(WorldFault::Full);
        }
        Ok(Some(call))
    }

    /// The container makes its store call, and hears of the answer. Where memory is refused nothing has changed.
    pub(crate) fn call_store(
        &mut self,
        c: &ContainerId,
        weather: Weather,
        call: &ContainerCall,
    ) -> Result<(), AllocError>
        ensures ok { OnOk result (HasCalled self.old c.now weather call.now self.new) }
        ensures err { OnErr result (self.new ≡ self.old) }
    {
        let reply = answer(&mut self.names, call, weather)?;
        self.living.on(c, reply);
        Ok(())
    }
}

// What the container hears of its call. The call is made in the namespace, if it is made in this weather. Where memory
// is refused nothing has changed.
fn answer(
    names: &mut Shared<Namespace>,
    call: &ContainerCall,
    weather: Weather,
) -> Result<Reply, AllocError>
    ensures heard { IfOk result (λ reply. reply ≡ heard_in weather (answer_of names.old call.now).0) }
    ensures left { OnOk result (names.new ≡ left_in weather names.old (answer_of names.old call.now).1) }
    ensures err { OnErr result (names.new ≡ names.old) }
{
    let names = names.own()?;
    answer_container(names, call, weather)
}

fn check_step(wish: &Wish, weather: Weather) -> Result<(), WorldFault>
    ensures { result ≡ permitted (step_fault wish.now weather) }
{
    if wish.is_computing() {
        return Err(WorldFault::NotNow(Why::WrongWish));
    }
    if !is_call(wish) && !is_calm(weather) {
        return Err(WorldFault::NotNow(Why::NoStoreCall));
    }
    Ok(())
}

// Whether the wish is a store call.
fn is_call(wish: &Wish) -> bool
    ensures { result ≡ is_call wish.now }
{
    matches!(
        wish,
        Wish::Mkdirs
            | Wish::Create
            | Wish::Write
            | Wish::Close
            | Wish::Needs
            | Wish::Look
            | Wish::Clear
            | Wish::Rename
            | Wish::Abort
    )
}

fn is_calm(weather: Weather) -> bool
    ensures { result ≡ is_calm weather }
{
    matches!(weather, Weather::Calm)
}
