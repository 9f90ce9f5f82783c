//! Store calls that are looked at before they are made.
//! For `World::asks`: the call that an event would make, by whom, and what its caller would hear.
ghost use Rattle.std.specs.Prelude.{◌≡◌, IfOk};
ghost use Rattle.mr_world_model.specs.Stored.{heard_in};
ghost use Rattle.mr_world_model.specs.World.{ContainerStep, Duty};
ghost use Rattle.mr_world_state.specs.Asks.{Looks};
ghost use Rattle.mr_world_stores.specs.Calls.{answer_of};

use crate::duty::Due;
use crate::fault::WorldFault;
use crate::parts::Parts;
use mr_container::Reply;
use mr_ids::AppAttempt;
use mr_master_model::{StoreAnswer, StoreCall};
use mr_names::{Caller, Namespace, Op};
use mr_packet::ContainerId;
use mr_world_actors::Shared;
use mr_world_events::{Event, Weather};
use mr_world_stores::{ContainerCall, names_answer};
use std::alloc::AllocError;

/// A store call of an event: who makes it, and what its caller hears of it.
#[derive(Drop)]
pub enum Asked {
    /// A master's, of the namespace or of the job history.
    Master {
        /// Its generation.
        app: AppAttempt,
        call: StoreCall,
        /// `Fault` in bad weather.
        answer: StoreAnswer,
    },
    /// A container's, of the namespace.
    Container {
        /// The generation of its master, and its attempt.
        caller: Caller,
        op: Op,
        /// `Fault` in bad weather.
        reply: Reply,
    },
}

impl Parts {
    /// The store call of an event that would be taken now; none where it makes none.
    pub fn asked(&self, event: &Event) -> Result<Option<Asked>, WorldFault>
        ensures { Looks self.now event.now result }
    {
        match event {
            Event::Duty {
                generation,
                weather,
            } => self.asked_in_duty(*generation, *weather),
            Event::ContainerStep { container, weather } => self.asked_in_step(container, *weather),
            Event::Start { .. }
            | Event::Crash { .. }
            | Event::LaunchOn { .. }
            | Event::Deliver { .. }
            | Event::Computed { .. }
            | Event::Die { .. }
            | Event::NodeRestart { .. }
            | Event::Expire { .. } => Ok(None),
        }
    }

    // That of a master's duty.
    fn asked_in_duty(&self, k: u32, weather: Weather) -> Result<Option<Asked>, WorldFault>
        ensures { Looks self.now (Duty k weather) result }
    {
        let Due { app, duty, answer } = self.foresee_duty(k, weather)?;
        let call = duty.into_call();
        Ok(Some(Asked::Master { app, call, answer }))
    }

    // That of a container's step.
    fn asked_in_step(&self, c: &ContainerId, weather: Weather) -> Result<Option<Asked>, WorldFault>
        ensures { Looks self.now (ContainerStep c.now weather) result }
    {
        match self.foresee_call(c, weather)? {
            Some(call) => Ok(Some(heard(&self.names, call, weather)?)),
            None => Ok(None),
        }
    }
}

// A container's call, with what it hears in this weather.
fn heard(
    names: &Shared<Namespace>,
    call: ContainerCall,
    weather: Weather,
) -> Result<Asked, AllocError>
    ensures { IfOk result (λ asked. asked ≡ Asked.Container call.caller call.op (heard_in weather (answer_of names.now call).0)) }
{
    let reply = match weather {
        Weather::Calm => Reply::Answered(names_answer(names, call.caller, &call.op)?),
        Weather::Unavailable | Weather::Unanswered => Reply::Fault,
    };
    let ContainerCall { caller, op } = call;
    Ok(Asked::Container { caller, op, reply })
}
