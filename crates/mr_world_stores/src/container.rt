//! A container's store call, in any weather.
ghost use Rattle.std.specs.Prelude.{◌≡◌, ◌&&◌, OnOk, OnErr, IfOk};
ghost use Rattle.mr_names.specs.Calls.{refused};
ghost use Rattle.mr_world_model.specs.Stored.{left_in, heard_in};
ghost use Rattle.mr_world_stores.specs.Calls.{answer_of, is_full, is_made};

use crate::weather::is_made;
use mr_container::Reply;
use mr_names::{Answer, Caller, NameFault, Namespace, Op};
use mr_world_events::Weather;
use std::alloc::AllocError;

/// A container's store call, and who makes it.
#[derive(Drop)]
pub struct ContainerCall {
    /// The generation of its master, and its attempt.
    pub caller: Caller,
    /// What it asks of the namespace.
    pub op: Op,
}

/// Whether the call is made and would pass a limit of the namespace.
pub fn would_be_full(names: &Namespace, call: &ContainerCall, weather: Weather) -> bool
    ensures { result ≡ (is_made weather && is_full (refused names.now call.now.caller call.now.op)) }
{
    is_made(weather) && is_full(names.foresee(call.caller, &call.op))
}

/// Whether a call of the namespace is refused for want of room.
pub fn is_full(refusal: Option<NameFault>) -> bool
    ensures { result ≡ is_full refusal }
{
    matches!(refusal, Some(NameFault::Full))
}

/// What its caller hears of a call, in this weather. Where memory is refused nothing has changed.
pub fn answer_container(
    names: &mut Namespace,
    call: &ContainerCall,
    weather: Weather,
) -> Result<Reply, AllocError>
    ensures heard { IfOk result (λ reply. reply ≡ heard_in weather (answer_of names.old call.now).0) }
    ensures left { OnOk result (names.new ≡ left_in weather names.old (answer_of names.old call.now).1) }
    ensures err { OnErr result (names.new ≡ names.old) }
{
    match weather {
        Weather::Calm => Ok(Reply::Answered(answer(names, call)?)),
        Weather::Unavailable => Ok(Reply::Fault),
        Weather::Unanswered => {
            let _lost = answer(names, call)?;
            Ok(Reply::Fault)
        }
    }
}

// The answer of a call: a refusal is one, an allocation failure is none.
fn answer(
    names: &mut Namespace,
    call: &ContainerCall,
) -> Result<Result<Answer, NameFault>, AllocError>
    ensures ok { IfOk result (λ answer. answer_of names.old call.now ≡ (answer, names.new)) }
    ensures err { OnErr result (names.new ≡ names.old) }
{
    match names.perform(call.caller, &call.op) {
        Ok(answer) => Ok(Ok(answer)),
        Err(NameFault::NoMemory) => Err(AllocError),
        Err(refusal) => Ok(Err(refusal)),
    }
}
