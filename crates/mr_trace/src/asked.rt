//! What an event asks of a store, and what its caller hears.
ghost use Rattle.std.specs.Prelude.{◌≡◌, ◌++◌, OnOk, Some, []};
ghost use Rattle.mr_play.specs.mr_world.specs.Asks.{asked_in};
ghost use Rattle.mr_trace.specs.Trace.{asked_text, call_text, heard_text, weather_of};

use crate::call_words::{put_op, put_reply, put_store_answer, put_store_call};
use mr_play::mr_world::{Asked, World};
use mr_play::read;
use mr_world_events::{Event, Weather};
use std::alloc::AllocError;

/// The store call that an event would make now, and its answer. Nothing where it makes none.
pub fn put_call(out: &mut Vec<u8>, world: &World, event: &Event) -> Result<(), AllocError>
    ensures { OnOk result (out.new.items ≡ out.old.items ++ asked_text [] (weather_of event.now) (asked_in world.now event.now)) }
{
    put_asked(out, b"", world, event)
}

/// A word, the store call that an event would make now, and its answer. Nothing where it makes none.
pub fn put_asked(
    out: &mut Vec<u8>,
    word: &[u8],
    world: &World,
    event: &Event,
) -> Result<(), AllocError>
    ensures { OnOk result (out.new.items ≡ out.old.items ++ asked_text word.now (weather_of event.now) (asked_in world.now event.now)) }
{
    match read(world.asks(event))? {
        Some(asked) => put_told(out, word, event, &asked),
        None => Ok(()),
    }
}

// A word, a store call, and what its caller heard.
fn put_told(out: &mut Vec<u8>, word: &[u8], event: &Event, asked: &Asked) -> Result<(), AllocError>
    ensures { OnOk result (out.new.items ≡ out.old.items ++ asked_text word.now (weather_of event.now) (Some asked.now)) }
{
    out.extend_from_slice(word)?;
    put_call_of(out, asked)?;
    out.extend_from_slice(b": ")?;
    put_heard(out, event, asked)
}

/// A store call.
pub fn put_call_of(out: &mut Vec<u8>, asked: &Asked) -> Result<(), AllocError>
    ensures { OnOk result (out.new.items ≡ out.old.items ++ call_text asked.now) }
{
    match asked {
        Asked::Master { call, .. } => put_store_call(out, call),
        Asked::Container { op, .. } => put_op(out, op),
    }
}

/// What the caller heard of a store call that this event makes.
pub fn put_heard(out: &mut Vec<u8>, event: &Event, asked: &Asked) -> Result<(), AllocError>
    ensures { OnOk result (out.new.items ≡ out.old.items ++ heard_text (weather_of event.now) asked.now) }
{
    let weather = weather_of(event);
    match asked {
        Asked::Master { answer, .. } => put_store_answer(out, weather, answer),
        Asked::Container { reply, .. } => put_reply(out, weather, reply),
    }
}

// What befalls the store call of an event.
fn weather_of(event: &Event) -> Weather
    ensures { result ≡ weather_of event.now }
{
    match event {
        Event::Duty { weather, .. } | Event::ContainerStep { weather, .. } => *weather,
        Event::Start { .. }
        | Event::Crash { .. }
        | Event::LaunchOn { .. }
        | Event::Deliver { .. }
        | Event::Computed { .. }
        | Event::Die { .. }
        | Event::NodeRestart { .. }
        | Event::Expire { .. } => Weather::Calm,
    }
}
