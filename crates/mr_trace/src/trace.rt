//! The trace of a run: its events in words, each with its line of the script, its store call and its packets.
ghost use Rattle.std.specs.Prelude.{◌≡◌, ◌++◌, ◌∷◌, [], OnOk, IfOk, IfErr, OnErr, drop};
ghost use Rattle.mr_sim_commands.specs.declared.fault.SimFault.TheVariants.{NoMemory};
ghost use Rattle.mr_world_model.specs.Sending.{sent};
ghost use Rattle.mr_play.specs.mr_world.specs.Applying.{CanHappen};
ghost use Rattle.mr_play.specs.mr_world.specs.Journal.{world_in};
ghost use Rattle.mr_play.specs.mr_world.specs.Repeating.{CanFollow};
ghost use Rattle.mr_trace.specs.Happened.{happened, happened_behind, maker_of, name_of};
ghost use Rattle.mr_trace.specs.Trace.{beginning_text, line_text, lines_text, named_text, packets_text, trace_text};

use crate::asked::put_asked;
use crate::makers::{Makers, left_at, maker_of, put_maker};
use crate::trace_words::{put_envelope, put_event, put_number};
use mr_packet::Envelope;
use mr_play::mr_world::{Config, World, WorldFault};
use mr_play::{duty_event, read, wish_event};
use mr_script::{EventName, event_word};
use mr_sim_commands::SimFault;
use mr_world_events::Event;
use std::alloc::{AllocError, Global};

/// A line for each event of a world's journal. It has its place there, the event in the words of a script, what the
/// duty or the wish was, and who made it. Then come its store call with the answer, and the packets that it added.
/// For this the events happen once more, in a world of their own. It fails by nothing but an allocation failure.
pub fn trace_of(alloc: Global, world: &World, makers: &Makers<'_>) -> Result<Vec<u8>, SimFault>
    ensures text { IfOk result (λ text. text.items ≡ trace_text (maker_of makers.now) world.now) }
    ensures memory { IfErr result (λ e. e ≡ SimFault.NoMemory) }
{
    let mut out = Vec::new(alloc);
    let mut again = opened(alloc, world.config())?;
    world.repeats();
    put_lines(&mut out, &mut again, world.journal(), makers)?;
    Ok(out)
}

/// A world at its beginning, of an equal config.
pub fn opened(alloc: Global, config: &Config) -> Result<World, AllocError>
    ensures { IfOk result (λ world. world ≡ record { config = config.now; events = [] }) }
{
    read(World::new(alloc, config.copy()?))
}

// A line for each of these events, which happen in this world.
#[tactic(auto, using(crate::proofs::Tracing::one_more))]
fn put_lines(
    out: &mut Vec<u8>,
    world: &mut World,
    events: &[Event],
    makers: &Makers<'_>,
) -> Result<(), AllocError>
    requires { CanFollow world.old.config world.old.events events.now }
    ensures { OnOk result (out.new.items ≡ out.old.items ++ lines_text (happened_behind (maker_of makers.now) world.old.config world.old.events events.now)) }
{
    let mut left = *makers;
    for event in events {
        left = left_at(&left, world.journal().len());
        put_line(out, world, event, &left)?;
    }
    Ok(())
}

// The line of an event, which happens in this world.
#[tactic(auto, using(crate::proofs::Tracing::line_is))]
fn put_line(
    out: &mut Vec<u8>,
    world: &mut World,
    event: &Event,
    makers: &Makers<'_>,
) -> Result<(), AllocError>
    requires { CanHappen world.old event.now }
    ensures text { OnOk result (out.new.items ≡ out.old.items ++ line_text (happened (maker_of makers.now) world.old event.now)) }
    ensures world { OnOk result (world.new ≡ record { config = world.old.config; events = world.old.events ++ event.now ∷ [] }) }
{
    let first = world.bag().len();
    put_beginning(out, world, event, makers)?;
    happen(world, event)?;
    put_packets(out, world.bag(), first)?;
    out.extend_from_slice(b"\n")
}

// What is known of an event before it happens.
fn put_beginning(
    out: &mut Vec<u8>,
    world: &World,
    event: &Event,
    makers: &Makers<'_>,
) -> Result<(), AllocError>
    ensures { OnOk result (out.new.items ≡ out.old.items ++ beginning_text (happened (maker_of makers.now) world.now event.now)) }
{
    put_number(out, b"", world.journal().len() as u64)?;
    out.extend_from_slice(b": ")?;
    put_event(out, event)?;
    put_name(out, name_of(world, event)?)?;
    put_maker(out, maker_of(world, makers))?;
    put_asked(out, b" | ", world, event)
}

/// An event of a journal happens once more in a world of its own, and its packets are the last of the bag. Where there
/// is no memory for it nothing has changed.
pub fn happen(world: &mut World, event: &Event) -> Result<(), AllocError>
    requires { CanHappen world.old event.now }
    ensures journal { OnOk result (world.new ≡ record { config = world.old.config; events = world.old.events ++ event.now ∷ [] }) }
    ensures packets { OnOk result ((world_in world.new).bag ≡ (world_in world.old).bag ++ sent world.old.config (world_in world.old) event.now) }
    ensures unchanged { OnErr result (world.new ≡ world.old) }
{
    let copy = event.copy()?;
    match world.apply(copy) {
        Ok(_) => Ok(()),
        Err(WorldFault::NoMemory) => Err(AllocError),
        Err(WorldFault::NotNow(_)) => unreachable!(),
        Err(WorldFault::Full) => unreachable!(),
    }
}

// The packets from this place of the bag on.
fn put_packets(out: &mut Vec<u8>, bag: &[Envelope], first: usize) -> Result<(), AllocError>
    ensures { OnOk result (out.new.items ≡ out.old.items ++ packets_text first (drop first bag.now)) }
{
    for place in first..bag.len() {
        put_envelope(out, place, &bag[place])?;
    }
    Ok(())
}

// A name behind a space.
fn put_name(out: &mut Vec<u8>, name: Option<EventName>) -> Result<(), AllocError>
    ensures { OnOk result (out.new.items ≡ out.old.items ++ named_text name) }
{
    match name {
        Some(name) => {
            out.extend_from_slice(b" ")?;
            out.extend_from_slice(event_word(name))
        }
        None => Ok(()),
    }
}

/// What the duty of a master, or the wish of a container, is before the event.
pub fn name_of(world: &World, event: &Event) -> Result<Option<EventName>, AllocError>
    ensures { IfOk result (λ name. name ≡ name_of world.now event.now) }
{
    match event {
        Event::Duty { generation: k, .. } => match read(world.duty(*k))? {
            Some(duty) => Ok(Some(duty_event(duty))),
            None => Ok(None),
        },
        Event::ContainerStep { container: c, .. } => match world.wish(c) {
            Some(wish) => Ok(wish_event(&wish)),
            None => Ok(None),
        },
        Event::Start { .. }
        | Event::Crash { .. }
        | Event::LaunchOn { .. }
        | Event::Deliver { .. }
        | Event::Computed { .. }
        | Event::Die { .. }
        | Event::NodeRestart { .. }
        | Event::Expire { .. } => Ok(None),
    }
}
