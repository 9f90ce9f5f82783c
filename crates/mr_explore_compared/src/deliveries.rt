//! Whether what was delivered in one play was delivered in another.
ghost use Rattle.std.specs.Prelude.{◌<◌, IsTrue, IfSome, length};
ghost use Rattle.std.specs.List.{AllByRecursion};
ghost use Rattle.mr_play.specs.Players.{cluster_in};
ghost use Rattle.mr_explore_compared.specs.inner.Compared.{CameIn, CameToo, IsThis};

use crate::packets::is_one_packet;
use mr_play::Player;
use mr_world_events::Event;

/// Whether each packet that these events delivered lies in the bag, and one that is it was delivered by the others.
pub fn have_come(here: &Player, events: &[Event], there: &Player, others: &[Event]) -> bool
    ensures { IsTrue result → AllByRecursion (CameToo here.now there.now others.now) events.now }
{
    // Most came in one order: the next one is looked for first where the last one was found.
    let mut first = 0;
    for event in events {
        match came_too(here, event, there, others, first) {
            Some(at) => first = at,
            None => return false,
        }
    }
    true
}

// Where the other events delivered what this one did, if they did. They are looked through from `first` on, and then up to there. Where it delivered nothing, `first`.
fn came_too(
    here: &Player,
    event: &Event,
    there: &Player,
    others: &[Event],
    first: usize,
) -> Option<usize>
    ensures { IfSome result (λ at. CameToo here.now there.now others.now event.now) }
{
    match event {
        Event::Deliver { packet } => {
            if has_lain(here, *packet) {
                came(here, *packet, there, others, first)
            } else {
                None
            }
        }
        _ => Some(first),
    }
}

// Whether a packet lies at this place.
fn has_lain(here: &Player, i: u64) -> bool
    ensures { IsTrue result → i < length (cluster_in here.now).bag }
{
    i < here.world.bag().len() as u64
}

// Where one of the events delivered the packet that is the one at this place, if one did.
fn came(here: &Player, i: u64, there: &Player, others: &[Event], first: usize) -> Option<usize>
    ensures { IfSome result (λ at. CameIn here.now there.now i others.now) }
{
    match came_between(here, i, there, others, first, others.len()) {
        Some(at) => Some(at),
        None => came_between(here, i, there, others, 0, first),
    }
}

// The same, of the events from one place up to another.
fn came_between(
    here: &Player,
    i: u64,
    there: &Player,
    others: &[Event],
    from: usize,
    to: usize,
) -> Option<usize>
    ensures { IfSome result (λ at. CameIn here.now there.now i others.now) }
{
    for at in from..to {
        if came_at(here, i, there, others, at) {
            return Some(at);
        }
    }
    None
}

// Whether the event at this place did.
fn came_at(here: &Player, i: u64, there: &Player, others: &[Event], at: usize) -> bool
    ensures { IsTrue result → CameIn here.now there.now i others.now }
{
    match others.get(at) {
        Some(event) => is_this(here, i, there, event),
        None => false,
    }
}

// Whether this event did.
fn is_this(here: &Player, i: u64, there: &Player, event: &Event) -> bool
    ensures { IsTrue result → IsThis here.now there.now i event.now }
{
    match event {
        Event::Deliver { packet } => is_one_packet(here, there, i, *packet),
        _ => false,
    }
}
