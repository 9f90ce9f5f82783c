//! Whether a run goes on in vain: all who live wait for their masters, and all that comes is that they ask, and that nothing is answered, or no.
ghost use Rattle.std.specs.Prelude.{◌≡◌, filter, length, IfOk};
ghost use Rattle.std.specs.List.{list_all, list_any};
ghost use Rattle.mr_explore_faults.specs.Kinds.{is_delivery};
ghost use Rattle.mr_play.specs.mr_world.specs.Journal.{world_in};
ghost use Rattle.mr_play.specs.mr_world.specs.Readings.{living};
ghost use Rattle.mr_explore.specs.Vain.{all_come, all_wait, ask_behind, asked_last, asks, asks_in, comes, count_of, is_asking, is_step, is_waiting, most_ahead, only_ask, step_twice, waits};
ghost use Rattle.mr_explore.specs.inner.Players.{asks_on_in, vain_in};

use mr_container::Wish;
use mr_packet::{ContainerId, Envelope, Packet};
use mr_play::mr_world::{MAX_CONTAINERS, World};
use mr_play::{Player, PlayerFault, read};
use mr_world_events::Event;
use std::alloc::{AllocError, Global};

// Two questions and two answers.
const PACKETS_OF_A_CONTAINER: usize = 4;
// Four steps, their questions, and the answers.
const EVENTS_OF_A_CONTAINER: usize = 12;
// Then all that came of them has come where another step is made.
const STEPS_OF_A_CONTAINER: usize = 2;

/// Whether the run goes on in vain. Its only fault is an allocation failure.
#[tactic(auto, using(crate::proofs::Unasked::nobody_waits))]
pub fn is_in_vain(alloc: Global, player: &Player) -> Result<bool, AllocError>
    ensures { IfOk result (λ vain. vain ≡ vain_in player.now) }
{
    // Whoever waits has asked last. Most runs are not so far.
    if !asked_last(player.world.bag(), PACKETS_OF_A_CONTAINER) {
        return Ok(false);
    }
    let living = living(&player.world)?;
    if all_wait(&player.world, &living) {
        asks_on(alloc, player, &living)
    } else {
        Ok(false)
    }
}

/// The containers that are alive.
pub fn living(world: &World) -> Result<Vec<ContainerId>, AllocError>
    ensures { IfOk result (λ all. all.items ≡ living world.now.config (world_in world.now)) }
{
    Ok(read(world.living())?)
}

// A world has no more than MAX_CONTAINERS.
fn count(living: &[ContainerId]) -> usize
    ensures { result ≡ count_of living.now }
{
    living.len().min(MAX_CONTAINERS as usize)
}

// Whether somebody lives, all of them wait, and nothing was sent last but what is asked and answered so.
fn all_wait(world: &World, living: &[ContainerId]) -> bool
    ensures { result ≡ all_wait world.now.config (world_in world.now) living.now }
{
    let packets = PACKETS_OF_A_CONTAINER * count(living);
    living.len() > 0 && asked_last(world.bag(), packets) && each_waits(world, living)
}

fn each_waits(world: &World, living: &[ContainerId]) -> bool
    ensures { result ≡ list_all (waits world.now.config (world_in world.now)) living.now }
{
    living.iter().all(|c| waits(world, c))
}

// Whether the container asks its master, or reports to it, until it is answered.
fn waits(world: &World, c: &ContainerId) -> bool
    ensures { result ≡ waits world.now.config (world_in world.now) c.now }
{
    match world.wish(c) {
        Some(wish) => is_waiting(&wish),
        None => false,
    }
}

fn is_waiting(wish: &Wish) -> bool
    ensures { result ≡ is_waiting wish.now }
{
    matches!(
        wish,
        Wish::Where { .. } | Wish::Pending | Wish::Poll | Wish::Report
    )
}

// Whether the last `most` packets are questions, or tell that a container may not commit yet.
fn asked_last(bag: &[Envelope], most: usize) -> bool
    ensures { result ≡ asked_last most bag.now }
{
    if bag.len() < most {
        return false;
    }
    let from = bag.len() - most;
    all_in(&bag[from..])
}

fn all_in(packets: &[Envelope]) -> bool
    ensures { result ≡ list_all asks_in packets.now }
{
    packets.iter().all(|envelope| asks_in(envelope))
}

/// Whether the packet only asks, or tells that a container may not commit yet.
pub fn asks_in(envelope: &Envelope) -> bool
    ensures { result ≡ asks_in envelope.now }
{
    is_asking(&envelope.body)
}

fn is_asking(packet: &Packet) -> bool
    ensures { result ≡ is_asking packet.now }
{
    match packet {
        Packet::Where { .. } | Packet::Pending { .. } | Packet::Poll { .. } | Packet::Done { .. } =>
            true,
        Packet::Answer { yes, .. } => !*yes,
        _ => false,
    }
}

// Whether the next events of the calm only ask.
fn asks_on(alloc: Global, player: &Player, living: &[ContainerId]) -> Result<bool, AllocError>
    ensures { IfOk result (λ on. on ≡ asks_on_in player.now living.now) }
{
    let mut ahead = player.fork(alloc)?;
    ahead_asks(alloc, &mut ahead, living)
}

// The same. The player makes the events.
fn ahead_asks(alloc: Global, ahead: &mut Player, living: &[ContainerId]) -> Result<bool, AllocError>
    ensures { IfOk result (λ on. on ≡ asks_on_in ahead.old living.now) }
{
    let before = ahead.world.journal().len();
    let sent = ahead.world.bag().len();
    let newest = ahead.world.newest();
    match ahead.calm_for(alloc, newest, None, most_ahead(living) as u64) {
        Ok(()) => Ok(ask_behind(&ahead.world, living, before, sent)),
        Err(PlayerFault::Full) => Ok(false),
        Err(PlayerFault::NoMemory) => Err(AllocError),
    }
}

// How many events are looked at.
fn most_ahead(living: &[ContainerId]) -> usize
    ensures { result ≡ most_ahead living.now }
{
    EVENTS_OF_A_CONTAINER * count(living)
}

// Whether there are as many events behind the first `before` as are looked at, and they only ask. The packets that they sent lie from
// place `sent` on.
fn ask_behind(world: &World, living: &[ContainerId], before: usize, sent: usize) -> bool
    ensures { result ≡ ask_behind living.now before sent (world_in world.now) world.now.events }
{
    let events = world.journal();
    if events.len() < before {
        return false;
    }
    let made = &events[before..];
    made.len() == most_ahead(living) && only_ask(world, living, made, sent)
}

// Whether the events only ask, and what they sent came.
fn only_ask(world: &World, living: &[ContainerId], events: &[Event], sent: usize) -> bool
    ensures { result ≡ only_ask living.now sent (world_in world.now) events.now }
{
    step_twice(living, events) && all_ask(world.bag(), events) && all_come(world, events, sent)
}

// Whether each makes two steps, and one more comes.
fn step_twice(living: &[ContainerId], events: &[Event]) -> bool
    ensures { result ≡ step_twice living.now events.now }
{
    STEPS_OF_A_CONTAINER * count(living) < steps_among(events)
}

fn steps_among(events: &[Event]) -> usize
    ensures { result ≡ length (filter is_step events.now) }
{
    events.iter().filter(|event| is_step(event)).count()
}

fn is_step(event: &Event) -> bool
    ensures { result ≡ is_step event.now }
{
    matches!(event, Event::ContainerStep { .. })
}

// Whether each packet from this place on came, but the last, which may be on its way.
fn all_come(world: &World, events: &[Event], from: usize) -> bool
    ensures { result ≡ all_come (world_in world.now) events.now from }
{
    let last = world.bag().len().saturating_sub(1);
    for place in from..last {
        if !comes(world, events, place) {
            return false;
        }
    }
    true
}

// Whether one of the events delivers the packet, or it goes to nobody who is alive.
fn comes(world: &World, events: &[Event], place: usize) -> bool
    ensures { result ≡ comes (world_in world.now) events.now place }
{
    delivers(events, place as u64) || world.undeliverable(place).is_some()
}

fn delivers(events: &[Event], place: u64) -> bool
    ensures { result ≡ list_any (is_delivery place) events.now }
{
    events.iter().any(|event| match event {
        Event::Deliver { packet } => *packet == place,
        _ => false,
    })
}

fn all_ask(bag: &[Envelope], events: &[Event]) -> bool
    ensures { result ≡ list_all (asks bag.now) events.now }
{
    events.iter().all(|event| asks(bag, event))
}

// Whether a container makes a step, or what it asks comes, or that it may not commit yet.
fn asks(bag: &[Envelope], event: &Event) -> bool
    ensures { result ≡ asks bag.now event.now }
{
    match event {
        Event::ContainerStep { .. } => true,
        Event::Deliver { packet } => match bag.get(*packet as usize) {
            Some(envelope) => asks_in(envelope),
            None => false,
        },
        _ => false,
    }
}
