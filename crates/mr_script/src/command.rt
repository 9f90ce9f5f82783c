//! What a line of a script says: that an event happens, that a container computes, that a calm begins, that a packet is lost, or what is expected.
use crate::event_name::EventName;
use crate::expectation::Expectation;
use mr_packet::ContainerId;
use mr_world_events::Event;

/// How far a calm goes, where nothing else ends it.
#[derive(Clone, Copy, Debug, PartialEq, Eq)]
pub enum Until {
    /// It makes at most 10,000 events.
    Most,
    /// It stops where an event of this name would be next, and makes at most 10,000 events.
    Before(EventName),
    /// It goes on until its master is through, or nothing is left to do, however many events that takes.
    Through,
}

/// A command of a script.
#[derive(Drop)]
pub enum Command {
    /// This event happens. (A script names no computed bytes.)
    Makes(Event),
    /// The container computes what it wishes to compute.
    Compute(ContainerId),
    /// Events happen without a fault until the master of this generation is through, or up to where the line says.
    Calm(u32, Until),
    /// The packet at this place of the bag, from 0, is lost: every later calm passes it over.
    Drop(u64),
    /// This is expected to be so now.
    Expect(Expectation),
}
