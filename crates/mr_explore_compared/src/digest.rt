//! What a mark tells of a run's events. It is kept of those up to the last fault.

use crate::marking::of_packet;
use mr_packet::Envelope;
use mr_play::mr_world::World;
use mr_world_events::Event;

/// What the first events of a run tell: which packets they delivered, in whatever order and however often, as a bit for each in two words; and how many store calls the newest
/// master made.
#[derive(Clone, Copy, Debug)]
pub struct Digest {
    low: u64,
    high: u64,
    newest: u32,
    calls: u64,
    // How many events these are.
    events: usize,
}

impl Digest {
    /// No event was looked at.
    pub fn new() -> Digest {
        Digest {
            low: 0,
            high: 0,
            newest: 0,
            calls: 0,
            events: 0,
        }
    }

    /// What all events of a world tell. Those that were looked at come first among them.
    pub fn of_all(self, world: &World) -> Digest {
        let mut digest = self;
        let journal = world.journal();
        if let Some(events) = journal.get(self.events..) {
            for event in events {
                digest.add(world.bag(), event);
            }
        }
        digest.events = journal.len();
        digest
    }

    /// The two words of packets, and how many store calls.
    pub fn numbers(&self) -> [u64; 3] {
        [self.low, self.high, self.calls]
    }

    // An event more.
    fn add(&mut self, bag: &[Envelope], event: &Event) {
        match event {
            Event::Deliver { packet } => {
                if let Some(envelope) = bag.get(*packet as usize) {
                    self.deliver(envelope);
                }
            }
            Event::Start { generation, .. } => {
                self.newest = *generation;
                self.calls = 0;
            }
            Event::Duty { generation, .. } => self.call(*generation),
            _ => {}
        }
    }

    // A store call more was made by the master of a generation.
    fn call(&mut self, generation: u32) {
        if generation == self.newest {
            self.calls = self.calls.wrapping_add(1);
        }
    }

    // A packet more was delivered.
    fn deliver(&mut self, packet: &Envelope) {
        let number = of_packet(1, packet);
        self.low |= bit(number >> 58);
        self.high |= bit(number >> 52);
    }
}

// One of 64 bits.
fn bit(number: u64) -> u64 {
    1 << (number % 64)
}
