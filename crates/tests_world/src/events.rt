//! Events that many tests make. A master's store call is answered.

use mr_world::{Event, Weather};

/// The master of this generation starts. Of what was not flushed nothing stays.
pub fn start(generation: u32) -> Event {
    Event::Start {
        generation,
        kept: 0,
    }
}

/// The master of this generation crashes.
pub fn crash(generation: u32, kept: u64) -> Event {
    Event::Crash { generation, kept }
}

/// The master of this generation makes the store call that is due.
pub fn store_call(generation: u32) -> Event {
    Event::Duty {
        generation,
        weather: Weather::Calm,
    }
}
