//! Which events share a row: where that is asked for, those that are parts of fetches and follow one another.
use mr_packet::Packet;
use mr_script::EventName;
use mr_trace::mr_world::World;
use mr_trace::name_of;
use mr_world_events::Event;
use std::alloc::{AllocError, Global};

/// The rows of the events that are drawn, in their order.
#[derive(Drop)]
pub struct Folds {
    /// The row of each event.
    pub rows: Vec<usize>,
    // Whether parts of fetches share a row.
    is_asked: bool,
    // Whether the last event is such a part.
    was_fetch: bool,
}

impl Folds {
    /// No row yet.
    pub fn new(alloc: Global, is_asked: bool) -> Folds {
        Folds {
            rows: Vec::new(alloc),
            is_asked,
            was_fetch: false,
        }
    }

    /// One event more. The world is that before it.
    pub fn add(&mut self, world: &World, event: &Event) -> Result<(), AllocError> {
        let is_fetch = is_fetch(world, event)?;
        let shares = self.is_asked && self.was_fetch && is_fetch;
        let row = row_behind(self.rows.last(), shares);
        self.rows.push(row)?;
        self.was_fetch = is_fetch;
        Ok(())
    }
}

// The row of an event behind that of the last one, which it may share.
fn row_behind(last: Option<&usize>, shares: bool) -> usize {
    match last {
        Some(row) => row.saturating_add(usize::from(!shares)),
        None => 0,
    }
}

// Whether an event is a part of a fetch: a container asks where a map's output lies, or for a block of it, and hears the answer.
fn is_fetch(world: &World, event: &Event) -> Result<bool, AllocError> {
    match event {
        Event::Deliver { packet: i } => Ok(is_of_fetch(world, *i)),
        Event::ContainerStep { .. } => Ok(matches!(
            name_of(world, event)?,
            Some(EventName::Where | EventName::Fetch)
        )),
        _ => Ok(false),
    }
}

fn is_of_fetch(world: &World, packet: u64) -> bool {
    match world.bag().get(packet as usize) {
        Some(envelope) => matches!(
            envelope.body,
            Packet::Where { .. }
                | Packet::MapReady { .. }
                | Packet::Fetch { .. }
                | Packet::Piece { .. }
        ),
        None => false,
    }
}
