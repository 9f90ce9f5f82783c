//! Events once more, for a world of its own that is as far.
ghost use Rattle.std.specs.Prelude.{◌≡◌, ◌++◌, ◌∷◌, [], IfOk, OnOk};

use mr_world_events::Event;
use std::alloc::{AllocError, Global};

// Copies have room for so many more: most worlds that are copied go on.
const MORE: usize = 16;

/// Equal events.
pub fn copy_events(alloc: Global, events: &[Event]) -> Result<Vec<Event>, AllocError>
    ensures { IfOk result (λ copies. copies.items ≡ events.now) }
{
    let mut copies = Vec::with_capacity(alloc, events.len().saturating_add(MORE))?;
    for event in events {
        push_copy(&mut copies, event)?;
    }
    Ok(copies)
}

// A copy of one more event. Each kind is built where it comes to lie: to build it elsewhere and move it takes several times as long.
fn push_copy(copies: &mut Vec<Event>, event: &Event) -> Result<(), AllocError>
    ensures { OnOk result (copies.new.items ≡ copies.old.items ++ event.now ∷ []) }
{
    match *event {
        Event::Start { generation, kept } => copies.push(Event::Start { generation, kept })?,
        Event::Crash { generation, kept } => copies.push(Event::Crash { generation, kept })?,
        Event::Duty {
            generation,
            weather,
        } => copies.push(Event::Duty {
            generation,
            weather,
        })?,
        Event::LaunchOn {
            generation,
            task,
            node,
        } => copies.push(Event::LaunchOn {
            generation,
            task,
            node,
        })?,
        Event::Deliver { packet } => copies.push(Event::Deliver { packet })?,
        Event::ContainerStep { container, weather } => copies.push(Event::ContainerStep {
            container,
            weather,
        })?,
        Event::Computed {
            container,
            ref bytes,
        } => copies.push(Event::Computed {
            container,
            bytes: bytes.copy()?,
        })?,
        Event::Die { container } => copies.push(Event::Die { container })?,
        Event::NodeRestart { node } => copies.push(Event::NodeRestart { node })?,
        Event::Expire { generation, node } => copies.push(Event::Expire { generation, node })?,
    }
    Ok(())
}
