//! Which events a script can say.
ghost use Rattle.std.specs.Prelude.{◌<◌, ◌^◌, IsTrue};
ghost use Rattle.std.specs.List.{AllByRecursion};
ghost use Rattle.mr_threads_shown.specs.inner.{IsSayable};

use mr_mapside::MAX_OUTPUT_LEN;
use mr_world_events::Event;

/// Whether no result among these events is longer than those that `compute` makes.
pub fn are_sayable(events: &[Event]) -> bool
    ensures { IsTrue result → AllByRecursion IsSayable events.now }
{
    for event in events {
        if !is_sayable(event) {
            return false;
        }
    }
    true
}

// The same of one event.
#[tactic(auto, unfolding(mr_world_model::specs::Sequential::most_output))]
fn is_sayable(event: &Event) -> bool
    ensures { IsTrue result → IsSayable event.now }
{
    match event {
        Event::Computed {
            container: _,
            bytes,
        } => bytes.len() <= MAX_OUTPUT_LEN,
        Event::Start {
            generation: _,
            kept,
        }
        | Event::Crash {
            generation: _,
            kept,
        } => has_word(*kept),
        Event::Duty { .. }
        | Event::LaunchOn { .. }
        | Event::Deliver { .. }
        | Event::ContainerStep { .. }
        | Event::Die { .. }
        | Event::NodeRestart { .. }
        | Event::Expire { .. } => true,
    }
}

// A script has a word for each number of bytes.
fn has_word(_bytes: u64) -> bool
    ensures { IsTrue result → _bytes < 2 ^ 64 }
{
    true
}
