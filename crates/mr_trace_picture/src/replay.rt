//! A run that happens once more, event by event.
ghost use Rattle.std.specs.Prelude.{◌≡◌, [], IfOk, OnOk, OnErr};
ghost use Rattle.std.specs.Option.{option_map};
ghost use Rattle.std.specs.List.{slice_get};
ghost use Rattle.mr_trace_picture.specs.Replaying.{one_further};

use mr_trace::mr_world::World;
use mr_trace::{happen, opened};
use mr_world_events::Event;
use std::alloc::{AllocError, Global};
use std::marker::Model;

/// A world in which the events of another one's journal happen once more, each in its turn. Contracts see the world, and
/// the events that are left.
pub struct Replay<'a> {
    world: World,
    left: &'a [Event],
}

// By hand, as for a world: a derived drop is taken apart by the check at each place where one is dropped.
impl<'a> Drop for Replay<'a> {
    fn drop(self) {
        let Replay { world: _, left: _ } = self;
    }
}

impl<'a> Model for Replay<'a> {
    ghost use Rattle.mr_trace_picture.specs.Replaying.{Replaying};
    ghost use Rattle.mr_trace.specs.mr_world.specs.Repeating.{CanFollow};

    ghost Value = { Replaying };

    ghost view = { λ r. record { so_far = r.world; left = r.left.now } };

    ghost invariant = { λ r. CanFollow r.world.config r.world.events r.left.now };
}

impl<'a> Replay<'a> {
    /// A world at its beginning, of an equal config, with the whole journal of this one left. Its only fault is an
    /// allocation failure.
    pub fn new(alloc: Global, world: &'a World) -> Result<Replay<'a>, AllocError>
        ensures { IfOk result (λ replay. replay ≡ record { so_far = record { config = world.now.config; events = [] }; left = world.now.events }) }
    {
        let again = opened(alloc, world.config())?;
        world.repeats();
        Ok(Replay {
            world: again,
            left: world.journal(),
        })
    }

    /// The world, as it is now.
    pub fn world(&self) -> &World
        ensures { result.now ≡ self.now.so_far }
    {
        &self.world
    }

    /// The event that happens next; none where none is left.
    pub fn next_event(&self) -> Option<&'a Event>
        ensures { option_map (λ event. event.now) result ≡ slice_get self.now.left 0 }
    {
        self.left.first()
    }

    /// The next event happens, if one is left. Where there is no memory for it nothing has changed.
    pub fn happen(&mut self) -> Result<(), AllocError>
        ensures happens { OnOk result (self.new ≡ one_further self.old.so_far self.old.left) }
        ensures unchanged { OnErr result (self.new ≡ self.old) }
    {
        if let Some((event, rest)) = self.left.split_first() {
            happen(&mut self.world, event)?;
            self.left = rest;
        }
        Ok(())
    }
}
