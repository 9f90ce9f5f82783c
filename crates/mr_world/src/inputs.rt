//! What is read of a container that lives.
//! What it was launched as, its wish, and what it is to compute from: for programs that run a world.
ghost use Rattle.std.specs.Prelude.{◌≡◌};
ghost use Rattle.std.specs.Option.{option_map};
ghost use Rattle.mr_world_model.specs.World.{World};
ghost use Rattle.mr_world.specs.Readings.{as_input, input_in, place_in, wish_in};
ghost use Rattle.mr_world_state.specs.Standing.{Standing};

use mr_container::{Place, Wish};
use mr_ids::TaskKind;
use mr_packet::{Bytes, ContainerId};
use mr_world_state::Parts;

/// What a container is to compute from, lent from the world.
#[derive(Debug, PartialEq, Eq, Drop)]
pub enum Input<'a> {
    /// Of a map: the number of its split, and the bytes of that.
    Map { split: u32, bytes: &'a Bytes },
    /// Of a reduce: its number, and the piece that it fetched of each map, by the maps' numbers.
    Reduce { reduce: u32, pieces: &'a [Bytes] },
}

/// What a container was launched as; none where it is not alive.
pub fn place(parts: &Parts, c: &ContainerId) -> Option<Place>
    ensures { (w : World) → Standing parts.now w → result ≡ place_in w c.now }
{
    let machine = parts.living.get(c)?;
    Some(machine.place())
}

/// What a container wishes to do next; none where it is not alive.
pub fn wish(parts: &Parts, c: &ContainerId) -> Option<Wish>
    ensures { (w : World) → Standing parts.now w → result ≡ wish_in parts.now.config w c.now }
{
    let machine = parts.living.get(c)?;
    Some(machine.wish())
}

/// What a container is to compute from; none where it is not alive, or does not wish to compute.
pub fn input_of<'a>(parts: &'a Parts, c: &ContainerId) -> Option<Input<'a>>
    ensures { (w : World) → Standing parts.now w → option_map as_input result ≡ input_in parts.now.config w c.now }
{
    let machine = parts.living.get(c)?;
    if !machine.wish().is_computing() {
        return None;
    }
    let task = machine.place().attempt.task();
    match task.kind {
        TaskKind::Map => {
            let bytes = parts.config.split(task.number)?;
            Some(Input::Map {
                split: task.number,
                bytes,
            })
        }
        TaskKind::Reduce => Some(Input::Reduce {
            reduce: task.number,
            pieces: machine.blocks(),
        }),
    }
}
