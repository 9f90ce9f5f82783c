//! What a board is once it is closed.
ghost use Rattle.std.specs.Prelude.{◌≡◌, length};
ghost use Rattle.mr_user.specs.Computation.{computation};
ghost use Rattle.mr_board.specs.Boards.{IsFaithfulFor};

use mr_user::Job;
use mr_world::World;
use std::marker::{Model, PhantomData};

/// A board whose seats accounted for its journal: its world, and for each event of the journal the number of the seat that made it. `Board::close` alone
/// makes it.
#[derive(Drop)]
pub struct Closed<J: Job> {
    world: World,
    by: Vec<u32>,
    of: PhantomData<J>,
}

impl<J: Job> Model for Closed<J> {
    ghost use Rattle.std.specs.Prelude.{◌≡◌, length};
    ghost use Rattle.mr_user.specs.Computation.{computation};
    ghost use Rattle.mr_board.specs.Boards.{Accounted, IsFaithfulFor};

    ghost Value = { Accounted };

    ghost view = { λ c. record { world = c.world; by = c.by.items } };

    ghost invariant = { λ c. IsFaithfulFor (computation J.Key.cmp J.Key.codec J.Value.codec J.functions) c.world × (length c.by.items ≡ length c.world.events) };
}

impl<J: Job> Closed<J> {
    // Of a board whose seats account for its journal.
    pub(crate) fn new(world: World, by: Vec<u32>) -> Closed<J>
        requires faithful { IsFaithfulFor (computation J.Key.cmp J.Key.codec J.Value.codec J.functions) world }
        requires noted { length by.items ≡ length world.events }
        ensures { (result.world ≡ world) × (result.by ≡ by.items) }
    {
        Closed {
            world,
            by,
            of: PhantomData,
        }
    }

    /// Its world, to be read.
    pub fn world(&self) -> &World
        ensures { result.now ≡ self.now.world }
    {
        &self.world
    }

    /// Its world, whose journal is faithful, and for each event of the journal the number of the seat that made it.
    pub fn into_parts(self) -> (World, Vec<u32>)
        ensures parts { (result.0 ≡ self.world) × (result.1.items ≡ self.by) }
        ensures faithful { IsFaithfulFor (computation J.Key.cmp J.Key.codec J.Value.codec J.functions) self.world }
        ensures noted { length self.by ≡ length self.world.events }
    {
        let Closed { world, by, of: _ } = self;
        (world, by)
    }
}
