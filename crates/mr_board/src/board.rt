//! The board: a world, with a note of who made each of its events.
ghost use Rattle.std.specs.Prelude.{◌≡◌, ◌↔◌, ℕ, ◌<◌, [], length, IfOk, IfErr, IsTrue, OnErr, OnOk, Some, slice_get, vec_capacity, vec_len};
ghost use Rattle.mr_user.specs.Computation.{computation};
ghost use Rattle.mr_world_files.specs.Jobs.{job_of};
ghost use Rattle.mr_world_model.specs.Sequential.{CarriesDefinition};
ghost use Rattle.mr_world_model.specs.World.{Compute};
ghost use Rattle.mr_world.specs.Applying.{IsRefused};
ghost use Rattle.mr_world.specs.mr_world_state.specs.declared.fault.WorldFault.TheVariants.{Full};
ghost use Rattle.mr_world.specs.Headline.{HeadlineHolds};
ghost use Rattle.mr_world.specs.Journal.{world_in};
ghost use Rattle.mr_board.specs.Boards.{Account, Applies, Hands, IsDue, IsFaithfulFor, Makes, SeesSequentialFiles, Works, is_computed, why_not_due};

use crate::close::{Mismatch, accounts};
use crate::closed::Closed;
use crate::seat::Seat;
use crate::work::{Finished, Work, copied};
use mr_container_work::inputs_are_short;
use mr_packet::ContainerId;
use mr_user::Job;
use mr_world::{Took, World, WorldFault};
use mr_world_events::{Event, Why};
use mr_world_files::files_of_jobs_are_sequential;
use std::alloc::{AllocError, Global};
use std::marker::{Model, PhantomData};

/// A world in whose journal each result is what the job's functions give, and for each event of the journal the number of the seat that made it.
/// A board has a number, by which its seats are told from those of other boards. One thread holds it at a time; who shares it puts a lock round it.
#[derive(Drop)]
pub struct Board<J: Job> {
    number: u64,
    world: World,
    by: Vec<u32>,
    of: PhantomData<J>,
}

impl<J: Job> Model for Board<J> {
    ghost use Rattle.std.specs.Prelude.{◌≡◌, length};
    ghost use Rattle.mr_user.specs.Computation.{computation};
    ghost use Rattle.mr_board.specs.Boards.{IsFaithfulFor, Noted};

    ghost Value = { Noted };

    ghost view = { λ b. record { number = b.number; world = b.world; by = b.by.items } };

    ghost invariant = { λ b. IsFaithfulFor (computation J.Key.cmp J.Key.codec J.Value.codec J.functions) b.world × (length b.by.items ≡ length b.world.events) };
}

impl<J: Job> Board<J> {
    /// The board of this number over a world in which nothing has happened, and its seats, numbered from 0. Who has
    /// several boards gives each a number of its own, so that none is closed with the seats of another. It fails for
    /// want of memory alone.
    pub fn new(
        alloc: Global,
        _job: &J,
        number: u64,
        world: World,
        seats: u32,
    ) -> Result<(Board<J>, Vec<Seat>), AllocError>
        requires empty { world.events ≡ [] }
        requires some { 0 < seats }
        ensures board { IfOk result (λ r. (r.0.number ≡ number) × (r.0.world ≡ world) × (r.0.by ≡ [])) }
        ensures count { IfOk result (λ r. length r.1.items ≡ seats) }
        ensures seats { IfOk result (λ r. (i : ℕ) (s : _) → slice_get r.1.items i ≡ Some s → (s.board ≡ number) × (s.number ≡ i) × (s.made ≡ [])) }
    {
        let all = seats_of(alloc, number, seats)?;
        let board = Board {
            number,
            world,
            by: Vec::new(alloc),
            of: PhantomData,
        };
        Ok((board, all))
    }

    /// The world, to be read. Its journal is faithful: so where the success marker is, the files are the sequential execution's.
    pub fn world(&self) -> &World
        ensures world { result.now ≡ self.now.world }
        ensures faithful { IsFaithfulFor (computation J.Key.cmp J.Key.codec J.Value.codec J.functions) self.now.world }
        ensures headline { HeadlineHolds self.now.world self.now.world }
        ensures sequential { SeesSequentialFiles (computation J.Key.cmp J.Key.codec J.Value.codec J.functions) self.now.world }
    {
        files_of_jobs_are_sequential::<J>();
        self.world.config().ranges();
        &self.world
    }

    /// A copy of what a container is to compute.
    ///
    /// Refusals in order: `NotNow(NoContainer)` where it is not alive, `NotNow(WrongWish)` where it does not wish to compute, `NoMemory`.
    pub fn work(&self, alloc: Global, c: &ContainerId) -> Result<Work, WorldFault>
        ensures { Works self.now.world c.now result }
    {
        inputs_are_short();
        self.world.config().ranges();
        let Some(lent) = self.world.input(c) else {
            return Err(WorldFault::NotNow(self.why_not_due(c)));
        };
        let input = copied(alloc, lent)?;
        Ok(Work::new(*c, input, self.world.config().reduce_count()))
    }

    /// Makes an event from a seat: `World::apply`, whose answer it gives. An event that is taken gets the seat's number, and is the last of the seat's list.
    ///
    /// Refusals: `NotNow(WrongWish)` for every `Computed`, else those of `World::apply`, in its order. Nothing has changed then, in the seat either.
    pub fn apply_as(&mut self, seat: &mut Seat, event: Event) -> Result<Took, WorldFault>
        ensures applies { Applies self.old seat.old event result self.new seat.new }
        ensures headline { HeadlineHolds self.old.world self.new.world }
    {
        if is_computed(&event) {
            return Err(WorldFault::NotNow(Why::WrongWish));
        }
        self.make(seat, event)
    }

    /// Hands in what a work gave, from a seat.
    ///
    /// Refusals in order: `NotNow(NoContainer)` where the work's container is not alive, then `NotNow(WrongWish)`,
    /// then those of `World::apply` for the bytes. `WrongWish` is answered where the container does not wish to
    /// compute. It is answered too where it is to compute another input, or for another number of reduces. A refusal
    /// changes nothing.
    pub fn computed_as(&mut self, seat: &mut Seat, done: &Finished<J>) -> Result<Took, WorldFault>
        ensures hands { Hands self.old seat.old done.now result self.new seat.new }
        ensures headline { HeadlineHolds self.old.world self.new.world }
    {
        if !self.is_due(done) {
            return Err(WorldFault::NotNow(self.why_not_due(&done.container())));
        }
        match done.bytes().copy() {
            Ok(bytes) => self.make(
                seat,
                Event::Computed {
                    container: done.container(),
                    bytes,
                },
            ),
            Err(AllocError) => Err(self.refusal_of(done)),
        }
    }

    /// As `computed_as`, of a work that is given away: its bytes go into the journal and into the seat's list without another copy.
    ///
    /// Refusals are those of `computed_as`, in its order. Nothing has changed then; the work is dropped.
    pub fn hand_in_as(&mut self, seat: &mut Seat, done: Finished<J>) -> Result<Took, WorldFault>
        ensures hands { Hands self.old seat.old done result self.new seat.new }
        ensures unchanged { OnErr result (self.new ≡ self.old) }
        ensures full { IfErr result (λ fault. fault ≡ Full → IsRefused self.old.world (Compute done.container done.bytes) Full) }
        ensures headline { HeadlineHolds self.old.world self.new.world }
    {
        if !self.is_due(&done) {
            return Err(WorldFault::NotNow(self.why_not_due(&done.container())));
        }
        let (event, copy) = done.into_events();
        self.make_noted(seat, event, copy)
    }

    /// The board, closed, where the seats account for its journal. They do where all are of this board, their numbers differ, their lists have as many events
    /// together as the journal, and each list is the journal's events of its number, in order. Else `Mismatch`, and nothing is handed back.
    pub fn close(self, seats: Vec<Seat>) -> Result<Closed<J>, Mismatch>
        ensures closed { IfOk result (λ c. (c.world ≡ self.world) × (c.by ≡ self.by)) }
        ensures account { IfOk result (λ _. Account self.number self.by self.world.events seats.items) }
        ensures mismatch { IfErr result (λ _. ¬ Account self.number self.by self.world.events seats.items) }
    {
        if !accounts(&seats, self.number, &self.by, self.world.journal()) {
            return Err(Mismatch);
        }
        let Board {
            number: _,
            world,
            by,
            of: _,
        } = self;
        Ok(Closed::new(world, by))
    }

    /// Its world, whose journal is faithful. The seats are not asked, so nobody knows who made its events.
    pub fn into_world(self) -> World
        ensures world { result ≡ self.world }
        ensures faithful { IsFaithfulFor (computation J.Key.cmp J.Key.codec J.Value.codec J.functions) self.world }
    {
        let Board {
            number: _,
            world,
            by: _,
            of: _,
        } = self;
        world
    }

    // Why a container is given nothing to compute.
    fn why_not_due(&self, c: &ContainerId) -> Why
        ensures { result ≡ why_not_due self.now.world c.now }
    {
        match self.world.wish(c) {
            None => Why::NoContainer,
            Some(_) => Why::WrongWish,
        }
    }

    // Whether the container of a work is to compute just that work.
    fn is_due(&self, done: &Finished<J>) -> bool
        ensures { IsTrue result ↔ IsDue self.now.world done.now }
    {
        match self.world.input(&done.container()) {
            None => false,
            Some(lent) => done.is_of(lent, self.world.config().reduce_count()),
        }
    }

    // Why the world refuses the bytes of a work, for which there is no memory.
    fn refusal_of(&self, done: &Finished<J>) -> WorldFault
        ensures { IsRefused self.now.world (Compute done.now.container done.now.bytes) result }
    {
        match self.world.foresee_computed(&done.container(), done.bytes()) {
            Ok(()) => WorldFault::NoMemory,
            Err(fault) => fault,
        }
    }

    // Makes an event that carries the definition's bytes, if any. Where there is no memory for a copy, the world is asked why it would refuse the event. If it would
    // not, the event is refused for want of memory.
    fn make(&mut self, seat: &mut Seat, event: Event) -> Result<Took, WorldFault>
        requires carries { CarriesDefinition (job_of (computation J.Key.cmp J.Key.codec J.Value.codec J.functions)) self.old.world.config (world_in self.old.world) event }
        ensures makes { Makes self.old seat.old event result self.new seat.new }
        ensures headline { HeadlineHolds self.old.world self.new.world }
    {
        match event.copy() {
            Ok(copy) => self.make_noted(seat, event, copy),
            Err(AllocError) => Err(refusal(&self.world, event)),
        }
    }

    // Makes an event, of which there is a copy for the seat's list. Where there is no room for a note of it, the world is asked why it would refuse the event. If it
    // would not, the event is refused for want of memory.
    fn make_noted(&mut self, seat: &mut Seat, event: Event, copy: Event) -> Result<Took, WorldFault>
        requires carries { CarriesDefinition (job_of (computation J.Key.cmp J.Key.codec J.Value.codec J.functions)) self.old.world.config (world_in self.old.world) event }
        requires same { copy ≡ event }
        ensures makes { Makes self.old seat.old event result self.new seat.new }
        ensures headline { HeadlineHolds self.old.world self.new.world }
    {
        match with_room(&mut self.by, &mut seat.made, copy) {
            Ok(copy) => {
                let took = self.world.apply(event)?;
                self.by.push_reserved(seat.number);
                seat.made.push_reserved(copy);
                Ok(took)
            }
            Err(AllocError) => Err(refusal(&self.world, event)),
        }
    }
}

// Why a world refuses an event that there is no memory for.
fn refusal(world: &World, event: Event) -> WorldFault
    ensures { IsRefused world.now event result }
{
    match world.foresee(&event) {
        Ok(()) => WorldFault::NoMemory,
        Err(fault) => fault,
    }
}

// An event for a seat's list, once there is room for it there, and for a number more.
fn with_room(by: &mut Vec<u32>, made: &mut Vec<Event>, event: Event) -> Result<Event, AllocError>
    ensures by { by.new.items ≡ by.old.items }
    ensures made { made.new.items ≡ made.old.items }
    ensures room { OnOk result ((vec_len by.new < vec_capacity by.new) × (vec_len made.new < vec_capacity made.new)) }
    ensures event { IfOk result (λ kept. kept ≡ event) }
{
    by.reserve(1)?;
    made.reserve(1)?;
    Ok(event)
}

// Whether an event hands in what was computed.
fn is_computed(event: &Event) -> bool
    ensures { result ≡ is_computed event.now }
{
    matches!(event, Event::Computed { .. })
}

// The seats of the board of this number.
fn seats_of(alloc: Global, board: u64, seats: u32) -> Result<Vec<Seat>, AllocError>
    ensures count { IfOk result (λ r. length r.items ≡ seats) }
    ensures seats { IfOk result (λ r. (i : ℕ) (s : _) → slice_get r.items i ≡ Some s → (s.board ≡ board) × (s.number ≡ i) × (s.made ≡ [])) }
{
    let mut all = Vec::new(alloc);
    for number in 0..seats {
        all.push(Seat::new(alloc, board, number))?;
    }
    Ok(all)
}
