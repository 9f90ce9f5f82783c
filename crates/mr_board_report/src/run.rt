//! A run of a plan: a board on which the plan's faults come when they are due, and all else is calm.
ghost use Rattle.std.specs.Prelude.{◌≡◌, ◌↔◌, ◌+◌, ◌<◌, ◌^◌, [], false, true, IfOk, IfErr, IfSome, IsTrue, Some};
ghost use Rattle.mr_world_model.specs.Effect.{is_calm};
ghost use Rattle.mr_board.specs.mr_world.specs.Journal.{world_in};
ghost use Rattle.mr_board.specs.Boards.{Account, Applies};
ghost use Rattle.mr_world_events.specs.declared.event.Event.TheVariants.{Start};
ghost use Rattle.mr_board_report.specs.Following.{Planned, comes_by_itself, due, due_after, event_of, has_crashed};
ghost use Rattle.mr_board_report.specs.Reports.{IsOf};
ghost use Rattle.mr_board_report.specs.Runs.{Comes, HandsIn, MakesDue, MakesPlanned, Steps, board_of, is_held, next_generation, told_of};

use crate::fault::DriveFault;
use crate::plan::Plan;
use mr_board::mr_world::{Config, Took, World, WorldFault};
use mr_board::{Board, Closed, Finished, Mismatch, Seat};
use mr_user::Job;
use mr_world_events::{Event, PlanAct, PlanFault, PlanFaults, Weather};
use std::marker::Model;

/// A run of a plan: a board, the faults of the plan, and how many of them came. Its journal is as planned, whoever makes its events.
#[derive(Drop)]
pub struct Run<J: Job> {
    board: Board<J>,
    faults: PlanFaults,
    came: usize,
}

impl<J: Job> Model for Run<J> {
    ghost use Rattle.mr_board_report.specs.Following.{Planned};
    ghost use Rattle.mr_board_report.specs.Runs.{Running};

    ghost Value = { Running };

    ghost view = { λ r. record { number = r.board.number; world = r.board.world; by = r.board.by; faults = r.faults; came = r.came } };

    ghost invariant = { λ r. Planned r.faults r.came r.board.world };
}

impl<J: Job> Run<J> {
    /// A run with these faults, on a board on which nothing has happened.
    pub fn new(board: Board<J>, faults: PlanFaults) -> Run<J>
        requires empty { board.world.events ≡ [] }
        ensures { result ≡ record { number = board.number; world = board.world; by = board.by; faults = faults; came = 0 } }
    {
        Run {
            board,
            faults,
            came: 0,
        }
    }

    /// Its board, to be read.
    pub fn board(&self) -> &Board<J>
        ensures { (result.now.number ≡ self.now.number) × (result.now.world ≡ self.now.world) × (result.now.by ≡ self.now.by) }
    {
        &self.board
    }

    /// Its world, to be read.
    pub fn world(&self) -> &World
        ensures { result.now ≡ self.now.world }
    {
        self.board.world()
    }

    /// Whether the start behind a crash, or a fault of the plan, is due: nothing else happens then.
    pub fn is_held(&self) -> bool
        ensures { result ≡ is_held self.now }
    {
        self.has_crashed() || self.due().is_some()
    }

    // Whether the newest master crashed, and none started behind it.
    fn has_crashed(&self) -> bool
        ensures { result ≡ has_crashed (world_in self.now.world) }
    {
        has_crashed(self.world())
    }

    // The generation of the newest master.
    fn newest(&self) -> u32
        ensures { result ≡ (world_in self.now.world).fence }
    {
        self.world().newest()
    }

    // The fault that comes next, if it is due.
    fn due(&self) -> Option<PlanFault>
        ensures is { result ≡ due self.now.faults self.now.came self.now.world }
        ensures counts { IfSome result (λ _. self.now.came + 1 < 2 ^ 64) }
    {
        let events = self.world().journal().len();
        let faults = self.faults.as_slice();
        // For the prover: a count of faults is a number of the machine.
        let _count = faults.len();
        match faults.get(self.came) {
            Some(fault) => due_after(events, *fault),
            None => None,
        }
    }

    /// Makes an event that comes by itself, from a seat; false where it is not permitted now.
    ///
    /// Refusals: `JournalMismatch` where something is due, or the event is no calm one; else `Full` or `NoMemory`, as by
    /// `Board::apply_as`. Nothing has changed then.
    pub fn make(&mut self, seat: &mut Seat, event: Event) -> Result<bool, DriveFault>
        ensures makes { MakesPlanned self.old seat.old event result self.new seat.new }
    {
        if self.is_held() {
            return Err(DriveFault::JournalMismatch);
        }
        if !comes_by_itself(&event) {
            return Err(DriveFault::JournalMismatch);
        }
        told_of(self.board.apply_as(seat, event))
    }

    /// Hands in what a work gave, from a seat; false where it is not permitted now.
    ///
    /// Refusals: `JournalMismatch` where something is due; else `Full` or `NoMemory`, as by `Board::hand_in_as`. Nothing
    /// has changed then.
    pub fn hand_in(&mut self, seat: &mut Seat, done: Finished<J>) -> Result<bool, DriveFault>
        ensures hands { HandsIn self.old seat.old done result self.new seat.new }
    {
        if self.is_held() {
            return Err(DriveFault::JournalMismatch);
        }
        told_of(self.board.hand_in_as(seat, done))
    }

    /// Makes what is due, from a seat: the start behind a crash, else the fault of the plan that is due, which comes even if
    /// the world refuses it; else, where there is no master, the start of the first. False where there is nothing of all this.
    ///
    /// Refusals: `Full` and `NoMemory`, as by `Board::apply_as`. Nothing has changed then.
    pub fn make_due(&mut self, seat: &mut Seat) -> Result<bool, DriveFault>
        ensures makes { MakesDue self.old seat.old result self.new seat.new }
    {
        let newest = self.newest();
        if self.has_crashed() {
            return self.start(seat, next_generation(newest));
        }
        if let Some(fault) = self.due() {
            return self.make_fault(seat, newest, fault);
        }
        if newest > 0 {
            return Ok(false);
        }
        self.make(
            seat,
            Event::Start {
                generation: 1,
                kept: 0,
            },
        )
    }

    // The start behind a crash; nothing of the unflushed history is kept.
    fn start(&mut self, seat: &mut Seat, generation: u32) -> Result<bool, DriveFault>
        requires crashed { has_crashed (world_in self.old.world) ≡ true }
        ensures steps { Steps (λ answer b. Applies (board_of self.old) seat.old (Start generation 0) answer b seat.new) self.old result self.new }
    {
        told_of(
            self.board.apply_as(
                seat,
                Event::Start {
                    generation,
                    kept: 0,
                },
            ),
        )
    }

    // The fault that is due comes: it is made, or it is not permitted.
    fn make_fault(
        &mut self,
        seat: &mut Seat,
        newest: u32,
        fault: PlanFault,
    ) -> Result<bool, DriveFault>
        requires newest { newest ≡ (world_in self.old.world).fence }
        requires living { has_crashed (world_in self.old.world) ≡ false }
        requires comes { due self.old.faults self.old.came self.old.world ≡ Some fault }
        requires counts { self.old.came + 1 < 2 ^ 64 }
        ensures comes { Comes (λ answer b. Applies (board_of self.old) seat.old (event_of newest fault.act) answer b seat.new) self.old result self.new }
    {
        match self.board.apply_as(seat, event_of(newest, fault.act)) {
            Ok(_took) => {
                self.came += 1;
                Ok(true)
            }
            Err(WorldFault::NotNow(_why)) => {
                self.came += 1;
                Ok(true)
            }
            Err(WorldFault::Full) => Err(DriveFault::Full),
            Err(WorldFault::NoMemory) => Err(DriveFault::NoMemory),
        }
    }

    // Whether it is of a plan: of its config, and with its faults.
    pub(crate) fn is_of(&self, plan: &Plan) -> bool
        ensures { IsTrue result ↔ IsOf plan.now self.now }
    {
        is_config(self.world().config(), &plan.config) && are_faults(&self.faults, &plan.faults)
    }

    // Closes its board: what `Board::close` gives. Its journal is as planned.
    pub(crate) fn close(self, seats: Vec<Seat>) -> Result<Closed<J>, Mismatch>
        ensures closed { IfOk result (λ c. (c.world ≡ self.world) × (c.by ≡ self.by)) }
        ensures planned { Planned self.faults self.came self.world }
        ensures account { IfOk result (λ _. Account self.number self.by self.world.events seats.items) }
        ensures mismatch { IfErr result (λ _. ¬ Account self.number self.by self.world.events seats.items) }
    {
        let Run {
            board,
            faults: _,
            came: _,
        } = self;
        board.close(seats)
    }
}

// Whether the newest master crashed, and none started behind it.
#[tactic(auto, using(crate::proofs::Running::no_phase))]
fn has_crashed(world: &World) -> bool
    ensures { result ≡ has_crashed (world_in world.now) }
{
    let newest = world.newest();
    0 < newest && world.phase(newest).is_none()
}

// The generation behind this one, as far as there are numbers.
fn next_generation(newest: u32) -> u32
    ensures { result ≡ next_generation newest }
{
    newest.saturating_add(1)
}

// This fault, where it is due after this many events.
fn due_after(events: usize, fault: PlanFault) -> Option<PlanFault>
    ensures { result ≡ due_after events (Some fault) }
{
    if events < fault.after as usize {
        None
    } else {
        Some(fault)
    }
}

// What a fault does, where the newest master is of this generation.
fn event_of(newest: u32, act: PlanAct) -> Event
    ensures { result ≡ event_of newest act }
{
    match act {
        PlanAct::Node(node) => Event::NodeRestart { node },
        PlanAct::Master(kept) => Event::Crash {
            generation: newest,
            kept,
        },
        PlanAct::Expire(node) => Event::Expire {
            generation: newest,
            node,
        },
    }
}

// Whether an event comes by itself: the start of the first master, and all that is calm.
fn comes_by_itself(event: &Event) -> bool
    ensures { result ≡ comes_by_itself event.now }
{
    match event {
        Event::Start { generation, kept } => *generation == 1 && *kept == 0,
        Event::Crash { .. } | Event::NodeRestart { .. } | Event::Expire { .. } => false,
        Event::Duty { weather, .. } | Event::ContainerStep { weather, .. } => is_calm(*weather),
        Event::LaunchOn { .. }
        | Event::Deliver { .. }
        | Event::Computed { .. }
        | Event::Die { .. } => true,
    }
}

fn is_calm(weather: Weather) -> bool
    ensures { result ≡ is_calm weather }
{
    match weather {
        Weather::Calm => true,
        Weather::Unavailable | Weather::Unanswered => false,
    }
}

// What is told of a world's answer: whether the event was taken, or was not permitted; else the fault.
fn told_of(answer: Result<Took, WorldFault>) -> Result<bool, DriveFault>
    ensures { result ≡ told_of answer }
{
    match answer {
        Ok(_took) => Ok(true),
        Err(WorldFault::NotNow(_why)) => Ok(false),
        Err(WorldFault::Full) => Err(DriveFault::Full),
        Err(WorldFault::NoMemory) => Err(DriveFault::NoMemory),
    }
}

// Whether a config is the plan's.
#[tactic(auto, using(crate::proofs::Success::same_config))]
fn is_config(config: &Config, plan: &Config) -> bool
    ensures { IsTrue result ↔ (config.now ≡ plan.now) }
{
    *config == *plan
}

// Whether faults are the plan's.
#[tactic(auto, using(crate::proofs::Success::same_faults))]
fn are_faults(faults: &PlanFaults, plan: &PlanFaults) -> bool
    ensures { IsTrue result ↔ (faults.now ≡ plan.now) }
{
    *faults == *plan
}
