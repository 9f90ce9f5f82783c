//! What a run that came to its end is told as.
ghost use Rattle.std.specs.Prelude.{◌≡◌, ◌↔◌, None, Some, true, length, IfErr, IfOk, IsTrue};
ghost use Rattle.mr_user.specs.Computation.{computation};
ghost use Rattle.mr_world_model.specs.Results.{outcome};
ghost use Rattle.mr_board.specs.mr_world.specs.Journal.{world_in};
ghost use Rattle.mr_board.specs.Boards.{IsFaithfulFor};
ghost use Rattle.mr_board_report.specs.Following.{Follows};
ghost use Rattle.mr_board_report.specs.Reports.{IsAccounted, IsOf, IsReported, IsThrough, IsUndriven, IsUnreported, IsUntold, stopping_of};
ghost use Rattle.mr_board_report.specs.declared.fault.DriveFault.TheVariants.{JournalMismatch, NoMemory};

use crate::fault::DriveFault;
use crate::plan::Plan;
use crate::run::Run;
use crate::unreported::Unreported;
use mr_board::Seat;
use mr_board::mr_world::{VisibleFile, World, WorldFault};
use mr_master_model::Phase;
use mr_user::Job;
use mr_world_files::{jobs_have_their_laws, marked_worlds_show_sequential_files};

/// What came of a run.
#[derive(Drop)]
pub struct Report {
    /// Whether success was told.
    pub succeeded: bool,
    /// What a reader of the destination sees, by rising name.
    pub files: Vec<VisibleFile>,
    /// The world, with its journal.
    pub world: World,
    /// For each event of the journal the number of the seat that made it.
    pub by: Vec<u32>,
}

/// The report of a run that is over, for its plan, where these seats made it. `stop` is why its threads stopped, if they did
/// before its end. A run that came to its end is reported whatever `stop` says.
///
/// Refusals in order: `JournalMismatch` where the run is of another plan, or the seats do not account for its journal;
/// `stop`, or `TurnsSpent` without one, where no outcome was told and the newest master is not Stopped; and `NoMemory`.
/// The last two hand the run's world back.
pub fn reported<J: Job>(
    plan: &Plan,
    run: Run<J>,
    stop: Option<DriveFault>,
    seats: Vec<Seat>,
) -> Result<Report, Unreported>
    ensures closed { IfOk result (λ r. (r.world ≡ run.world) × (r.by.items ≡ run.by) × IsAccounted run seats.items) }
    ensures report { IfOk result (λ r. IsReported (computation J.Key.cmp J.Key.codec J.Value.codec J.functions) plan.now r.succeeded r.files.items r.by.items r.world) }
    ensures none { IfErr result (λ u. IsUnreported plan.now run stop seats.items u.fault u.world) }
    ensures undriven { IfErr result (λ u. IsUndriven plan.now u.fault u.world) }
{
    if !run.is_of(plan) {
        return Err(unaccounted());
    }
    match run.close(seats) {
        Ok(closed) => {
            let (world, by) = closed.into_parts();
            told::<J>(plan, stop, world, by)
        }
        Err(_) => Err(unaccounted()),
    }
}

// Of a run that is another plan's, or that its seats do not account for.
fn unaccounted() -> Unreported
    ensures { result ≡ record { fault = JournalMismatch; world = None } }
{
    Unreported {
        fault: DriveFault::JournalMismatch,
        world: None,
    }
}

// The report of this world, whose events the seats of these numbers made, and whose threads stopped for this reason, if for one.
fn told<J: Job>(
    plan: &Plan,
    stop: Option<DriveFault>,
    world: World,
    by: Vec<u32>,
) -> Result<Report, Unreported>
    requires faithful { IsFaithfulFor (computation J.Key.cmp J.Key.codec J.Value.codec J.functions) world }
    requires same { world.config ≡ plan.now.config }
    requires planned { Follows plan.now world }
    requires noted { length by.items ≡ length world.events }
    ensures closed { IfOk result (λ r. (r.world ≡ world) × (r.by.items ≡ by.items)) }
    ensures report { IfOk result (λ r. IsReported (computation J.Key.cmp J.Key.codec J.Value.codec J.functions) plan.now r.succeeded r.files.items r.by.items r.world) }
    ensures none { IfErr result (λ u. IsUntold stop world u.fault u.world) }
{
    jobs_have_their_laws::<J>();
    marked_worlds_show_sequential_files();
    world.config().ranges();
    if !is_through(&world) {
        return Err(Unreported {
            fault: stopping_of(stop),
            world: Some(world),
        });
    }
    let files = match world.visible() {
        Ok(files) => files,
        Err(fault) => return Err(unseen(world, fault)),
    };
    let succeeded = has_succeeded(&world);
    Ok(Report {
        succeeded,
        files,
        world,
        by,
    })
}

// Why a run did not come to its end.
fn stopping_of(stop: Option<DriveFault>) -> DriveFault
    ensures { result ≡ stopping_of stop }
{
    match stop {
        Some(fault) => fault,
        None => DriveFault::TurnsSpent,
    }
}

// Of a run that came to its end, whose files can't be read for lack of memory.
fn unseen(world: World, fault: WorldFault) -> Unreported
    requires { fault ≡ WorldFault.NoMemory }
    ensures { result ≡ record { fault = NoMemory; world = Some world } }
{
    Unreported {
        fault: DriveFault::from(fault.wants_memory()),
        world: Some(world),
    }
}

// Whether success was told.
fn has_succeeded(world: &World) -> bool
    ensures { IsTrue result ↔ (outcome (world_in world.now) ≡ Some true) }
{
    world.outcome() == Some(true)
}

// Whether an outcome was told, or the newest master is Stopped.
fn is_through(world: &World) -> bool
    ensures { IsTrue result ↔ IsThrough world.now }
{
    world.outcome().is_some() || world.phase(world.newest()) == Some(Phase::Stopped)
}
