//! The threads: one a node, one a master that the plan can start, one for starts and faults. All that waits is here.
ghost use Rattle.std.specs.Prelude.{◌≡◌, None, IfErr, IfOk};
ghost use Rattle.mr_user.specs.Computation.{computation};
ghost use Rattle.mr_board_report.specs.Reports.{IsReported, IsUndriven};
ghost use Rattle.mr_board_report.specs.declared.fault.DriveFault.TheVariants.{NoMemory};
ghost use Rattle.mr_drive.specs.Driving.{role_of};

use crate::actor::{Actor, Role};
use crate::condition_variables::ConditionVariables;
use crate::fault::DriveFault;
use crate::plan::masters;
use crate::shared_state::SharedState;
use crate::turn::Next;
use mr_board::mr_world::World;
use mr_board::{Board, Seat};
use mr_board_report::{Plan, Report, Run, Unreported, reported};
use mr_user::{Gate, Job};
use std::alloc::{AllocError, Global};
use std::sync::{Mutex, Wait};
use std::thread;
use std::thread::Threads;

/// Runs a job by threads that share one board, until an outcome is told or the newest master is Stopped.
///
/// There is a thread for each node, one for each master that the plan can start, and one for starts and faults. Each
/// makes at most `turns` turns, and at most one event in each. A fault of the plan that is due comes before any other
/// event. Faults that did not come until the end are dropped, and so are those that are not permitted when they come.
///
/// Where there is no report, `Unreported` tells why, and has the run's world. `TurnsSpent`: turns or the gate's looks are spent,
/// or no thread finds anything to do. `Full`: a limit would be passed. `Thread`: a thread can't be made. `JournalMismatch`: a
/// thread tried an event that is not planned, or the seats do not account for the journal. None of these is told of a run
/// that came to its end and whose seats account for it. `NoMemory`: memory was refused.
pub fn drive<R: Threads + Wait + Sync, J: Job + Send + Sync, G: Gate + Sync>(
    rt: &R,
    alloc: Global,
    job: &J,
    gate: &G,
    plan: &Plan,
    turns: u64,
) -> Result<Report, Unreported>
where
    J::Key: Send + Sync,
    J::Value: Send + Sync,
    ensures report { IfOk result (λ r. IsReported (computation J.Key.cmp J.Key.codec J.Value.codec J.functions) plan.now r.succeeded r.files.items r.by.items r.world) }
    ensures none { IfErr result (λ u. IsUndriven plan.now u.fault u.world) }
{
    match run_of(rt, alloc, job, gate, plan, turns) {
        Ok((run, stop, back)) => reported(plan, run, stop, back),
        Err(e) => Err(undriven(e)),
    }
}

// Memory was refused before there was a run to be told of.
fn undriven(e: AllocError) -> Unreported
    ensures { (result.fault ≡ NoMemory) × (result.world ≡ None) }
{
    Unreported::from(e)
}

// The number of the one board of a run.
const BOARD: u64 = 0;

// A run of a plan that no thread acts on any longer, why they stopped where that was not the end, and their seats.
fn run_of<R: Threads + Wait + Sync, J: Job + Send + Sync, G: Gate + Sync>(
    rt: &R,
    alloc: Global,
    job: &J,
    gate: &G,
    plan: &Plan,
    turns: u64,
) -> Result<(Run<J>, Option<DriveFault>, Vec<Seat>), AllocError>
where
    J::Key: Send + Sync,
    J::Value: Send + Sync,
{
    let nodes = plan.config.nodes;
    let seats = nodes.saturating_add(masters(plan)).saturating_add(1);
    let world = match World::new(alloc, plan.config.copy()?) {
        Ok(world) => world,
        Err(fault) => return Err(fault.wants_memory()),
    };
    let (board, all) = Board::new(alloc, job, BOARD, world, seats)?;
    let crew = crew_of(alloc, all, nodes, turns)?;
    let faults = plan.faults.copy()?;
    let run = Run::new(board, faults);
    let shared = Shared {
        state: Mutex::new(SharedState::new(alloc, run, seats)?),
        conditions: ConditionVariables::new(),
    };
    let back = run_threads(rt, alloc, job, gate, &shared, crew)?;
    let Shared {
        state,
        conditions: _,
    } = shared;
    let (run, stop) = state.into_inner().ends();
    Ok((run, stop, back))
}

// What all threads of a run share: the state under its lock, and where they wait.
#[derive(Drop)]
struct Shared<J: Job> {
    state: Mutex<SharedState<J>>,
    conditions: ConditionVariables,
}

impl<J: Job> Shared<J> {
    // Lets every thread end, for this reason.
    fn stop<R: Wait>(&self, rt: &R, fault: DriveFault) {
        let mut guard = self.state.lock(rt);
        guard.stop(fault);
        let call = guard.take_call();
        drop(guard);
        self.conditions.notify(call);
    }
}

// What one thread has of its own.
#[derive(Drop)]
struct Worker {
    alloc: Global,
    actor: Actor,
    seat: Seat,
    turns: u64,
}

// Whom the seat of a number acts for: nodes, then faults, then masters.
fn role_of(number: u32, nodes: u32) -> Role
    ensures { result ≡ role_of nodes number }
{
    if number < nodes {
        Role::Node(number)
    } else if number == nodes {
        Role::Faults
    } else {
        Role::Master(number - nodes)
    }
}

// A worker for each seat.
fn crew_of(
    alloc: Global,
    seats: Vec<Seat>,
    nodes: u32,
    turns: u64,
) -> Result<Vec<Worker>, AllocError> {
    let mut crew = Vec::with_capacity(alloc, seats.len())?;
    for seat in seats {
        let actor = Actor::new(alloc, role_of(seat.number(), nodes));
        crew.push(Worker {
            alloc,
            actor,
            seat,
            turns,
        })?;
    }
    Ok(crew)
}

// A thread for each worker, and the seats that they give back.
fn run_threads<R: Threads + Wait + Sync, J: Job + Send + Sync, G: Gate + Sync>(
    rt: &R,
    alloc: Global,
    job: &J,
    gate: &G,
    shared: &Shared<J>,
    crew: Vec<Worker>,
) -> Result<Vec<Seat>, AllocError>
where
    J::Key: Send + Sync,
    J::Value: Send + Sync,
{
    thread::scope(thread::scope_env(), rt, |scope| {
        let mut handles = Vec::with_capacity(alloc, crew.len())?;
        let mut back = Vec::with_capacity(alloc, crew.len())?;
        for worker in crew {
            match scope.spawn(move || act(rt, job, gate, shared, worker)) {
                Ok(handle) => {
                    if handles.push(handle).is_err() {
                        shared.stop(rt, DriveFault::NoMemory);
                    }
                }
                Err(_) => shared.stop(rt, DriveFault::Thread),
            }
        }
        for handle in handles {
            if back.push(handle.join(rt)).is_err() {
                return Err(AllocError);
            }
        }
        Ok(back)
    })
}

// What a thread does, until it ends or its turns are spent. It gives its seat back.
fn act<R: Wait, J: Job, G: Gate>(
    rt: &R,
    job: &J,
    gate: &G,
    shared: &Shared<J>,
    worker: Worker,
) -> Seat {
    let Worker {
        alloc,
        mut actor,
        mut seat,
        turns,
    } = worker;
    for _ in 0..turns {
        if !turn(rt, alloc, job, gate, shared, &mut actor, &mut seat) {
            return seat;
        }
    }
    shared.stop(rt, DriveFault::TurnsSpent);
    seat
}

// One turn; false if it was the last. It waits until there is something to do. User functions run outside the lock.
fn turn<R: Wait, J: Job, G: Gate>(
    rt: &R,
    alloc: Global,
    job: &J,
    gate: &G,
    shared: &Shared<J>,
    actor: &mut Actor,
    seat: &mut Seat,
) -> bool {
    let conditions = &shared.conditions;
    let condition = conditions.of(seat.number());
    let mut next = Next::Goes;
    let mut guard = condition.wait_while(rt, shared.state.lock(rt), |state| {
        let waits = state.waits(alloc, actor, seat, &mut next);
        if waits {
            conditions.notify(state.falls_asleep(seat));
        }
        waits
    });
    let call = guard.take_call();
    drop(guard);
    conditions.notify(call);
    match next {
        Next::Ends => false,
        Next::Computes(c, work) => {
            let done = work.run(alloc, job, gate);
            let mut guard = condition.wait_while(
                rt,
                shared.state.lock(rt),
                |state| state.is_held(),
            );
            guard.hand_in(actor, seat, &c, done);
            let call = guard.take_call();
            drop(guard);
            conditions.notify(call);
            true
        }
        Next::Goes | Next::Waits(_) => true,
    }
}
