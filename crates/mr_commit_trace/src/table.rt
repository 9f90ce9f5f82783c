//! The calls of an operation, one after the other, over the step values of mr_step. That they end is proved as mr_commit has it of its whole forms (`Going`).
ghost use Rattle.std.specs.Prelude.{◌≡◌, IfOk, OnOk, IsOkUnless};
ghost use Rattle.mr_commit.specs.Recovery.{recovered};
ghost use Rattle.mr_commit.specs.Settles.{Settles};
ghost use Rattle.mr_step.specs.Wish.{table};
ghost use Rattle.mr_commit_trace.specs.Seen.{Sees, lines_in};
ghost use Rattle.mr_commit_trace.specs.inner.Turns.{IsHeard, Turns, goes_on};

use crate::call::make;
use mr_commit::{CommitFault, StepDone};
use mr_judge::Told;
use mr_names::{Answer, Caller, Namespace};
use mr_paths::Layout;
use mr_sim_commands::SimFault;
use mr_step::{Moves, Wish};
use std::alloc::Global;

/// All calls of an operation, with their answers: each is made.
pub(crate) fn operate(
    alloc: Global,
    names: &mut Namespace,
    caller: &Caller,
    layout: &Layout,
    wish: Wish,
) -> Result<Vec<Told>, SimFault>
    ensures seen { IfOk result (λ told. Sees caller.now (lines_in (table wish layout.now.dest caller.now.app)) names.old told.items) }
    ensures after { OnOk result (names.new ≡ (recovered (table wish layout.now.dest caller.now.app) names.old caller.now).1) }
    ensures memory { IsOkUnless result SimFault.NoMemory }
{
    let mut moves = Moves::new(layout, caller.app, wish)?;
    finish(alloc, names, caller, &mut moves)
}

// All calls that are left.
#[tactic(auto, using(crate::proofs::Turning::gone_first, crate::proofs::Turning::gone_on, crate::proofs::Turning::fewer, crate::proofs::Turning::all_seen, crate::proofs::Turning::all_made))]
fn finish(
    alloc: Global,
    names: &mut Namespace,
    caller: &Caller,
    moves: &mut Moves,
) -> Result<Vec<Told>, SimFault>
    requires settles { Settles (lines_in moves.old) }
    ensures seen { IfOk result (λ told. Sees caller.now (lines_in moves.old) names.old told.items) }
    ensures after { OnOk result (names.new ≡ (recovered moves.old names.old caller.now).1) }
    ensures memory { IsOkUnless result SimFault.NoMemory }
{
    let mut told = Vec::new(alloc);
    'turns: while turn(alloc, names, caller, moves, &mut told)? {}
    Ok(told)
}

// The next call is made, and its answer heard: whether calls are left. Where there is none it is over.
#[tactic(auto, using(crate::proofs::Turning::turned, crate::proofs::Turning::turned_over))]
fn turn(
    alloc: Global,
    names: &mut Namespace,
    caller: &Caller,
    moves: &mut Moves,
    told: &mut Vec<Told>,
) -> Result<bool, SimFault>
    ensures turns { IfOk result (λ on. Turns moves.old names.old caller.now told.old.items on moves.new names.new told.new.items) }
    ensures memory { IsOkUnless result SimFault.NoMemory }
{
    match moves.call() {
        Some(call) => {
            let answer = make(alloc, names, caller, call, told)?;
            is_left(moves.took(answer))
        }
        None => is_left(moves.took(Ok(Answer::Done))),
    }
}

// Whether calls are left. An allocation failure is one here too.
fn is_left(done: Result<StepDone, CommitFault>) -> Result<bool, SimFault>
    ensures left { IfOk result (λ on. on ≡ goes_on done) }
    ensures heard { OnOk result (IsHeard done) }
    ensures memory { IsOkUnless result SimFault.NoMemory }
{
    match done {
        Ok(StepDone::More) => Ok(true),
        Ok(StepDone::Finished) => Ok(false),
        Err(CommitFault::NoMemory) => Err(SimFault::NoMemory),
        Err(_) => Ok(false),
    }
}
