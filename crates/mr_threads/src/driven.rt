//! The job of a job text, run by threads.
ghost use Rattle.std.specs.Prelude.{◌≡◌, IfOk, IfErr};
ghost use Rattle.mr_user.specs.Computation.{computation};
ghost use Rattle.mr_world_files.specs.Jobs.{job_of};
ghost use Rattle.mr_play.specs.Text.{job_as};
ghost use Rattle.mr_threads.specs.Runs.{IsReportOf, Reports};
ghost use Rattle.mr_threads.specs.Text.{ShownFails};
ghost use Rattle.mr_threads.specs.inner.{IsOfThreads, fault_of};

use crate::manner::Manner;
use mr_drive::{DriveFault, PairGate, Plan, Report, drive};
use mr_jobs::{LineIndex, MaxByKey, WordCount};
use mr_play::setup_of;
use mr_sim_commands::{IdleKeys, JobKind, SimFault, read_job_text};
use mr_user::{Gate, Job, OpenGate};
use mr_world_files::{jobs_have_their_laws, marked_worlds_show_sequential_files};
use std::alloc::AllocGlobal;
use std::rt::Clock;
use std::sync::Wait;
use std::thread::Threads;

/// What came of a job text whose job threads ran, and the keys of the text that say nothing.
///
/// `Job` names the first bad key of the job text. `TurnsSpent`, `JournalMismatch`, `Thread` and `Full` are those of
/// `mr_drive`. `TurnsSpent` comes after few looks where a map's work is held, and no other map's can begin next to it (`is_for_pairs`). `NoMemory` may come at any
/// text; no other fault comes.
#[tactic(auto, using(crate::proofs::Failing::bad_text, crate::proofs::Failing::no_run, crate::proofs::Reported::reports_of))]
pub fn report_of<H: AllocGlobal + Clock + Threads + Wait + Sync>(
    rt: &H,
    input: &[u8],
    manner: Manner,
) -> Result<(Report, IdleKeys), SimFault>
    ensures ok { IfOk result (λ told. Reports input.now told.0) }
    ensures fault { IfErr result (ShownFails input.now) }
{
    let setup = setup_of(read_job_text(rt.alloc(), input)?);
    let plan = Plan {
        config: setup.config,
        faults: setup.faults,
    };
    match driven_as(rt, setup.job, &plan, manner) {
        Ok(report) => Ok((report, setup.idle_keys)),
        Err(fault) => Err(fault),
    }
}

// Runs a plan for a job of this kind.
#[tactic(auto, unfolding(crate::specs::inner::job_as))]
fn driven_as<H: AllocGlobal + Clock + Threads + Wait + Sync>(
    rt: &H,
    kind: JobKind,
    plan: &Plan,
    manner: Manner,
) -> Result<Report, SimFault>
    ensures ok { IfOk result (IsReportOf (job_as kind) plan.now) }
    ensures fault { IfErr result IsOfThreads }
{
    match kind {
        JobKind::WordCount => driven_by(rt, &WordCount, plan, manner),
        JobKind::MaxByKey => driven_by(rt, &MaxByKey, plan, manner),
        JobKind::LineIndex => driven_by(rt, &LineIndex, plan, manner),
    }
}

// Runs a plan for a job, with a gate that holds or with one that is open.
fn driven_by<H: AllocGlobal + Clock + Threads + Wait + Sync, J: Job + Send + Sync>(
    rt: &H,
    job: &J,
    plan: &Plan,
    manner: Manner,
) -> Result<Report, SimFault>
where
    J::Key: Send + Sync,
    J::Value: Send + Sync,
    ensures ok { IfOk result (IsReportOf (job_of (computation J.Key.cmp J.Key.codec J.Value.codec J.functions)) plan.now) }
    ensures fault { IfErr result IsOfThreads }
{
    let turns = manner.turns_of(plan);
    if !manner.hold {
        return driven_behind(rt, job, &OpenGate, plan, turns);
    }
    driven_behind(
        rt,
        job,
        &PairGate::new(rt, manner.looks_of(plan)),
        plan,
        turns,
    )
}

// Runs a plan for a job, with this gate before each work.
#[tactic(auto, using(crate::proofs::Reported::is_report))]
fn driven_behind<
    H: AllocGlobal + Clock + Threads + Wait + Sync,
    J: Job + Send + Sync,
    G: Gate + Send + Sync,
>(rt: &H, job: &J, gate: &G, plan: &Plan, turns: u64) -> Result<Report, SimFault>
where
    J::Key: Send + Sync,
    J::Value: Send + Sync,
    ensures ok { IfOk result (IsReportOf (job_of (computation J.Key.cmp J.Key.codec J.Value.codec J.functions)) plan.now) }
    ensures fault { IfErr result IsOfThreads }
{
    jobs_have_their_laws::<J>();
    marked_worlds_show_sequential_files();
    plan.config.ranges();
    match drive(rt, rt.alloc(), job, gate, plan, turns) {
        Ok(report) => Ok(report),
        Err(unreported) => Err(fault_of(unreported.fault)),
    }
}

// What the program calls a fault of the threads.
fn fault_of(fault: DriveFault) -> SimFault
    ensures is { result ≡ fault_of fault }
    ensures of_threads { IsOfThreads result }
{
    match fault {
        DriveFault::TurnsSpent => SimFault::TurnsSpent,
        DriveFault::JournalMismatch => SimFault::JournalMismatch,
        DriveFault::Thread => SimFault::Thread,
        DriveFault::Full => SimFault::Full,
        DriveFault::NoMemory => SimFault::NoMemory,
    }
}
