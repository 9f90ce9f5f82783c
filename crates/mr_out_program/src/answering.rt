//! A command is carried out, and what comes of it is told.
ghost use Rattle.std.specs.Prelude.{◌≡◌, ◌⊎◌, [], codes, Some, IfOk, IfErr};
ghost use Rattle.std.specs.String.{string_bytes};
ghost use Rattle.mr_out_program.specs.Sayings.{fault_status, done_saying, order_saying, publish_saying};
ghost use Rattle.mr_out_layout.specs.Faults.{IsFailure};
ghost use Rattle.mr_out_program.specs.Answers.{IsRefused, IsOpened, InOpened, IsToldOf, IsAnswerOf};
ghost use Rattle.mr_out_program.specs.Carried.{CarriesAndTells, CarriesAndTellsOf, Forgets, Never, Says, SaysIfAny};

use crate::attempts::{attempt, attempt_all, done, fail_all, fail_one, fail_task};
use crate::beginning::begin;
use crate::ending::settle;
use crate::saying::{Saying, order_saying, publish_saying};
use crate::standing::status;
use mr_ids::AttemptId;
use mr_out_files::{Directory, Lock, keep_folder};
use mr_out_layout::{Fault, GONE, Why, host_of, sync_folder};
use mr_out_removal::remove_folder;
use mr_out_steps::Order;
use mr_out_words::{Asked, Command, Failing};
use std::io;

/// What is printed, and the exit status.
#[derive(Drop)]
pub struct Answered {
    /// What standard output is given.
    pub output: String,
    /// What standard error is given: nothing, or a line.
    pub message: String,
    /// The exit status.
    pub status: u8,
}

impl Answered {
    /// A status with nothing to print.
    pub(crate) fn plain(rt: &HostRuntime, status: u8) -> Answered
        ensures prints { string_bytes result.output ≡ [] }
        ensures says { string_bytes result.message ≡ [] }
        ensures ends { result.status ≡ status }
    {
        Answered {
            output: String::new(rt.alloc()),
            message: String::new(rt.alloc()),
            status,
        }
    }

    /// A status with what standard output is given.
    pub(crate) fn told(rt: &HostRuntime, output: String, status: u8) -> Answered
        ensures prints { result.output ≡ output }
        ensures says { string_bytes result.message ≡ [] }
        ensures ends { result.status ≡ status }
    {
        Answered {
            output,
            message: String::new(rt.alloc()),
            status,
        }
    }

    /// What a command says of how it ended.
    pub(crate) fn said(rt: &HostRuntime, saying: Saying) -> Result<Answered, Fault>
        ensures { SaysIfAny Never (Some saying) result }
    {
        let Ok(output) = String::from_str(rt.alloc(), saying.text()) else {
            return Err(Fault::NoMemory);
        };
        let Ok(message) = String::from_str(rt.alloc(), saying.message()) else {
            return Err(Fault::NoMemory);
        };
        Ok(Answered {
            output,
            message,
            status: saying.status(),
        })
    }
}

/// Carries out what is asked for. Statuses: 0 done; 1 as each command says; 3 refused; 4 a call failed; 5 no memory;
/// 6 the job was ended as failed; 7 full; 75 try later.
pub fn answer(rt: &HostRuntime, asked: &Asked<'_>) -> Answered
    ensures { IsAnswerOf asked.now.command result }
{
    match carried(rt, asked) {
        Ok(answered) => answered,
        Err(fault) => refused(rt, &fault.placed(rt)),
    }
}

// A fault as a line of standard error, with its status. Its path is absolute.
fn refused(rt: &HostRuntime, fault: &Fault) -> Answered
    ensures { IsRefused result }
{
    let status = fault_status(fault);
    match format!(in rt.alloc(); "mrout: {fault}\n") {
        Ok(message) => Answered {
            output: String::new(rt.alloc()),
            message,
            status,
        },
        Err(_) => Answered::plain(rt, fault_status(&Fault::NoMemory)),
    }
}

fn fault_status(fault: &Fault) -> u8
    ensures { result ≡ fault_status fault.now }
{
    match fault {
        Fault::NoMemory => 5,
        Fault::Call {
            what: _,
            path: _,
            error: _,
        } => 4,
        Fault::Refused { path: _, why: _ } => 3,
        Fault::Busy => 75,
        Fault::Full => 7,
    }
}

#[tactic(auto, using(crate::proofs::Outputs::begin_told, crate::proofs::Outputs::attempt_told, crate::proofs::Outputs::attempt_all_told, crate::proofs::Outputs::done_told, crate::proofs::Outputs::fail_told, crate::proofs::Outputs::publish_told, crate::proofs::Outputs::abort_told, crate::proofs::Outputs::resume_told, crate::proofs::Outputs::forget_told, crate::proofs::Outputs::status_told))]
fn carried(rt: &HostRuntime, asked: &Asked<'_>) -> Result<Answered, Fault>
    ensures { IfOk result (IsToldOf asked.now.command) }
{
    match asked.command {
        Command::Begin {
            tasks,
            limit,
            suffix,
            hold,
            again,
        } => begin(rt, asked, (tasks, limit, suffix, hold), again),
        Command::Attempt { task, over } => attempt(rt, &mut open(rt, asked)?, task, over),
        Command::AttemptAll => attempt_all(rt, &mut open(rt, asked)?),
        Command::Done { attempt } => hand_in(rt, asked, attempt),
        Command::Fail(failing) => fail(rt, asked, failing),
        Command::Publish => publish(rt, &mut open(rt, asked)?),
        Command::Abort => abort(rt, &mut open(rt, asked)?),
        Command::Resume { here } => resume(rt, asked, here),
        Command::Forget => forget(rt, asked),
        Command::Status { json } => status(rt, &mut open_shared(rt, asked)?, json),
    }
}

#[tactic(auto, using(crate::proofs::Outputs::fail_one_told, crate::proofs::Outputs::fail_task_told, crate::proofs::Outputs::fail_all_told))]
fn fail(rt: &HostRuntime, asked: &Asked<'_>, failing: Failing<'_>) -> Result<Answered, Fault>
    ensures { IfOk result (IsToldOf (Command.Fail failing.entry)) }
{
    match failing {
        Failing::One(attempt) => fail_one(rt, &mut open(rt, asked)?, attempt),
        Failing::Task(task) => fail_task(rt, &mut open(rt, asked)?, task),
        Failing::All => fail_all(rt, &mut open(rt, asked)?),
    }
}

// Hands a file in. Once the lock is free again, the folder of one who won is kept for another attempt.
fn hand_in(rt: &HostRuntime, asked: &Asked<'_>, text: &str) -> Result<Answered, Fault>
    ensures { IfOk result (InOpened (CarriesAndTellsOf Order.Done done_saying text.now)) }
{
    let answered = done_in(rt, asked, text)?;
    keep_won(rt, text, answered.status);
    Ok(answered)
}

#[tactic(auto, using(crate::proofs::Outputs::in_opened))]
fn done_in(rt: &HostRuntime, asked: &Asked<'_>, text: &str) -> Result<Answered, Fault>
    ensures { IfOk result (InOpened (CarriesAndTellsOf Order.Done done_saying text.now)) }
{
    done(rt, &mut open_done(rt, asked, text)?, text)
}

// The folder of an attempt whose hand-in had this status. It won where that is 0.
fn keep_won(rt: &HostRuntime, text: &str, status: u8) {
    if let (0, Ok(a)) = (status, AttemptId::parse(text)) {
        let _ = keep_folder(rt, a);
    }
}

// The directory, with its lock for one who writes. It is of this host.
fn open(rt: &HostRuntime, asked: &Asked<'_>) -> Result<Directory, Fault>
    ensures { IfOk result IsOpened }
{
    open_here(rt, asked, None)
}

// The same, for the attempt with this text, which hands in.
fn open_done(rt: &HostRuntime, asked: &Asked<'_>, text: &str) -> Result<Directory, Fault>
    ensures { IfOk result IsOpened }
{
    match AttemptId::parse(text) {
        Ok(a) => open_here(rt, asked, Some(a)),
        Err(_) => open_here(rt, asked, None),
    }
}

fn open_here(
    rt: &HostRuntime,
    asked: &Asked<'_>,
    handing: Option<AttemptId>,
) -> Result<Directory, Fault>
    ensures { IfOk result IsOpened }
{
    let host = host_of(rt)?;
    let directory = open_any(rt, asked, false, handing)?;
    if directory.job.host != host {
        return Err(Fault::refused(rt.alloc(), ".", Why::OtherHost));
    }
    Ok(directory)
}

// The directory, with its lock for one who reads.
fn open_shared(rt: &HostRuntime, asked: &Asked<'_>) -> Result<Directory, Fault>
    ensures { IfOk result IsOpened }
{
    open_any(rt, asked, true, None)
}

fn open_any(
    rt: &HostRuntime,
    asked: &Asked<'_>,
    is_shared: bool,
    handing: Option<AttemptId>,
) -> Result<Directory, Fault>
    ensures { IfOk result IsOpened }
{
    let lock = Lock {
        is_shared,
        wait: asked.wait.map(|seconds| seconds.saturating_mul(1000)),
    };
    Directory::open(rt, asked.dir, lock, handing)
}

/// A held job is published, if each task is won.
#[tactic(auto, using(crate::proofs::Telling::tells_ok, crate::proofs::Telling::tells_err))]
pub fn publish(rt: &HostRuntime, directory: &mut Directory) -> Result<Answered, Fault>
    ensures { CarriesAndTells Order.Publish (λ end. Some (publish_saying end)) Never directory.old directory.new result }
{
    match settle(rt, directory, Order::Publish) {
        Ok(end) => Answered::said(rt, publish_saying(end)),
        Err(fault) => Err(fault),
    }
}

/// The job is ended as failed.
#[tactic(auto, using(crate::proofs::Telling::tells_ok, crate::proofs::Telling::tells_err))]
pub fn abort(rt: &HostRuntime, directory: &mut Directory) -> Result<Answered, Fault>
    ensures { CarriesAndTells Order.Abort (λ end. Some (order_saying end)) Never directory.old directory.new result }
{
    match settle(rt, directory, Order::Abort) {
        Ok(end) => Answered::said(rt, order_saying(end)),
        Err(fault) => Err(fault),
    }
}

/// What a killed command left is finished.
#[tactic(auto, using(crate::proofs::Telling::tells_ok, crate::proofs::Telling::tells_err))]
pub fn recover(rt: &HostRuntime, directory: &mut Directory) -> Result<Answered, Fault>
    ensures { CarriesAndTells Order.Resume (λ end. Some Saying.Done) Never directory.old directory.new result }
{
    match settle(rt, directory, Order::Resume) {
        Ok(_) => Answered::said(rt, Saying::Done),
        Err(fault) => Err(fault),
    }
}

fn resume(rt: &HostRuntime, asked: &Asked<'_>, here: bool) -> Result<Answered, Fault>
    ensures { IfOk result (InOpened (CarriesAndTells Order.Resume (λ end. Some Saying.Done) Never)) }
{
    if here {
        let mut directory = open_any(rt, asked, false, None)?;
        directory.move_here(rt)?;
        drop(directory);
        return finish(rt, ".", asked.wait);
    }
    finish(rt, asked.dir, asked.wait)
}

#[tactic(auto, using(crate::proofs::Outputs::in_opened))]
fn finish(rt: &HostRuntime, dir: &str, wait: Option<u64>) -> Result<Answered, Fault>
    ensures { IfOk result (InOpened (CarriesAndTells Order.Resume (λ end. Some Saying.Done) Never)) }
{
    let asked = Asked {
        dir,
        wait,
        command: Command::Abort,
    };
    recover(rt, &mut open(rt, &asked)?)
}

// Removes the history of a published directory. What a killed one left is removed too, once it is durable that it has its
// other name: else a power cut could bring back a part of it.
#[tactic(auto, using(crate::proofs::Outputs::forgets_told, crate::proofs::Outputs::gone_told))]
fn forget(rt: &HostRuntime, asked: &Asked<'_>) -> Result<Answered, Fault>
    ensures { IfOk result (λ a. InOpened Forgets a ⊎ Says Saying.Done a) }
{
    match open(rt, asked) {
        Ok(mut directory) => forget_published(rt, &mut directory),
        Err(
            Fault::Refused {
                path: _,
                why: Why::Forgotten,
            },
        ) => {
            sync_folder(rt, ".")?;
            remove_gone(rt)
        }
        Err(fault) => Err(fault),
    }
}

/// The history of a published job is forgotten, and removed.
#[tactic(auto, using(crate::proofs::Telling::forgets_ok, crate::proofs::Telling::forgets_err))]
pub fn forget_published(rt: &HostRuntime, directory: &mut Directory) -> Result<Answered, Fault>
    ensures { Forgets directory.old directory.new result }
{
    match settle(rt, directory, Order::Forget) {
        Ok(end) => forgotten(rt, order_saying(end)),
        Err(fault) => Err(fault),
    }
}

#[tactic(auto, using(crate::proofs::Telling::said_ok, crate::proofs::Telling::said_err))]
fn forgotten(rt: &HostRuntime, saying: Saying) -> Result<Answered, Fault>
    ensures says { IfOk result (Says saying) }
    ensures failed { IfErr result (IsFailure (codes "remove") (codes "_mrout.forgotten")) }
{
    match saying {
        Saying::Done => remove_gone(rt),
        saying => Answered::said(rt, saying),
    }
}

#[tactic(auto, using(crate::proofs::Telling::said_ok, crate::proofs::Telling::said_err))]
fn remove_gone(rt: &HostRuntime) -> Result<Answered, Fault>
    ensures says { IfOk result (Says Saying.Done) }
    ensures failed { IfErr result (IsFailure (codes "remove") (codes "_mrout.forgotten")) }
{
    match remove_folder(rt, GONE) {
        Ok(()) => Answered::said(rt, Saying::Done),
        Err(error) if error.kind() == io::ErrorKind::NotFound => Answered::said(rt, Saying::Done),
        Err(error) => Err(Fault::of_call(rt.alloc(), "remove", GONE, error)),
    }
}
