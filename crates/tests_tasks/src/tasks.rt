//! One task.

use crate::calls::{Call, Is, Row, hold};
use crate::fixtures::{are_attempts, attempt, attempt_at, generation, shows, task_id};
use mr_ids::{AttemptId, TaskKind};
use mr_task::{DoneReply, TaskFault, TaskMachine};
use std::alloc::Global;
use std::process::Abort;

// A new machine of the first generation.
fn machine(rt: &impl Abort, alloc: Global, kind: TaskKind) -> TaskMachine {
    TaskMachine::new(alloc, task_id(kind, 0), generation(rt, 1))
}

// The calls of the rows are made of a new machine, and each answer is its row's.
fn hold_of_new(rt: &impl Abort, alloc: Global, kind: TaskKind, rows: &[Row]) {
    let mut task = machine(rt, alloc, kind);
    hold(rt, &mut task, rows);
    drop(task);
}

#[test]
fn grant_stays_with_the_first(rt: HostRuntime) {
    hold_of_new(
        &rt,
        rt.alloc(),
        TaskKind::Reduce,
        &[
            (Call::Launch, 0, Is::Fine),
            (Call::Launch, 1, Is::Fine),
            (Call::Pending, 1, Is::Fine),
            (Call::Pending, 0, Is::Fine),
            (Call::Pending, 1, Is::Fine),
            (Call::CanCommit, 0, Is::No),
            (Call::CanCommit, 1, Is::Yes),
            (Call::CanCommit, 0, Is::No),
            (Call::CanCommit, 1, Is::Yes),
            (Call::Done, 0, Is::Ignored),
        ],
    );
}

// Of two attempts that asked, the first is over: the second wins. The machine that was copied before goes on as it was.
#[test]
fn accepted_then_ended(rt: HostRuntime) {
    let rt = &rt;
    let mut task = machine(rt, rt.alloc(), TaskKind::Reduce);
    hold(
        rt,
        &mut task,
        &[
            (Call::Launch, 0, Is::Fine),
            (Call::Launch, 1, Is::Fine),
            (Call::Pending, 0, Is::Fine),
            (Call::Pending, 1, Is::Fine),
        ],
    );
    let mut copy = task.copy().expect(rt, "no memory");
    confirm!(rt; copy.is_same(&task));
    hold(rt, &mut copy, &[(Call::Ended, 0, Is::Fine)]);
    confirm!(rt; !copy.is_same(&task));
    hold(rt, &mut task, &[(Call::CanCommit, 0, Is::Yes)]);
    drop(task);
    hold(
        rt,
        &mut copy,
        &[
            (Call::CanCommit, 1, Is::Yes),
            (Call::Done, 0, Is::Ignored),
            (Call::Done, 1, Is::Accepted),
            (Call::Done, 1, Is::Again),
            (Call::Ended, 1, Is::Fine),
            (Call::State, 1, Is::Recording),
            (Call::Winner, 0, Is::Nobody),
            (Call::Recorded, 1, Is::Fine),
            (Call::Failures, 1, Is::Yes),
            (Call::Winner, 1, Is::Yes),
        ],
    );
    drop(copy);
}

// All numbers are given away, and no attempt failed.
fn has_run_out(rt: &impl Abort, task: &mut TaskMachine) {
    hold(
        rt,
        task,
        &[
            (Call::Numbered, 1000, Is::Yes),
            (Call::Count, 1000, Is::Yes),
            (Call::Failures, 0, Is::Yes),
        ],
    );
}

// Each attempt that a generation can number is launched and ends, and then there is no further one.
#[test]
fn attempt_numbers_run_out(rt: HostRuntime) {
    let rt = &rt;
    let mut task = machine(rt, rt.alloc(), TaskKind::Reduce);
    for number in 0..1000 {
        hold(
            rt,
            &mut task,
            &[
                (Call::Launch, number, Is::Fine),
                (Call::Stopped, number, Is::Fine),
            ],
        );
    }
    has_run_out(rt, &mut task);
    is_copied(rt, &task);
    hold(rt, &mut task, &[(Call::Launch, 0, Is::TooManyAttempts)]);
    has_run_out(rt, &mut task);
    drop(task);
}

#[test]
fn launch_refusals(rt: HostRuntime) {
    hold_of_new(
        &rt,
        rt.alloc(),
        TaskKind::Reduce,
        &[
            (Call::Launch, 0, Is::Fine),
            (Call::Launch, 1, Is::Fine),
            (Call::Launch, 0, Is::TooManyLive),
            (Call::Pending, 0, Is::Fine),
            (Call::Done, 0, Is::Accepted),
            (Call::Launch, 0, Is::AlreadyWon),
        ],
    );
}

// A map whose attempt 3 is recovered by the master of this generation, and which has no other.
fn recovered(rt: &impl Abort, alloc: Global, number: u32) -> TaskMachine {
    let id = task_id(TaskKind::Map, 0);
    let mut task = TaskMachine::new(alloc, id, generation(rt, number));
    let answer = task.recovered(attempt_at(rt, id, 3));
    confirm_eq!(rt; answer, Ok(()));
    are_attempts(rt, task.arrived(), TaskKind::Map, &[3]);
    task
}

// An attempt of an earlier generation shows no number of this one to be given away; one of this generation shows those up to its own.
#[test]
fn recovered_map_is_lost(rt: HostRuntime) {
    let rt = &rt;
    let mut task = recovered(rt, rt.alloc(), 2);
    hold(
        rt,
        &mut task,
        &[
            (Call::Winner, 3, Is::Yes),
            (Call::Numbered, 0, Is::Yes),
            (Call::Launch, 0, Is::AlreadyWon),
            (Call::Lost, 3, Is::Fine),
            (Call::Winner, 0, Is::Nobody),
            (Call::Launch, 1000, Is::Fine),
            (Call::Numbered, 1, Is::Yes),
            (Call::Done, 3, Is::Again),
        ],
    );
    are_attempts(rt, task.arrived(), TaskKind::Map, &[3, 1000]);
    drop(task);
    let mut own = recovered(rt, rt.alloc(), 1);
    hold(rt, &mut own, &[(Call::Numbered, 4, Is::Yes)]);
    are_attempts(rt, own.arrived(), TaskKind::Map, &[3]);
    drop(own);
}

// An attempt at the map is told what is found before it is told.
fn reports(rt: &impl Abort, task: &mut TaskMachine, number: u32, reply: DoneReply) {
    let a = attempt(rt, TaskKind::Map, number);
    assert!(rt; task.done_reply(a) == Ok(reply));
    task.report(a, reply);
}

// A map's two attempts: what is told of each is found before it is told, and only the first is accepted.
#[test]
fn reports_are_told_as_found(rt: HostRuntime) {
    let rt = &rt;
    let mut task = machine(rt, rt.alloc(), TaskKind::Map);
    hold(
        rt,
        &mut task,
        &[
            (Call::Launch, 0, Is::Fine),
            (Call::Launch, 1, Is::Fine),
            (Call::Heard, 0, Is::Fine),
            (Call::Heard, 1, Is::Fine),
        ],
    );
    reports(rt, &mut task, 1, DoneReply::Accepted);
    reports(rt, &mut task, 0, DoneReply::Ignored);
    reports(rt, &mut task, 1, DoneReply::Again);
    hold(
        rt,
        &mut task,
        &[
            (Call::State, 1, Is::Recording),
            (Call::State, 0, Is::Running),
        ],
    );
    drop(task);
}

#[test]
fn ended_before_pending(rt: HostRuntime) {
    hold_of_new(
        &rt,
        rt.alloc(),
        TaskKind::Reduce,
        &[
            (Call::Launch, 0, Is::Fine),
            (Call::Ended, 0, Is::Fine),
            (Call::Pending, 0, Is::Fine),
            (Call::CanCommit, 0, Is::No),
            (Call::Failures, 1, Is::Yes),
            (Call::Failed, 7, Is::Unknown),
            (Call::CanCommit, 7, Is::No),
            (Call::State, 7, Is::Nobody),
        ],
    );
}

// The calls that no row above makes; a map needs no permission.
#[test]
fn map_is_done(rt: HostRuntime) {
    let rt = &rt;
    let mut task = machine(rt, rt.alloc(), TaskKind::Map);
    hold(
        rt,
        &mut task,
        &[
            (Call::Launch, 0, Is::Fine),
            (Call::Launch, 1, Is::Fine),
            (Call::Heard, 0, Is::Fine),
            (Call::State, 0, Is::Running),
            (Call::Killed, 0, Is::Fine),
            (Call::State, 0, Is::Killed),
            (Call::Launch, 2, Is::Fine),
            (Call::Failed, 2, Is::Fine),
            (Call::Failures, 1, Is::Yes),
            (Call::Done, 1, Is::Accepted),
            (Call::Recorded, 1, Is::Fine),
            (Call::Winner, 1, Is::Yes),
            (Call::Numbered, 3, Is::Yes),
        ],
    );
    are_attempts(rt, task.arrived(), TaskKind::Map, &[0, 1, 2]);
    drop(task);
}

// A map's Done is accepted though another attempt is named. That one's is ignored, and once it is over nobody is named.
#[test]
fn named_map_ends(rt: HostRuntime) {
    hold_of_new(
        &rt,
        rt.alloc(),
        TaskKind::Map,
        &[
            (Call::Launch, 0, Is::Fine),
            (Call::Launch, 1, Is::Fine),
            (Call::Pending, 1, Is::Fine),
            (Call::CanCommit, 1, Is::Yes),
            (Call::Done, 0, Is::Accepted),
            (Call::Done, 1, Is::Ignored),
            (Call::CanCommit, 1, Is::Yes),
            (Call::Stopped, 1, Is::Fine),
            (Call::CanCommit, 1, Is::No),
            (Call::CanCommit, 0, Is::No),
        ],
    );
}

// Both tell the same of this attempt.
fn are_alike(rt: &impl Abort, task: &TaskMachine, copy: &TaskMachine, a: AttemptId) {
    confirm_eq!(rt; copy.state(a), task.state(a));
    confirm_eq!(rt; copy.can_commit(a), task.can_commit(a));
    confirm_eq!(rt; copy.done_reply(a), task.done_reply(a));
}

// A copy of the machine tells what it tells.
fn is_copied(rt: &impl Abort, task: &TaskMachine) {
    let copy = task.copy().expect(rt, "no memory");
    confirm_eq!(rt; copy.arrived(), task.arrived());
    confirm_eq!(rt; copy.numbered(), task.numbered());
    confirm_eq!(rt; copy.failures(), task.failures());
    confirm_eq!(rt; copy.winner(), task.winner());
    confirm_eq!(rt; copy.is_won(), task.is_won());
    for a in task.arrived() {
        are_alike(rt, task, &copy, *a);
    }
    drop(copy);
}

// The calls of the rows are made in turn, and after each a copy of the machine tells what it tells.
fn hold_of_copies(rt: &impl Abort, task: &mut TaskMachine, rows: &[Row]) {
    for row in rows {
        hold(rt, task, &[*row]);
        is_copied(rt, task);
    }
}

// A machine is copied at each stage of a task: before a launch, and after each kind of call.
#[test]
fn task_is_copied(rt: HostRuntime) {
    let rt = &rt;
    let mut task = machine(rt, rt.alloc(), TaskKind::Map);
    is_copied(rt, &task);
    hold_of_copies(
        rt,
        &mut task,
        &[
            (Call::Launch, 0, Is::Fine),
            (Call::Heard, 0, Is::Fine),
            (Call::Launch, 1, Is::Fine),
            (Call::Pending, 1, Is::Fine),
            (Call::Pending, 0, Is::Fine),
            (Call::Failed, 1, Is::Fine),
            (Call::Launch, 2, Is::Fine),
            (Call::Killed, 2, Is::Fine),
            (Call::Done, 0, Is::Accepted),
            (Call::Recorded, 0, Is::Fine),
            (Call::Lost, 0, Is::Fine),
            (Call::Launch, 3, Is::Fine),
            (Call::Stopped, 3, Is::Fine),
        ],
    );
    drop(task);
}

// What the next launch would give is told without a launch.
#[test]
fn next_launch_is_told(rt: HostRuntime) {
    let rt = &rt;
    let mut task = machine(rt, rt.alloc(), TaskKind::Map);
    task.stands();
    assert!(rt; task.launch_refusal().is_none());
    confirm_eq!(rt; task.next_attempt(), attempt(rt, TaskKind::Map, 0));
    hold(
        rt,
        &mut task,
        &[(Call::Launch, 0, Is::Fine), (Call::Launch, 1, Is::Fine)],
    );
    confirm_eq!(rt; task.launch_refusal(), Some(TaskFault::TooManyLive));
    drop(task);
}

// What the faults print.
#[test]
fn task_fault_texts(rt: HostRuntime) {
    let rt = &rt;
    for (fault, text) in &[
        (TaskFault::AlreadyWon, "AlreadyWon"),
        (TaskFault::TooManyLive, "TooManyLive"),
        (TaskFault::TooManyAttempts, "TooManyAttempts"),
        (TaskFault::Unknown, "Unknown"),
        (TaskFault::NoMemory, "NoMemory"),
    ] {
        shows(rt, rt.alloc(), fault, text);
    }
}
