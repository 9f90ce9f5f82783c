//! The recovery plan.

use crate::fixtures::{attempt, attempt_at, shows, task_id};
use mr_history::Record;
use mr_ids::{AttemptId, TaskKind};
use mr_recover::{RecoverFault, Recovery, Staging, TaskWinner};
use std::alloc::Global;
use std::process::Abort;

// An attempt at the reduce of this number.
fn at_reduce(rt: &impl Abort, reduce: u32, number: u32) -> AttemptId {
    attempt_at(rt, task_id(TaskKind::Reduce, reduce), number)
}

// Two generations: reduce 1 succeeded in the first without a length, reduce 0 in the second with one, and reduce 1 again.
fn records(rt: &impl Abort) -> [Record; 4] {
    [
        Record::MapSucceeded {
            attempt: attempt(rt, TaskKind::Map, 0),
            node: 0,
            incarnation: 1,
        },
        Record::ReduceSucceeded {
            attempt: at_reduce(rt, 1, 0),
            bytes: None,
        },
        Record::ReduceSucceeded {
            attempt: at_reduce(rt, 0, 1000),
            bytes: Some(8),
        },
        Record::ReduceSucceeded {
            attempt: at_reduce(rt, 1, 1000),
            bytes: Some(4),
        },
    ]
}

// The plan with these marks: success, failure, and start of a job commit.
fn plan(rt: &impl Abort, alloc: Global, success: bool, fail: bool, started: bool) -> Recovery {
    let marks = Staging {
        success,
        fail,
        started,
    };
    Recovery::plan(alloc, &records(rt), marks).expect(rt, "no memory")
}

// This attempt at the reduce won, with this length.
fn winner(rt: &impl Abort, reduce: u32, number: u32, bytes: Option<u32>) -> TaskWinner {
    TaskWinner {
        task: task_id(TaskKind::Reduce, reduce),
        attempt: at_reduce(rt, reduce, number),
        bytes,
    }
}

#[test]
fn the_first_winners_by_rising_task(rt: HostRuntime) {
    let rt = &rt;
    let Recovery::Resume(winners) = plan(rt, rt.alloc(), false, false, false) else {
        panic!(rt; "no plan");
    };
    let list = winners.as_slice();
    assert!(rt; winners.len() == 2);
    confirm_eq!(rt; list[0], winner(rt, 0, 1000, Some(8)));
    confirm_eq!(rt; list[1], winner(rt, 1, 0, None));
    drop(winners);
}

// Whether a plan reports success or failure, where it does not go on.
fn reports(rt: &impl Abort, plan: Recovery) -> bool {
    match plan {
        Recovery::Succeeded => true,
        Recovery::Failed => false,
        Recovery::Resume(_) => panic!(rt; "it goes on"),
    }
}

#[test]
fn the_first_mark_decides(rt: HostRuntime) {
    let rt = &rt;
    let alloc = rt.alloc();
    confirm!(rt; reports(rt, plan(rt, alloc, true, true, true)));
    confirm!(rt; !reports(rt, plan(rt, alloc, false, true, true)));
    confirm!(rt; !reports(rt, plan(rt, alloc, false, false, true)));
}

#[test]
fn recover_fault_text(rt: HostRuntime) {
    shows(&rt, rt.alloc(), &RecoverFault::NoMemory, "NoMemory");
}
