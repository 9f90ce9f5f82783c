//! A master that opens: it looks for the marks of a job commit, launches nothing, and hears of nodes alone.

use crate::masters::{JOB, MAP, REDUCE, master, wants};
use crate::told::{Told, hears};
use mr_ids::{JobId, TaskId};
use mr_master::{LaunchError, MasterMachine};
use mr_master_model::{DutyName, LaunchFault, Phase, StoreCall};
use mr_names::Op;
use std::alloc::Global;
use std::process::Abort;

// It is as a new master: it looks for COMMIT_SUCCESS next, and would launch nothing.
fn is_new(rt: &impl Abort, alloc: Global, master: &MasterMachine) {
    let duty = master.duty().expect(rt, "no memory");
    let duty = duty.expect(rt, "nothing is due");
    confirm_eq!(rt; duty.name(), DutyName::Marks);
    looks_for_success(rt, alloc, duty.call());
    confirm_eq!(rt; master.phase(), Phase::Opening);
    wants(rt, master, None);
    drop(duty);
}

// The call looks for COMMIT_SUCCESS.
fn looks_for_success(rt: &impl Abort, alloc: Global, call: &StoreCall) {
    match call {
        StoreCall::Names(Op::Exists(path)) => {
            let text = path.to_string(alloc).expect(rt, "no memory");
            confirm_eq!(rt; text.as_str(), "/staging/COMMIT_SUCCESS");
        }
        _ => panic!(rt; "it looks for nothing"),
    }
}

#[test]
fn new_master_looks_for_success(rt: HostRuntime) {
    let rt = &rt;
    let master = master(rt, rt.alloc(), 1, 1, 2);
    master.stands();
    is_new(rt, rt.alloc(), &master);
}

// That it does not run is told first, whatever task and node are named.
#[test]
fn nothing_is_launched_nor_given_up(rt: HostRuntime) {
    let rt = &rt;
    let mut master = master(rt, rt.alloc(), 1, 1, 2);
    let foreign = TaskId {
        job: JobId { number: 4, ..JOB },
        ..MAP
    };
    is_refused(rt, &mut master, MAP, 0);
    is_refused(rt, &mut master, REDUCE, 2);
    is_refused(rt, &mut master, foreign, 0);
    is_new(rt, rt.alloc(), &master);
}

// Neither is the task launched on the node, nor the node given up.
fn is_refused(rt: &impl Abort, master: &mut MasterMachine, task: TaskId, node: u32) {
    let launched = master.launch(task, node).err();
    confirm_eq!(rt; launched, Some(LaunchError::Refused(LaunchFault::NotRunning)));
    let given_up = master.expire(node).err();
    confirm_eq!(rt; given_up, Some(LaunchFault::NotRunning));
}

// Of all that is told to masters only `NodeUp` is heard, and for none of it anything is sent.
#[test]
fn nothing_is_answered(rt: HostRuntime) {
    let rt = &rt;
    let mut master = master(rt, rt.alloc(), 1, 1, 2);
    let rows = &[
        (Told::Pending, 0, 0),
        (Told::Poll, 0, 0),
        (Told::Done, 0, 0),
        (Told::Failed, 0, 0),
        (Told::Ended, 0, 0),
        (Told::Where, 0, 0),
        (Told::FetchLost, 0, 0),
        (Told::NodeUp, 2, 0),
    ];
    hears(rt, &mut master, rows);
    is_new(rt, rt.alloc(), &master);
}
