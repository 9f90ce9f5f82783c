//! Why a master would launch nothing, or would not give a node up: told without a try.

use crate::masters::{MAP, REDUCE, launched, master, running};
use crate::stopping::launches;
use mr_ids::TaskId;
use mr_master::MasterMachine;
use mr_master_model::LaunchFault;
use mr_task::TaskFault;
use std::process::Abort;

// What a launch of the task on the node would be refused for, if for anything.
fn refuses(
    rt: &impl Abort,
    master: &MasterMachine,
    task: TaskId,
    node: u32,
    want: Option<LaunchFault>,
) {
    let refusal = master.launch_refusal(task, node);
    confirm_eq!(rt; refusal, want);
}

// The same of the node that would be given up.
fn keeps(rt: &impl Abort, master: &MasterMachine, node: u32, want: Option<LaunchFault>) {
    let refusal = master.expire_refusal(node);
    confirm_eq!(rt; refusal, want);
}

// The first refusal that applies: the task before the node, and the task's own last.
#[test]
fn refusals_of_a_launch_are_told(rt: HostRuntime) {
    let rt = &rt;
    let mut master = running(rt, rt.alloc(), 0, 1);
    refuses(rt, &master, MAP, 1, Some(LaunchFault::NoTask));
    refuses(rt, &master, REDUCE, 1, Some(LaunchFault::NoNode));
    refuses(rt, &master, REDUCE, 0, None);
    launches(rt, &mut master);
    refuses(rt, &master, REDUCE, 0, None);
    launched(rt, &mut master, REDUCE, 0);
    let live = Some(LaunchFault::Task(TaskFault::TooManyLive));
    refuses(rt, &master, REDUCE, 0, live);
    confirm!(rt; master.launch(REDUCE, 0).is_err());
}

#[test]
fn refusals_of_an_expiry_are_told(rt: HostRuntime) {
    let rt = &rt;
    let master = running(rt, rt.alloc(), 0, 1);
    keeps(rt, &master, 0, None);
    keeps(rt, &master, 1, Some(LaunchFault::NoNode));
}

// That it does not run is told before all else.
#[test]
fn new_master_refuses_all(rt: HostRuntime) {
    let rt = &rt;
    let master = master(rt, rt.alloc(), 1, 1, 2);
    let map = TaskId { number: 7, ..MAP };
    refuses(rt, &master, map, 7, Some(LaunchFault::NotRunning));
    keeps(rt, &master, 7, Some(LaunchFault::NotRunning));
}
