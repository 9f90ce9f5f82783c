//! What the tests of masters begin with.

use crate::answers::{Said, Then, answers};
use mr_ids::{AppAttempt, AttemptId, JobId, TaskId, TaskKind};
use mr_master::MasterMachine;
use mr_master_model::{DutyName, Setting};
use mr_packet::{ContainerId, Envelope};
use mr_paths::{Layout, Path};
use std::alloc::Global;
use std::process::Abort;

/// The job of the tests.
pub const JOB: JobId = JobId {
    start: 200707121733,
    number: 3,
};

/// Its first map.
pub const MAP: TaskId = TaskId {
    job: JOB,
    kind: TaskKind::Map,
    number: 0,
};

/// Its one reduce.
pub const REDUCE: TaskId = TaskId {
    job: JOB,
    kind: TaskKind::Reduce,
    number: 0,
};

/// The generation of this number.
pub fn generation(rt: &impl Abort, number: u32) -> AppAttempt {
    AppAttempt::new(number).expect(rt, "no generation of this number")
}

/// The container of this number of the first master.
pub fn container(rt: &impl Abort, number: u32) -> ContainerId {
    ContainerId {
        app: generation(rt, 1),
        number,
    }
}

/// The attempt of this number at a task.
pub fn attempt(rt: &impl Abort, task: TaskId, number: u32) -> AttemptId {
    AttemptId::new(task, number).expect(rt, "no attempt of this number")
}

/// The master of a generation, of a job of so many maps and one reduce on so many nodes, with its output at `/out`.
pub fn master(rt: &impl Abort, alloc: Global, number: u32, maps: u32, nodes: u32) -> MasterMachine {
    let dest = Path::parse(alloc, "/out").expect(rt, "/out");
    let setting = Setting {
        app: generation(rt, number),
        job: JOB,
        maps,
        reduces: 1,
        nodes,
        limit: 4,
        layout: Layout { dest },
    };
    MasterMachine::new(alloc, setting).expect(rt, "no memory")
}

/// The first master of such a job, that found no mark and no record, and made its job attempt path: it is Running.
pub fn running(rt: &impl Abort, alloc: Global, maps: u32, nodes: u32) -> MasterMachine {
    let mut master = master(rt, alloc, 1, maps, nodes);
    let rows = &[
        (DutyName::Marks, Said::Absent, Then::Silent),
        (DutyName::Marks, Said::Absent, Then::Silent),
        (DutyName::Marks, Said::Absent, Then::Silent),
        (DutyName::Read, Said::NoRecord, Then::Silent),
        (DutyName::Setup, Said::Done, Then::Silent),
    ];
    answers(rt, alloc, &mut master, rows);
    master
}

/// An attempt at the task is launched on the node. Gives the packet that is sent.
pub fn launched(rt: &impl Abort, master: &mut MasterMachine, task: TaskId, node: u32) -> Envelope {
    master.launch(task, node).expect(rt, "not launched")
}

/// The node 0 is given up. Gives the packets that are sent.
pub fn given_up(rt: &impl Abort, master: &mut MasterMachine) -> Vec<Envelope> {
    master.expire(0).expect(rt, "not given up")
}

/// This task is launched next, or none.
pub fn wants(rt: &impl Abort, master: &MasterMachine, task: Option<TaskId>) {
    let wanted = master.wanted();
    confirm_eq!(rt; wanted, task);
}

/// The name of what is due, if anything is.
pub fn due(rt: &impl Abort, master: &MasterMachine) -> Option<DutyName> {
    let duty = master.duty().expect(rt, "no memory")?;
    Some(duty.name())
}
