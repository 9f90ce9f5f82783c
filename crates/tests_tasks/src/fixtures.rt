//! What the tests begin with.
ghost use Rattle.std.specs.Prelude.{◌≡◌};

use mr_ids::{AppAttempt, AttemptId, JobId, TaskId, TaskKind};
use mr_mapside::{MAX_OUTPUT_LEN, MapOutput};
use mr_node::NodeMachine;
use mr_packet::{Bytes, ContainerId};
use std::alloc::Global;
use std::fmt::Display;
use std::process::Abort;

const JOB: JobId = JobId {
    start: 200707121733,
    number: 3,
};

/// The task of this number and kind.
pub fn task_id(kind: TaskKind, number: u32) -> TaskId {
    TaskId {
        job: JOB,
        kind,
        number,
    }
}

/// The attempt of this number at the task.
pub fn attempt_at(rt: &impl Abort, task: TaskId, number: u32) -> AttemptId
    ensures { result.task ≡ task }
{
    AttemptId::new(task, number).expect(rt, "no attempt has this number")
}

/// The attempt of this number at the task 0 of this kind.
pub fn attempt(rt: &impl Abort, kind: TaskKind, number: u32) -> AttemptId {
    attempt_at(rt, task_id(kind, 0), number)
}

/// The generation of this number.
pub fn generation(rt: &impl Abort, number: u32) -> AppAttempt {
    AppAttempt::new(number).expect(rt, "no generation has this number")
}

/// The container of this number of the first master.
pub fn container(rt: &impl Abort, number: u32) -> ContainerId {
    ContainerId {
        app: generation(rt, 1),
        number,
    }
}

/// These bytes.
pub fn bytes_of(rt: &impl Abort, alloc: Global, items: &[u8]) -> Bytes {
    Bytes::from_slice(alloc, items).expect(rt, "no memory")
}

/// A node of one reduce, with this output of the first attempt at map 0.
pub fn node_with(rt: &impl Abort, alloc: Global, output: Vec<u8>) -> NodeMachine {
    assert!(rt; output.len() <= MAX_OUTPUT_LEN);
    let output = MapOutput::from_vec(output);
    let mut node = NodeMachine::new(alloc, 0, 1);
    node.put(attempt(rt, TaskKind::Map, 0), output)
        .expect(rt, "no memory");
    node
}

/// These are the attempts of these numbers at the task 0 of this kind, in this order.
pub fn are_attempts(rt: &impl Abort, list: &[AttemptId], kind: TaskKind, numbers: &[u32]) {
    confirm_eq!(rt; list.len(), numbers.len());
    for (a, number) in list.iter().zip(numbers) {
        confirm!(rt; *a == attempt(rt, kind, *number), number);
    }
}

/// `{}` writes this text of a value.
pub fn shows<T: Display>(rt: &impl Abort, alloc: Global, value: &T, text: &str) {
    let shown = value.to_string(alloc).expect(rt, "no memory");
    confirm_eq!(rt; shown.as_str(), text);
}
