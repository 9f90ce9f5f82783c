//! Each example, run once.

use crate::{begin, stores, worlds};
use mr_attempt::AttemptState;
use mr_commit::{Step, StepDone};
use mr_container::ContainerMachine;
use mr_history::{History, Record};
use mr_ids::{AppAttempt, AttemptId, JobId, TaskId, TaskKind};
use mr_names::{Caller, Kind, Namespace};
use mr_node::NodeMachine;
use mr_packet::{Address, Bag, ContainerId, Envelope, Packet};
use mr_paths::{Layout, Path, part_name};
use mr_recover::{Recovery, Staging};
use mr_task::{DoneReply, TaskMachine};
use mr_user::MAX_SPLIT_LEN;
use mr_world::{Config, Splits, World};
use std::alloc::Global;
use std::fmt::Debug;
use std::process::Abort;

const TASK: TaskId = TaskId {
    job: JobId {
        start: 200707121733,
        number: 3,
    },
    kind: TaskKind::Reduce,
    number: 0,
};

// What an answer holds. A fault is told by its name, so that want of memory is told apart.
fn well<T, E: Debug>(rt: &impl Abort, answer: Result<T, E>) -> T {
    answer.expect(rt, "a fault")
}

fn generation(rt: &impl Abort, number: u32) -> AppAttempt {
    AppAttempt::new(number).expect(rt, "no generation has this number")
}

fn attempt(rt: &impl Abort, number: u32) -> AttemptId {
    AttemptId::new(TASK, number).expect(rt, "no attempt has this number")
}

fn path(rt: &impl Abort, alloc: Global, text: &str) -> Path {
    Path::parse(alloc, text).expect(rt, "no path")
}

fn bytes(rt: &impl Abort, alloc: Global, items: &[u8]) -> Vec<u8> {
    Vec::from_slice(alloc, items).expect(rt, "no memory")
}

// The bytes are those that are wanted.
fn are(rt: &impl Abort, bytes: &[u8], want: &[u8]) {
    confirm_eq!(rt; bytes, want);
}

// The place of the job's output.
fn layout(rt: &impl Abort, alloc: Global) -> Layout {
    Layout {
        dest: path(rt, alloc, "/out"),
    }
}

#[test]
fn identifiers_and_paths(rt: HostRuntime) {
    let rt = &rt;
    let read = begin::launched_by("attempt_200707121733_0003_r_000000_1000");
    let k = generation(rt, 2);
    confirm_eq!(rt; read, Ok((TASK, k)));
    let committed = well(rt, begin::committed_path(rt.alloc(), "/out", k, TASK));
    let wanted = path(
        rt,
        rt.alloc(),
        "/out/_temporary/2/task_200707121733_0003_r_000000",
    );
    confirm_eq!(rt; committed, wanted);
    drop(committed);
    drop(wanted);
}

#[test]
fn attempts_and_tasks(rt: HostRuntime) {
    let rt = &rt;
    let alloc = rt.alloc();
    let (a0, a1) = (attempt(rt, 0), attempt(rt, 1));
    confirm_eq!(rt; begin::killed_attempt(a0), AttemptState::Killed);
    confirm!(rt; well(rt, begin::passes_on(alloc, a0, a1)));
    let mut task = TaskMachine::new(alloc, TASK, generation(rt, 1));
    let reply = well(rt, stores::one_wins(&mut task));
    confirm_eq!(rt; reply, DoneReply::Accepted);
    confirm_eq!(rt; task.winner(), Some(a1));
    drop(task);
}

// The words are counted so, in the files of two reduces.
fn are_counted(rt: &impl Abort, alloc: Global, text: &[u8], first: &[u8], second: &[u8]) {
    let files = well(rt, begin::count_words(alloc, text));
    assert!(rt; files.len() == 2);
    are(rt, &files[0], first);
    are(rt, &files[1], second);
    drop(files);
}

#[test]
fn jobs(rt: HostRuntime) {
    let rt = &rt;
    let alloc = rt.alloc();
    are_counted(rt, alloc, b"a b\na\n", b"b\t1\n", b"a\t2\n");
    // b goes to reduce 0: its length, its byte, and the number 1 in eight bytes
    confirm_eq!(rt; well(rt, begin::first_block(alloc, b"a b\na\n")), 13);
    let block = b"\0\0\0\x01b\0\0\0\0\0\0\0\x01";
    let text = begin::reduced(alloc, bytes(rt, alloc, block), bytes(rt, alloc, block));
    are(rt, &well(rt, text), b"b\t2\n");
}

// A directory is made and moved.
fn moves_a_directory(rt: &impl Abort, alloc: Global, names: &mut Namespace, caller: &Caller) {
    let spare = path(rt, alloc, "/spare");
    let file = path(rt, alloc, "/spare/part");
    let moved = path(rt, alloc, "/moved");
    let answer = begin::move_directory(names, caller, &spare, &file, &moved);
    drop(spare);
    drop(file);
    drop(moved);
    confirm_eq!(rt; answer, Ok(()));
}

// The first attempt's part file is written.
fn writes(rt: &impl Abort, alloc: Global, names: &mut Namespace, caller: &Caller, layout: &Layout) {
    let work = well(rt, layout.task_attempt(caller.app, attempt(rt, 0)));
    let part = well(rt, part_name(alloc, 0));
    let file = well(rt, work.child(part));
    well(rt, names.mkdirs(*caller, &work));
    well(rt, names.create(*caller, &file, true));
    drop(work);
    drop(file);
}

// What the task committed is a directory.
fn is_committed(rt: &impl Abort, names: &Namespace, caller: &Caller, layout: &Layout) {
    let committed = well(rt, layout.committed(caller.app, TASK));
    let found = names.exists(*caller, &committed);
    drop(committed);
    confirm_eq!(rt; found, Ok(Some(Kind::Dir)));
}

#[test]
fn committer_over_a_store(rt: HostRuntime) {
    let rt = &rt;
    let alloc = rt.alloc();
    let caller = &Caller {
        app: generation(rt, 1),
        attempt: None,
    };
    let layout = layout(rt, alloc);
    let mut names = well(rt, Namespace::new(alloc));
    moves_a_directory(rt, alloc, &mut names, caller);
    writes(rt, alloc, &mut names, caller, &layout);
    let mut step = well(rt, Step::commit_task(&layout, caller.app, attempt(rt, 0)));
    let done = stores::commit(&mut names, *caller, &mut step, 10);
    drop(step);
    confirm_eq!(rt; done, Ok(StepDone::Finished));
    is_committed(rt, &names, caller, &layout);
    drop(layout);
    drop(names);
}

// The master of this generation takes over, of a job that nothing is known of.
fn takes_over(rt: &impl Abort, alloc: Global, history: &mut History, number: u32) -> Recovery {
    let none = Staging {
        success: false,
        fail: false,
        started: false,
    };
    let k = generation(rt, number);
    let plan = well(rt, stores::take_over(alloc, history, k, none));
    plan.expect(rt, "no plan")
}

// It goes on, and the first attempt is the one winner.
fn has_one_winner(rt: &impl Abort, plan: Recovery) {
    let Recovery::Resume(winners) = plan else {
        panic!(rt; "it does not go on");
    };
    assert!(rt; winners.len() == 1);
    confirm_eq!(rt; winners.as_slice()[0].attempt, attempt(rt, 0));
    drop(winners);
}

#[test]
fn history_after_a_crash(rt: HostRuntime) {
    let rt = &rt;
    let alloc = rt.alloc();
    let mut history = well(rt, History::new(alloc));
    drop(takes_over(rt, alloc, &mut history, 1));
    let won = Record::ReduceSucceeded {
        attempt: attempt(rt, 0),
        bytes: Some(4),
    };
    confirm!(rt; well(rt, stores::write(&mut history, generation(rt, 1), won)));
    let plan = takes_over(rt, alloc, &mut history, 2);
    drop(history);
    has_one_winner(rt, plan);
}

// The container that a node launches, whose map of nothing is handed in.
fn launched(rt: &impl Abort, alloc: Global, bag: &mut Bag) -> ContainerMachine {
    let mut node = NodeMachine::new(alloc, 0, 1);
    let launch = Packet::Launch {
        container: ContainerId {
            app: generation(rt, 1),
            number: 0,
        },
        attempt: attempt(rt, 0),
        incarnation: 1,
    };
    let heard = well(rt, stores::node_hears(alloc, bag, &mut node, &launch, 0));
    drop(launch);
    drop(node);
    let mut container = heard.expect(rt, "no container");
    container.computed(mr_packet::Bytes::from_vec(bytes(rt, alloc, b"")));
    container
}

// The container takes a step.
fn steps(rt: &impl Abort, alloc: Global, bag: &mut Bag, container: &mut ContainerMachine) {
    let mut names = well(rt, Namespace::new(alloc));
    let layout = layout(rt, alloc);
    let answer = stores::container_step(&mut names, &layout, bag, container);
    drop(layout);
    drop(names);
    confirm_eq!(rt; answer, Ok(()));
}

#[test]
fn containers_and_nodes(rt: HostRuntime) {
    let rt = &rt;
    let alloc = rt.alloc();
    let mut bag = Bag::new(alloc);
    let mut container = launched(rt, alloc, &mut bag);
    steps(rt, alloc, &mut bag, &mut container);
    drop(container);
    let envelope = Envelope {
        to: Address::Master(generation(rt, 1)),
        body: Packet::NodeUp {
            node: 0,
            incarnation: 2,
        },
    };
    well(rt, begin::put_packet(&mut bag, envelope));
    confirm_eq!(rt; bag.len(), 1);
    drop(bag);
}

// A job of one map, of `a b a`, and one reduce.
fn config(rt: &impl Abort, alloc: Global) -> Config {
    let split = bytes(rt, alloc, b"a b a");
    assert!(rt; split.len() <= MAX_SPLIT_LEN);
    let mut splits = Vec::new(alloc);
    splits
        .push(mr_packet::Bytes::from_vec(split))
        .expect(rt, "no memory");
    Config {
        job: TASK.job,
        splits: Splits::from_vec(splits),
        reduces: 1,
        nodes: 1,
        limit: 4,
        v2_from: 1,
    }
}

// The map makes one block behind its length: a with 2, b with 1.
#[test]
fn a_job_in_a_world(rt: HostRuntime) {
    let rt = &rt;
    let alloc = rt.alloc();
    let mut world = well(rt, World::new(alloc, config(rt, alloc)));
    let made = b"\0\0\0\x1a\0\0\0\x01a\0\0\0\0\0\0\0\x02\0\0\0\x01b\0\0\0\0\0\0\0\x01";
    let outcome = worlds::run_job(alloc, &mut world, made, b"a\t2\nb\t1\n");
    drop(world);
    confirm_eq!(rt; outcome, Ok(Some(true)));
}
