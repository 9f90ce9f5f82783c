//! How a container comes to its end: by a commit, by an abort, or as a map.

use crate::containers::{fetching, gets, hears, machine, wishes};
use crate::fixtures::{attempt, bytes_of};
use mr_container::{ContainerMachine, Reply, Wish};
use mr_ids::TaskKind;
use mr_names::{NameFault, Namespace};
use mr_packet::{Bag, Envelope, Packet};
use mr_paths::{Layout, Path, part_name};
use std::alloc::Global;
use std::process::Abort;

// A reduce whose bytes `out` were handed in.
fn computed(rt: &impl Abort, alloc: Global) -> ContainerMachine {
    let mut reduce = fetching(rt, alloc);
    gets(rt, alloc, &mut reduce, &(0, 0, 0, 0, b""));
    reduce.computed(bytes_of(rt, alloc, b"out"));
    reduce
}

fn layout(rt: &impl Abort, alloc: Global) -> Layout {
    Layout {
        dest: Path::parse(alloc, "/out").expect(rt, "no path"),
    }
}

// What comes to a reduce that has its bytes.
#[derive(Clone, Copy)]
enum Event {
    // It makes the call that it wishes to make.
    Calls,
    // It sends what it wishes to send.
    Sends,
    // Its attempt is told whether it may commit.
    Yes,
    No,
    // Another attempt is told that it may.
    YesToAnother,
}

// The container wishes each of these in turn, and then this comes.
fn goes(
    rt: &impl Abort,
    names: &mut Namespace,
    layout: &Layout,
    machine: &mut ContainerMachine,
    rows: &[(Wish, Event)],
) {
    for (wish, event) in rows {
        wishes(rt, machine, *wish);
        match *event {
            Event::Calls => calls(rt, names, layout, machine),
            Event::Sends => machine.sent(),
            Event::Yes => is_answered(rt, machine, 0, true),
            Event::No => is_answered(rt, machine, 0, false),
            Event::YesToAnother => is_answered(rt, machine, 1, true),
        }
    }
}

// The container makes the call that it wishes to make.
fn calls(rt: &impl Abort, names: &mut Namespace, layout: &Layout, machine: &mut ContainerMachine) {
    let call = machine.call(layout).expect(rt, "no memory");
    let op = call.expect(rt, "no call");
    let answer = names.perform(machine.caller(), &op);
    drop(op);
    confirm!(rt; !matches!(answer, Err(NameFault::NoMemory)), &answer);
    machine.on(Reply::Answered(answer));
}

// The attempt of this number at the reduce is told whether it may commit.
fn is_answered(rt: &impl Abort, machine: &mut ContainerMachine, number: u32, yes: bool) {
    let a = attempt(rt, TaskKind::Reduce, number);
    hears(rt, machine, Packet::Answer { attempt: a, yes });
}

// A reduce that wrote its part file.
fn written(
    rt: &impl Abort,
    alloc: Global,
    names: &mut Namespace,
    layout: &Layout,
) -> ContainerMachine {
    let mut reduce = computed(rt, alloc);
    goes(
        rt,
        names,
        layout,
        &mut reduce,
        &[
            (Wish::Mkdirs, Event::Calls),
            (Wish::Create, Event::Calls),
            (Wish::Write, Event::Calls),
            (Wish::Close, Event::Calls),
            (Wish::Needs, Event::Calls),
        ],
    );
    reduce
}

// Where it reports that it is done, this is what it tells of its length.
fn tells_length(rt: &impl Abort, machine: &ContainerMachine, want: Option<u32>) {
    let told = told_bytes(machine);
    confirm_eq!(rt; told, Some(want));
}

fn told_bytes(machine: &ContainerMachine) -> Option<Option<u32>> {
    match machine.packet() {
        Some(
            Envelope {
                to: _,
                body: Packet::Done { bytes, .. },
            },
        ) => Some(bytes),
        _ => None,
    }
}

// The reduce's part file has these bytes.
fn is_committed(
    rt: &impl Abort,
    alloc: Global,
    names: &Namespace,
    layout: &Layout,
    reduce: &ContainerMachine,
    want: &[u8],
) {
    let task = reduce.place().attempt.task();
    let mut part = layout
        .committed(reduce.id().app, task)
        .expect(rt, "no memory");
    let name = part_name(alloc, 0).expect(rt, "no memory");
    part.push(name).expect(rt, "no memory");
    let bytes = names.read(reduce.caller(), &part).expect(rt, "no file");
    drop(part);
    confirm_eq!(rt; bytes.as_slice(), want);
    drop(bytes);
}

// Its part file is written, and is committed once it was told yes.
#[test]
fn reduce_commits(rt: HostRuntime) {
    let rt = &rt;
    let alloc = rt.alloc();
    let layout = layout(rt, alloc);
    let mut names = Namespace::new(alloc).expect(rt, "no memory");
    let mut reduce = written(rt, alloc, &mut names, &layout);
    goes(
        rt,
        &mut names,
        &layout,
        &mut reduce,
        &[(Wish::Pending, Event::No), (Wish::Poll, Event::Yes)],
    );
    let mut copy = reduce.copy().expect(rt, "no memory");
    confirm!(rt; copy.is_same(&reduce));
    goes(
        rt,
        &mut names,
        &layout,
        &mut copy,
        &[
            (Wish::Look, Event::Calls),
            (Wish::Clear, Event::Calls),
            (Wish::Rename, Event::Calls),
        ],
    );
    confirm!(rt; !copy.is_same(&reduce));
    drop(reduce);
    tells_length(rt, &copy, Some(3));
    is_committed(rt, alloc, &names, &layout, &copy, b"out");
    drop(copy);
    drop(names);
    drop(layout);
}

// What was sent is wished again until the answer is heard: a no leads from one way of asking to the other.
#[test]
fn asks_until_yes(rt: HostRuntime) {
    let rt = &rt;
    let alloc = rt.alloc();
    let layout = layout(rt, alloc);
    let mut names = Namespace::new(alloc).expect(rt, "no memory");
    let mut reduce = written(rt, alloc, &mut names, &layout);
    goes(
        rt,
        &mut names,
        &layout,
        &mut reduce,
        &[
            (Wish::Pending, Event::Sends),
            (Wish::Pending, Event::YesToAnother),
            (Wish::Pending, Event::No),
            (Wish::Poll, Event::Sends),
            (Wish::Poll, Event::No),
        ],
    );
    wishes(rt, &reduce, Wish::Pending);
    drop(reduce);
    drop(names);
    drop(layout);
}

// Whether two packets tell that an attempt failed, and that its container ended.
fn tell_of_a_failure(packets: &[Envelope]) -> bool {
    matches!(
        packets,
        [
            Envelope {
                to: _,
                body: Packet::Failed { .. }
            },
            Envelope {
                to: _,
                body: Packet::Ended { .. }
            }
        ]
    )
}

// A fault leads to the abort, whatever that answers; then it tells that it failed, and ended.
#[test]
fn fault_aborts(rt: HostRuntime) {
    let rt = &rt;
    let alloc = rt.alloc();
    let mut reduce = computed(rt, alloc);
    reduce.on(Reply::Fault);
    wishes(rt, &reduce, Wish::Abort);
    reduce.on(Reply::Answered(Err(NameFault::Missing)));
    wishes(rt, &reduce, Wish::Failed);
    let mut bag = Bag::new(alloc);
    bag.reserve(2).expect(rt, "no memory");
    reduce.send(&mut bag);
    wishes(rt, &reduce, Wish::Over);
    drop(reduce);
    confirm!(rt; tell_of_a_failure(bag.packets()));
    drop(bag);
}

// It hears that its master knows the attempt of this number to be done, and then wishes this.
fn is_acknowledged(rt: &impl Abort, map: &mut ContainerMachine, number: u32, want: Wish) {
    let a = attempt(rt, TaskKind::Map, number);
    hears(rt, map, Packet::DoneAck { attempt: a });
    wishes(rt, map, want);
}

// A map reports without a length. The first DoneAck of its attempt ends it, a second does nothing.
#[test]
fn done_ack_twice(rt: HostRuntime) {
    let rt = &rt;
    let alloc = rt.alloc();
    let mut map = machine(rt, alloc, TaskKind::Map);
    wishes(rt, &map, Wish::Compute);
    map.computed(bytes_of(rt, alloc, b"\0\0\0\0"));
    tells_length(rt, &map, None);
    is_acknowledged(rt, &mut map, 1, Wish::Report);
    is_acknowledged(rt, &mut map, 0, Wish::Over);
    is_acknowledged(rt, &mut map, 0, Wish::Over);
    let mut bag = Bag::new(alloc);
    bag.reserve(1).expect(rt, "no memory");
    map.tell_end(&mut bag);
    drop(map);
    confirm_eq!(rt; bag.len(), 1);
    drop(bag);
}
