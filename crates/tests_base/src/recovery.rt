//! The committer's recovery of what an earlier master's task committed, whole or by steps, and aborts at once.

use crate::fixtures::{TASK, attempt, by_generation, new_namespace};
use crate::jobs::{job_set_up, out};
use crate::rows::{Call, Is, hold};
use mr_commit::{CommitFault, RecoverTask, StepDone, abort_job, abort_task, recover_task};
use mr_names::{Caller, Namespace, Op};
use mr_paths::Layout;
use std::alloc::Global;
use std::process::Abort;

// Where the first master's reduce 0 was committed, and where the second one moves it.
const COMMITTED: &str = "/out/_temporary/1/task_200707121733_0003_r_000000";

const RECOVERED: &str = "/out/_temporary/2/task_200707121733_0003_r_000000";

// The first call of a recovery is made, and its answer is heard by one in two halves and by the other at once.
fn recovery_begins_alike(
    rt: &impl Abort,
    names: &mut Namespace,
    caller: &Caller,
    halves: &mut RecoverTask,
    step: &mut RecoverTask,
) {
    let call = step.call().expect(rt, "over");
    let answer = names.perform(*caller, call);
    let following = halves.follow(&answer).expect(rt, "a fault");
    halves.go_on(following);
    confirm!(rt; halves.call().is_some());
    let told = step.took(answer);
    confirm_eq!(rt; told, Ok(StepDone::More));
}

// The recovery's next call is made, with this answer.
fn recovers(
    rt: &impl Abort,
    names: &mut Namespace,
    caller: &Caller,
    step: &mut RecoverTask,
    want: Result<StepDone, CommitFault>,
) {
    let answer = step.next(names, *caller);
    confirm_eq!(rt; answer, want);
}

// The recovery of what was committed, one call after the other. It is the same as its copy until one goes on alone.
fn recovers_by_steps(
    rt: &impl Abort,
    names: &mut Namespace,
    caller: &Caller,
    mut halves: RecoverTask,
) {
    let mut step = halves.copy().expect(rt, "no memory");
    recovery_begins_alike(rt, names, caller, &mut halves, &mut step);
    confirm!(rt; step.is_same(&halves));
    recovers(rt, names, caller, &mut step, Ok(StepDone::More));
    confirm!(rt; !step.is_same(&halves));
    drop(halves);
    recovers(rt, names, caller, &mut step, Ok(StepDone::Finished));
    drop(step);
}

#[test]
fn recovery_by_steps(rt: HostRuntime) {
    let rt = &rt;
    let alloc = rt.alloc();
    let two = &by_generation(rt, 2);
    let layout = out(rt, alloc);
    let mut names = job_set_up(rt, alloc, two, &layout);
    hold(
        rt,
        alloc,
        &mut names,
        two,
        &[(Call::Mkdirs, COMMITTED, "", Is::Done)],
    );
    let step = RecoverTask::new(&layout, two.app, TASK, None).expect(rt, "no memory");
    drop(layout);
    recovers_by_steps(rt, &mut names, two, step);
    let moved = &[
        (Call::Exists, COMMITTED, "", Is::Free),
        (Call::Exists, RECOVERED, "", Is::Dir),
    ];
    hold(rt, alloc, &mut names, two, moved);
    drop(names);
}

#[test]
fn first_master_recovers_nothing(rt: HostRuntime) {
    let rt = &rt;
    let one = &by_generation(rt, 1);
    let mut names = new_namespace(rt, rt.alloc());
    let layout = out(rt, rt.alloc());
    let mut nothing = RecoverTask::new(&layout, one.app, TASK, None).expect(rt, "no memory");
    drop(layout);
    confirm!(rt; nothing.call().is_none());
    let missing = Err(CommitFault::OutputMissing);
    recovers(rt, &mut names, one, &mut nothing, missing);
    drop(nothing);
    drop(names);
}

// A namespace in which the first master's reduce 0 was committed, with a part file of this text.
fn committed_before(
    rt: &impl Abort,
    alloc: Global,
    caller: &Caller,
    layout: &Layout,
    text: &str,
) -> Namespace {
    let mut names = job_set_up(rt, alloc, caller, layout);
    let part = "/out/_temporary/1/task_200707121733_0003_r_000000/part-r-00000";
    let rows = &[
        (Call::Mkdirs, COMMITTED, "", Is::Done),
        (Call::Create, part, "", Is::Done),
        (Call::Append, part, text, Is::Done),
    ];
    hold(rt, alloc, &mut names, caller, rows);
    names
}

// The call that the recovery makes next.
fn due(step: &RecoverTask) -> &'static str {
    match step.call() {
        Some(Op::Exists(_path)) => "exists",
        Some(Op::Read(_path)) => "read",
        Some(Op::Delete(_path)) => "delete",
        Some(Op::Rename { .. }) => "rename",
        _ => "another",
    }
}

// The recovery of a reduce with a length looks, reads, makes room, and moves.
fn recovers_by_calls(
    rt: &impl Abort,
    names: &mut Namespace,
    caller: &Caller,
    step: &mut RecoverTask,
) {
    for (call, done) in &[
        ("exists", StepDone::More),
        ("read", StepDone::More),
        ("delete", StepDone::More),
        ("rename", StepDone::Finished),
    ] {
        confirm!(rt; due(step) == *call, call);
        recovers(rt, names, caller, step, Ok(*done));
    }
}

// The second master takes over a reduce with a length, whoever is stopped on the way.
#[test]
fn recovery_stopped_halfway(rt: HostRuntime) {
    let rt = &rt;
    let alloc = rt.alloc();
    let two = &by_generation(rt, 2);
    let layout = out(rt, alloc);
    let mut names = committed_before(rt, alloc, two, &layout, "a\t1\nb\t1\n");
    let mut step = RecoverTask::new(&layout, two.app, TASK, Some(8)).expect(rt, "no memory");
    drop(layout);
    recovers_by_calls(rt, &mut names, two, &mut step);
    drop(step);
    let recovered = "/out/_temporary/2/task_200707121733_0003_r_000000/part-r-00000";
    let moved = &[(Call::Exists, recovered, "", Is::File)];
    hold(rt, alloc, &mut names, two, moved);
    drop(names);
}

// The reduce is taken over at once, with a file of this length.
fn takes_over(
    rt: &impl Abort,
    names: &mut Namespace,
    caller: &Caller,
    layout: &Layout,
    length: u32,
    want: Result<(), CommitFault>,
) {
    let answer = recover_task(names, *caller, layout, TASK, Some(length));
    confirm_eq!(rt; answer, want);
}

// The first attempt is aborted, and then the job, at once.
fn is_aborted(
    rt: &impl Abort,
    alloc: Global,
    names: &mut Namespace,
    caller: &Caller,
    layout: &Layout,
) {
    let written = "/out/_temporary/2/_temporary/attempt_200707121733_0003_r_000000_0";
    hold(
        rt,
        alloc,
        names,
        caller,
        &[(Call::Mkdirs, written, "", Is::Done)],
    );
    abort_task(names, *caller, layout, attempt(rt, TASK, 0)).expect(rt, "refused");
    hold(
        rt,
        alloc,
        names,
        caller,
        &[(Call::Exists, written, "", Is::Free)],
    );
    abort_job(names, *caller, layout).expect(rt, "refused");
    let left = &[
        (Call::Exists, "/out/_temporary", "", Is::Free),
        (Call::Exists, "/out", "", Is::Dir),
    ];
    hold(rt, alloc, names, caller, left);
}

// A recovery at once, of a file that has its recorded length, and of one that has not; and aborts at once.
#[test]
fn recovered_then_aborted(rt: HostRuntime) {
    let rt = &rt;
    let alloc = rt.alloc();
    let two = &by_generation(rt, 2);
    let layout = out(rt, alloc);
    let mut names = committed_before(rt, alloc, two, &layout, "a\t1\n");
    let wrong = Err(CommitFault::WrongLength);
    takes_over(rt, &mut names, two, &layout, 5, wrong);
    takes_over(rt, &mut names, two, &layout, 4, Ok(()));
    hold(
        rt,
        alloc,
        &mut names,
        two,
        &[(Call::Exists, RECOVERED, "", Is::Dir)],
    );
    is_aborted(rt, alloc, &mut names, two, &layout);
    drop(layout);
    drop(names);
}
