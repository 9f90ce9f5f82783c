//! The output committer: merges, commits and aborts, whole or by steps, and what is refused.

use crate::fixtures::{TASK, attempt, by_generation, generation, new_namespace};
use crate::jobs::{job_set_up, out, sets_up};
use crate::rows::{Call, Is, Row, hold};
use mr_commit::{
    CommitFault, Step, StepDone, check_output, commit_job, commit_task, needs_task_commit,
};
use mr_names::{Answer, Caller, Kind, NameFault, Namespace, Op};
use mr_paths::Layout;
use std::alloc::Global;
use std::process::Abort;

// Where the first attempt at the task writes.
const WRITTEN: &str = "/out/_temporary/1/_temporary/attempt_200707121733_0003_r_000000_0";

// A row that finds the marker.
const MARKER: Row = (Call::Exists, "/out/_SUCCESS", "", Is::File);

// The step's next call is made, with this answer.
fn goes(
    rt: &impl Abort,
    names: &mut Namespace,
    caller: &Caller,
    step: &mut Step,
    want: Result<StepDone, CommitFault>,
) {
    let answer = step.next(names, *caller);
    confirm_eq!(rt; answer, want);
}

// The step is over.
fn is_over(rt: &impl Abort, names: &mut Namespace, caller: &Caller, step: &mut Step) {
    confirm!(rt; step.call().is_none());
    goes(rt, names, caller, step, Err(CommitFault::Over));
}

// The next call is made, and its answer is heard by one in two halves and by the other at once, as this.
fn is_heard_alike(
    rt: &impl Abort,
    names: &mut Namespace,
    caller: &Caller,
    halves: &mut Step,
    step: &mut Step,
    want: StepDone,
) {
    let call = step.call().expect(rt, "over");
    let answer = names.perform(*caller, call);
    let following = halves.follow(&answer).expect(rt, "a fault");
    confirm_eq!(rt; following.done(), want);
    halves.go_on(following);
    let told = step.took(answer);
    confirm_eq!(rt; told, Ok(want));
    confirm_eq!(rt; halves.cleans_up(), step.cleans_up());
}

// The step of one call is made, and by its copy in two halves. Then it is over.
fn ends_by_halves(rt: &impl Abort, names: &mut Namespace, caller: &Caller, mut halves: Step) {
    let mut step = halves.copy().expect(rt, "no memory");
    is_heard_alike(
        rt,
        names,
        caller,
        &mut halves,
        &mut step,
        StepDone::Finished,
    );
    drop(step);
    is_over(rt, names, caller, &mut halves);
    drop(halves);
}

// This is the text of the fault.
fn prints(rt: &impl Abort, alloc: Global, fault: CommitFault, text: &str) {
    let shown = fault.to_string(alloc).expect(rt, "no memory");
    confirm_eq!(rt; shown.as_str(), text);
    drop(shown);
}

#[test]
fn setup_by_halves(rt: HostRuntime) {
    let rt = &rt;
    let one = &by_generation(rt, 1);
    let mut names = new_namespace(rt, rt.alloc());
    let layout = out(rt, rt.alloc());
    let step = Step::setup_job(&layout, one.app).expect(rt, "no memory");
    drop(layout);
    ends_by_halves(rt, &mut names, one, step);
    drop(names);
}

// A task's commit goes on where it hears, in two halves, that its attempt's directory is there. Until then the copy is the same.
fn goes_on_by_halves(rt: &impl Abort, step: &Step) {
    let mut sure = step.copy().expect(rt, "no memory");
    confirm!(rt; sure.is_same(step));
    let there = Ok(Answer::Found(Some(Kind::Dir)));
    let following = sure.follow(&there).expect(rt, "a fault");
    drop(there);
    confirm_eq!(rt; following.done(), StepDone::More);
    sure.go_on(following);
    confirm!(rt; !sure.is_same(step));
    confirm!(rt; sure.call().is_some());
    drop(sure);
}

#[test]
fn over_after_output_missing(rt: HostRuntime) {
    let rt = &rt;
    let one = &by_generation(rt, 1);
    let layout = out(rt, rt.alloc());
    let mut names = job_set_up(rt, rt.alloc(), one, &layout);
    let mut step = Step::commit_task(&layout, one.app, attempt(rt, TASK, 0)).expect(
        rt,
        "no memory",
    );
    drop(layout);
    goes_on_by_halves(rt, &step);
    let missing = Err(CommitFault::OutputMissing);
    goes(rt, &mut names, one, &mut step, missing);
    let mut copy = step.copy().expect(rt, "no memory");
    is_over(rt, &mut names, one, &mut copy);
    drop(copy);
    is_over(rt, &mut names, one, &mut step);
    drop(step);
    drop(names);
}

// The step hears that its call is done, and answers this fault.
fn takes_no_answer(rt: &impl Abort, step: &mut Step, fault: CommitFault) {
    let answer = step.took(Ok(Answer::Done));
    confirm_eq!(rt; answer, Err(fault));
}

// Before it hears it, it would answer this fault to what another call found.
fn follows_no_answer(rt: &impl Abort, step: &Step) {
    let free = Ok(Answer::Found(None));
    let fault = step.follow(&free).err();
    drop(free);
    confirm_eq!(rt; fault, Some(CommitFault::WrongAnswer));
}

// An answer of another call is no answer: the step ends there, deletes nothing and creates no marker.
#[test]
fn answer_of_another_kind(rt: HostRuntime) {
    let rt = &rt;
    let layout = out(rt, rt.alloc());
    let mut step = Step::commit_job(&layout, generation(rt, 1)).expect(rt, "no memory");
    drop(layout);
    follows_no_answer(rt, &step);
    confirm!(rt; matches!(step.call(), Some(Op::List(_path))));
    takes_no_answer(rt, &mut step, CommitFault::WrongAnswer);
    confirm!(rt; step.call().is_none());
    takes_no_answer(rt, &mut step, CommitFault::Over);
    drop(step);
    prints(rt, rt.alloc(), CommitFault::WrongAnswer, "WrongAnswer");
}

// A namespace in which a committed task left two directories with a file each, and the destination has other things of their names.
fn two_levels(rt: &impl Abort, alloc: Global, caller: &Caller) -> Namespace {
    let mut names = new_namespace(rt, alloc);
    let rows = &[
        (
            Call::Mkdirs,
            "/out/_temporary/1/task_200707121733_0003_r_000000/a",
            "",
            Is::Done,
        ),
        (
            Call::Mkdirs,
            "/out/_temporary/1/task_200707121733_0003_r_000000/b",
            "",
            Is::Done,
        ),
        (Call::Mkdirs, "/out/_temporary/1/_temporary", "", Is::Done),
        (Call::Mkdirs, "/out/b", "", Is::Done),
        (
            Call::CreateClosed,
            "/out/_temporary/1/task_200707121733_0003_r_000000/a/f",
            "",
            Is::Done,
        ),
        (
            Call::CreateClosed,
            "/out/_temporary/1/task_200707121733_0003_r_000000/b/g",
            "",
            Is::Done,
        ),
        (Call::CreateClosed, "/out/a", "", Is::Done),
        (Call::CreateClosed, "/out/b/old", "", Is::Done),
    ];
    hold(rt, alloc, &mut names, caller, rows);
    names
}

// The marker is made, and the job commit is over.
fn marker_is_last(
    rt: &impl Abort,
    alloc: Global,
    names: &mut Namespace,
    caller: &Caller,
    step: &mut Step,
) {
    let before = &[
        (Call::Exists, "/out/_temporary", "", Is::Free),
        (Call::Exists, "/out/_SUCCESS", "", Is::Free),
    ];
    hold(rt, alloc, names, caller, before);
    goes(rt, names, caller, step, Ok(StepDone::Finished));
    is_over(rt, names, caller, step);
    hold(rt, alloc, names, caller, &[MARKER]);
}

#[test]
fn two_level_merge(rt: HostRuntime) {
    let rt = &rt;
    let alloc = rt.alloc();
    let one = &by_generation(rt, 1);
    let mut names = two_levels(rt, alloc, one);
    let layout = out(rt, alloc);
    let mut halves = Step::commit_job(&layout, one.app).expect(rt, "no memory");
    drop(layout);
    // list, exists /out, list, exists /out/a, delete, rename; each by a copy, of up to five lines
    for _ in 0..6 {
        halves = halves.copy().expect(rt, "no memory");
        goes(rt, &mut names, one, &mut halves, Ok(StepDone::More));
    }
    let renamed = &[(Call::Exists, "/out/a/f", "", Is::File)];
    hold(rt, alloc, &mut names, one, renamed);
    merges_the_rest(rt, alloc, &mut names, one, halves);
    let merged = &[
        (Call::Exists, "/out/a", "", Is::Dir),
        (Call::Exists, "/out/b/g", "", Is::File),
        (Call::Exists, "/out/b/old", "", Is::File),
    ];
    hold(rt, alloc, &mut names, one, merged);
    drop(names);
}

// exists /out/b, list, exists /out/b/g, rename, delete /out/_temporary; and then the marker
fn merges_the_rest(
    rt: &impl Abort,
    alloc: Global,
    names: &mut Namespace,
    caller: &Caller,
    mut halves: Step,
) {
    let mut step = halves.copy().expect(rt, "no memory");
    for _ in 0..5 {
        is_heard_alike(rt, names, caller, &mut halves, &mut step, StepDone::More);
    }
    marker_is_last(rt, alloc, names, caller, &mut step);
    drop(step);
    drop(halves);
}

#[test]
fn file_beneath_the_job_attempt(rt: HostRuntime) {
    let rt = &rt;
    let alloc = rt.alloc();
    let one = &by_generation(rt, 1);
    let layout = out(rt, alloc);
    let mut names = job_set_up(rt, alloc, one, &layout);
    let file = &[(Call::CreateClosed, "/out/_temporary/1/f", "", Is::Done)];
    hold(rt, alloc, &mut names, one, file);
    let mut step = Step::commit_job(&layout, one.app).expect(rt, "no memory");
    drop(layout);
    goes(rt, &mut names, one, &mut step, Ok(StepDone::More));
    goes(rt, &mut names, one, &mut step, Ok(StepDone::More));
    let refused = CommitFault::Names(NameFault::NotDir);
    goes(rt, &mut names, one, &mut step, Err(refused));
    is_over(rt, &mut names, one, &mut step);
    drop(step);
    let file = &[(Call::Exists, "/out/_temporary/1/f", "", Is::File)];
    hold(rt, alloc, &mut names, one, file);
    drop(names);
}

// The job is committed, or refused so.
fn commits_job(
    rt: &impl Abort,
    names: &mut Namespace,
    caller: &Caller,
    layout: &Layout,
    want: Result<(), CommitFault>,
) {
    let answer = commit_job(names, *caller, layout);
    confirm_eq!(rt; answer, want);
}

// A job that is committed has its marker, and is not committed again.
fn job_is_committed_once(
    rt: &impl Abort,
    alloc: Global,
    names: &mut Namespace,
    caller: &Caller,
    layout: &Layout,
) {
    commits_job(rt, names, caller, layout, Ok(()));
    hold(rt, alloc, names, caller, &[MARKER]);
    let missing = CommitFault::Names(NameFault::Missing);
    commits_job(rt, names, caller, layout, Err(missing));
    sets_up(rt, names, caller, layout);
    let there = CommitFault::Names(NameFault::Exists);
    commits_job(rt, names, caller, layout, Err(there));
}

// The first attempt at the task needs a commit or none, and is committed so.
fn commits_task(
    rt: &impl Abort,
    names: &mut Namespace,
    caller: &Caller,
    layout: &Layout,
    needed: bool,
    want: Result<(), CommitFault>,
) {
    let a = attempt(rt, TASK, 0);
    let needs = needs_task_commit(names, *caller, layout, a);
    confirm_eq!(rt; needs, Ok(needed));
    let answer = commit_task(names, *caller, layout, a);
    confirm_eq!(rt; answer, want);
}

// The first attempt has output, is committed, and what it had is the task's.
fn task_is_committed(
    rt: &impl Abort,
    alloc: Global,
    names: &mut Namespace,
    caller: &Caller,
    layout: &Layout,
) {
    let missing = Err(CommitFault::OutputMissing);
    commits_task(rt, names, caller, layout, false, missing);
    hold(
        rt,
        alloc,
        names,
        caller,
        &[(Call::Mkdirs, WRITTEN, "", Is::Done)],
    );
    commits_task(rt, names, caller, layout, true, Ok(()));
    let moved = &[
        (
            Call::Exists,
            "/out/_temporary/1/task_200707121733_0003_r_000000",
            "",
            Is::Dir,
        ),
        (Call::Exists, WRITTEN, "", Is::Free),
    ];
    hold(rt, alloc, names, caller, moved);
}

// The destination is free for a job, or is not.
fn checks(
    rt: &impl Abort,
    names: &Namespace,
    caller: &Caller,
    layout: &Layout,
    want: Result<(), CommitFault>,
) {
    let answer = check_output(names, *caller, layout);
    confirm_eq!(rt; answer, want);
}

// The first generation commits its task once the second has the fence.
fn commits_late(rt: &impl Abort, alloc: Global, names: &mut Namespace, layout: &Layout) {
    names.raise(generation(rt, 2));
    let late = CommitFault::Names(NameFault::Superseded(2));
    let a = attempt(rt, TASK, 0);
    let answer = commit_task(names, by_generation(rt, 1), layout, a);
    confirm_eq!(rt; answer, Err(late));
    prints(rt, alloc, late, "Superseded 2");
}

#[test]
fn committed_and_checked(rt: HostRuntime) {
    let rt = &rt;
    let alloc = rt.alloc();
    let one = &by_generation(rt, 1);
    let layout = out(rt, alloc);
    let mut names = new_namespace(rt, alloc);
    checks(rt, &names, one, &layout, Ok(()));
    sets_up(rt, &mut names, one, &layout);
    let there = CommitFault::DestinationExists;
    checks(rt, &names, one, &layout, Err(there));
    task_is_committed(rt, alloc, &mut names, one, &layout);
    job_is_committed_once(rt, alloc, &mut names, one, &layout);
    commits_late(rt, alloc, &mut names, &layout);
    prints(rt, alloc, CommitFault::OutputMissing, "OutputMissing");
    drop(layout);
    drop(names);
}

// The last generation that there is sets a job up and commits it.
#[test]
fn last_generation_commits(rt: HostRuntime) {
    let rt = &rt;
    let alloc = rt.alloc();
    let last = &by_generation(rt, 1000);
    let layout = out(rt, alloc);
    let mut names = new_namespace(rt, alloc);
    names.raise(last.app);
    sets_up(rt, &mut names, last, &layout);
    let set_up = &[(Call::Exists, "/out/_temporary/1000", "", Is::Dir)];
    hold(rt, alloc, &mut names, last, set_up);
    commits_job(rt, &mut names, last, &layout, Ok(()));
    drop(layout);
    hold(rt, alloc, &mut names, last, &[MARKER]);
    drop(names);
}

#[test]
fn task_abort_by_steps(rt: HostRuntime) {
    let rt = &rt;
    let alloc = rt.alloc();
    let one = &by_generation(rt, 1);
    let layout = out(rt, alloc);
    let mut names = job_set_up(rt, alloc, one, &layout);
    let written = &[(Call::Mkdirs, WRITTEN, "", Is::Done)];
    hold(rt, alloc, &mut names, one, written);
    let step = Step::abort_task(&layout, one.app, attempt(rt, TASK, 0)).expect(rt, "no memory");
    drop(layout);
    ends_by_halves(rt, &mut names, one, step);
    let aborted = &[(Call::Exists, WRITTEN, "", Is::Free)];
    hold(rt, alloc, &mut names, one, aborted);
    drop(names);
}

#[test]
fn job_abort_by_steps(rt: HostRuntime) {
    let rt = &rt;
    let alloc = rt.alloc();
    let one = &by_generation(rt, 1);
    let layout = out(rt, alloc);
    let mut names = job_set_up(rt, alloc, one, &layout);
    let step = Step::abort_job(&layout).expect(rt, "no memory");
    drop(layout);
    ends_by_halves(rt, &mut names, one, step);
    let aborted = &[(Call::Exists, "/out/_temporary", "", Is::Free)];
    hold(rt, alloc, &mut names, one, aborted);
    drop(names);
}
