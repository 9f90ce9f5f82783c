//! A job that is held: what each command answers, and when it is published.
use crate::run::{Run, attempt};
use mr_out_steps::{Order, Outcome, Standing};
use std::alloc::Global;
use std::process::Abort;

// A held job of two tasks, of which nothing is recorded but three attempts that have written their files.
fn held(rt: &impl Abort, alloc: Global) -> Run {
    let mut run = Run::new(rt, alloc);
    run.hold();
    run
}

#[test]
fn it_waits_for_the_decision(rt: HostRuntime) {
    let rt = &rt;
    let mut run = held(rt, rt.alloc());
    confirm!(rt; run.answer(rt, &Order::Publish) == Outcome::NotAllWon);
    let first = run.answer(rt, &Order::Done(attempt(rt, 0, 0)));
    confirm!(rt; first == Outcome::Stands(Standing::Won));
    confirm!(rt; run.answer(rt, &Order::Publish) == Outcome::NotAllWon);
    let last = run.answer(rt, &Order::Done(attempt(rt, 0, 1)));
    confirm!(rt; last == Outcome::Stands(Standing::Won));
    confirm!(rt; run.answer(rt, &Order::Resume) == Outcome::Finished);
    confirm!(rt; !run.is_marked());
    confirm!(rt; run.answer(rt, &Order::StartNext) == Outcome::AllWon);
    confirm!(rt; run.answer(rt, &Order::Publish) == Outcome::Finished);
    confirm!(rt; run.is_marked());
    confirm!(rt; run.answer(rt, &Order::Publish) == Outcome::Finished);
    confirm!(rt; run.answer(rt, &Order::Abort) == Outcome::AllWon);
}

#[test]
fn it_may_be_ended_before_the_decision(rt: HostRuntime) {
    let rt = &rt;
    let mut run = held(rt, rt.alloc());
    run.answer(rt, &Order::Done(attempt(rt, 0, 0)));
    run.answer(rt, &Order::Done(attempt(rt, 0, 1)));
    confirm!(rt; run.answer(rt, &Order::Abort) == Outcome::Finished);
    confirm!(rt; run.answer(rt, &Order::Publish) == Outcome::JobOver);
    confirm!(rt; run.answer(rt, &Order::Abort) == Outcome::Finished);
    confirm!(rt; !run.is_marked());
    let won = run.answer(rt, &Order::Done(attempt(rt, 0, 0)));
    confirm!(rt; won == Outcome::Stands(Standing::Won));
}

#[test]
fn what_is_published_is_forgotten(rt: HostRuntime) {
    let rt = &rt;
    let mut run = held(rt, rt.alloc());
    run.answer(rt, &Order::Done(attempt(rt, 0, 0)));
    confirm!(rt; run.answer(rt, &Order::Forget) == Outcome::Unpublished);
    run.answer(rt, &Order::Done(attempt(rt, 0, 1)));
    confirm!(rt; run.answer(rt, &Order::Forget) == Outcome::Unpublished);
    confirm!(rt; run.answer(rt, &Order::Publish) == Outcome::Finished);
    confirm!(rt; run.answer(rt, &Order::Forget) == Outcome::Finished);
    confirm!(rt; run.is_forgotten() && run.is_marked());
}

#[test]
fn what_is_not_held_needs_no_decision(rt: HostRuntime) {
    let rt = &rt;
    let mut run = Run::new(rt, rt.alloc());
    confirm!(rt; run.answer(rt, &Order::Publish) == Outcome::NotAllWon);
    run.answer(rt, &Order::Done(attempt(rt, 0, 0)));
    run.answer(rt, &Order::Done(attempt(rt, 0, 1)));
    confirm!(rt; run.is_marked());
    confirm!(rt; run.answer(rt, &Order::Publish) == Outcome::Finished);
}
