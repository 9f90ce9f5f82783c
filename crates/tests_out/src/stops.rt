//! Two tasks, `done` and `fail` in four orders, with a stop at every call: a kill, or a power cut that leaves any state
//! that the disk allows. A stopped command is said again or not. More stops are too many runs for a test.
use crate::choices::Choices;
use crate::run::{Run, attempt};
use mr_out_steps::Order;
use std::alloc::Global;
use std::process::Abort;

// Every run of these commands with so many stops, behind some that nobody stops.
fn all(rt: &impl Abort, alloc: Global, first: &[Order], orders: &[Order], stops: u32) {
    let mut choices = Choices::new(alloc);
    for _ in 0..10_000_000 {
        let run = Run::new(rt, alloc);
        one(rt, run, &mut choices, (first, orders), stops);
        if !choices.advance(rt) {
            return;
        }
    }
    panic!(rt; "too many runs")
}

// The same of a job that is held.
fn all_held(rt: &impl Abort, alloc: Global, first: &[Order], orders: &[Order], stops: u32) {
    let mut choices = Choices::new(alloc);
    for _ in 0..10_000_000 {
        let mut run = Run::new(rt, alloc);
        run.hold();
        one(rt, run, &mut choices, (first, orders), stops);
        if !choices.advance(rt) {
            return;
        }
    }
    panic!(rt; "too many runs")
}

fn one(
    rt: &impl Abort,
    mut run: Run,
    choices: &mut Choices,
    orders: (&[Order], &[Order]),
    stops: u32,
) {
    let (first, orders) = orders;
    for order in first {
        run.say(rt, order, choices);
    }
    run.allow(stops);
    for order in orders {
        run.say(rt, order, choices);
    }
    run.end(rt, choices);
}

#[test]
fn two_attempts_hand_in(rt: HostRuntime) {
    let rt = &rt;
    let orders = [
        Order::Done(attempt(rt, 0, 0)),
        Order::Done(attempt(rt, 1, 0)),
        Order::Done(attempt(rt, 0, 1)),
    ];
    all(rt, rt.alloc(), &[], &orders, 1);
}

#[test]
fn one_that_handed_in_is_given_up(rt: HostRuntime) {
    let rt = &rt;
    let orders = [
        Order::Done(attempt(rt, 0, 0)),
        Order::Fail(attempt(rt, 0, 0)),
        Order::Done(attempt(rt, 1, 0)),
        Order::Done(attempt(rt, 0, 1)),
    ];
    all(rt, rt.alloc(), &[], &orders, 1);
}

#[test]
fn one_that_was_given_up_hands_in(rt: HostRuntime) {
    let rt = &rt;
    let orders = [
        Order::Fail(attempt(rt, 0, 0)),
        Order::Done(attempt(rt, 0, 0)),
        Order::Done(attempt(rt, 1, 0)),
        Order::Done(attempt(rt, 0, 1)),
    ];
    all(rt, rt.alloc(), &[], &orders, 1);
}

#[test]
fn one_that_is_beaten_is_given_up(rt: HostRuntime) {
    let rt = &rt;
    let orders = [
        Order::Done(attempt(rt, 0, 1)),
        Order::Done(attempt(rt, 0, 0)),
        Order::Done(attempt(rt, 1, 0)),
        Order::Fail(attempt(rt, 1, 0)),
    ];
    all(rt, rt.alloc(), &[], &orders, 1);
}

#[test]
fn one_is_begun_over(rt: HostRuntime) {
    let rt = &rt;
    let orders = [
        Order::StartOver(0),
        Order::Done(attempt(rt, 0, 0)),
        Order::Done(attempt(rt, 2, 0)),
        Order::Done(attempt(rt, 0, 1)),
    ];
    all(rt, rt.alloc(), &[], &orders, 1);
}

#[test]
fn a_job_is_forgotten(rt: HostRuntime) {
    let rt = &rt;
    let first = [Order::Done(attempt(rt, 0, 0))];
    let orders = [
        Order::Forget,
        Order::Done(attempt(rt, 0, 1)),
        Order::Forget,
        Order::Resume,
    ];
    all(rt, rt.alloc(), &first, &orders, 1);
}

#[test]
fn a_held_job_is_published(rt: HostRuntime) {
    let rt = &rt;
    let first = [Order::Done(attempt(rt, 0, 0))];
    let orders = [
        Order::Publish,
        Order::Done(attempt(rt, 0, 1)),
        Order::Publish,
    ];
    all_held(rt, rt.alloc(), &first, &orders, 1);
}

#[test]
fn a_held_job_is_ended(rt: HostRuntime) {
    let rt = &rt;
    let first = [
        Order::Done(attempt(rt, 0, 0)),
        Order::Done(attempt(rt, 0, 1)),
    ];
    let orders = [Order::Abort, Order::Publish, Order::Resume];
    all_held(rt, rt.alloc(), &first, &orders, 1);
}

#[test]
fn a_held_job_is_ended_too_late(rt: HostRuntime) {
    let rt = &rt;
    let first = [
        Order::Done(attempt(rt, 0, 0)),
        Order::Done(attempt(rt, 0, 1)),
    ];
    let orders = [Order::Publish, Order::Abort, Order::Resume];
    all_held(rt, rt.alloc(), &first, &orders, 1);
}
