//! Attempts that are begun, given up and begun over, and a job that ends by its limit.
use crate::run::{Run, attempt};
use mr_out_steps::{Order, Outcome, Standing};

#[test]
fn attempts_are_begun_in_order(rt: HostRuntime) {
    let rt = &rt;
    let mut run = Run::fresh(rt, rt.alloc(), None);
    confirm!(rt; run.answer(rt, &Order::StartNext) == Outcome::Started(attempt(rt, 0, 0)));
    confirm!(rt; run.answer(rt, &Order::StartNext) == Outcome::Started(attempt(rt, 0, 1)));
    confirm!(rt; run.answer(rt, &Order::StartNext) == Outcome::Busy);
    confirm!(rt; run.answer(rt, &Order::StartAt(0)) == Outcome::Started(attempt(rt, 1, 0)));
    confirm!(rt; run.answer(rt, &Order::StartAt(0)) == Outcome::Busy);
    confirm!(rt; run.answer(rt, &Order::StartOver(0)) == Outcome::Started(attempt(rt, 2, 0)));
    let gone = run.answer(rt, &Order::Done(attempt(rt, 1, 0)));
    confirm!(rt; gone == Outcome::Stands(Standing::GivenUp));
}

#[test]
fn nothing_is_begun_where_all_is_won(rt: HostRuntime) {
    let rt = &rt;
    let mut run = Run::fresh(rt, rt.alloc(), None);
    run.answer(rt, &Order::StartNext);
    run.answer(rt, &Order::StartNext);
    let won = run.answer(rt, &Order::Done(attempt(rt, 0, 0)));
    confirm!(rt; won == Outcome::Stands(Standing::Won));
    confirm!(rt; run.answer(rt, &Order::StartOver(0)) == Outcome::AllWon);
    confirm!(rt; run.answer(rt, &Order::StartNext) == Outcome::Busy);
    run.answer(rt, &Order::Done(attempt(rt, 0, 1)));
    confirm!(rt; run.answer(rt, &Order::StartNext) == Outcome::AllWon);
}

#[test]
fn the_limit_ends_the_job(rt: HostRuntime) {
    let rt = &rt;
    let mut run = Run::fresh(rt, rt.alloc(), Some(2));
    run.answer(rt, &Order::StartNext);
    run.answer(rt, &Order::StartNext);
    let first = run.answer(rt, &Order::Fail(attempt(rt, 0, 0)));
    confirm!(rt; first == Outcome::Stands(Standing::GivenUp));
    confirm!(rt; run.answer(rt, &Order::StartNext) == Outcome::Started(attempt(rt, 1, 0)));
    run.answer(rt, &Order::Fail(attempt(rt, 1, 0)));
    confirm!(rt; run.answer(rt, &Order::StartNext) == Outcome::JobOver);
    let over = run.answer(rt, &Order::Done(attempt(rt, 0, 1)));
    confirm!(rt; over == Outcome::Stands(Standing::JobOver));
}
