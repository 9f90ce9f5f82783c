//! The runs that come of one by at most so many faults.

use crate::counting::Counting;
use mr_explore_search::{Parts, Walk};
use std::alloc::Global;
use std::process::Abort;

// How many faults each run has that comes of it, in the order in which they are made.
fn faults_of(rt: &impl Abort, alloc: Global, most: u32) -> Vec<u32> {
    let mut walk = Walk::new(alloc, Counting { at: 0 }, most, 10).expect(rt, "no walk");
    let mut faults = Vec::new(alloc);
    for _ in 0..20 {
        match walk.next_run(alloc).expect(rt, "no run") {
            Some(ended) => {
                assert!(rt; ended.run.at == 2);
                faults.push(ended.faults).expect(rt, "no memory");
            }
            None => return faults,
        }
    }
    panic!(rt; "too many runs")
}

// Without a fault there is one run. With one it is set back at one, and what that puts off comes when it is there again, or
// never. With two that is so of each, in both orders, or one of them comes before the second fault.
#[test]
fn runs_with_faults(rt: HostRuntime) {
    assert!(rt; faults_of(&rt, rt.alloc(), 0).as_slice() == [0].as_slice());
    assert!(rt; faults_of(&rt, rt.alloc(), 1).as_slice() == [0, 1, 1].as_slice());
    assert!(rt;
        faults_of(&rt, rt.alloc(), 2).as_slice() == [0, 1, 1, 2, 2, 2, 2, 2, 2, 2].as_slice()
    );
}

// A run that makes at most one step by itself ends there.
#[test]
fn runs_of_one_step(rt: HostRuntime) {
    let alloc = rt.alloc();
    let mut walk = Walk::new(alloc, Counting { at: 0 }, 0, 1).expect(&rt, "no walk");
    let ended = walk.next_run(alloc).expect(&rt, "no run");
    assert!(rt; ended.is_some_and(|ended| ended.run.at == 1));
    assert!(rt; walk.next_run(alloc).expect(&rt, "no run").is_none());
}

// How many runs a walk makes.
fn runs_of(rt: &impl Abort, alloc: Global, mut walk: Walk<Counting>) -> usize {
    for count in 0..20 {
        if walk.next_run(alloc).expect(rt, "no run").is_none() {
            return count;
        }
    }
    panic!(rt; "too many runs")
}

// With two faults there is a part for the run without a fault, one for those with one, and one for all that come behind the first of two. A
// part that is left is walked with the rest.
#[test]
fn runs_by_parts(rt: HostRuntime) {
    let alloc = rt.alloc();
    let mut parts = Parts::new(alloc, Counting { at: 0 }, 2, 10).expect(&rt, "no parts");
    parts.divide(alloc, 10).expect(&rt, "no division");
    assert!(rt; parts.len() == 3);
    for (place, count) in [1, 2, 7].iter().enumerate() {
        let walk = parts
            .walk_of(alloc, place)
            .expect(&rt, "no walk")
            .expect(&rt, "no part");
        assert!(rt; runs_of(&rt, alloc, walk) == *count);
    }
    parts.forget_first();
    let walk = parts.into_walk(alloc).expect(&rt, "no walk");
    assert!(rt; runs_of(&rt, alloc, walk) == 9);
}
