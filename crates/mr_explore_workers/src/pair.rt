//! Two calls side by side.
//!
//! A call of `join_mut` has no proof where a closure holds a value whose type has an associated type. So it is made here, where all types are parameters.
ghost use denote.Param.Send.{IsSync};
ghost use Rattle.std.specs.Prelude.{◌≡◌};
ghost use Rattle.mr_explore_workers.specs.inner.Calls.{Accepts, Leaves};

use std::thread::{Threads, join_mut};

/// Calls `first` with `a` in a thread of its own, and `second` with `b` in this one. Where no thread can be made, this one makes both calls.
pub fn both<T: Threads, A: Send, B, X, F: Fn(&mut A) + Sync, G: Fn(&mut B) -> X>(
    rt: &T,
    first: &F,
    a: &mut A,
    second: &G,
    b: &mut B,
) -> X
    requires first { Accepts F.Fn first.now a.old }
    requires second { Accepts G.Fn second.now b.old }
    ensures first { Leaves F.Fn first.now a.old tt a.new }
    ensures second { Leaves G.Fn second.now b.old result b.new }
{
    let mut there = ||
        requires { IsSync F.row × Accepts F.Fn first.now a.now }
        ensures { Leaves F.Fn first.entry.now a.entry.now tt a.exit.now }
    { call(first, a) };
    let mut here = || -> X
        requires { Accepts G.Fn second.now b.now }
        ensures { Leaves G.Fn second.entry.now b.entry.now result b.exit.now }
    { answer(second, b) };
    let ((), answer) = join_mut(rt, &mut there, &mut here);
    answer
}

// One call. A closure that calls another one of a type parameter has no proof.
fn call<A, F: Fn(&mut A)>(f: &F, a: &mut A)
    requires { Accepts F.Fn f.now a.old }
    ensures { Leaves F.Fn f.now a.old tt a.new }
{
    f(a);
}

// One call that answers.
fn answer<B, X, G: Fn(&mut B) -> X>(g: &G, b: &mut B) -> X
    requires { Accepts G.Fn g.now b.old }
    ensures { Leaves G.Fn g.now b.old result b.new }
{
    g(b)
}
