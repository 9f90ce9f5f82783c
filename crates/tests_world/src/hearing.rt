//! What a running master hears.

use crate::answers::{Said, Then, answers};
use crate::masters::{MAP, REDUCE, due, launched, running, wants};
use crate::stopping::launches;
use crate::told::{Told, hears, leaves};
use mr_master::MasterMachine;
use mr_master_model::DutyName;
use std::alloc::Global;
use std::process::Abort;

// What is told of an attempt and a container that the master does not know is not heard: nothing is sent, and nothing is due but what was
// due before.
#[test]
fn unknown_ones_are_not_heard(rt: HostRuntime) {
    let rt = &rt;
    let mut master = running(rt, rt.alloc(), 0, 1);
    launches(rt, &mut master);
    let wrote = &[(DutyName::Append, Said::Wrote, Then::Silent)];
    answers(rt, rt.alloc(), &mut master, wrote);
    let rows = &[
        (Told::Pending, 1, 0),
        (Told::Poll, 1, 0),
        (Told::Done, 1, 0),
        (Told::Failed, 1, 0),
        (Told::Ended, 1, 0),
        (Told::Where, 1, 0),
        (Told::FetchLost, 1, 0),
    ];
    hears(rt, &mut master, rows);
    confirm!(rt; due(rt, &master).is_none());
}

// What is not heard leaves the master as it is. What is heard, or answered, does not.
#[test]
fn what_is_not_heard_leaves_the_master(rt: HostRuntime) {
    let rt = &rt;
    let mut master = running(rt, rt.alloc(), 0, 1);
    launches(rt, &mut master);
    confirm!(rt; leaves(rt, &master, Told::Pending, 1));
    confirm!(rt; leaves(rt, &master, Told::Ended, 1));
    confirm!(rt; !leaves(rt, &master, Told::Pending, 0));
    confirm!(rt; !leaves(rt, &master, Told::Failed, 0));
}

// A master whose map is Succeeded on node 0, and whose reduce is launched on node 1.
fn mapped(rt: &impl Abort, alloc: Global) -> MasterMachine {
    let mut master = running(rt, alloc, 1, 2);
    launched(rt, &mut master, MAP, 0);
    hears(rt, &mut master, &[(Told::MapDone, 0, 1)]);
    wants(rt, &master, None);
    let rows = &[
        (DutyName::Append, Said::Wrote, Then::Silent),
        (DutyName::Append, Said::Wrote, Then::Silent),
        (DutyName::Flush, Said::Wrote, Then::Silent),
    ];
    answers(rt, alloc, &mut master, rows);
    wants(rt, &master, Some(REDUCE));
    launched(rt, &mut master, REDUCE, 1);
    master
}

// A node that runs again has lost the output; the same incarnation, told again, changes nothing.
#[test]
fn restart_loses_the_output(rt: HostRuntime) {
    let rt = &rt;
    let mut master = mapped(rt, rt.alloc());
    hears(rt, &mut master, &[(Told::NodeUp, 1, 0)]);
    wants(rt, &master, None);
    hears(rt, &mut master, &[(Told::NodeUp, 2, 0)]);
    wants(rt, &master, Some(MAP));
}

// The end of a container that was not asked to stop is a failure, which is recorded; a second time it is none.
#[test]
fn unasked_end_is_a_failure(rt: HostRuntime) {
    let rt = &rt;
    let mut master = running(rt, rt.alloc(), 0, 1);
    launches(rt, &mut master);
    hears(rt, &mut master, &[(Told::Ended, 0, 0), (Told::Ended, 0, 0)]);
    wants(rt, &master, Some(REDUCE));
    let rows = &[
        (DutyName::Append, Said::Wrote, Then::Silent),
        (DutyName::Append, Said::Wrote, Then::Silent),
    ];
    answers(rt, rt.alloc(), &mut master, rows);
    confirm!(rt; due(rt, &master).is_none());
}
