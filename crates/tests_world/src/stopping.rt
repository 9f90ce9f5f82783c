//! What makes a master Stopped, and what else ends its job.

use crate::answers::{Said, Then, answers};
use crate::masters::{REDUCE, due, given_up, launched, master, running};
use crate::sent::{is_ack, is_launch, is_yes};
use crate::told::{Told, heard};
use mr_master::MasterMachine;
use mr_master_model::{DutyName, Phase};
use std::alloc::Global;
use std::process::Abort;

#[test]
fn bad_line_stops_the_reading(rt: HostRuntime) {
    let rt = &rt;
    let mut master = master(rt, rt.alloc(), 1, 1, 2);
    let rows = &[
        (DutyName::Marks, Said::Absent, Then::Silent),
        (DutyName::Marks, Said::Absent, Then::Silent),
        (DutyName::Marks, Said::Absent, Then::Silent),
        (DutyName::Read, Said::BadLine, Then::Stops),
    ];
    answers(rt, rt.alloc(), &mut master, rows);
}

#[test]
fn refusal_stops_the_setup(rt: HostRuntime) {
    let rt = &rt;
    let mut master = master(rt, rt.alloc(), 1, 1, 2);
    let rows = &[
        (DutyName::Marks, Said::Absent, Then::Silent),
        (DutyName::Marks, Said::Absent, Then::Silent),
        (DutyName::Marks, Said::Absent, Then::Silent),
        (DutyName::Read, Said::NoRecord, Then::Silent),
        (DutyName::Setup, Said::Missing, Then::Stops),
    ];
    answers(rt, rt.alloc(), &mut master, rows);
}

// A second master, of which the first recorded the success of the reduce: the output of the winner is nowhere.
#[test]
fn missing_output_stops_the_recovery(rt: HostRuntime) {
    let rt = &rt;
    let mut master = master(rt, rt.alloc(), 2, 0, 2);
    let rows = &[
        (DutyName::Marks, Said::Absent, Then::Silent),
        (DutyName::Marks, Said::Absent, Then::Silent),
        (DutyName::Marks, Said::Absent, Then::Silent),
        (DutyName::Read, Said::ReduceSucceeded, Then::Silent),
        (DutyName::Setup, Said::Done, Then::Silent),
        (DutyName::Recover, Said::Absent, Then::Stops),
    ];
    answers(rt, rt.alloc(), &mut master, rows);
}

// The same, where the part file of the winner is there: it has to be as long as was recorded.
#[test]
fn wrong_length_stops_the_recovery(rt: HostRuntime) {
    let rt = &rt;
    let mut master = master(rt, rt.alloc(), 2, 0, 2);
    let rows = &[
        (DutyName::Marks, Said::Absent, Then::Silent),
        (DutyName::Marks, Said::Absent, Then::Silent),
        (DutyName::Marks, Said::Absent, Then::Silent),
        (DutyName::Read, Said::ReduceOfThreeBytes, Then::Silent),
        (DutyName::Setup, Said::Done, Then::Silent),
        (DutyName::Recover, Said::There, Then::Silent),
        (DutyName::Recover, Said::TwoBytes, Then::WouldStop),
        (DutyName::Recover, Said::ThreeBytes, Then::Silent),
    ];
    answers(rt, rt.alloc(), &mut master, rows);
    confirm_eq!(rt; due(rt, &master), Some(DutyName::Recover));
}

// What an earlier master recorded as failed is aborted at once; a fault there stops the master.
#[test]
fn recorded_failure_is_aborted(rt: HostRuntime) {
    let rt = &rt;
    let mut master = master(rt, rt.alloc(), 2, 0, 2);
    let rows = &[
        (DutyName::Marks, Said::Absent, Then::Silent),
        (DutyName::Marks, Said::Absent, Then::Silent),
        (DutyName::Marks, Said::Absent, Then::Silent),
        (DutyName::Read, Said::JobFailed, Then::Silent),
    ];
    answers(rt, rt.alloc(), &mut master, rows);
    confirm_eq!(rt; master.phase(), Phase::Failing);
    let rows = &[
        (DutyName::Abort, Said::Fault, Then::WouldStop),
        (DutyName::Abort, Said::Missing, Then::EndsOnTwo),
    ];
    answers(rt, rt.alloc(), &mut master, rows);
}

/// The first attempt at the reduce is launched on node 0.
pub fn launches(rt: &impl Abort, master: &mut MasterMachine) {
    let packet = launched(rt, master, REDUCE, 0);
    confirm!(rt; is_launch(rt, &packet));
}

#[test]
fn refusal_stops_a_bar(rt: HostRuntime) {
    let rt = &rt;
    let mut master = running(rt, rt.alloc(), 0, 1);
    launches(rt, &mut master);
    given_up(rt, &mut master);
    let rows = &[(DutyName::Bar, Said::Missing, Then::Stops)];
    answers(rt, rt.alloc(), &mut master, rows);
}

// The attempt asks and is named; it is done, which is acknowledged.
fn finishes(rt: &impl Abort, master: &mut MasterMachine) {
    let yes = heard(rt, master, Told::Pending, 0);
    assert!(rt; yes.len() == 1);
    confirm!(rt; is_yes(rt, &yes[0]));
    let ack = heard(rt, master, Told::Done, 0);
    assert!(rt; ack.len() == 1);
    confirm!(rt; is_ack(rt, &ack[0]));
}

/// The reduce is done, and both of its records are stable: the job commit is to start.
pub fn won(rt: &impl Abort, alloc: Global) -> MasterMachine {
    let mut master = running(rt, alloc, 0, 1);
    launches(rt, &mut master);
    finishes(rt, &mut master);
    let rows = &[
        (DutyName::Append, Said::Wrote, Then::Silent),
        (DutyName::Append, Said::Wrote, Then::Silent),
        (DutyName::Flush, Said::Wrote, Then::One),
    ];
    answers(rt, alloc, &mut master, rows);
    master
}

// A later master stops the job commit. Any other refusal fails the job, which is marked, and then aborted. COMMIT_FAIL is created, and what
// is temporary is deleted: a fault at the first stops the master, at the second only a later master does.
#[test]
fn refused_merge_fails_the_job(rt: HostRuntime) {
    let rt = &rt;
    let mut master = won(rt, rt.alloc());
    let rows = &[
        (DutyName::Started, Said::Done, Then::Silent),
        (DutyName::Merge, Said::Superseded, Then::WouldStop),
        (DutyName::Merge, Said::Missing, Then::Silent),
        (DutyName::Fail, Said::Fault, Then::WouldStop),
        (DutyName::Fail, Said::Done, Then::Silent),
        (DutyName::Abort, Said::Superseded, Then::WouldStop),
        (DutyName::Abort, Said::Fault, Then::EndsOnOne),
    ];
    answers(rt, rt.alloc(), &mut master, rows);
}
