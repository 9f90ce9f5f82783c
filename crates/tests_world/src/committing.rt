//! What is refused while a master commits its job, and while its job fails.

use crate::answers::{Said, Then, answers};
use crate::masters::{REDUCE, launched, running};
use crate::stopping::won;
use crate::told::{Told, hears};
use mr_master_model::{DutyName, Phase};

// The creation of COMMIT_STARTED is refused: that stops the master.
#[test]
fn refusal_stops_the_start(rt: HostRuntime) {
    let rt = &rt;
    let mut master = won(rt, rt.alloc());
    let rows = &[(DutyName::Started, Said::Exists, Then::Stops)];
    answers(rt, rt.alloc(), &mut master, rows);
}

// An answer of another call than the listing that is due fails the job.
#[test]
fn mixed_up_answer_fails_the_job(rt: HostRuntime) {
    let rt = &rt;
    let mut master = won(rt, rt.alloc());
    let rows = &[
        (DutyName::Started, Said::Done, Then::Silent),
        (DutyName::Merge, Said::Done, Then::WouldFail),
    ];
    answers(rt, rt.alloc(), &mut master, rows);
}

// There is nothing to merge. A refusal or a fault at the cleanup or the marker fails the job; at the mark of its success a refusal stops the
// master.
#[test]
fn refused_marker_fails_the_job(rt: HostRuntime) {
    let rt = &rt;
    let mut master = won(rt, rt.alloc());
    let rows = &[
        (DutyName::Started, Said::Done, Then::Silent),
        (DutyName::Merge, Said::Nothing, Then::Silent),
        (DutyName::Cleanup, Said::Fault, Then::WouldFail),
        (DutyName::Cleanup, Said::Done, Then::Silent),
        (DutyName::Marker, Said::Exists, Then::WouldFail),
        (DutyName::Marker, Said::Done, Then::Silent),
        (DutyName::Success, Said::Exists, Then::Stops),
    ];
    answers(rt, rt.alloc(), &mut master, rows);
}

// Four attempts fail, and so does the job: nine records are due. Also then a refused append stops the master, and a refused flush.
#[test]
fn refused_record_stops_a_failing_master(rt: HostRuntime) {
    let rt = &rt;
    let alloc = rt.alloc();
    let mut master = running(rt, alloc, 0, 1);
    for number in 0..4 {
        launched(rt, &mut master, REDUCE, 0);
        hears(rt, &mut master, &[(Told::Failed, number, 0)]);
    }
    confirm_eq!(rt; master.phase(), Phase::Failing);
    let full = &[(DutyName::Append, Said::Full, Then::WouldStop)];
    answers(rt, alloc, &mut master, full);
    for _ in 0..9 {
        let wrote = &[(DutyName::Append, Said::Wrote, Then::Silent)];
        answers(rt, alloc, &mut master, wrote);
    }
    let late = &[(DutyName::Flush, Said::Late, Then::Stops)];
    answers(rt, alloc, &mut master, late);
}
