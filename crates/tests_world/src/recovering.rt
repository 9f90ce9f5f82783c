//! A second master that takes over what maps left on nodes.

use crate::answers::{Said, Then, answers};
use crate::masters::{REDUCE, generation, launched, master, wants};
use crate::sent::is_ready;
use mr_master::MasterMachine;
use mr_master_model::DutyName;
use mr_packet::{ContainerId, Packet};
use std::process::Abort;

// The first container of the second master asks where the map's output lies, and is told.
fn finds(rt: &impl Abort, master: &mut MasterMachine) {
    let c = ContainerId {
        app: generation(rt, 2),
        number: 0,
    };
    let asks = Packet::Where {
        container: c,
        map: 0,
    };
    let sent = master.hear(&asks).expect(rt, "no memory");
    confirm!(rt; is_ready(rt, &sent, &c));
    drop(sent);
}

// The map's newest success is taken over: the map is not wanted, and who asks is told where that output lies.
#[test]
fn newest_success_is_taken_over(rt: HostRuntime) {
    let rt = &rt;
    let mut master = master(rt, rt.alloc(), 2, 1, 2);
    let rows = &[
        (DutyName::Marks, Said::Absent, Then::Silent),
        (DutyName::Marks, Said::Absent, Then::Silent),
        (DutyName::Marks, Said::Absent, Then::Silent),
        (DutyName::Read, Said::MapsSucceeded, Then::Silent),
        (DutyName::Setup, Said::Done, Then::Silent),
    ];
    answers(rt, rt.alloc(), &mut master, rows);
    wants(rt, &master, Some(REDUCE));
    launched(rt, &mut master, REDUCE, 0);
    finds(rt, &mut master);
}
