//! A node is given up.

use crate::answers::{Said, Then, answers};
use crate::masters::{MAP, REDUCE, due, given_up, launched, running, wants};
use crate::sent::is_kill;
use mr_master::MasterMachine;
use mr_master_model::{DutyName, StoreAnswer};
use std::alloc::Global;
use std::process::Abort;

// A map and a reduce run on the node. The map's attempt ends at once, that of the reduce once it is barred. The packets are told before.
#[test]
fn node_is_given_up(rt: HostRuntime) {
    let rt = &rt;
    let mut master = running(rt, rt.alloc(), 1, 2);
    launched(rt, &mut master, MAP, 0);
    launched(rt, &mut master, REDUCE, 0);
    wants(rt, &master, None);
    is_prepared(rt, &master);
    wants(rt, &master, None);
    let sent = given_up(rt, &mut master);
    confirm!(rt; is_kill(rt, &sent, 0));
    wants(rt, &master, Some(MAP));
    bars(rt, rt.alloc(), &master);
}

// It is told that the map's container would be asked to stop.
fn is_prepared(rt: &impl Abort, master: &MasterMachine) {
    let prepared = master.prepare_expiry(0).expect(rt, "not given up");
    confirm!(rt; is_kill(rt, prepared.packets(), 0));
    drop(prepared);
}

// A copy of the master bars the attempt of the reduce, and the master itself stands where it was.
fn bars(rt: &impl Abort, alloc: Global, master: &MasterMachine) {
    let mut copy = master.copy().expect(rt, "no memory");
    let rows = &[(DutyName::Bar, Said::Done, Then::Kills)];
    answers(rt, alloc, &mut copy, rows);
    confirm_eq!(rt; due(rt, &copy), Some(DutyName::Append));
    confirm_eq!(rt; due(rt, master), Some(DutyName::Bar));
}

// What was prepared and is not taken leaves the master where it was.
#[test]
fn what_is_prepared_changes_nothing(rt: HostRuntime) {
    let rt = &rt;
    let mut master = running(rt, rt.alloc(), 1, 2);
    launched(rt, &mut master, REDUCE, 0);
    given_up(rt, &mut master);
    makes_room(rt, &mut master);
    confirm_eq!(rt; due(rt, &master), Some(DutyName::Bar));
}

// An answer that sends nothing is prepared, and there is room for it.
fn makes_room(rt: &impl Abort, master: &mut MasterMachine) {
    let prepared = master
        .prepare_answer(StoreAnswer::Fault)
        .expect(rt, "no memory");
    confirm_eq!(rt; prepared.packets().len(), 0);
    confirm!(rt; master.reserve(&prepared).is_ok());
    drop(prepared);
}
