//! A store, a history, a task and an actor of one's own, as the guide of the libraries shows them.

use mr_commit::{CommitFault, Step, StepDone};
use mr_container::{ContainerMachine, Place, Reply};
use mr_history::{History, HistoryFault, Record};
use mr_ids::AppAttempt;
use mr_names::{Caller, NameFault, Namespace};
use mr_node::{NodeMachine, Reaction};
use mr_packet::{Bag, BagFault, MAX_PACKETS, Packet};
use mr_paths::Layout;
use mr_recover::{RecoverFault, Recovery, Staging};
use mr_task::{DoneReply, TaskFault, TaskMachine};
use std::alloc::Global;

pub fn commit(
    store: &mut Namespace,
    caller: Caller,
    step: &mut Step,
    most: u32,
) -> Result<StepDone, CommitFault> {
    for _ in 0..most {
        let Some(op) = step.call() else {
            return Err(CommitFault::Over);
        };
        let answer = store.perform(caller, op); // or your own store
        if step.took(answer)? == StepDone::Finished {
            return Ok(StepDone::Finished);
        }
    }
    Ok(StepDone::More)
}

pub fn write(history: &mut History, k: AppAttempt, record: Record) -> Result<bool, HistoryFault> {
    if !history.is_raised(k) || !record.fits() || !record.suits(history.version(k)) {
        return Ok(false);
    }
    history.append(k, record)?;
    if history.is_raised(k) {
        history.flush(k)?;
    }
    Ok(true)
}

pub fn take_over(
    alloc: Global,
    history: &mut History,
    k: AppAttempt,
    staging: Staging,
) -> Result<Option<Recovery>, HistoryFault> {
    history.raise(k, 0, 2); // keeps 0 bytes of each open tail; segment k is of version 2
    if !history.is_raised(k) {
        return Ok(None);
    }
    let records = history.read(k)?;
    match Recovery::plan(alloc, records.as_slice(), staging) {
        Ok(plan) => Ok(Some(plan)),
        Err(RecoverFault::NoMemory) => Err(HistoryFault::NoMemory),
    }
}

pub fn one_wins(task: &mut TaskMachine) -> Result<DoneReply, TaskFault> {
    let first = task.launch()?;
    let second = task.launch()?; // a speculative attempt
    task.pending(second)?; // it is ready to commit, and asks
    task.pending(first)?;
    if task.can_commit(first) || !task.can_commit(second) {
        return Err(TaskFault::Unknown); // never so of a new machine: the one that asked first may commit
    }
    let reply = task.done(second)?; // it committed: accepted, and named for good
    task.recorded(second)?; // its record is stable
    Ok(reply)
}

pub fn container_step(
    names: &mut Namespace,
    layout: &Layout,
    bag: &mut Bag,
    container: &mut ContainerMachine,
) -> Result<(), NameFault> {
    if let Some(op) = container.call(layout)? {
        match names.perform(container.caller(), &op) {
            Err(NameFault::NoMemory) => return Err(NameFault::NoMemory),
            answer => container.on(Reply::Answered(answer)),
        }
        return Ok(());
    }
    if bag.len() + 1 < MAX_PACKETS && bag.reserve(2).is_ok() {
        container.send(bag);
    }
    Ok(())
}

pub fn node_hears(
    alloc: Global,
    bag: &mut Bag,
    node: &mut NodeMachine,
    packet: &Packet,
    maps: u32,
) -> Result<Option<ContainerMachine>, BagFault> {
    let Ok(reaction) = node.hear(packet) else {
        return Err(BagFault::NoMemory);
    };
    match reaction {
        Reaction::Nothing => Ok(None),
        Reaction::Starts { c, a } => {
            let place = Place {
                attempt: a,
                node: node.number(),
                incarnation: node.incarnation(),
            };
            Ok(Some(ContainerMachine::new(alloc, c, place, maps)))
        }
        Reaction::Adds(envelope) => {
            bag.push(envelope)?;
            Ok(None)
        }
    }
}
