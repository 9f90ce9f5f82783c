//! The texts of what a world answers where it takes no event.

use mr_task::TaskFault;
use mr_world::{Why, WorldFault};
use std::alloc::Global;
use std::process::Abort;

fn shows(rt: &impl Abort, alloc: Global, fault: WorldFault, text: &str) {
    let printed = fault.to_string(alloc).expect(rt, "no memory");
    confirm_eq!(rt; printed.as_str(), text);
}

// The text of the reason, by itself and as what a world answers.
fn shows_reason(rt: &impl Abort, alloc: Global, why: Why, text: &str) {
    let printed = why.to_string(alloc).expect(rt, "no memory");
    confirm_eq!(rt; printed.as_str(), text);
    shows(rt, alloc, WorldFault::NotNow(why), text);
}

#[test]
fn texts_of_reasons(rt: HostRuntime) {
    let rt = &rt;
    let reasons = &[
        (Why::WrongGeneration, "WrongGeneration"),
        (Why::NoMaster, "NoMaster"),
        (Why::NoDuty, "NoDuty"),
        (Why::NotRunning, "NotRunning"),
        (Why::NoTask, "NoTask"),
        (Why::NoNode, "NoNode"),
        (Why::NoPacket, "NoPacket"),
        (Why::NoAddressee, "NoAddressee"),
        (Why::NoContainer, "NoContainer"),
        (Why::WrongWish, "WrongWish"),
        (Why::NoStoreCall, "NoStoreCall"),
        (Why::NotBlocks, "NotBlocks"),
    ];
    for (why, text) in reasons {
        shows_reason(rt, rt.alloc(), *why, text);
    }
}

#[test]
fn texts_of_task_reasons(rt: HostRuntime) {
    let rt = &rt;
    let faults = &[
        (TaskFault::AlreadyWon, "Task AlreadyWon"),
        (TaskFault::TooManyLive, "Task TooManyLive"),
        (TaskFault::TooManyAttempts, "Task TooManyAttempts"),
        (TaskFault::Unknown, "Task Unknown"),
        (TaskFault::NoMemory, "Task NoMemory"),
    ];
    for (fault, text) in faults {
        shows(rt, rt.alloc(), WorldFault::NotNow(Why::Task(*fault)), text);
    }
}

#[test]
fn texts_of_world_faults(rt: HostRuntime) {
    let rt = &rt;
    shows(rt, rt.alloc(), WorldFault::Full, "Full");
    shows(rt, rt.alloc(), WorldFault::NoMemory, "NoMemory");
}
