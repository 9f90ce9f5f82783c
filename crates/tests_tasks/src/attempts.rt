//! One attempt.

use crate::fixtures::{attempt, shows};
use mr_attempt::{AttemptEvent, AttemptMachine, AttemptState, Reaction};
use mr_ids::TaskKind;
use std::process::Abort;

// The machine hears these events, reacts so, and is then in this state, as its copy is.
fn hears(
    rt: &impl Abort,
    machine: &mut AttemptMachine,
    rows: &[(AttemptEvent, Reaction, AttemptState)],
) {
    for (event, reaction, state) in rows {
        confirm!(rt; machine.on(*event) == *reaction, event);
        confirm!(rt; machine.state() == *state, event);
        confirm!(rt; machine.copy().state() == *state, event);
    }
}

// An attempt of this kind that runs up to its wait for the permission to commit, and lives.
fn pending(rt: &impl Abort, kind: TaskKind) -> AttemptMachine {
    let a = attempt(rt, kind, 7);
    let mut machine = AttemptMachine::new(a);
    confirm_eq!(rt; machine.attempt(), a);
    confirm_eq!(rt; machine.state(), AttemptState::New);
    hears(
        rt,
        &mut machine,
        &[
            (AttemptEvent::Heard, Reaction::Ignored, AttemptState::New),
            (
                AttemptEvent::Launch,
                Reaction::Moved,
                AttemptState::Assigned,
            ),
            (AttemptEvent::Heard, Reaction::Moved, AttemptState::Running),
            (
                AttemptEvent::Launch,
                Reaction::Ignored,
                AttemptState::Running,
            ),
            (
                AttemptEvent::Pending,
                Reaction::Moved,
                AttemptState::CommitPending,
            ),
            (
                AttemptEvent::Recorded,
                Reaction::Ignored,
                AttemptState::CommitPending,
            ),
        ],
    );
    confirm!(rt; machine.is_live());
    confirm!(rt; machine.state().is_live());
    machine
}

// An attempt of this kind fails, and then a kill is ignored. Its copy succeeds, and its node is lost, which moves the attempt so.
fn comes_to_an_end(rt: &impl Abort, kind: TaskKind, moved: Reaction, last: AttemptState) {
    let mut machine = pending(rt, kind);
    let mut copy = machine.copy();
    hears(
        rt,
        &mut machine,
        &[
            (AttemptEvent::Fail, Reaction::Moved, AttemptState::Failed),
            (AttemptEvent::Kill, Reaction::Ignored, AttemptState::Failed),
        ],
    );
    confirm!(rt; machine.state().is_over());
    hears(
        rt,
        &mut copy,
        &[
            (AttemptEvent::Done, Reaction::Moved, AttemptState::Recording),
            (
                AttemptEvent::Fail,
                Reaction::Ignored,
                AttemptState::Recording,
            ),
            (
                AttemptEvent::Recorded,
                Reaction::Moved,
                AttemptState::Succeeded,
            ),
            (
                AttemptEvent::Kill,
                Reaction::Ignored,
                AttemptState::Succeeded,
            ),
        ],
    );
    hears(rt, &mut copy, &[(AttemptEvent::Lost, moved, last)]);
    confirm!(rt; copy.state().is_won() == (kind == TaskKind::Reduce));
    confirm!(rt; !copy.is_live());
    confirm!(rt; last.next(kind, AttemptEvent::Kill).is_none());
}

// Each event once where it moves and once where it is ignored, and the copy goes on.
#[test]
fn attempt_events(rt: HostRuntime) {
    let rt = &rt;
    comes_to_an_end(rt, TaskKind::Map, Reaction::Moved, AttemptState::Killed);
    comes_to_an_end(
        rt,
        TaskKind::Reduce,
        Reaction::Ignored,
        AttemptState::Succeeded,
    );
}

#[test]
fn state_names(rt: HostRuntime) {
    let rt = &rt;
    shows(rt, rt.alloc(), &AttemptState::New, "New");
    shows(
        rt,
        rt.alloc(),
        &AttemptState::CommitPending,
        "CommitPending",
    );
    shows(rt, rt.alloc(), &AttemptState::Killed, "Killed");
}
