//! The machine of one task attempt: the attempt, its state, and what an event does to them. For `mr_task`, which keeps one for each attempt at a task.
ghost use Rattle.std.specs.Prelude.{◌≡◌};
ghost use Rattle.mr_attempt.specs.Table.{is_live};
ghost use Rattle.mr_attempt.specs.Machine.{new_machine, machine_after, reaction_to};

use crate::state::{AttemptEvent, AttemptState, Reaction};
use mr_ids::AttemptId;
use std::marker::Model;

/// One task attempt and its state.
#[derive(Clone, Copy, Debug, PartialEq, Eq)]
pub struct AttemptMachine {
    attempt: AttemptId,
    state: AttemptState,
}

impl Model for AttemptMachine {
    ghost use Rattle.mr_attempt.specs.Machine.{Machine};

    ghost Value = { Machine };

    ghost view = { λ m. record { attempt = m.attempt; state = m.state } };

    ghost inverse = { λ v. record { attempt = v.attempt; state = v.state } };
}

impl AttemptMachine {
    /// An attempt that is not launched yet: its state is `New`.
    pub fn new(attempt: AttemptId) -> AttemptMachine
        ensures { result ≡ new_machine attempt }
    {
        AttemptMachine {
            attempt,
            state: AttemptState::New,
        }
    }

    /// An equal machine.
    pub fn copy(&self) -> AttemptMachine
        ensures { result ≡ self.now }
    {
        *self
    }

    /// Takes an event: where the table has a next state for it, the attempt is in that state from then on, and else as before.
    ///
    /// An attempt goes from `New` by `Launch` to `Assigned`, from there by `Heard` to `Running`, and from either by `Pending`
    /// to `CommitPending`. From each of these three `Done` leads to `Recording`, `Fail` to `Failed` and `Kill` to `Killed`.
    /// `Recorded` leads from `Recording` to `Succeeded`, and `Lost` from there to `Killed`, of a map's attempt alone.
    pub fn on(&mut self, event: AttemptEvent) -> Reaction
        ensures moved { self.new ≡ machine_after self.old event }
        ensures reaction { result ≡ reaction_to self.old event }
    {
        match self.state.next(self.attempt.task().kind, event) {
            Some(state) => {
                self.state = state;
                Reaction::Moved
            }
            None => Reaction::Ignored,
        }
    }

    /// The attempt that the machine is of.
    pub fn attempt(&self) -> AttemptId
        ensures { result ≡ self.now.attempt }
    {
        self.attempt
    }

    /// The state that it is in.
    pub fn state(&self) -> AttemptState
        ensures { result ≡ self.now.state }
    {
        self.state
    }

    /// Whether it is `Assigned`, `Running` or `CommitPending`.
    pub fn is_live(&self) -> bool
        ensures { result ≡ is_live self.now.state }
    {
        self.state.is_live()
    }
}
