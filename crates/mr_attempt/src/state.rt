//! The states of a task attempt, the events that move it, and the table of which event leads from which state to which.
ghost use Rattle.std.specs.Prelude.{◌≡◌, Some};
ghost use Rattle.mr_attempt.specs.Names.{name_of};
ghost use Rattle.mr_attempt.specs.Table.{next, is_live, is_won, is_over};

use mr_ids::TaskKind;
use std::fmt;

/// What has become of a task attempt. `{}` prints the name.
#[derive(Clone, Copy, Debug, PartialEq, Eq, Hash)]
pub enum AttemptState {
    /// Numbered, and not launched.
    New,
    /// Launched, and not heard of.
    Assigned,
    /// Heard of.
    Running,
    /// It asked for permission to commit.
    CommitPending,
    /// Its `Done` was accepted; its success is not recorded yet.
    Recording,
    /// Its success is recorded.
    Succeeded,
    /// Over by a failure.
    Failed,
    /// Over without a failure; also a map's attempt whose output was lost.
    Killed,
}

/// What is heard of a task attempt, or done to it.
#[derive(Clone, Copy, Debug, PartialEq, Eq, Hash)]
pub enum AttemptEvent {
    /// It is launched.
    Launch,
    /// It was heard of.
    Heard,
    /// It asked for permission to commit.
    Pending,
    /// It said that it is done, and that is accepted.
    Done,
    /// It failed.
    Fail,
    /// It ended without a failure.
    Kill,
    /// Its success is recorded.
    Recorded,
    /// Its output is lost.
    Lost,
}

/// Whether an event moved an attempt.
#[derive(Clone, Copy, Debug, PartialEq, Eq, Hash)]
pub enum Reaction {
    /// The attempt is in its next state.
    Moved,
    /// The attempt is as before.
    Ignored,
}

impl AttemptState {
    /// The state that an event leads to, of an attempt at a task of this kind; none where the event is ignored.
    pub fn next(self, kind: TaskKind, event: AttemptEvent) -> Option<AttemptState>
        ensures { result ≡ next kind self event }
    {
        use AttemptEvent::{Done, Fail, Heard, Kill, Launch, Lost, Pending, Recorded};
        use AttemptState::{
            Assigned, CommitPending, Failed, Killed, New, Recording, Running, Succeeded,
        };
        match (self, event) {
            (New, Launch) => Some(Assigned),
            (Assigned, Heard) => Some(Running),
            (Assigned | Running, Pending) => Some(CommitPending),
            (Assigned | Running | CommitPending, Done) => Some(Recording),
            (Assigned | Running | CommitPending, Fail) => Some(Failed),
            (Assigned | Running | CommitPending, Kill) => Some(Killed),
            (Recording, Recorded) => Some(Succeeded),
            (Succeeded, Lost) if kind.is_map() => Some(Killed),
            _ => None,
        }
    }

    /// Whether the attempt is launched, and neither over nor done: `Assigned`, `Running` or `CommitPending`.
    pub fn is_live(self) -> bool
        ensures { result ≡ is_live self }
    {
        matches!(
            self,
            AttemptState::Assigned | AttemptState::Running | AttemptState::CommitPending
        )
    }

    /// Whether the attempt's `Done` was accepted and its output is not lost: `Recording` or `Succeeded`.
    pub fn is_won(self) -> bool
        ensures { result ≡ is_won self }
    {
        matches!(self, AttemptState::Recording | AttemptState::Succeeded)
    }

    /// Whether the attempt is over without an output that counts: `Failed` or `Killed`.
    pub fn is_over(self) -> bool
        ensures { result ≡ is_over self }
    {
        matches!(self, AttemptState::Failed | AttemptState::Killed)
    }
}

impl fmt::Display for AttemptState {
    ghost output = { λ s. Some (name_of s) };

    fn fmt<W: fmt::Write>(&self, f: &mut fmt::Formatter<W>) -> fmt::Result {
        f.write_str(match self {
            AttemptState::New => "New",
            AttemptState::Assigned => "Assigned",
            AttemptState::Running => "Running",
            AttemptState::CommitPending => "CommitPending",
            AttemptState::Recording => "Recording",
            AttemptState::Succeeded => "Succeeded",
            AttemptState::Failed => "Failed",
            AttemptState::Killed => "Killed",
        })
    }
}
