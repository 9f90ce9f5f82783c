//! What becomes of an attempt.
ghost use Rattle.std.specs.Prelude.{◌≡◌};
ghost use Rattle.mr_trace_marks.specs.Fates.{decided_by, event_of, fate_of, has, place_of, sign_of};

use crate::mark::{Mark, Sign, is_of};
use mr_ids::AttemptId;

/// What becomes of an attempt.
#[derive(Clone, Copy, Debug, PartialEq, Eq)]
pub enum Fate {
    /// It is the recorded winner of its task.
    Won,
    /// Its success was cut from the history before it was stable.
    Lost,
    /// It reported that it failed.
    Failed,
    /// Its container died.
    Died,
    /// Its container ended with its node.
    Restarted,
    /// Its node was given up while it ran.
    GivenUp,
    /// Its container was killed.
    Killed,
    /// Its success is recorded, and not stable where the run ends.
    Undecided,
    /// A store call of it was refused.
    Refused,
    /// A newer master started while it ran.
    Superseded,
    /// The run ends before it is done.
    Unfinished,
}

/// The fates that a mark decides, the weightiest first.
pub const FATES: &[Fate] = &[
    Fate::Won,
    Fate::Lost,
    Fate::Failed,
    Fate::Died,
    Fate::Restarted,
    Fate::GivenUp,
    Fate::Killed,
    Fate::Undecided,
    Fate::Refused,
    Fate::Superseded,
];

impl Fate {
    /// The sign of the mark that decides it. Of an unfinished attempt no mark does.
    pub fn sign(self) -> Option<Sign>
        ensures { result ≡ sign_of self }
    {
        match self {
            Fate::Won => Some(Sign::Won),
            Fate::Lost => Some(Sign::Lost),
            Fate::Failed => Some(Sign::Failed),
            Fate::Died => Some(Sign::Died),
            Fate::Restarted => Some(Sign::Restarted),
            Fate::GivenUp => Some(Sign::GivenUp),
            Fate::Killed => Some(Sign::Killed),
            Fate::Undecided => Some(Sign::Recorded),
            Fate::Refused => Some(Sign::Refused),
            Fate::Superseded => Some(Sign::Superseded),
            Fate::Unfinished => None,
        }
    }
}

/// The place of the attempt's first mark with this sign, if it has one.
pub fn place_of(marks: &[Mark], attempt: &AttemptId, sign: Sign) -> Option<u64>
    ensures { result ≡ place_of marks.now attempt.now sign }
{
    for mark in marks {
        if is_of(mark, attempt, sign) {
            return Some(mark.place);
        }
    }
    None
}

/// The place of the first mark that decides this fate of the attempt, if it has one.
pub fn event_of(marks: &[Mark], attempt: &AttemptId, fate: Fate) -> Option<u64>
    ensures { result ≡ event_of marks.now attempt.now fate }
{
    match fate.sign() {
        Some(sign) => place_of(marks, attempt, sign),
        None => None,
    }
}

/// What becomes of an attempt by the marks of a run: the first of `FATES` that a mark of it decides. Where none does, it is
/// unfinished.
pub fn fate_of(marks: &[Mark], attempt: &AttemptId) -> Fate
    ensures { result ≡ fate_of marks.now attempt.now }
{
    decided_by(FATES, marks, attempt)
}

// The first of these fates that a mark decides.
fn decided_by(fates: &[Fate], marks: &[Mark], attempt: &AttemptId) -> Fate
    ensures { result ≡ decided_by fates.now marks.now attempt.now }
{
    for fate in fates {
        if has(marks, attempt, *fate) {
            return *fate;
        }
    }
    Fate::Unfinished
}

// Whether a mark decides this fate of the attempt.
fn has(marks: &[Mark], attempt: &AttemptId, fate: Fate) -> bool
    ensures { result ≡ has marks.now attempt.now fate }
{
    event_of(marks, attempt, fate).is_some()
}
