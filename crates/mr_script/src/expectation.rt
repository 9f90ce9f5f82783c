//! What a script expects of a run.
ghost use Rattle.std.specs.Prelude.{◌≡◌, ◌<◌, ◌^◌, ℕ, Bool, IfSome, IfNone, Option, decimal};
ghost use Rattle.mr_ids.specs.Attempt.{Attempt};
ghost use Rattle.mr_script.specs.Expected.{expected_words, marker_word, outcome_word, winner_word, IsExpectation, IsWinner};
ghost use Rattle.mr_script.specs.Words.{with_word};

use crate::word::{attempt, number, split_once};
use mr_ids::AttemptId;

/// What a script expects to be so at its line.
#[derive(Clone, Copy, Debug, PartialEq, Eq)]
pub enum Expectation {
    /// This attempt is the winner of the reduce of this number, or none is.
    Winner(u32, Option<AttemptId>),
    /// The success marker is there, or it is not.
    Marker(bool),
    /// This outcome was told (whether the job succeeded), or none was.
    Outcome(Option<bool>),
}

/// A reduce's winner, or none.
fn winner(word: &[u8]) -> Option<Option<AttemptId>>
    ensures some { IfSome result (λ won. IsWinner won × (word.now ≡ winner_word won)) }
    ensures none { IfNone result ((won : Option Attempt) → IsWinner won → word.now ≡ winner_word won → ⊥) }
{
    if word == b"none".as_slice() {
        return Some(None);
    }
    match attempt(word) {
        Some(attempt) => Some(Some(attempt)),
        None => None,
    }
}

/// Whether the marker is there.
fn marker(word: &[u8]) -> Option<bool>
    ensures some { IfSome result (λ there. word.now ≡ marker_word there) }
    ensures none { IfNone result ((there : Bool) → word.now ≡ marker_word there → ⊥) }
{
    if word == b"yes".as_slice() {
        Some(true)
    } else if word == b"no".as_slice() {
        Some(false)
    } else {
        None
    }
}

/// The outcome that was told, or none.
fn outcome(word: &[u8]) -> Option<Option<bool>>
    ensures some { IfSome result (λ told. word.now ≡ outcome_word told) }
    ensures none { IfNone result ((told : Option Bool) → word.now ≡ outcome_word told → ⊥) }
{
    if word == b"none".as_slice() {
        Some(None)
    } else if word == b"succeeded".as_slice() {
        Some(Some(true))
    } else if word == b"failed".as_slice() {
        Some(Some(false))
    } else {
        None
    }
}

/// The number of a reduce, and its winner, or none.
fn winner_of(rest: &[u8]) -> Option<(u32, Option<AttemptId>)>
    ensures some { IfSome result (λ p. IsWinner p.1 × (rest.now ≡ with_word (decimal p.0) (winner_word p.1))) }
    ensures none { IfNone result ((r : ℕ) (won : Option Attempt) → r < 2 ^ 32 → IsWinner won → rest.now ≡ with_word (decimal r) (winner_word won) → ⊥) }
{
    let Some((word, more)) = split_once(rest, b' ') else {
        return None;
    };
    let Some(reduce) = number(word) else {
        return None;
    };
    let Some(won) = winner(more) else {
        return None;
    };
    Some((reduce, won))
}

/// What is expected of the reduces, of the marker, or of the outcome, in the words that stand behind `expect`. It takes no memory.
pub fn expected(rest: &[u8]) -> Option<Expectation>
    ensures some { IfSome result (λ e. IsExpectation e × (rest.now ≡ expected_words e)) }
    ensures none { IfNone result ((e : Expectation) → IsExpectation e → rest.now ≡ expected_words e → ⊥) }
{
    let Some((word, more)) = split_once(rest, b' ') else {
        return None;
    };
    if word == b"r".as_slice() {
        let Some((reduce, won)) = winner_of(more) else {
            return None;
        };
        return Some(Expectation::Winner(reduce, won));
    }
    if word == b"marker".as_slice() {
        let Some(there) = marker(more) else {
            return None;
        };
        return Some(Expectation::Marker(there));
    }
    if word == b"outcome".as_slice() {
        let Some(told) = outcome(more) else {
            return None;
        };
        return Some(Expectation::Outcome(told));
    }
    None
}
