//! What a line says of the task.
ghost use Rattle.std.specs.Prelude.{◌≡◌, IfSome, IfNone};
ghost use Rattle.mr_script.specs.Lines.{IsNoLine};
ghost use Rattle.mr_task_talk.specs.Line.{IsLine, verb_text};
ghost use Rattle.mr_task_talk.specs.declared.line.Verb as spec;

use mr_ids::AttemptId;
use mr_script::{attempt, split_once};

/// What is said of an attempt.
#[derive(Clone, Copy, Debug, PartialEq, Eq)]
pub enum Verb {
    /// It is ready to commit, and asks for permission.
    Pending,
    /// It asks whether it has the permission.
    Poll,
    /// It committed.
    Done,
    /// Its success is on record.
    Recorded,
    /// It failed.
    Failed,
    /// Its container ended, and nobody had stopped it.
    Ended,
    /// It was stopped, which is no failure of it.
    Killed,
    /// Its output is lost.
    Lost,
}

/// What a line says.
#[derive(Clone, Copy, Debug, PartialEq, Eq)]
pub enum Line {
    /// An attempt is launched.
    Launch,
    /// This happens to this attempt.
    Of(Verb, AttemptId),
}

// All verbs.
const VERBS: [Verb; 8] = [
    Verb::Pending,
    Verb::Poll,
    Verb::Done,
    Verb::Recorded,
    Verb::Failed,
    Verb::Ended,
    Verb::Killed,
    Verb::Lost,
];

// The word of a verb.
fn verb_word(verb: Verb) -> &'static [u8]
    ensures { result.now ≡ verb_text verb }
{
    match verb {
        Verb::Pending => b"pending",
        Verb::Poll => b"poll",
        Verb::Done => b"done",
        Verb::Recorded => b"recorded",
        Verb::Failed => b"failed",
        Verb::Ended => b"ended",
        Verb::Killed => b"killed",
        Verb::Lost => b"lost",
    }
}

// The verb that the word is.
fn verb_named(word: &[u8]) -> Option<Verb>
    ensures found { IfSome result (λ verb. word.now ≡ verb_text verb) }
    ensures none { IfNone result ((verb : spec.Verb) → word.now ≡ verb_text verb → ⊥) }
{
    for verb in &VERBS {
        if word == verb_word(*verb) {
            return Some(*verb);
        }
    }
    None
}

/// What the line says, if it is a line of a task.
#[tactic(auto, using(crate::proofs::Lines::is_of))]
pub fn line_in(line: &[u8]) -> Option<Line>
    ensures some { IfSome result (IsLine line.now) }
    ensures none { IfNone result (IsNoLine IsLine line.now) }
{
    if line == b"launch".as_slice() {
        return Some(Line::Launch);
    }
    match split_once(line, b' ') {
        Some((word, rest)) => match verb_named(word) {
            Some(verb) => match attempt(rest) {
                Some(attempt) => Some(Line::Of(verb, attempt)),
                None => None,
            },
            None => None,
        },
        None => None,
    }
}
