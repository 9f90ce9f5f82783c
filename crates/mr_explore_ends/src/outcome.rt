//! What a run came to.
ghost use Rattle.std.specs.Prelude.{◌≡◌, IfOk};
ghost use Rattle.std.proofs.Math.Bool.{beq};
ghost use Rattle.std.specs.Cmp.Lexicographic.{pointwise};
ghost use Rattle.std.specs.Option.{option_eq};
ghost use Rattle.std.specs.Str.{bytes_eq};
ghost use Rattle.mr_ids.specs.Same.{same_attempt};
ghost use Rattle.mr_explore_ends.specs.Outcomes.{outcome_text, same_outcome};

use mr_ids::AttemptId;
use mr_script_writer::{put_marker_line, put_outcome_line, put_winner_lines};
use std::alloc::{AllocError, Global};
use std::marker::Model;

/// What a run came to. Contracts see its four parts.
#[derive(Debug, Drop)]
pub struct Outcome {
    winners: Vec<Option<AttemptId>>,
    marker: bool,
    outcome: Option<bool>,
    files: Vec<u8>,
}

impl Model for Outcome {
    ghost use Rattle.mr_explore_ends.specs.Outcomes as ends;

    ghost Value = { ends.Outcome };

    ghost view = { λ o. record { winners = o.winners.items; marker = o.marker; outcome = o.outcome; files = o.files.items } };
}

impl Outcome {
    /// The winners by reduce, whether the success marker is there, the outcome that was told (whether the job succeeded), if one was, and the visible files
    /// as `play` prints them.
    pub fn new(
        winners: Vec<Option<AttemptId>>,
        marker: bool,
        outcome: Option<bool>,
        files: Vec<u8>,
    ) -> Outcome
        ensures { result ≡ record { winners = winners.items; marker = marker; outcome = outcome; files = files.items } }
    {
        Outcome {
            winners,
            marker,
            outcome,
            files,
        }
    }

    /// The winners by reduce.
    pub(crate) fn winners(&self) -> &[Option<AttemptId>]
        ensures { result.now ≡ self.now.winners }
    {
        &self.winners
    }

    /// Whether the success marker is there.
    pub fn marker(&self) -> bool
        ensures { result ≡ self.now.marker }
    {
        self.marker
    }

    /// The outcome that was told, if one was.
    pub(crate) fn told(&self) -> Option<bool>
        ensures { result ≡ self.now.outcome }
    {
        self.outcome
    }

    /// The visible files, as `play` prints them.
    pub(crate) fn files(&self) -> &[u8]
        ensures { result.now ≡ self.now.files }
    {
        &self.files
    }

    /// What `play` prints of it. It fails where there is no memory.
    pub fn text(&self, alloc: Global) -> Result<Vec<u8>, AllocError>
        ensures { IfOk result (λ text. text.items ≡ outcome_text self.now) }
    {
        let mut text = Vec::new(alloc);
        put_winner_lines(&mut text, self.winners())?;
        put_marker_line(&mut text, self.marker())?;
        put_outcome_line(&mut text, self.told())?;
        text.extend_from_slice(self.files())?;
        Ok(text)
    }

    /// Whether another is the same in each part.
    pub fn is_same(&self, other: &Outcome) -> bool
        ensures { result ≡ same_outcome self.now other.now }
    {
        are_flags(self.marker(), other.marker())
            && are_told(self.told(), other.told())
            && are_winners(self.winners(), other.winners())
            && are_bytes(self.files(), other.files())
    }
}

/// Whether two are one.
pub(crate) fn are_flags(a: bool, b: bool) -> bool
    ensures { result ≡ beq a b }
{
    a == b
}

/// Whether two outcomes are one.
pub(crate) fn are_told(a: Option<bool>, b: Option<bool>) -> bool
    ensures { result ≡ option_eq beq a b }
{
    a == b
}

fn are_bytes(a: &[u8], b: &[u8]) -> bool
    ensures { result ≡ bytes_eq a.now b.now }
{
    a == b
}

fn are_winners(a: &[Option<AttemptId>], b: &[Option<AttemptId>]) -> bool
    ensures { result ≡ pointwise (option_eq same_attempt) a.now b.now }
{
    a == b
}
