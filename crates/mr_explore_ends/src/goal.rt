//! Ends that are sought.
ghost use Rattle.std.specs.Prelude.{◌≡◌, IfOk, IfSome, IfNone};
ghost use Rattle.std.specs.List.{list_any, slice_get};
ghost use Rattle.std.specs.Option.{option_eq};
ghost use Rattle.mr_ids.specs.Same.{same_attempt};
ghost use Rattle.mr_explore_ends.specs.Goals.{IsGoal, IsNoGoal, is_against, is_contrary, meets, without_blank};
ghost use Rattle.mr_explore_ends.specs.Outcomes.{has_winner, is_so};

use crate::outcome::{Outcome, are_flags, are_told};
use mr_ids::AttemptId;
use mr_script::{Expectation, expected, split_once};
use std::alloc::{AllocError, Global};

/// Whether an end is as a goal says, in each of its lines.
pub fn meets(goal: &[Expectation], end: &Outcome) -> bool
    ensures { result ≡ meets goal.now end.now }
{
    goal.iter().all(|line| is_so(end, line))
}

// Whether an end is as is expected.
fn is_so(end: &Outcome, expectation: &Expectation) -> bool
    ensures { result ≡ is_so end.now expectation.now }
{
    match expectation {
        Expectation::Winner(reduce, won) => has_winner(end, *reduce, won),
        Expectation::Marker(there) => are_flags(end.marker(), *there),
        Expectation::Outcome(told) => are_told(end.told(), *told),
    }
}

// Whether there is a reduce of this number, and this is its winner.
fn has_winner(end: &Outcome, reduce: u32, won: &Option<AttemptId>) -> bool
    ensures { result ≡ has_winner won.now (slice_get end.now.winners reduce) }
{
    match end.winners().get(reduce as usize) {
        Some(winner) => is_winner(winner, won),
        None => false,
    }
}

fn is_winner(a: &Option<AttemptId>, b: &Option<AttemptId>) -> bool
    ensures { result ≡ option_eq same_attempt a.now b.now }
{
    *a == *b
}

/// Whether two lines of a goal can't be so at once: they tell of the same, and differ. No end meets such a goal.
pub fn is_contrary(goal: &[Expectation]) -> bool
    ensures { result ≡ is_contrary goal.now }
{
    goal.iter().any(|line| has_against(goal, line))
}

// Whether a line of the goal is against this one.
fn has_against(goal: &[Expectation], line: &Expectation) -> bool
    ensures { result ≡ list_any (is_against line.now) goal.now }
{
    goal.iter().any(|other| is_against(line, other))
}

// Whether both tell of the same, and differ.
fn is_against(line: &Expectation, other: &Expectation) -> bool
    ensures { result ≡ is_against line.now other.now }
{
    match (line, other) {
        (Expectation::Winner(reduce, won), Expectation::Winner(same, winner)) => {
            reduce == same && !is_winner(won, winner)
        }
        (Expectation::Marker(there), Expectation::Marker(marker)) => !are_flags(*there, *marker),
        (Expectation::Outcome(told), Expectation::Outcome(outcome)) => !are_told(*told, *outcome),
        _ => false,
    }
}

fn without_blank(line: &[u8]) -> &[u8]
    ensures { result.now ≡ without_blank line.now }
{
    match line {
        [b' ', rest @ ..] => rest,
        _ => line,
    }
}

/// The goal that a text is, as `marker yes, outcome failed`: lines that `play` may print of winners, the marker or the outcome, with commas between, and
/// before each a blank or none. None is answered where one of them is no such line. It fails where there is no memory.
pub fn read_goal(alloc: Global, text: &str) -> Result<Option<Vec<Expectation>>, AllocError>
    ensures some { IfOk result (λ read. IfSome read (λ goal. IsGoal text.now goal.items)) }
    ensures none { IfOk result (λ read. IfNone read (IsNoGoal text.now)) }
{
    read_lines(alloc, text.as_bytes())
}

// The same, of the bytes of a text.
fn read_lines(alloc: Global, text: &[u8]) -> Result<Option<Vec<Expectation>>, AllocError>
    ensures some { IfOk result (λ read. IfSome read (λ goal. IsGoal text.now goal.items)) }
    ensures none { IfOk result (λ read. IfNone read (IsNoGoal text.now)) }
{
    // For the prover: a type that an expectation holds.
    let _winner: Option<AttemptId> = None;
    let mut goal = Vec::new(alloc);
    let mut rest = text;
    while let Some((line, after)) = split_once(rest, b',') {
        let Some(expectation) = expected(without_blank(line)) else {
            return Ok(None);
        };
        goal.push(expectation)?;
        rest = after;
    }
    let Some(expectation) = expected(without_blank(rest)) else {
        return Ok(None);
    };
    goal.push(expectation)?;
    Ok(Some(goal))
}
