//! The numbers of part files, by how often they came.
ghost use Rattle.std.specs.Prelude.{◌≡◌, not};
ghost use Rattle.std.specs.List.{list_any};
ghost use Rattle.mr_out_check.specs.Verdicts.{is_never, is_once};
ghost use Rattle.mr_out_check.specs.Report.{first_missing, first_never, first_double};

use crate::seen::Times;

fn is_never(times: Times) -> bool
    ensures { result ≡ is_never times }
{
    matches!(times, Times::Never)
}

fn is_once(times: Times) -> bool
    ensures { result ≡ is_once times }
{
    matches!(times, Times::Once)
}

// Whether a number is missing.
pub(crate) fn any_never(tally: &[Times]) -> bool
    ensures { result ≡ list_any is_never tally.now }
{
    for times in tally {
        if is_never(*times) {
            return true;
        }
    }
    false
}

// Whether each number came once.
pub(crate) fn all_once(tally: &[Times]) -> bool
    ensures { result ≡ not (list_any (λ t. not (is_once t)) tally.now) }
{
    for times in tally {
        if !is_once(*times) {
            return false;
        }
    }
    true
}

// The first number that is missing, of those below the number of tasks where this is told.
pub(crate) fn first_missing(tally: &[Times], tasks: Option<u32>) -> Option<u64>
    ensures { result ≡ first_missing tasks tally.now }
{
    if let Some(place) = first_never(tally) {
        return Some(place);
    }
    let len = tally.len() as u64;
    match tasks {
        Some(tasks) if len < u64::from(tasks) => Some(len),
        _ => None,
    }
}

fn first_never(tally: &[Times]) -> Option<u64>
    ensures { result ≡ first_never 0 tally.now }
{
    for (place, times) in tally.iter().enumerate() {
        if is_never(*times) {
            return Some(place as u64);
        }
    }
    None
}

// The first number that came more than once.
pub(crate) fn first_double(tally: &[Times]) -> Option<u64>
    ensures { result ≡ first_double 0 tally.now }
{
    for (place, times) in tally.iter().enumerate() {
        if matches!(times, Times::More) {
            return Some(place as u64);
        }
    }
    None
}
