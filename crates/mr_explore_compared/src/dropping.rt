//! Whether the same packets were dropped in two plays, as far as calms have not passed them over.
ghost use Rattle.std.specs.Prelude.{◌≡◌};
ghost use Rattle.mr_explore_compared.specs.inner.Compared.{all_dropped_too, dropped_too, lies_so_far, lies_there};

use std::collections::BTreeSet;

/// Whether the packets that were dropped from place `m` on were dropped in the other play too, as far behind place `n`.
pub fn are_dropped_too(dropped: &BTreeSet<u64>, m: u64, others: &BTreeSet<u64>, n: u64) -> bool
    ensures { result ≡ all_dropped_too m n dropped.now.keys others.now.keys }
{
    dropped
        .iter()
        .all(|place| is_dropped_too(*place, m, others, n))
}

// The same, of this place.
fn is_dropped_too(place: u64, m: u64, others: &BTreeSet<u64>, n: u64) -> bool
    ensures { result ≡ dropped_too m n others.now.keys place }
{
    if place < m {
        return true;
    }
    lies_there(others, n, place - m)
}

// Whether one of them lies so far behind `n`.
fn lies_there(others: &BTreeSet<u64>, n: u64, far: u64) -> bool
    ensures { result ≡ lies_there n far others.now.keys }
{
    others.iter().any(|other| lies_so_far(*other, n, far))
}

fn lies_so_far(other: u64, n: u64, far: u64) -> bool
    ensures { result ≡ lies_so_far n far other }
{
    n <= other && other - n == far
}
