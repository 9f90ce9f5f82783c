//! The segments of the generations up to the fence, as a list: what is done to each of them.
ghost use Rattle.std.specs.Prelude.{◌≡◌, ◌↔◌, ◌≤◌, ◌-◌, ◌++◌, [], length, map, replicate, IfOk, IsOk, IsOkUnless, IsTrue, true, vec_capacity};
ghost use Rattle.mr_history.specs.Segment.{fresh, sealed};
ghost use Rattle.mr_history.specs.Calls.{records_in};

use crate::fault::HistoryFault;
use crate::record::Records;
use crate::segment::Segment;
use mr_ids::MAX_APP_ATTEMPTS;
use std::alloc::{AllocError, Global};

// Equal segments, and room for those of all generations.
pub(crate) fn copied(alloc: Global, segments: &[Segment]) -> Result<Vec<Segment>, AllocError>
    requires { length segments.now ≤ 1000 }
    ensures same { IfOk result (λ copies. copies.items ≡ segments.now) }
    ensures room { IfOk result (λ copies. vec_capacity copies ≡ 1000) }
{
    let mut copies = Vec::with_capacity(alloc, MAX_APP_ATTEMPTS as usize)?;
    for segment in segments {
        copies.push_reserved(segment.copy()?);
    }
    Ok(copies)
}

// Whether these are the same segments.
pub(crate) fn are_same(segments: &[Segment], others: &[Segment]) -> bool
    ensures { IsTrue result ↔ (segments.now ≡ others.now) }
{
    if segments.len() != others.len() {
        return false;
    }
    for i in 0..segments.len() {
        let segment = &segments[i];
        let beside = &others[i];
        if !segment.is_same(beside) {
            return false;
        }
    }
    true
}

// Adds segments of version 1 in which nothing was written, until there are so many.
pub(crate) fn fill(segments: &mut Vec<Segment>, alloc: Global, count: usize)
    requires order { length segments.old.items ≤ count }
    requires room { count ≤ vec_capacity segments.old }
    ensures filled { segments.new.items ≡ segments.old.items ++ replicate (count - length segments.old.items) (fresh 1) }
    ensures count { length segments.new.items ≡ count }
    ensures room { vec_capacity segments.new ≡ vec_capacity segments.old }
{
    for _ in segments.len()..count {
        segments.push_reserved(Segment::new(alloc, 1));
    }
}

// Seals all of them, each with the first `kept` bytes of its tail.
pub(crate) fn seal_all(segments: &mut [Segment], kept: usize)
    ensures sealed { segments.new ≡ map (sealed kept) segments.old }
    ensures count { length segments.new ≡ length segments.old }
{
    for segment in segments {
        segment.seal(kept);
    }
}

// The records of all of them, from stable bytes alone.
pub(crate) fn records_of_all(alloc: Global, segments: &[Segment]) -> Result<Records, HistoryFault>
    ensures told { IfOk result (λ told. told ≡ records_in segments.now) }
    ensures memory { IsOkUnless result HistoryFault.NoMemory }
    ensures nothing { records_in segments.now ≡ [] → IsOk result }
{
    let mut records = Records::new(alloc);
    for segment in segments {
        let more = segment.records()?;
        records.extend(more.as_slice())?;
    }
    Ok(records)
}
