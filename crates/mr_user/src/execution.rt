//! The sequential execution of a job, against which a cluster's output is measured. And for map and reduce works the share of each reduce and the lines of a key.
ghost use Rattle.std.specs.Prelude.{◌≡◌, ◌≤◌, ◌<◌, ◌++◌, ◌∷◌, [], ℕ, List, length, map, Some, None, IfOk, IfErr, OnOk, All, slice_get};
ghost use Rattle.std.specs.List.{flat_map};
ghost use Rattle.std.specs.Option.{option_map};
ghost use Rattle.mr_user.specs.Computation.{computation};
ghost use Rattle.mr_user.specs.Sequential.{pairs_of_splits, part_of, key_lines, output};
ghost use Rattle.mr_user.specs.Faults.{RefusedIf};
ghost use Rattle.mr_user.specs.inner.Gathered.{IsGathered};

use crate::fault::UserFault;
use crate::gathering::{Gathered, gather_split, no_groups};
use crate::job::Job;
use mr_ids::Bytes;
use std::alloc::{AllocError, Global};

/// Most splits of a sequential execution.
pub const MAX_SPLITS: usize = 1000;
/// Most bytes of a split.
pub const MAX_SPLIT_LEN: usize = 16777216;
/// Most reduces of a job.
pub const MAX_REDUCES: u32 = 1000;

/// What a sequential execution of a job writes: for each reduce, in order, the bytes of its file.
/// There are at most `MAX_SPLITS` splits of at most `MAX_SPLIT_LEN` bytes, and 1 to `MAX_REDUCES` reduces.
/// Answers `Refused` where the job refuses a line of a split, and `NoMemory` only where a growth was refused.
/// For n pairs of k keys it compares keys n log k times, and it holds each key once beside all values.
pub fn sequential<J: Job>(
    alloc: Global,
    job: &J,
    splits: &[Bytes],
    reduces: u32,
) -> Result<Vec<Vec<u8>>, UserFault>
    requires few { length splits.now ≤ MAX_SPLITS }
    requires short { All (λ split. length split ≤ MAX_SPLIT_LEN) splits.now }
    requires some { (1 ≤ reduces) × (reduces ≤ MAX_REDUCES) }

    ensures count { IfOk result (λ files. length files.items ≡ reduces) }
    ensures files { let all = computation J.Key.cmp J.Key.codec J.Value.codec J.functions in
        IfOk result (λ files. (r : ℕ) → r < reduces →
        option_map (λ file. file.items) (slice_get files.items r)
        ≡ output all reduces r splits.now) }
    ensures refused { let all = computation J.Key.cmp J.Key.codec J.Value.codec J.functions in
        IfErr result (λ fault. RefusedIf fault
        (pairs_of_splits all 0 splits.now ≡ None)) }
{
    let parts = gathered(alloc, job, splits, reduces)?;
    let files = texts(alloc, job, &parts)?;
    Ok(files)
}

// The text of each reduce's groups.
fn texts<J: Job>(alloc: Global, job: &J, parts: &[Gathered<J>]) -> Result<Vec<Vec<u8>>, AllocError>
    ensures { let all = computation J.Key.cmp J.Key.codec J.Value.codec J.functions in
        IfOk result (λ files. map (λ file. file.items) files.items ≡ map (flat_map (key_lines all)) parts.now) }
{
    let mut files = Vec::new(alloc);
    for part in parts {
        files.push(part.text(alloc, job)?)?;
    }
    Ok(files)
}

// The groups of each reduce, of the pairs of all splits: by split, by line, and as `map` gives them.
fn gathered<J: Job>(
    alloc: Global,
    job: &J,
    splits: &[Bytes],
    reduces: u32,
) -> Result<Vec<Gathered<J>>, UserFault>
    requires few { length splits.now ≤ MAX_SPLITS }
    requires short { All (λ split. length split ≤ MAX_SPLIT_LEN) splits.now }
    requires some { 0 < reduces }
    ensures groups { let all = computation J.Key.cmp J.Key.codec J.Value.codec J.functions in
        IfOk result (λ parts. (ps : List (J.Key × J.Value)) ×
        (pairs_of_splits all 0 splits.now ≡ Some ps) × IsGathered all reduces parts.items ps) }
    ensures refused { let all = computation J.Key.cmp J.Key.codec J.Value.codec J.functions in
        IfErr result (λ fault. RefusedIf fault
        (pairs_of_splits all 0 splits.now ≡ None)) }
{
    let mut parts = no_groups(alloc, reduces)?;
    let mut number = 0u32;
    for split in splits {
        gather_split(alloc, job, &mut parts, number, split.as_slice(), reduces)?;
        number += 1;
    }
    Ok(parts)
}

/// The pairs of each reduce, in order of the reduces, each pair where it stood among those of its reduce.
/// Answers no fault but an allocation failure.
pub fn shares<J: Job>(
    alloc: Global,
    job: &J,
    pairs: Vec<(J::Key, J::Value)>,
    reduces: u32,
) -> Result<Vec<Vec<(J::Key, J::Value)>>, AllocError>
    requires { 0 < reduces }
    ensures count { IfOk result (λ shares. length shares.items ≡ reduces) }
    ensures parts { let all = computation J.Key.cmp J.Key.codec J.Value.codec J.functions in
        IfOk result (λ shares. (r : ℕ) → r < reduces →
        option_map (λ share. share.items) (slice_get shares.items r)
        ≡ Some (part_of all reduces r pairs.items)) }
{
    let mut shares = empty_shares(alloc, reduces, room_for(pairs.len(), reduces))?;
    for (key, value) in pairs {
        let reduce = job.partition(&key, reduces);
        shares[reduce as usize].push((key, value))?;
    }
    Ok(shares)
}

// For how many of these pairs a share has room at once: a quarter more than its part, were all parts alike.
fn room_for(pairs: usize, reduces: u32) -> usize
    requires { 0 < reduces }
{
    let part = pairs / reduces as usize;
    part.saturating_add(part / 4)
}

// `count` empty lists, each with this room.
fn empty_shares<T: Drop>(alloc: Global, count: u32, room: usize) -> Result<Vec<Vec<T>>, AllocError>
    ensures count { IfOk result (λ shares. length shares.items ≡ count) }
    ensures empty { IfOk result (λ shares. All (λ share. length share.items ≡ 0) shares.items) }
{
    let mut shares = Vec::new(alloc);
    for _ in 0..count {
        shares.push(Vec::with_capacity(alloc, room)?)?;
    }
    Ok(shares)
}

/// Appends the lines of a key, reduced with the values: its text, a tab, a value text and a line feed, for each value text.
/// Answers no fault but an allocation failure.
pub fn write_lines<J: Job>(
    alloc: Global,
    job: &J,
    key: &J::Key,
    values: &[J::Value],
    out: &mut Vec<u8>,
) -> Result<(), AllocError>
    ensures { let all = computation J.Key.cmp J.Key.codec J.Value.codec J.functions in
        OnOk result (out.new.items ≡ out.old.items ++ key_lines all (key.now, values.now)) }
{
    let name = job.key_text(alloc, key)?;
    for value in &job.reduce(alloc, key, values)? {
        put_line(out, &name, value)?;
    }
    Ok(())
}

// Appends a line: the text of a key, a tab, the text of a value and a line feed.
fn put_line(out: &mut Vec<u8>, key: &[u8], value: &[u8]) -> Result<(), AllocError>
    ensures { OnOk result (out.new.items ≡ out.old.items ++ (key.now ++ 9 ∷ value.now ++ 10 ∷ [])) }
{
    out.extend_from_slice(key)?;
    out.push(b'\t')?;
    out.extend_from_slice(value)?;
    out.push(b'\n')?;
    Ok(())
}
