//! The work of a reduce task. The pieces of all maps are read through, merged by key, and reduced to the text of its
//! part file.
ghost use Rattle.std.specs.Prelude.{◌≡◌, ◌≤◌, length, map, None, Ok, IfOk, IfErr, OnOk, ⊤};
ghost use Rattle.std.specs.List.{flat_map};
ghost use Rattle.std.specs.Result.{result_err};
ghost use Rattle.mr_ids.specs.declared.id.TaskKind.TheVariants as kind;
ghost use Rattle.mr_user.specs.Computation.{computation};
ghost use Rattle.mr_user.specs.Groups.{groups_of};
ghost use Rattle.mr_user.specs.Sequential.{key_lines};
ghost use Rattle.mr_mapside.specs.Work.{FullIf};
ghost use Rattle.mr_shuffle.specs.Part.{result_map, pairs_of_pieces, pairs_of_all, part};
ghost use Rattle.mr_shuffle.specs.inner.Fault.{ReadFaultIs};
ghost use Rattle.mr_shuffle.specs.Work.{bytes_of, ArePiecesOf, ReduceFaultIs, in_work};

use crate::piece::{Piece, are_pieces_of};
use crate::reading::check_piece;
use mr_ids::{Bytes, TaskKind};
use mr_mapside::{MAX_OUTPUT_LEN, RunGroups, ShuffleFault, WorkFault};
use mr_user::{Gate, Job, write_lines};
use std::alloc::{AllocError, Global};

/// The text of reduce `reduce`: the lines of the keys in any piece, rising, each reduced with all its values by piece
/// and then by place. `parts` has the pieces of the maps 0, 1, 2 and so on, all of them for this reduce. Without
/// pieces the text is empty. The gate is entered once, before the work.
///
/// Answers `Gate` where the gate lets no work pass, and then `Shuffle(WrongPiece)` where the piece at some place is
/// not of the map of that number and of this reduce. `Shuffle(Truncated)` says that at some place of a piece no pair
/// can be read, and `Shuffle(Disorder)` that a key of a piece is less than the one before it. The first of these is
/// answered, in the order of the pieces and then of the bytes. Then comes `Full`, where the text would be longer than
/// `MAX_OUTPUT_LEN`. `NoMemory` is answered only where a growth was refused, the pieces being in place. It never
/// answers `User`. For n pairs it compares keys n log n times. It reads the pieces through once, and then holds one
/// decoded pair of each, beside the values of the one key that is reduced.
pub fn reduce_work<J: Job, G: Gate>(
    alloc: Global,
    job: &J,
    gate: &G,
    reduce: u32,
    parts: &[Piece],
) -> Result<Vec<u8>, WorkFault>
    ensures in_place { IfOk result (λ _. ArePiecesOf reduce parts.now) }
    ensures text { let all = computation J.Key.cmp J.Key.codec J.Value.codec J.functions in
        IfOk result (λ text. part all (bytes_of parts.now) ≡ Ok text.items) }
    ensures short { IfOk result (λ text. length text.items ≤ MAX_OUTPUT_LEN) }
    ensures fault { let all = computation J.Key.cmp J.Key.codec J.Value.codec J.functions in
        IfErr result (ReduceFaultIs (G.refuses gate.now kind.Reduce) (ArePiecesOf reduce parts.now) (part all (bytes_of parts.now)) MAX_OUTPUT_LEN) }
{
    gate.enter(TaskKind::Reduce)?;
    if !are_pieces_of(reduce, parts) {
        return Err(WorkFault::Shuffle(ShuffleFault::WrongPiece));
    }
    match open_pieces::<J>(alloc, parts) {
        Ok(groups) => merged_text(alloc, job, groups),
        Err(fault) => Err(in_work(fault)),
    }
}

/// The text of a reduce, as `reduce_work`, of what its pieces hold: `pieces` has the bytes of those of the maps 0, 1, 2
/// and so on. Nothing says of which map and reduce they are, so it never answers `WrongPiece`. Its other faults are
/// those of `reduce_work`, in its order.
pub fn reduce_bytes<J: Job, G: Gate>(
    alloc: Global,
    job: &J,
    gate: &G,
    pieces: &[Bytes],
) -> Result<Vec<u8>, WorkFault>
    ensures text { let all = computation J.Key.cmp J.Key.codec J.Value.codec J.functions in
        IfOk result (λ text. part all pieces.now ≡ Ok text.items) }
    ensures short { IfOk result (λ text. length text.items ≤ MAX_OUTPUT_LEN) }
    ensures fault { let all = computation J.Key.cmp J.Key.codec J.Value.codec J.functions in
        IfErr result (ReduceFaultIs (G.refuses gate.now kind.Reduce) ⊤ (part all pieces.now) MAX_OUTPUT_LEN) }
{
    gate.enter(TaskKind::Reduce)?;
    match open_lists::<J>(alloc, lent(alloc, pieces)?) {
        Ok(groups) => merged_text(alloc, job, groups),
        Err(fault) => Err(in_work(fault)),
    }
}

// A fault of pieces, as the fault of a work.
fn in_work(fault: ShuffleFault) -> WorkFault
    ensures { result ≡ in_work fault }
{
    match fault {
        ShuffleFault::NoMemory => WorkFault::NoMemory,
        other => WorkFault::Shuffle(other),
    }
}

// The text of groups.
fn merged_text<'a, J: Job>(
    alloc: Global,
    job: &J,
    mut groups: RunGroups<'a, J>,
) -> Result<Vec<u8>, WorkFault>
    ensures text { let all = computation J.Key.cmp J.Key.codec J.Value.codec J.functions in
        IfOk result (λ text. text.items ≡ flat_map (key_lines all) groups.entry) }
    ensures short { IfOk result (λ text. length text.items ≤ MAX_OUTPUT_LEN) }
    ensures fault { let all = computation J.Key.cmp J.Key.codec J.Value.codec J.functions in
        IfErr result (λ fault. FullIf fault (flat_map (key_lines all) groups.entry)) }
{
    let mut text = Vec::new(alloc);
    while let Some((key, values)) = groups.next_group(alloc)? {
        write_lines(alloc, job, &key, &values, &mut text)?;
        if text.len() > MAX_OUTPUT_LEN {
            return Err(WorkFault::Full);
        }
    }
    Ok(text)
}

// Reads the bytes of all pieces through, one pair at a time, to the first fault in the order of the pieces and then of
// the bytes.
fn check_lists<J: Job>(alloc: Global, lists: &[&[u8]]) -> Result<(), ShuffleFault>
    ensures whole { let all = computation J.Key.cmp J.Key.codec J.Value.codec J.functions in
        OnOk result (result_err (pairs_of_pieces all (map (λ bytes. bytes.now) lists.now)) ≡ None) }
    ensures fault { let all = computation J.Key.cmp J.Key.codec J.Value.codec J.functions in
        IfErr result (λ fault. ReadFaultIs fault (pairs_of_all all (map (λ bytes. bytes.now) lists.now))) }
{
    for list in lists {
        check_piece::<J>(alloc, list)?;
    }
    Ok(())
}

// The bytes of pieces, lent.
fn lent_bytes(alloc: Global, parts: &[Piece]) -> Result<Vec<&[u8]>, AllocError>
    ensures { IfOk result (λ lists. map (λ bytes. bytes.now) lists.items ≡ bytes_of parts.now) }
{
    let mut lists = Vec::with_capacity(alloc, parts.len())?;
    for part in parts {
        lists.push(part.bytes.as_slice())?;
    }
    Ok(lists)
}

// Bytes, lent.
fn lent(alloc: Global, pieces: &[Bytes]) -> Result<Vec<&[u8]>, AllocError>
    ensures { IfOk result (λ lists. map (λ bytes. bytes.now) lists.items ≡ pieces.now) }
{
    let mut slices = Vec::with_capacity(alloc, pieces.len())?;
    for piece in pieces {
        slices.push(piece.as_slice())?;
    }
    Ok(slices)
}

// The groups of the bytes of pieces, once these have been read through, or the first fault.
fn open_lists<'a, J: Job>(
    alloc: Global,
    lists: Vec<&'a [u8]>,
) -> Result<RunGroups<'a, J>, ShuffleFault>
    ensures groups { let all = computation J.Key.cmp J.Key.codec J.Value.codec J.functions in
        IfOk result (λ groups. result_map (groups_of J.Key.cmp) (pairs_of_all all (map (λ bytes. bytes.now) lists.entry.items)) ≡ Ok groups) }
    ensures fault { let all = computation J.Key.cmp J.Key.codec J.Value.codec J.functions in
        IfErr result (λ fault. ReadFaultIs fault (pairs_of_all all (map (λ bytes. bytes.now) lists.entry.items))) }
{
    check_lists::<J>(alloc, &lists)?;
    Ok(RunGroups::new(alloc, lists)?)
}

// The groups of pieces that have been read through, or the first fault.
pub fn open_pieces<J: Job>(alloc: Global, parts: &[Piece]) -> Result<RunGroups<'_, J>, ShuffleFault>
    ensures groups { let all = computation J.Key.cmp J.Key.codec J.Value.codec J.functions in
        IfOk result (λ groups. result_map (groups_of J.Key.cmp) (pairs_of_all all (bytes_of parts.now)) ≡ Ok groups) }
    ensures fault { let all = computation J.Key.cmp J.Key.codec J.Value.codec J.functions in
        IfErr result (λ fault. ReadFaultIs fault (pairs_of_all all (bytes_of parts.now))) }
{
    open_lists::<J>(alloc, lent_bytes(alloc, parts)?)
}
