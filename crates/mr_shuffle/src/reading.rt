//! The pairs of a piece, read through.
ghost use Rattle.std.specs.Prelude.{◌≡◌, ◌<◌, ◌≤◌, length, None, Some, OnOk, IfOk, IfErr, IfSome};
ghost use Rattle.std.specs.Result.{result_err};
ghost use Rattle.mr_user.specs.Computation.{computation};
ghost use Rattle.mr_shuffle.specs.Part.{goes_down, pairs_of_piece};
ghost use Rattle.mr_shuffle.specs.inner.Fault.{ReadFaultIs, read_fault};
ghost use Rattle.mr_shuffle.specs.inner.Reading.{IsNamed, ReadsPair, NoPairIs};

use mr_mapside::{ShuffleFault, read_pair, read_value};
use mr_user::{Job, UserFault, Wire};
use std::alloc::{AllocError, Global};

// Whether a key is less than the one before it.
fn falls<J: Job>(before: &Option<J::Key>, key: &J::Key) -> bool
    ensures { result ≡ goes_down (computation J.Key.cmp J.Key.codec J.Value.codec J.functions) before.now key.now }
{
    match before {
        Some(before) => key.cmp(before).is_lt(),
        None => false,
    }
}

// What a reading that gave no pair says of a piece.
fn read_fault(fault: UserFault) -> ShuffleFault
    ensures { result ≡ read_fault fault }
{
    match fault {
        UserFault::NoMemory => ShuffleFault::NoMemory,
        UserFault::Refused | UserFault::BadWire => ShuffleFault::Truncated,
    }
}

// The length of the pair that bytes begin with, where they begin with the key before it as it is written. That key is
// not read again.
fn repeated_len<J: Job>(
    alloc: Global,
    before: &Option<J::Key>,
    name: &[u8],
    bytes: &[u8],
) -> Result<Option<usize>, AllocError>
    requires { IsNamed J.Key.codec before.now name.now }
    ensures within { IfOk result (λ found. IfSome found (λ len. (0 < len) × (len ≤ length bytes.now))) }
    ensures reads { IfOk result (λ found. IfSome found (λ len. ReadsPair (computation J.Key.cmp J.Key.codec J.Value.codec J.functions) before.now bytes.now len before.now)) }
{
    match before {
        None => Ok(None),
        Some(key) => match read_value::<J>(alloc, key, name, bytes)? {
            None => Ok(None),
            Some((_value, len)) => Ok(Some(len)),
        },
    }
}

// The key of the pair that bytes begin with, unless it is less than the one before it, and the pair's length.
fn next_key<J: Job>(
    alloc: Global,
    before: &Option<J::Key>,
    bytes: &[u8],
) -> Result<(J::Key, usize), ShuffleFault>
    ensures within { IfOk result (λ found. (0 < found.1) × (found.1 ≤ length bytes.now)) }
    ensures reads { IfOk result (λ found. ReadsPair (computation J.Key.cmp J.Key.codec J.Value.codec J.functions) before.now bytes.now found.1 (Some found.0)) }
    ensures fault { IfErr result (λ fault. NoPairIs fault (computation J.Key.cmp J.Key.codec J.Value.codec J.functions) before.now bytes.now) }
{
    match read_pair::<J>(alloc, bytes) {
        Err(fault) => Err(read_fault(fault)),
        Ok((pair, len)) => {
            if falls::<J>(before, &pair.0) {
                return Err(ShuffleFault::Disorder);
            }
            Ok((pair.0, len))
        }
    }
}

// Reads the pair that bytes begin with. It is given the key before it, and that key as it is written, and leaves the
// pair's own key there. Answers how many bytes the pair takes. A key that is the one before it is not read again.
fn next_len<J: Job>(
    alloc: Global,
    before: &mut Option<J::Key>,
    name: &mut Vec<u8>,
    bytes: &[u8],
) -> Result<usize, ShuffleFault>
    requires { IsNamed J.Key.codec before.old name.old.items }
    ensures named { OnOk result (IsNamed J.Key.codec before.new name.new.items) }
    ensures within { IfOk result (λ len. (0 < len) × (len ≤ length bytes.now)) }
    ensures reads { IfOk result (λ len. ReadsPair (computation J.Key.cmp J.Key.codec J.Value.codec J.functions) before.old bytes.now len before.new) }
    ensures fault { IfErr result (λ fault. NoPairIs fault (computation J.Key.cmp J.Key.codec J.Value.codec J.functions) before.old bytes.now) }
{
    if let Some(len) = repeated_len::<J>(alloc, before, name, bytes)? {
        return Ok(len);
    }
    let (key, len) = next_key::<J>(alloc, before, bytes)?;
    key.fits();
    name.clear();
    key.write(name)?;
    *before = Some(key);
    Ok(len)
}

// Reads a piece through, one pair at a time, to its first fault.
pub fn check_piece<J: Job>(alloc: Global, piece: &[u8]) -> Result<(), ShuffleFault>
    ensures whole { OnOk result (result_err (pairs_of_piece (computation J.Key.cmp J.Key.codec J.Value.codec J.functions) piece.now) ≡ None) }
    ensures fault { IfErr result (λ fault. ReadFaultIs fault (pairs_of_piece (computation J.Key.cmp J.Key.codec J.Value.codec J.functions) piece.now)) }
{
    let mut before = None;
    let mut name = Vec::new(alloc);
    let mut rest = piece;
    while !rest.is_empty() {
        let len = next_len::<J>(alloc, &mut before, &mut name, rest)?;
        rest = &rest[len..];
    }
    Ok(())
}
