//! Runs, merged by key.
ghost use Rattle.std.specs.Prelude.{◌≡◌, ◌≢◌, ◌≤◌, ◌<◌, ◌∷◌, [], length, map, nat_eq, get_or, vec_len, Some, IfOk, IfErr, IfSome, OnOk, OnErr};
ghost use Rattle.std.specs.BinaryHeap.{heap_items};
ghost use Rattle.std.specs.List.{starts_with};
ghost use Rattle.std.specs.Option.{option_map};
ghost use Rattle.mr_user.specs.declared.fault.UserFault.TheVariants as user;
ghost use Rattle.mr_user.specs.Computation.{computation};
ghost use Rattle.mr_user.specs.Faults.{BadWireIf};
ghost use Rattle.mr_mapside.specs.Runs.{IsName, pair_at, named_at, ArePairs, AreRuns, merged, GivesGroup};
ghost use Rattle.mr_mapside.specs.inner.Fronts.{Adds, Holds, AreNotBelow, Takes, TakesRun, rest_at};

use crate::front::Front;
use mr_user::{Job, UserFault, Wire};
use std::alloc::{AllocError, Global};
use std::cmp::{Ordering, Reverse};
use std::collections::BinaryHeap;
use std::marker::Model;

// Up to how many bytes a name is compared byte by byte.
const SHORT_NAME: usize = 24;

// For how many bytes of a key's name, and for how many of its values, room is made at once.
const NAME_ROOM: usize = 32;

const VALUES_ROOM: usize = 32;

/// The pair at the front of bytes, and its length. Answers `BadWire` where they begin with none.
pub fn read_pair<J: Job>(
    alloc: Global,
    bytes: &[u8],
) -> Result<((J::Key, J::Value), usize), UserFault>
    ensures read { IfOk result (λ found. pair_at (computation J.Key.cmp J.Key.codec J.Value.codec J.functions) bytes.now ≡ Some found) }
    ensures some { IfOk result (λ found. 0 < found.1) }
    ensures within { IfOk result (λ found. found.1 ≤ length bytes.now) }
    ensures bad { IfErr result (λ fault. BadWireIf fault (pair_at (computation J.Key.cmp J.Key.codec J.Value.codec J.functions) bytes.now ≡ None)) }
{
    let (key, key_len) = J::Key::read(alloc, bytes)?;
    let (value, value_len) = J::Value::read(alloc, &bytes[key_len..])?;
    Ok(((key, value), key_len + value_len))
}

// Adds the first pair of a list of pairs, if it has one.
fn add_front<J: Job>(
    alloc: Global,
    fronts: &mut BinaryHeap<Reverse<Front<J::Key, J::Value>>>,
    list: usize,
    bytes: &[u8],
) -> Result<(), AllocError>
    requires { ArePairs (computation J.Key.cmp J.Key.codec J.Value.codec J.functions) bytes.now }
    ensures { OnOk result (Adds (computation J.Key.cmp J.Key.codec J.Value.codec J.functions) list bytes.now (heap_items fronts.old) (heap_items fronts.new)) }
{
    if bytes.is_empty() {
        return Ok(());
    }
    match read_pair::<J>(alloc, bytes) {
        Ok((pair, len)) => {
            let (key, value) = pair;
            fronts.push(Reverse(Front {
                key,
                list,
                value,
                len,
            }))?;
            Ok(())
        }
        Err(UserFault::NoMemory) => Err(AllocError),
        Err(UserFault::Refused | UserFault::BadWire) => unreachable!(),
    }
}

/// The value of the pair at the front of bytes, and the pair's length, where the bytes begin with a key as it is
/// written. The key is not read. None where the bytes do not begin so, and where no value follows the key. Answers no
/// fault but an allocation failure.
pub fn read_value<J: Job>(
    alloc: Global,
    key: &J::Key,
    name: &[u8],
    bytes: &[u8],
) -> Result<Option<(J::Value, usize)>, AllocError>
    requires { IsName J.Key.codec key.now name.now }
    ensures pair { IfOk result (λ found. option_map (λ value. ((key.now, value.0), value.1)) found ≡ named_at (computation J.Key.cmp J.Key.codec J.Value.codec J.functions) name.now bytes.now) }
    ensures within { IfOk result (λ found. IfSome found (λ value. value.1 ≤ length bytes.now)) }
{
    if !begins_with(bytes, name) {
        return Ok(None);
    }
    match J::Value::read(alloc, &bytes[name.len()..]) {
        Ok((value, len)) => Ok(Some((value, name.len() + len))),
        Err(fault) => {
            no_memory(fault)?;
            Ok(None)
        }
    }
}

// Whether bytes begin with a name. Most bytes that do not begin with it differ in its last byte, so that one is
// looked at first.
fn begins_with(bytes: &[u8], name: &[u8]) -> bool
    ensures { result ≡ starts_with nat_eq bytes.now name.now }
{
    let len = name.len();
    if len <= bytes.len() && 0 < len && bytes[len - 1] != name[len - 1] {
        return false;
    }
    if len <= SHORT_NAME {
        return begins_with_short(bytes, name);
    }
    bytes.starts_with(name)
}

// The same, byte by byte: that is quicker for a few bytes, and slower for many.
fn begins_with_short(bytes: &[u8], name: &[u8]) -> bool
    ensures { result ≡ starts_with nat_eq bytes.now name.now }
{
    let mut rest = bytes;
    let mut left = name;
    while let (Some((byte, more)), Some((wanted, later))) = (
        rest.split_first(),
        left.split_first(),
    ) {
        if byte != wanted {
            return false;
        }
        rest = more;
        left = later;
    }
    left.is_empty()
}

// An allocation failure, where a fault is one.
fn no_memory(fault: UserFault) -> Result<(), AllocError>
    ensures { OnOk result (fault ≢ user.NoMemory) }
{
    match fault {
        UserFault::NoMemory => Err(AllocError),
        UserFault::Refused | UserFault::BadWire => Ok(()),
    }
}

// Takes the first bytes of a list off it, then the pairs of a key that follow them, and adds the pair that is then
// its first.
fn take_run<'a, J: Job>(
    alloc: Global,
    lists: &mut Vec<&'a [u8]>,
    fronts: &mut BinaryHeap<Reverse<Front<J::Key, J::Value>>>,
    key: &J::Key,
    name: &[u8],
    list: usize,
    len: usize,
    values: &mut Vec<J::Value>,
) -> Result<(), AllocError>
    requires name { IsName J.Key.codec key.now name.now }
    requires there { list < vec_len lists.old }
    requires within { len ≤ length (get_or (map (λ bytes. bytes.now) lists.old.items) list []) }
    requires pairs { ArePairs (computation J.Key.cmp J.Key.codec J.Value.codec J.functions) (rest_at (map (λ bytes. bytes.now) lists.old.items) list len) }
    ensures { OnOk result (TakesRun (computation J.Key.cmp J.Key.codec J.Value.codec J.functions) key.now list (rest_at (map (λ bytes. bytes.now) lists.old.items) list len)
        (map (λ bytes. bytes.now) lists.old.items) (heap_items fronts.old) values.old.items (map (λ bytes. bytes.now) lists.new.items) (heap_items fronts.new) values.new.items) }
{
    let mut rest = &lists[list][len..];
    while let Some((value, len)) = read_value::<J>(alloc, key, name, rest)? {
        values.push(value)?;
        rest = &rest[len..];
    }
    lists[list] = rest;
    add_front::<J>(alloc, fronts, list, rest)
}

// Takes the values of a key off one of the lists, if one of them begins with the key. Whether one did.
fn take_tied<'a, J: Job>(
    alloc: Global,
    lists: &mut Vec<&'a [u8]>,
    fronts: &mut BinaryHeap<Reverse<Front<J::Key, J::Value>>>,
    key: &J::Key,
    name: &[u8],
    values: &mut Vec<J::Value>,
) -> Result<bool, AllocError>
    requires name { IsName J.Key.codec key.now name.now }
    requires holds { Holds (computation J.Key.cmp J.Key.codec J.Value.codec J.functions) (map (λ bytes. bytes.now) lists.old.items) (heap_items fronts.old) }
    requires least { AreNotBelow (computation J.Key.cmp J.Key.codec J.Value.codec J.functions) key.now (map (λ bytes. bytes.now) lists.old.items) }
    ensures holds { OnOk result (Holds (computation J.Key.cmp J.Key.codec J.Value.codec J.functions) (map (λ bytes. bytes.now) lists.new.items) (heap_items fronts.new)) }
    ensures least { OnOk result (AreNotBelow (computation J.Key.cmp J.Key.codec J.Value.codec J.functions) key.now (map (λ bytes. bytes.now) lists.new.items)) }
    ensures takes { IfOk result (λ some. Takes (computation J.Key.cmp J.Key.codec J.Value.codec J.functions) key.now (map (λ bytes. bytes.now) lists.old.items) values.old.items some (map (λ bytes. bytes.now) lists.new.items) values.new.items) }
{
    match fronts.peek() {
        Some(front) => {
            if key.cmp(&front.0.key) == Ordering::Less {
                return Ok(false);
            }
        }
        None => return Ok(false),
    }
    match fronts.pop() {
        Some(front) => {
            let front = front.0;
            values.push(front.value)?;
            take_run::<J>(
                alloc, lists, fronts, key, name, front.list, front.len, values,
            )?;
            Ok(true)
        }
        None => Ok(false),
    }
}

// A key as it is written.
fn name_of<J: Job>(alloc: Global, key: &J::Key) -> Result<Vec<u8>, AllocError>
    ensures { IfOk result (λ name. IsName J.Key.codec key.now name.items) }
{
    let mut name = Vec::with_capacity(alloc, NAME_ROOM)?;
    key.fits();
    key.write(&mut name)?;
    Ok(name)
}

// A list of one value, with room for more.
fn list_of<T: Drop>(alloc: Global, value: T) -> Result<Vec<T>, AllocError>
    ensures { IfOk result (λ values. values.items ≡ value ∷ []) }
{
    let mut values = Vec::with_capacity(alloc, VALUES_ROOM)?;
    values.push(value)?;
    Ok(values)
}

// Takes the group of the least key off the lists, if they have a pair.
fn take_group<'a, J: Job>(
    alloc: Global,
    lists: &mut Vec<&'a [u8]>,
    fronts: &mut BinaryHeap<Reverse<Front<J::Key, J::Value>>>,
) -> Result<Option<(J::Key, Vec<J::Value>)>, AllocError>
    requires { Holds (computation J.Key.cmp J.Key.codec J.Value.codec J.functions) (map (λ bytes. bytes.now) lists.old.items) (heap_items fronts.old) }
    ensures holds { OnOk result (Holds (computation J.Key.cmp J.Key.codec J.Value.codec J.functions) (map (λ bytes. bytes.now) lists.new.items) (heap_items fronts.new)) }
    ensures gives { let all = computation J.Key.cmp J.Key.codec J.Value.codec J.functions in
        IfOk result (λ group. GivesGroup (λ values. values.items) (merged all (map (λ bytes. bytes.now) lists.old.items)) group (merged all (map (λ bytes. bytes.now) lists.new.items))) }
    ensures err { OnErr result (merged (computation J.Key.cmp J.Key.codec J.Value.codec J.functions) (map (λ bytes. bytes.now) lists.old.items) ≢ []) }
{
    let Some(front) = fronts.pop() else {
        return Ok(None);
    };
    let front = front.0;
    let Front {
        key,
        list,
        value,
        len,
    } = front;
    let name = name_of::<J>(alloc, &key)?;
    let mut values = list_of(alloc, value)?;
    take_run::<J>(alloc, lists, fronts, &key, &name, list, len, &mut values)?;
    while take_tied::<J>(alloc, lists, fronts, &key, &name, &mut values)? {}
    Ok(Some((key, values)))
}

/// The groups of runs: the keys in any run, rising, each with all its values by run and then by place. It holds one
/// pair of each run at a time, beside the values of the group that it gives. For n pairs in m runs it compares keys n
/// log m times. Contracts see the groups that are still to come.
#[derive(Drop)]
pub struct RunGroups<'a, J: Job> {
    lists: Vec<&'a [u8]>,
    fronts: BinaryHeap<Reverse<Front<J::Key, J::Value>>>,
}

impl<'a, J: Job> Model for RunGroups<'a, J> {
    ghost use Rattle.std.specs.Prelude.{List, map};
    ghost use Rattle.std.specs.BinaryHeap.{heap_items};
    ghost use Rattle.mr_user.specs.Computation.{computation};
    ghost use Rattle.mr_mapside.specs.Runs.{merged};
    ghost use Rattle.mr_mapside.specs.inner.Fronts.{Holds};

    ghost Value = { List (J.Key × List J.Value) };

    ghost view = { λ m. merged (computation J.Key.cmp J.Key.codec J.Value.codec J.functions) (map (λ bytes. bytes.now) m.lists.items) };

    ghost invariant = { λ m. Holds (computation J.Key.cmp J.Key.codec J.Value.codec J.functions) (map (λ bytes. bytes.now) m.lists.items) (heap_items m.fronts) };
}

impl<'a, J: Job> RunGroups<'a, J> {
    /// The groups of the pairs in lists, where each list is written pairs to its end, by rising keys.
    pub fn new(alloc: Global, lists: Vec<&'a [u8]>) -> Result<RunGroups<'a, J>, AllocError>
        requires { AreRuns (computation J.Key.cmp J.Key.codec J.Value.codec J.functions) (map (λ bytes. bytes.now) lists.items) }
        ensures { IfOk result (λ groups. groups ≡ merged (computation J.Key.cmp J.Key.codec J.Value.codec J.functions) (map (λ bytes. bytes.now) lists.entry.items)) }
    {
        let mut fronts = BinaryHeap::new(alloc);
        for (list, bytes) in lists.iter().enumerate() {
            add_front::<J>(alloc, &mut fronts, list, bytes)?;
        }
        Ok(RunGroups { lists, fronts })
    }

    /// The next group. Its only fault is an allocation failure, and that only where a group was to come. Nothing
    /// comes after it.
    pub fn next_group(
        &mut self,
        alloc: Global,
    ) -> Result<Option<(J::Key, Vec<J::Value>)>, AllocError>
        ensures gives { IfOk result (λ group. GivesGroup (λ values. values.items) self.old group self.new) }
        ensures some { OnErr result (self.old ≢ []) }
        ensures over { OnErr result (self.new ≡ []) }
    {
        match take_group::<J>(alloc, &mut self.lists, &mut self.fronts) {
            Ok(group) => Ok(group),
            Err(fault) => {
                self.lists.clear();
                self.fronts.clear();
                Err(fault)
            }
        }
    }
}
