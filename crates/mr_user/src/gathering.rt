//! Groups that are gathered as their pairs come.
ghost use Rattle.std.specs.Prelude.{◌≡◌, ◌<◌, ◌≤◌, ◌++◌, List, [], length, map, Some, None, IfOk, IfErr, OnOk};
ghost use Rattle.std.specs.List.{flat_map};
ghost use Rattle.mr_user.specs.Computation.{computation};
ghost use Rattle.mr_user.specs.Faults.{RefusedIf};
ghost use Rattle.mr_user.specs.inner.Gathered.{IsGathered, put_pair};
ghost use Rattle.mr_user.specs.Sequential.{key_lines, pairs_of_split};

use crate::execution::{MAX_SPLIT_LEN, write_lines};
use crate::fault::UserFault;
use crate::group::one;
use crate::job::Job;
use crate::line::next_line;
use std::alloc::{AllocError, Global};
use std::collections::BTreeMap;
use std::marker::Model;

// The keys of pairs, rising, each with its values in the order in which they came.
#[derive(Drop)]
pub struct Gathered<J: Job> {
    groups: BTreeMap<J::Key, Vec<J::Value>>,
}

impl<J: Job> Model for Gathered<J> {
    ghost use Rattle.std.specs.Prelude.{List, map};

    ghost Value = { List (J.Key × List J.Value) };

    ghost view = { λ s. map (λ g. (g.0, g.1.items)) s.groups.entries };
}

impl<J: Job> Gathered<J> {
    // No groups.
    fn new(alloc: Global) -> Gathered<J>
        ensures { result ≡ [] }
    {
        Gathered {
            groups: BTreeMap::new(alloc),
        }
    }

    // A pair goes to the end of its key's group, or is a new group.
    fn put(&mut self, alloc: Global, key: J::Key, value: J::Value) -> Result<(), AllocError>
        ensures { OnOk result (self.new ≡ put_pair J.Key.cmp self.old (key, value)) }
    {
        put(alloc, &mut self.groups, key, value)
    }

    // The lines of the keys, each reduced with its values.
    pub fn text(&self, alloc: Global, job: &J) -> Result<Vec<u8>, AllocError>
        ensures { let all = computation J.Key.cmp J.Key.codec J.Value.codec J.functions in
            IfOk result (λ text. text.items ≡ flat_map (key_lines all) self.now) }
    {
        let mut text = Vec::new(alloc);
        for (key, values) in &self.groups {
            write_lines(alloc, job, key, values, &mut text)?;
        }
        Ok(text)
    }
}

fn put<K: Ord + Drop, V: Drop>(
    alloc: Global,
    groups: &mut BTreeMap<K, Vec<V>>,
    key: K,
    value: V,
) -> Result<(), AllocError>
    ensures { OnOk result (map (λ g. (g.0, g.1.items)) groups.new.entries ≡ put_pair K.cmp (map (λ g. (g.0, g.1.items)) groups.old.entries) (key, value)) }
{
    if let Some(values) = groups.get_mut(&key) {
        values.push(value)?;
        return Ok(());
    }
    groups.insert(key, one(alloc, value)?)?;
    Ok(())
}

// No groups yet, one place for each reduce.
pub fn no_groups<J: Job>(alloc: Global, reduces: u32) -> Result<Vec<Gathered<J>>, AllocError>
    ensures { let all = computation J.Key.cmp J.Key.codec J.Value.codec J.functions in
        IfOk result (λ parts. IsGathered all reduces parts.items []) }
{
    let mut parts = Vec::new(alloc);
    for _ in 0..reduces {
        parts.push(Gathered::new(alloc))?;
    }
    Ok(parts)
}

// Each pair goes to the groups of its reduce.
fn gather_pairs<J: Job>(
    alloc: Global,
    job: &J,
    parts: &mut Vec<Gathered<J>>,
    pairs: Vec<(J::Key, J::Value)>,
    reduces: u32,
) -> Result<(), AllocError>
    requires some { 0 < reduces }
    requires many { length parts.old.items ≡ reduces }
    ensures many { OnOk result (length parts.new.items ≡ reduces) }
    ensures gathered { let all = computation J.Key.cmp J.Key.codec J.Value.codec J.functions in
        OnOk result ((done : List (J.Key × J.Value)) → IsGathered all reduces parts.old.items done → IsGathered all reduces parts.new.items (done ++ pairs.items)) }
{
    for (key, value) in pairs {
        let reduce = job.partition(&key, reduces);
        parts[reduce as usize].put(alloc, key, value)?;
    }
    Ok(())
}

// The pairs of a split go to the groups of their reduces.
pub fn gather_split<J: Job>(
    alloc: Global,
    job: &J,
    parts: &mut Vec<Gathered<J>>,
    number: u32,
    bytes: &[u8],
    reduces: u32,
) -> Result<(), UserFault>
    requires short { length bytes.now ≤ MAX_SPLIT_LEN }
    requires some { 0 < reduces }
    requires many { length parts.old.items ≡ reduces }
    ensures many { OnOk result (length parts.new.items ≡ reduces) }
    ensures gathered { let all = computation J.Key.cmp J.Key.codec J.Value.codec J.functions in
        OnOk result ((ps : List (J.Key × J.Value)) × (pairs_of_split all number bytes.now ≡ Some ps) ×
        ((done : List (J.Key × J.Value)) → IsGathered all reduces parts.old.items done → IsGathered all reduces parts.new.items (done ++ ps))) }
    ensures refused { let all = computation J.Key.cmp J.Key.codec J.Value.codec J.functions in
        IfErr result (λ fault. RefusedIf fault (pairs_of_split all number bytes.now ≡ None)) }
{
    let mut line_no = 0u64;
    let mut rest = bytes;
    while !rest.is_empty() {
        let (line, after) = next_line(rest);
        let pairs = job.map(alloc, number, line_no, line)?;
        gather_pairs(alloc, job, parts, pairs, reduces)?;
        line_no += 1;
        rest = after;
    }
    Ok(())
}
