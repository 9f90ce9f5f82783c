//! Pairs put in order by their keys, and all values of one key gathered behind it.
ghost use Rattle.std.specs.Prelude.{◌≡◌, map, fold, [], ◌∷◌, IfOk, OnOk};
ghost use Rattle.std.specs.List.Sorted.{IsPermutation, IsSortedByKey, IsStableByKey};
ghost use Rattle.std.specs.FinMap.{IsAntisymmetric};
ghost use Rattle.mr_user.specs.Groups.{groups_of, with_pair};

use std::alloc::{AllocError, Global};
use std::cmp::Ordering;

/// Sorts pairs by rising keys; those of a key stay as they stood. Takes n log n comparisons of keys for n pairs, and answers no
/// fault but an allocation failure.
pub fn sort_pairs<K: Ord + Drop, V: Drop>(pairs: &mut Vec<(K, V)>) -> Result<(), AllocError>
    ensures permutation { IsPermutation pairs.old.items pairs.new.items }
    ensures sorted { OnOk result (IsSortedByKey (λ p. p.0) K.cmp pairs.new.items) }
    ensures stable { IsStableByKey (λ p. p.0) K.cmp pairs.old.items pairs.new.items }
{
    pairs.sort_by(|a, b| a.0.cmp(&b.0))
}

// Neighbours with one key in one group.
fn gather<K: Ord + Drop, V: Drop>(
    alloc: Global,
    pairs: Vec<(K, V)>,
) -> Result<Vec<(K, Vec<V>)>, AllocError>
    ensures { IfOk result (λ groups. map (λ g. (g.0, g.1.items)) groups.items ≡ fold (with_pair K.cmp) [] pairs.items) }
{
    let mut groups: Vec<(K, Vec<V>)> = Vec::new(alloc);
    for (key, value) in pairs {
        add(alloc, &mut groups, key, value)?;
    }
    Ok(groups)
}

// A pair goes to the last group where the keys tie, and else to a new one.
fn add<K: Ord + Drop, V: Drop>(
    alloc: Global,
    groups: &mut Vec<(K, Vec<V>)>,
    key: K,
    value: V,
) -> Result<(), AllocError>
    ensures { OnOk result (map (λ g. (g.0, g.1.items)) groups.new.items ≡ with_pair K.cmp (map (λ g. (g.0, g.1.items)) groups.old.items) (key, value)) }
{
    let Some((last, mut values)) = groups.pop() else {
        groups.push((key, one(alloc, value)?))?;
        return Ok(());
    };
    if last.cmp(&key) == Ordering::Equal {
        values.push(value)?;
        groups.push((last, values))?;
        return Ok(());
    }
    groups.push((last, values))?;
    groups.push((key, one(alloc, value)?))?;
    Ok(())
}

/// A list of one value. It answers no fault but an allocation failure.
pub fn one<V: Drop>(alloc: Global, value: V) -> Result<Vec<V>, AllocError>
    ensures { IfOk result (λ values. values.items ≡ value ∷ []) }
{
    let mut values = Vec::new(alloc);
    values.push(value)?;
    Ok(values)
}

/// The keys of pairs, rising, each once and with its values in order. Takes n log n comparisons of keys for n pairs.
pub fn groups<K: Ord + Drop, V: Drop>(
    alloc: Global,
    mut pairs: Vec<(K, V)>,
) -> Result<Vec<(K, Vec<V>)>, AllocError>
    requires { IsAntisymmetric K.cmp }
    ensures { IfOk result (λ groups. map (λ g. (g.0, g.1.items)) groups.items ≡ groups_of K.cmp pairs.items) }
{
    sort_pairs(&mut pairs)?;
    gather(alloc, pairs)
}
