//! The splits of a job, in order.
ghost use Rattle.std.specs.Prelude.{◌≡◌, IfOk, length, nat_eq, option_map, slice_get};
ghost use Rattle.std.specs.List.{AllByRecursion};
ghost use Rattle.std.specs.Cmp.Lexicographic.{pointwise};
ghost use Rattle.std.specs.Cmp.Rules.{comparing};
ghost use Rattle.std.proofs.Common.{rules};
ghost use Rattle.mr_user.specs.Laws.{AreBytes};

use crate::text::known_bytes;
use mr_ids::Bytes;
use std::alloc::AllocError;
use std::marker::Model;

/// The splits of a job, in order: each is the bytes of a text. Contracts see the list of their bytes. A copy of splits whose bytes are shared copies
/// no byte.
#[derive(Debug, Drop)]
pub struct Splits {
    items: Vec<Bytes>,
}

impl Model for Splits {
    ghost use Rattle.std.specs.Prelude.{ℕ, List};
    ghost use Rattle.std.specs.List.{AllByRecursion};
    ghost use Rattle.mr_user.specs.Laws.{AreBytes};

    ghost Value = { List (List ℕ) };

    ghost view = { λ s. s.items.items };

    ghost invariant = { λ s. AllByRecursion AreBytes s.items.items };
}

impl Splits {
    /// These splits, without a copy.
    pub fn from_vec(items: Vec<Bytes>) -> Splits
        ensures { result ≡ items.items }
    {
        known_splits(&items);
        Splits { items }
    }

    /// A lemma, which does nothing: each split is of bytes, of numbers below 256. It tells a caller's proof the type's invariant.
    pub fn tell_bytes(&self)
        ensures { AllByRecursion AreBytes self.now }
    {
        let _len = self.items.len();
    }

    /// The splits as a vector, without a copy.
    pub fn into_vec(self) -> Vec<Bytes>
        ensures { result.items ≡ self }
    {
        self.items
    }

    /// The splits as a slice.
    pub fn as_slice(&self) -> &[Bytes]
        ensures { result.now ≡ self.now }
    {
        &self.items
    }

    /// How many splits there are.
    pub fn len(&self) -> usize
        ensures { result ≡ length self.now }
    {
        self.items.len()
    }

    /// The bytes of the split at this place; none past the last.
    pub fn get(&self, place: usize) -> Option<&Bytes>
        ensures { option_map (λ bytes. bytes.now) result ≡ slice_get self.now place }
    {
        self.items.get(place)
    }

    /// Equal splits. It may allocate, and refuses nothing else.
    pub fn copy(&self) -> Result<Splits, AllocError>
        ensures { IfOk result (λ splits. splits ≡ self.now) }
    {
        let items = Bytes::copies(*self.items.allocator(), &self.items)?;
        Ok(Splits { items })
    }
}

impl PartialEq for Splits {
    ghost eq = { pointwise (pointwise nat_eq) };

    ghost laws = { Prim.search (comparing, rules) };

    fn eq(&self, other: &Splits) -> bool {
        self.items.as_slice() == other.items.as_slice()
    }
}

impl Eq for Splits {
    ghost laws = { Prim.search (comparing, rules) };
}

// Tells a proof that what a program holds as splits is of bytes. It does nothing.
fn known_splits(splits: &[Bytes])
    ensures { AllByRecursion AreBytes splits.now }
{
    for split in splits {
        known_bytes(split.as_slice());
    }
}
