//! One name of a path: which bytes it may have, and the order of names.
ghost use Rattle.std.specs.Prelude.{◌≡◌, ◌↔◌, Some, refl, IfOk, IsTrue};
ghost use Rattle.std.specs.Cmp.Lexicographic.{slice_cmp, pointwise};
ghost use Rattle.std.specs.Ordering.{nat_cmp};
ghost use Rattle.std.specs.Prelude.{nat_eq};
ghost use Rattle.std.specs.Cmp.Rules.{comparing};
ghost use Rattle.std.proofs.Common.{rules};
ghost use Rattle.mr_paths.specs.Path.{IsName};
ghost use Rattle.mr_paths.specs.Text.{ReadsName};

use crate::fault::PathFault;
use smallvec::SmallVec;
use std::alloc::{AllocError, Global};
use std::cmp::Ordering;
use std::marker::Model;

// Names up to this length take no allocation: those of an attempt below the tenth, and shorter ones.
pub(crate) const INLINE_LEN: usize = 36;

/// One name of a path: 1 to 255 bytes with no `/`.
#[derive(Debug, Drop)]
pub struct Name {
    bytes: SmallVec<u8, INLINE_LEN>,
}

impl Model for Name {
    ghost use Rattle.std.specs.Prelude.{List, ℕ};
    ghost use Rattle.mr_paths.specs.Path.{IsName};

    ghost Value = { List ℕ };

    ghost view = { λ n. n.bytes.items };

    ghost invariant = { λ n. IsName n.bytes.items };
}

/// Whether these bytes may be a name: they are 1 to 255, none of them `/`.
pub fn is_name(bytes: &[u8]) -> bool
    ensures { IsTrue result ↔ IsName bytes.now }
{
    !bytes.is_empty() && bytes.len() <= 255 && !bytes.contains(&b'/')
}

impl Name {
    /// The name with these bytes: `is_name` tells whether there is one.
    pub fn new(alloc: Global, bytes: &[u8]) -> Result<Name, AllocError>
        requires { IsName bytes.now }
        ensures { IfOk result (λ name. name ≡ bytes.now) }
    {
        Ok(Name {
            bytes: SmallVec::from_slice(alloc, bytes)?,
        })
    }

    /// The same, of bytes that are handed over.
    pub fn from_bytes(bytes: Vec<u8>) -> Name
        requires { IsName bytes.items }
        ensures { result ≡ bytes.items }
    {
        Name {
            bytes: SmallVec::from_vec(bytes),
        }
    }

    /// Reads bytes as a name: `BadName` where they are none.
    pub fn parse(alloc: Global, bytes: &[u8]) -> Result<Name, PathFault>
        ensures { ReadsName bytes.now result }
    {
        if !is_name(bytes) {
            return Err(PathFault::BadName);
        }
        Ok(Name::new(alloc, bytes)?)
    }

    /// The bytes of the name.
    pub fn as_bytes(&self) -> &[u8]
        ensures value { result.now ≡ self.now }
        ensures name { IsName self.now }
    {
        self.bytes.as_slice()
    }

    // The allocator that holds the bytes.
    pub(crate) fn allocator(&self) -> Global {
        *self.bytes.allocator()
    }

    /// An equal name.
    pub fn copy(&self) -> Result<Name, AllocError>
        ensures { IfOk result (λ name. name ≡ self.now) }
    {
        Ok(Name {
            bytes: SmallVec::from_slice(self.allocator(), self.as_bytes())?,
        })
    }
}

impl Clone for Name {
    ghost is_clone = { λ a b. b ≡ a };

    fn clone(&self) -> Result<Name, AllocError> {
        self.copy()
    }
}

impl PartialEq for Name {
    ghost eq = { pointwise nat_eq };

    ghost laws = { Prim.search (comparing, rules) };

    fn eq(&self, other: &Name) -> bool {
        self.bytes.as_slice() == other.bytes.as_slice()
    }
}

impl Eq for Name {
    ghost laws = { Prim.search (comparing, rules) };
}

impl PartialOrd for Name {
    ghost partial_cmp = { λ x y. Some (slice_cmp nat_cmp x y) };

    ghost laws = { Prim.search (comparing, rules) };

    fn partial_cmp(&self, other: &Name) -> Option<Ordering> {
        Some(self.cmp(other))
    }
}

impl Ord for Name {
    ghost cmp = { slice_cmp nat_cmp };

    ghost total = { Prim.search (comparing, rules) };

    ghost matches_partial_cmp = { λ x y. refl };

    ghost matches_eq = { Prim.search (comparing, rules) };

    // Most names that are compared are equal, which is told at once.
    fn cmp(&self, other: &Name) -> Ordering {
        if self == other {
            return Ordering::Equal;
        }
        self.bytes.as_slice().cmp(other.bytes.as_slice())
    }
}
