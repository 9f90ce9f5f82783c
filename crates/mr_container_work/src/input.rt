//! What a container's work is given, as a value of its own, and the pieces of a reduce.
ghost use Rattle.std.specs.Prelude.{◌≡◌, ◌↔◌, IfOk, IsTrue, nat_eq};
ghost use Rattle.std.specs.Cmp.Lexicographic.{pointwise};
ghost use Rattle.std.specs.Cmp.Rules.{comparing};
ghost use Rattle.std.proofs.Common.{rules};
ghost use Rattle.mr_world_files.specs.mr_world_model.specs.Sequential.{Split, Pieces as Fetched};
ghost use Rattle.mr_container_work.specs.Works.{as_input};

use mr_ids::Bytes;
use std::alloc::{AllocError, Global};
use std::marker::Model;

/// The pieces that a reduce's container fetched, one of each map, by the maps' numbers. Contracts see the list of their bytes.
#[derive(Debug, Drop)]
pub struct Pieces {
    items: Vec<Bytes>,
}

impl Model for Pieces {
    ghost use Rattle.std.specs.Prelude.{List, ℕ};

    ghost Value = { List (List ℕ) };

    ghost view = { λ p. p.items.items };
}

impl Pieces {
    /// A copy of these pieces.
    pub fn from_slice(alloc: Global, pieces: &[Bytes]) -> Result<Pieces, AllocError>
        ensures { IfOk result (λ copied. copied ≡ pieces.now) }
    {
        Ok(Pieces {
            items: Bytes::copies(alloc, pieces)?,
        })
    }

    /// The pieces.
    pub fn as_slice(&self) -> &[Bytes]
        ensures { result.now ≡ self.now }
    {
        &self.items
    }
}

impl PartialEq for Pieces {
    ghost eq = { pointwise (pointwise nat_eq) };

    ghost laws = { Prim.search (comparing, rules) };

    fn eq(&self, other: &Pieces) -> bool {
        self.items.as_slice() == other.items.as_slice()
    }
}

impl Eq for Pieces {
    ghost laws = { Prim.search (comparing, rules) };
}

/// What a container's work is given.
#[derive(Debug, PartialEq, Eq, Drop)]
pub enum Input {
    /// A map: the number of its split, and the bytes of that.
    Map { split: u32, bytes: Bytes },
    /// A reduce: its number, and the piece that it fetched of each map, by the maps' numbers.
    Reduce { reduce: u32, pieces: Pieces },
}

impl Input {
    /// What a map is given, copied: its bytes are shared where these are.
    pub fn of_map(split: u32, bytes: &Bytes) -> Result<Input, AllocError>
        ensures { IfOk result (λ input. as_input input ≡ Split split bytes.now) }
    {
        let bytes = bytes.copy()?;
        Ok(Input::Map { split, bytes })
    }

    /// What a reduce is given, copied.
    pub fn of_reduce(alloc: Global, reduce: u32, pieces: &[Bytes]) -> Result<Input, AllocError>
        ensures { IfOk result (λ input. as_input input ≡ Fetched reduce pieces.now) }
    {
        let pieces = Pieces::from_slice(alloc, pieces)?;
        Ok(Input::Reduce { reduce, pieces })
    }

    /// An equal input.
    pub fn copy(&self, alloc: Global) -> Result<Input, AllocError>
        ensures { IfOk result (λ input. input ≡ self.now) }
    {
        match self {
            Input::Map { split, bytes } => Input::of_map(*split, bytes),
            Input::Reduce { reduce, pieces } => {
                Input::of_reduce(alloc, *reduce, pieces.as_slice())
            }
        }
    }

    /// Whether it is what a map is given for these bytes of this split.
    pub fn is_of_map(&self, number: u32, split_bytes: &[u8]) -> bool
        ensures { IsTrue result ↔ (as_input self.now ≡ Split number split_bytes.now) }
    {
        match self {
            Input::Map { split, bytes } => *split == number && bytes.as_slice() == split_bytes,
            Input::Reduce { .. } => false,
        }
    }

    /// Whether it is what this reduce is given for these pieces.
    #[tactic(auto, using(crate::proofs::Comparing::pieces_decide))]
    pub fn is_of_reduce(&self, number: u32, fetched: &[Bytes]) -> bool
        ensures { IsTrue result ↔ (as_input self.now ≡ Fetched number fetched.now) }
    {
        match self {
            Input::Map { .. } => false,
            Input::Reduce { reduce, pieces } => {
                *reduce == number && pieces.as_slice() == fetched
            }
        }
    }
}
