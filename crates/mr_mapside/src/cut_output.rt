//! A map's output whose blocks have been found.
//! It lies on a node's shelf, from where each reduce gets its block without a search.
ghost use Rattle.std.specs.Prelude.{◌≡◌, ◌≤◌, ◌↔◌, length, slice_range, IfOk, IfSome, IsTrue, nat_eq};
ghost use Rattle.std.specs.Cmp.Lexicographic.{pointwise};
ghost use Rattle.std.specs.Cmp.Rules.{comparing};
ghost use Rattle.std.proofs.Common.{rules};
ghost use Rattle.std.specs.Option.{option_map, option_and_then};
ghost use Rattle.std.specs.List.{slice_get};
ghost use Rattle.mr_mapside.specs.Cutting.{cut};
ghost use Rattle.mr_mapside.specs.inner.Places.{ArePlaces};

use crate::cutting::first_block;
use crate::output::MapOutput;
use mr_ids::Bytes;
use std::alloc::{AllocError, Global};
use std::marker::Model;

// Where a block lies in an output: from the byte `start` to before the byte `end`.
#[derive(Clone, Copy)]
pub struct Place {
    pub start: u32,
    pub end: u32,
}

/// A map's output with the places of its blocks, 8 bytes a block, so that no block is searched for.
/// Contracts see it as the list of its bytes.
#[derive(Drop)]
pub struct CutOutput {
    output: MapOutput,
    places: Option<Vec<Place>>,
}

impl Model for CutOutput {
    ghost use Rattle.std.specs.Prelude.{List, ℕ};
    ghost use Rattle.std.specs.Option.{option_map};
    ghost use Rattle.mr_mapside.specs.inner.Places.{ArePlaces};

    ghost Value = { List ℕ };

    ghost view = { λ o. o.output };

    ghost invariant = { λ o. ArePlaces o.output (option_map (λ places. places.items) o.places) };
}

impl CutOutput {
    /// The output, its blocks found: one walk over it. Answers no fault but an allocation failure.
    pub fn new(alloc: Global, mut output: MapOutput) -> Result<CutOutput, AllocError>
        ensures { IfOk result (λ cut. cut ≡ output) }
    {
        output.share();
        let places = places_of(alloc, output.bytes())?;
        Ok(CutOutput { output, places })
    }

    /// The block of a reduce, where the bytes are as many blocks as there are reduces. None where the bytes are not,
    /// and where there is no such reduce. It takes the same time for each reduce.
    pub fn block(&self, reduces: u32, reduce: u32) -> Option<&[u8]>
        ensures { option_map (λ block. block.now) result ≡ option_and_then (λ blocks. slice_get blocks reduce) (cut reduces self.now) }
    {
        let place = self.place(reduces, reduce)?;
        Some(&self.output.bytes()[place.start as usize..place.end as usize])
    }

    /// As `block`, as bytes of their own, which share those of the output. It may allocate, and refuses nothing else.
    pub fn share_block(&self, reduces: u32, reduce: u32) -> Result<Option<Bytes>, AllocError>
        ensures { IfOk result (λ block. block ≡ option_and_then (λ blocks. slice_get blocks reduce) (cut reduces self.now)) }
    {
        match self.place(reduces, reduce) {
            Some(place) => Ok(Some(self.output.part(place.start as usize, place.end as usize)?)),
            None => Ok(None),
        }
    }

    // Where the block of a reduce lies.
    fn place(&self, reduces: u32, reduce: u32) -> Option<Place>
        ensures within { IfSome result (λ place. (place.start ≤ place.end) × (place.end ≤ length self.now)) }
        ensures place { option_map (λ place. slice_range self.now place.start place.end) result ≡ option_and_then (λ blocks. slice_get blocks reduce) (cut reduces self.now) }
    {
        let places = self.places.as_ref()?;
        if places.len() != reduces as usize {
            return None;
        }
        places.get(reduce as usize).copied()
    }

    /// An equal output, with memory of the same allocator.
    pub fn copy(&self) -> Result<CutOutput, AllocError>
        ensures { IfOk result (λ output. output ≡ self.now) }
    {
        Ok(CutOutput {
            output: self.output.copy()?,
            places: self.places.clone()?,
        })
    }

    /// Whether both hold the same bytes. Where the blocks lie follows from them, and is not compared.
    pub fn is_same(&self, other: &CutOutput) -> bool
        ensures { IsTrue result ↔ (self.now ≡ other.now) }
    {
        self.output.is_same(&other.output)
    }
}

impl Clone for CutOutput {
    ghost is_clone = { λ a b. b ≡ a };

    fn clone(&self) -> Result<CutOutput, AllocError> {
        self.copy()
    }
}

impl PartialEq for CutOutput {
    ghost eq = { pointwise nat_eq };

    ghost laws = { Prim.search (comparing, rules) };

    fn eq(&self, other: &CutOutput) -> bool {
        self.is_same(other)
    }
}

impl Eq for CutOutput {
    ghost laws = { Prim.search (comparing, rules) };
}

// The places of the blocks that bytes are, however many these are; none where the bytes are no whole blocks.
fn places_of(alloc: Global, bytes: &[u8]) -> Result<Option<Vec<Place>>, AllocError>
    requires { length bytes.now ≤ 16777216 }
    ensures { IfOk result (λ places. ArePlaces bytes.now (option_map (λ places. places.items) places)) }
{
    let mut places = Vec::new(alloc);
    let mut rest = bytes;
    while !rest.is_empty() {
        let Some((block, after)) = first_block(rest) else {
            return Ok(None);
        };
        let end = bytes.len() - after.len();
        places.push(Place {
            start: (end - block.len()) as u32,
            end: end as u32,
        })?;
        rest = after;
    }
    Ok(Some(places))
}
