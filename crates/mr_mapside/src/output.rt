//! What a map work gives: the blocks of all reduces in one list of bytes, for the map's node to keep and for reduces
//! to fetch from.
ghost use Rattle.std.specs.Prelude.{◌≡◌, ◌≤◌, ◌↔◌, length, slice_range, IfOk, IsTrue};

use crate::MAX_OUTPUT_LEN;
use mr_ids::Bytes;
use std::alloc::AllocError;
use std::marker::Model;

/// What a map work gives: for each reduce, in order, its block behind the block's length.
/// It has at most `MAX_OUTPUT_LEN` bytes. Contracts see it as the list of its bytes.
#[derive(Drop)]
pub struct MapOutput {
    bytes: Bytes,
}

impl Model for MapOutput {
    ghost use Rattle.std.specs.Prelude.{List, ℕ, ◌≤◌, length};

    ghost Value = { List ℕ };

    ghost view = { λ o. o.bytes };

    ghost invariant = { λ o. length o.bytes ≤ 16777216 };
}

impl MapOutput {
    /// The output of such bytes, at most `MAX_OUTPUT_LEN` of them.
    pub fn from_vec(bytes: Vec<u8>) -> MapOutput
        requires { length bytes.items ≤ MAX_OUTPUT_LEN }
        ensures { result ≡ bytes.items }
    {
        MapOutput::from_bytes(Bytes::from_vec(bytes))
    }

    /// The output of such bytes, at most `MAX_OUTPUT_LEN` of them, without a copy.
    pub fn from_bytes(bytes: Bytes) -> MapOutput
        requires { length bytes ≤ MAX_OUTPUT_LEN }
        ensures { result ≡ bytes }
    {
        MapOutput { bytes }
    }

    /// Its bytes, at most `MAX_OUTPUT_LEN` of them.
    pub fn bytes(&self) -> &[u8]
        ensures value { result.now ≡ self.now }
        ensures short { length self.now ≤ MAX_OUTPUT_LEN }
    {
        self.bytes.as_slice()
    }

    /// Its bytes, given back.
    pub fn into_bytes(self) -> Bytes
        ensures value { result ≡ self }
        ensures short { length self ≤ MAX_OUTPUT_LEN }
    {
        self.bytes
    }

    /// Lets copies and parts of the output share its bytes from now on, where there is memory for the count of their holders.
    pub fn share(&mut self)
        ensures { self.new ≡ self.old }
    {
        self.bytes.share();
    }

    /// Its bytes from `start` to before `end`, shared where the output's are. It may allocate, and refuses nothing else.
    pub fn part(&self, start: usize, end: usize) -> Result<Bytes, AllocError>
        requires ordered { start ≤ end }
        requires within { end ≤ length self.now }
        ensures { IfOk result (λ bytes. bytes ≡ slice_range self.now start end) }
    {
        self.bytes.part(start, end)
    }

    /// An equal output, with memory of the same allocator.
    pub fn copy(&self) -> Result<MapOutput, AllocError>
        ensures { IfOk result (λ output. output ≡ self.now) }
    {
        Ok(MapOutput {
            bytes: self.bytes.copy()?,
        })
    }

    /// Whether both hold the same bytes.
    pub fn is_same(&self, other: &MapOutput) -> bool
        ensures { IsTrue result ↔ (self.now ≡ other.now) }
    {
        self.bytes == other.bytes
    }
}

impl Clone for MapOutput {
    ghost is_clone = { λ a b. b ≡ a };

    fn clone(&self) -> Result<MapOutput, AllocError> {
        self.copy()
    }
}
