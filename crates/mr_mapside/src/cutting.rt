//! The blocks of a map's output.
//! Bytes are cut into one block for each reduce.
ghost use Rattle.std.specs.Prelude.{◌≡◌, ℕ, List, length, IfSome, Some};
ghost use Rattle.std.specs.Option.{option_map, IfNone};
ghost use Rattle.std.specs.List.{slice_get};
ghost use Rattle.mr_mapside.specs.Cutting.{AreBlocks, cut, first_block};

use mr_user::known_bytes;
use std::marker::Model;

/// The blocks that a map's output is made of, lent from its bytes. Contracts see them as a list.
#[derive(Drop)]
pub struct OutputBlocks<'a> {
    bytes: &'a [u8],
    count: u32,
}

impl<'a> Model for OutputBlocks<'a> {
    ghost use Rattle.std.specs.Prelude.{ℕ, List, [], unwrap_or};
    ghost use Rattle.std.specs.Option.{IsSome};
    ghost use Rattle.mr_mapside.specs.Cutting.{cut};

    ghost Value = { List (List ℕ) };

    ghost view = { λ b. unwrap_or (cut b.count b.bytes.now) [] };

    ghost invariant = { λ b. IsSome (cut b.count b.bytes.now) };
}

impl<'a> OutputBlocks<'a> {
    /// How many there are.
    pub fn count(&self) -> u32
        ensures { result ≡ length self.now }
    {
        self.count
    }

    /// The block of a reduce; none where there is no such block.
    /// It walks over the blocks before it.
    pub fn get(&self, reduce: u32) -> Option<&'a [u8]>
        ensures { option_map (λ block. block.now) result ≡ slice_get self.now reduce }
    {
        if self.count <= reduce {
            return None;
        }
        let mut rest = self.bytes;
        for _ in 0..reduce {
            let (_, after) = first_block(rest)?;
            rest = after;
        }
        let (block, _) = first_block(rest)?;
        Some(block)
    }
}

/// Cuts bytes into blocks, one for each reduce. It is some exactly where the bytes are that many blocks, each behind
/// its length, and nothing else.
pub fn blocks(bytes: &[u8], reduces: u32) -> Option<OutputBlocks<'_>>
    ensures value { result ≡ cut reduces bytes.now }
    ensures some { IfSome result (λ blocks. AreBlocks bytes.now reduces blocks) }
    ensures none { IfNone result ((blocks : List (List ℕ)) → ¬ (AreBlocks bytes.now reduces blocks)) }
{
    known_bytes(bytes);
    let mut rest = bytes;
    for _ in 0..reduces {
        let (_, after) = first_block(rest)?;
        rest = after;
    }
    if rest.is_empty() {
        Some(OutputBlocks {
            bytes,
            count: reduces,
        })
    } else {
        None
    }
}

// The first block of bytes and the bytes after it.
pub fn first_block(bytes: &[u8]) -> Option<(&[u8], &[u8])>
    ensures { option_map (λ found. (found.0.now, found.1.now)) result ≡ first_block bytes.now }
{
    if bytes.len() < 4 {
        return None;
    }
    let (front, after) = bytes.split_at(4);
    let len = u32::from_be_bytes([front[0], front[1], front[2], front[3]]) as usize;
    if after.len() < len {
        return None;
    }
    Some(after.split_at(len))
}
