//! Texts, how they are ordered, and how they are written as bytes: the keys of the three jobs.
ghost use Rattle.std.specs.Prelude.{◌≡◌, ◌<◌, ◌^◌, length, IfOk, List, ℕ, nat_eq, Some, refl, slice_index};
ghost use Rattle.std.specs.Int.{w64, from_be_bytes};
ghost use Rattle.std.specs.Cmp.{partial_equiv_from_equiv};
ghost use Rattle.std.specs.Cmp.Lexicographic.{pointwise, slice_cmp, nat_list_cmp_total, nat_list_eq_equiv, texts_po, texts_ties};
ghost use Rattle.std.specs.Ordering.{nat_cmp};
ghost use Rattle.mr_user.specs.Codecs.{text_codec};
ghost use Rattle.mr_user.specs.Laws.{AreBytes};
ghost use Rattle.mr_user.specs.inner.CodecProofs.{text_laws};

use crate::fault::UserFault;
use crate::wire::Wire;
use smallvec::SmallVec;
use std::alloc::{AllocError, Global};
use std::cmp::Ordering;
use std::marker::Model;

// Bytes of a text's front.
const FRONT_LEN: usize = 8;

// A text of at most this many bytes takes no block of the heap.
const INLINE_LEN: usize = 16;

/// A text of any bytes, fewer than 2^32 of them. Texts are ordered byte by byte.
#[derive(Debug, Drop)]
pub struct Text {
    // The first eight bytes as a number, the first the highest, with zeros for those that are wanting. Of two texts
    // with unlike fronts the lesser is that with the lesser front.
    front: u64,
    bytes: SmallVec<u8, INLINE_LEN>,
}

impl Model for Text {
    ghost use Rattle.std.specs.Prelude.{◌≡◌, ℕ, ◌<◌, ◌^◌, List, length};
    ghost use Rattle.std.specs.Int.{w64, from_be_bytes};

    ghost Value = { List ℕ };

    ghost view = { λ text. text.bytes.items };

    ghost invariant = { λ text. (length text.bytes.items < 2 ^ 32) × (text.front ≡ from_be_bytes w64 text.bytes.items) };
}

impl Text {
    /// The text of the bytes.
    pub fn from_slice(alloc: Global, bytes: &[u8]) -> Result<Text, AllocError>
        requires { length bytes.now < 2 ^ 32 }
        ensures { IfOk result (λ text. text ≡ bytes.now) }
    {
        let front = front_of(bytes);
        let bytes = SmallVec::from_slice(alloc, bytes)?;
        Ok(Text { front, bytes })
    }

    /// The bytes of the text.
    pub fn as_slice(&self) -> &[u8]
        ensures value { result.now ≡ self.now }
        ensures short { length self.now < 2 ^ 32 }
    {
        self.bytes.as_slice()
    }
}

/// Tells a proof that what a program holds as bytes are numbers below 256. It does nothing.
pub fn known_bytes(bytes: &[u8])
    ensures { AreBytes bytes.now }
{
    let _len = bytes.len();
}

impl PartialEq for Text {
    ghost eq = { pointwise nat_eq };

    ghost laws = { partial_equiv_from_equiv nat_list_eq_equiv };

    fn eq(&self, other: &Text) -> bool {
        self.as_slice() == other.as_slice()
    }
}

impl Eq for Text {
    ghost laws = { nat_list_eq_equiv };
}

impl PartialOrd for Text {
    ghost partial_cmp = { λ x y. Some (slice_cmp nat_cmp x y) };

    ghost laws = { texts_po };

    fn partial_cmp(&self, other: &Text) -> Option<Ordering> {
        Some(self.cmp(other))
    }
}

impl Ord for Text {
    ghost cmp = { slice_cmp nat_cmp };

    ghost total = { nat_list_cmp_total };

    ghost matches_partial_cmp = { λ x y. refl };

    ghost matches_eq = { texts_ties };

    fn cmp(&self, other: &Text) -> Ordering {
        if self.front == other.front {
            return tied(self, other);
        }
        known_bytes(self.as_slice());
        known_bytes(other.as_slice());
        self.front.cmp(&other.front)
    }
}

// The front of bytes.
fn front_of(bytes: &[u8]) -> u64
    ensures { result ≡ from_be_bytes w64 bytes.now }
{
    u64::from_be_bytes([
        byte_at(bytes, 0),
        byte_at(bytes, 1),
        byte_at(bytes, 2),
        byte_at(bytes, 3),
        byte_at(bytes, 4),
        byte_at(bytes, 5),
        byte_at(bytes, 6),
        byte_at(bytes, 7),
    ])
}

// The byte at a place, or 0 past the end.
fn byte_at(bytes: &[u8], place: usize) -> u8
    ensures { result ≡ slice_index bytes.now place }
{
    if place < bytes.len() { bytes[place] } else { 0 }
}

// The order of texts with one front. It stands by itself, so that the comparison of fronts is short.
#[inline(never)]
fn tied(text: &Text, other: &Text) -> Ordering
    requires { from_be_bytes w64 text.now ≡ from_be_bytes w64 other.now }
    ensures { result ≡ slice_cmp nat_cmp text.now other.now }
{
    let bytes = text.as_slice();
    let others = other.as_slice();
    known_bytes(bytes);
    known_bytes(others);
    if bytes.len() <= FRONT_LEN && others.len() <= FRONT_LEN {
        bytes.len().cmp(&others.len())
    } else {
        bytes.cmp(others)
    }
}

/// A text is its length, in 4 bytes with the highest first, and its bytes.
impl Wire for Text {
    ghost codec = { text_codec };

    ghost laws = { text_laws };

    fn fits(&self) {
        known_bytes(self.as_slice());
    }

    fn write(&self, out: &mut Vec<u8>) -> Result<(), AllocError> {
        let bytes = self.as_slice();
        out.reserve(4 + bytes.len())?;
        out.extend_from_slice(&(bytes.len() as u32).to_be_bytes())?;
        out.extend_from_slice(bytes)
    }

    fn read(alloc: Global, bytes: &[u8]) -> Result<(Text, usize), UserFault> {
        if bytes.len() < 4 {
            return Err(UserFault::BadWire);
        }
        let (front, rest) = bytes.split_at(4);
        let len = u32::from_be_bytes([front[0], front[1], front[2], front[3]]) as usize;
        if rest.len() < len {
            return Err(UserFault::BadWire);
        }
        let (text, _) = rest.split_at(len);
        Ok((Text::from_slice(alloc, text)?, 4 + len))
    }
}
