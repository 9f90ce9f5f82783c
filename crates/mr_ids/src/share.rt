//! A part of bytes that several holders share.
ghost use Rattle.std.specs.Prelude.{◌≡◌, ◌++◌, ◌≤◌, IfOk, IsTrue, false, length, nat_eq, slice_range};
ghost use Rattle.std.specs.Cmp.Lexicographic.{pointwise};
ghost use Rattle.std.specs.List.{starts_with};

use std::alloc::AllocError;
use std::marker::Model;

/// A part of bytes that several holders share. Contracts see the part as a list.
#[derive(Drop)]
pub struct Share {
    whole: bytes::Bytes,
    start: usize,
    end: usize,
}

impl Model for Share {
    ghost use Rattle.std.specs.Prelude.{◌≤◌, List, ℕ, length, slice_range};

    ghost Value = { List ℕ };

    ghost view = { λ s. slice_range s.whole s.start s.end };

    ghost invariant = { λ s. (s.start ≤ s.end) × (s.end ≤ length s.whole) };
}

impl Share {
    /// All of these bytes.
    pub fn of(whole: bytes::Bytes) -> Share
        ensures { result ≡ whole }
    {
        let end = whole.len();
        Share {
            whole,
            start: 0,
            end,
        }
    }

    /// The part as a slice.
    pub fn as_slice(&self) -> &[u8]
        ensures { result.now ≡ self.now }
    {
        &self.whole.as_slice()[self.start..self.end]
    }

    /// The bytes from `start` to before `end` of this part. It may allocate, and refuses nothing else.
    pub fn part(&self, start: usize, end: usize) -> Result<Share, AllocError>
        requires ordered { start ≤ end }
        requires within { end ≤ length self.now }
        ensures { IfOk result (λ share. share ≡ slice_range self.now start end) }
    {
        Ok(Share {
            whole: self.whole.clone()?,
            start: self.start + start,
            end: self.start + end,
        })
    }

    /// Takes in bytes that lie right behind this part in what is shared. No byte is copied. False where others lie there, or not so many.
    pub fn takes_in(&mut self, more: &[u8]) -> bool
        ensures taken { IsTrue result → self.new ≡ self.old ++ more.now }
        ensures left { result ≡ false → self.new ≡ self.old }
    {
        let follows = begins_with(&self.whole.as_slice()[self.end..], more);
        if follows {
            self.end += more.len();
        }
        follows
    }
}

// Whether bytes begin with these.
fn begins_with(bytes: &[u8], front: &[u8]) -> bool
    ensures { result ≡ starts_with nat_eq bytes.now front.now }
{
    front.len() <= bytes.len() && are_equal(front, &bytes[..front.len()])
}

/// Whether bytes are equal. It looks at all of them, whatever the first are, and at many at a time: that is quicker where they are equal, and where
/// there are many of them.
pub fn are_equal(left: &[u8], right: &[u8]) -> bool
    ensures { result ≡ pointwise nat_eq left.now right.now }
{
    if left.len() != right.len() {
        return false;
    }
    let mut equal = true;
    for i in 0..left.len() {
        equal &= left[i] == right[i];
    }
    equal
}
