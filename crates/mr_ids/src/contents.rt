//! Bytes as files, packets and pieces hold them.
ghost use Rattle.std.specs.Prelude.{◌≡◌, ◌↔◌, ◌++◌, ◌≤◌, ◌-◌, [], IfOk, OnOk, OnErr, length, nat_eq, nat_lt, true, IsTrue, slice_range};
ghost use Rattle.std.specs.Cmp.Lexicographic.{pointwise};
ghost use Rattle.std.specs.Cmp.Rules.{comparing};
ghost use Rattle.std.proofs.Common.{rules};
ghost use Rattle.mr_ids.specs.Contents.{contents_of};

use crate::share::{Share, are_equal};
use std::alloc::{AllocError, AllocFailed, Global};
use std::marker::Model;
use std::{fmt, mem};

/// Bytes that a file, a packet, a piece or a machine holds. Contracts see them as a list.
///
/// They have one holder, or several that share them (`share`): then a copy or a part of them copies no byte.
pub struct Bytes {
    alloc: Global,
    held: Held,
}

// By hand, so that bytes are dropped by this call: a derived drop is taken apart by the check wherever some are dropped.
impl Drop for Bytes {
    fn drop(self) {
        let Bytes { alloc: _, held: _ } = self;
    }
}

// By whom bytes are held: by one alone, or by several.
#[derive(Drop)]
enum Held {
    Alone(Vec<u8>),
    Shared(Share),
}

impl Model for Bytes {
    ghost use Rattle.std.specs.Prelude.{List, ℕ};
    ghost use Rattle.mr_ids.specs.Contents.{contents_of};

    ghost Value = { List ℕ };

    ghost view = { λ b. contents_of b.held };
}

impl Bytes {
    /// No bytes.
    pub fn new(alloc: Global) -> Bytes
        ensures { result ≡ [] }
    {
        Bytes::from_vec(Vec::new(alloc))
    }

    /// These bytes, without a copy.
    pub fn from_vec(items: Vec<u8>) -> Bytes
        ensures { result ≡ items.items }
    {
        Bytes {
            alloc: *items.allocator(),
            held: Held::Alone(items),
        }
    }

    /// A copy of these bytes. It may allocate, but not where there are none, and refuses nothing else.
    pub fn from_slice(alloc: Global, bytes: &[u8]) -> Result<Bytes, AllocError>
        ensures ok { IfOk result (λ copy. copy ≡ bytes.now) }
        ensures some { OnErr result (nat_lt 0 (length bytes.now) ≡ true) }
    {
        Ok(Bytes {
            alloc,
            held: Held::Alone(copy_of(alloc, bytes)?),
        })
    }

    /// Lets copies and parts of these bytes share them from now on. No byte is copied. It allocates; where that is refused the bytes go on with one
    /// holder.
    pub fn share(&mut self)
        ensures { self.new ≡ self.old }
    {
        let held = mem::replace(&mut self.held, Held::Alone(Vec::new(self.alloc)));
        self.held = shared(held);
    }

    /// The bytes as a slice.
    pub fn as_slice(&self) -> &[u8]
        ensures { result.now ≡ self.now }
    {
        match &self.held {
            Held::Alone(items) => items,
            Held::Shared(share) => share.as_slice(),
        }
    }

    /// The allocator of its memory.
    pub fn allocator(&self) -> Global {
        self.alloc
    }

    /// How many bytes there are.
    pub fn len(&self) -> usize
        ensures { result ≡ length self.now }
    {
        self.as_slice().len()
    }

    /// Whether there are none.
    pub fn is_empty(&self) -> bool
        ensures { IsTrue result ↔ (self.now ≡ []) }
    {
        self.as_slice().is_empty()
    }

    /// The bytes from `start` to before `end`. They are shared where these bytes are. It may allocate, but not where there are none, and refuses
    /// nothing else.
    pub fn part(&self, start: usize, end: usize) -> Result<Bytes, AllocError>
        requires ordered { start ≤ end }
        requires within { end ≤ length self.now }
        ensures ok { IfOk result (λ bytes. bytes ≡ slice_range self.now start end) }
        ensures some { OnErr result (nat_lt 0 (end - start) ≡ true) }
    {
        if start == end {
            return Ok(Bytes::new(self.alloc));
        }
        let held = match &self.held {
            Held::Alone(items) => Held::Alone(copy_of(self.alloc, &items[start..end])?),
            Held::Shared(share) => Held::Shared(share.part(start, end)?),
        };
        Ok(Bytes {
            alloc: self.alloc,
            held,
        })
    }

    /// Adds bytes at the end. It may allocate, but not where none are added. Where memory is refused nothing changes, and nothing
    /// else is refused.
    pub fn extend(&mut self, more: &[u8]) -> Result<(), AllocError>
        ensures ok { OnOk result (self.new ≡ self.old ++ more.now) }
        ensures err { OnErr result (self.new ≡ self.old) }
        ensures some { OnErr result (nat_lt 0 (length more.now) ≡ true) }
    {
        if more.is_empty() {
            return Ok(());
        }
        match &mut self.held {
            Held::Alone(items) => items.extend_from_slice(more),
            Held::Shared(share) => {
                let mut items = copy_of(self.alloc, share.as_slice())?;
                items.extend_from_slice(more)?;
                self.held = Held::Alone(items);
                Ok(())
            }
        }
    }

    /// As `extend`, of bytes that may be shared. Where there were none before, no byte of such is copied. Nor is one where equal bytes lie
    /// right behind these in what is shared, as where both are parts of one list of bytes, and these end where those begin.
    pub fn append(&mut self, more: &Bytes) -> Result<(), AllocError>
        ensures ok { OnOk result (self.new ≡ self.old ++ more.now) }
        ensures err { OnErr result (self.new ≡ self.old) }
        ensures some { OnErr result (nat_lt 0 (length more.now) ≡ true) }
    {
        if self.is_empty() {
            *self = more.copy()?;
            return Ok(());
        }
        if let Held::Shared(share) = &mut self.held
            && share.takes_in(more.as_slice())
        {
            return Ok(());
        }
        self.extend(more.as_slice())
    }

    /// Equal bytes, shared where these are. It may allocate, but not where there are none, and refuses nothing else.
    pub fn copy(&self) -> Result<Bytes, AllocError>
        ensures ok { IfOk result (λ bytes. bytes ≡ self.now) }
        ensures some { OnErr result (nat_lt 0 (length self.now) ≡ true) }
    {
        self.part(0, self.len())
    }

    /// Copies of all these, in their order, each shared where its bytes are. It may allocate, and refuses nothing else.
    pub fn copies(alloc: Global, all: &[Bytes]) -> Result<Vec<Bytes>, AllocError>
        ensures { IfOk result (λ copies. copies.items ≡ all.now) }
    {
        let mut copies = Vec::with_capacity(alloc, all.len())?;
        for bytes in all {
            copies.push(bytes.copy()?)?;
        }
        Ok(copies)
    }
}

// The same bytes, shared where there is memory for the count of their holders.
fn shared(held: Held) -> Held
    ensures { contents_of result ≡ contents_of held }
{
    match held {
        Held::Alone(items) => match bytes::Bytes::from_vec(items) {
            Ok(whole) => Held::Shared(Share::of(whole)),
            Err(AllocFailed { value: items }) => Held::Alone(items),
        },
        Held::Shared(share) => Held::Shared(share),
    }
}

// A copy of bytes. No memory is taken where there are none.
fn copy_of(alloc: Global, bytes: &[u8]) -> Result<Vec<u8>, AllocError>
    ensures ok { IfOk result (λ items. items.items ≡ bytes.now) }
    ensures some { OnErr result (nat_lt 0 (length bytes.now) ≡ true) }
{
    if bytes.is_empty() {
        return Ok(Vec::new(alloc));
    }
    Vec::from_slice(alloc, bytes)
}

impl Clone for Bytes {
    ghost is_clone = { λ a b. b ≡ a };

    fn clone(&self) -> Result<Bytes, AllocError> {
        self.copy()
    }
}

impl PartialEq for Bytes {
    ghost eq = { pointwise nat_eq };

    ghost laws = { Prim.search (comparing, rules) };

    fn eq(&self, other: &Bytes) -> bool {
        are_equal(self.as_slice(), other.as_slice())
    }
}

impl Eq for Bytes {
    ghost laws = { Prim.search (comparing, rules) };
}

impl fmt::Debug for Bytes {
    fn fmt<W: fmt::Write>(&self, f: &mut fmt::Formatter<W>) -> fmt::Result {
        f.debug_struct("Bytes")
            .field("items", &self.as_slice())
            .finish()
    }
}
