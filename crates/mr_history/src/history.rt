//! The job history: a segment for each generation of the master, and the fence below which no master is heard.
ghost use Rattle.std.specs.Prelude.{◌≡◌, ◌↔◌, ◌≤◌, ◌<◌, ◌-◌, [], length, replicate, IfOk, IsOk, IsOkUnless, IsTrue, true, Option, if◌then◌else◌, nat_le, Some, None, take};
ghost use Rattle.mr_history.specs.Line.{fits, suits, IsVersion};
ghost use Rattle.mr_history.specs.State.{State};
ghost use Rattle.mr_history.specs.Segment.{fresh};
ghost use Rattle.mr_history.specs.Calls.{Append, Flush, Read, Done, Told, Makes, MakesAlways, segment, sealed_at, raised, superseded, refused, records, records_in, records_before};

use crate::fault::HistoryFault;
use crate::generations::{are_same, copied, fill, records_of_all, seal_all};
use crate::record::{Record, Records};
use crate::segment::Segment;
use mr_ids::{AppAttempt, MAX_APP_ATTEMPTS};
use std::alloc::{AllocError, Global};
use std::marker::Model;

/// The segments of all generations, and the fence below which no master is heard.
pub struct History {
    // Those of the generations up to the fence. There is room for all, so that a raise takes no memory.
    segments: Vec<Segment>,
    alloc: Global,
}

// Written by hand, so that the check takes the drop of a history as one call. A derived drop it takes apart at each place where one is
// dropped.
impl Drop for History {
    fn drop(self) {
        let History {
            segments: _,
            alloc: _,
        } = self;
    }
}

impl Model for History {
    ghost use Rattle.std.specs.Prelude.{◌≤◌, ◌-◌, ◌++◌, length, replicate, vec_capacity};
    ghost use Rattle.mr_history.specs.State.{State};
    ghost use Rattle.mr_history.specs.Segment.{fresh};

    ghost Value = { State };

    ghost view = { λ h. record { segments = h.segments.items ++ replicate (1000 - length h.segments.items) (fresh 1); fence = length h.segments.items } };

    ghost invariant = { λ h. (length h.segments.items ≤ 1000) × (1000 ≤ vec_capacity h.segments) };
}

impl History {
    /// Empty segments, and fence 0. A segment's version is that of its `raise`; before it none counts.
    pub fn new(alloc: Global) -> Result<History, HistoryFault>
        ensures made { IfOk result (λ history. history ≡ record { segments = replicate MAX_APP_ATTEMPTS (fresh 1); fence = 0 }) }
        ensures memory { IsOkUnless result HistoryFault.NoMemory }
    {
        let segments = Vec::with_capacity(alloc, MAX_APP_ATTEMPTS as usize)?;
        Ok(History { segments, alloc })
    }

    /// A history of its own, with the same segments and the same fence. Its only fault is an allocation failure. A
    /// segment in which nothing was written takes no memory of its own.
    pub fn copy(&self) -> Result<History, AllocError>
        ensures { IfOk result (λ history. history ≡ self.now) }
    {
        let segments = copied(self.alloc, &self.segments)?;
        Ok(History {
            segments,
            alloc: self.alloc,
        })
    }

    /// Whether both hold the same: the fence, and all segments. It takes no memory.
    pub fn is_same(&self, other: &History) -> bool
        ensures { IsTrue result ↔ (self.now ≡ other.now) }
    {
        are_same(self.segments.as_slice(), other.segments.as_slice())
    }

    /// The generation below which calls are refused, 0 at first.
    pub fn fence(&self) -> u32
        ensures value { result ≡ self.now.fence }
        ensures range { result ≤ 1000 }
    {
        self.segments.len() as u32
    }

    /// Whether a generation has been raised to, which the other calls ask for.
    pub fn is_raised(&self, k: AppAttempt) -> bool
        ensures { result ≡ nat_le k self.now.fence }
    {
        k.number() <= self.fence()
    }

    /// The version of the segment of `k`, 1 or 2.
    pub fn version(&self, k: AppAttempt) -> u32
        requires { k ≤ self.now.fence }
        ensures { result ≡ (segment self.now k).version }
    {
        self.started(k).version()
    }

    /// Sets the fence to `k`, seals every older segment, each with the first `kept` bytes of its tail, and gives the
    /// segment of `k` its version, 1 or 2. Where `k` is not above the fence nothing changes.
    pub fn raise(&mut self, k: AppAttempt, kept: usize, version: u32)
        requires { IsVersion version }
        ensures { self.new ≡ raised k kept version self.old }
    {
        if k.number() <= self.fence() {
            return;
        }
        fill(&mut self.segments, self.alloc, place(k));
        seal_all(self.segments.as_mut_slice(), kept);
        self.segments
            .push_reserved(Segment::new(self.alloc, version));
    }

    /// Adds the line of a record to the tail of the segment of `k`, as the segment's version tells it. The first record
    /// of a segment of version 2 comes with the version line.
    ///
    /// Refusals in order: `Superseded` where `k` is below the fence, `Sealed`, `Full`, `NoMemory`.
    pub fn append(&mut self, k: AppAttempt, record: Record) -> Result<(), HistoryFault>
        requires raised { k ≤ self.old.fence }
        requires fits { fits «record» ≡ true }
        requires suits { suits (segment self.old k).version «record» ≡ true }
        ensures { Makes (λ _. Done) self.old k (Append «record») result self.new }
    {
        if let Some(fault) = self.superseded(k) {
            return Err(fault);
        }
        self.segments[place(k)].append(record)
    }

    /// Makes the tail of the segment of `k` stable.
    ///
    /// Refusals in order: `Superseded` where `k` is below the fence, `Sealed`.
    pub fn flush(&mut self, k: AppAttempt) -> Result<(), HistoryFault>
        requires { k ≤ self.old.fence }
        ensures { MakesAlways (λ _. Done) self.old k Flush result self.new }
    {
        if let Some(fault) = self.superseded(k) {
            return Err(fault);
        }
        self.segments[place(k)].flush()
    }

    /// Why `append` would refuse this record of `k`, memory aside: the first that applies of `Superseded`, `Sealed` and
    /// `Full`.
    pub fn append_refusal(&self, k: AppAttempt, record: &Record) -> Option<HistoryFault>
        requires { k ≤ self.now.fence }
        ensures { result ≡ refused self.now k (Append «record».now) }
    {
        match self.superseded(k) {
            None => self.started(k).append_refusal(record),
            fault => fault,
        }
    }

    /// Why `flush` would be refused for `k`: the first that applies of `Superseded` and `Sealed`.
    pub fn flush_refusal(&self, k: AppAttempt) -> Option<HistoryFault>
        requires { k ≤ self.now.fence }
        ensures { result ≡ refused self.now k Flush }
    {
        match self.superseded(k) {
            None => self.started(k).flush_refusal(),
            fault => fault,
        }
    }

    /// Seals the segment of `k` alone, with the first `kept` bytes of its tail. A sealed one stays as it is.
    pub fn seal(&mut self, k: AppAttempt, kept: usize)
        requires { k ≤ self.old.fence }
        ensures { self.new ≡ sealed_at k kept self.old }
    {
        self.segments[place(k)].seal(kept);
    }

    /// The stable bytes of the segment of `k`.
    pub fn stable(&self, k: AppAttempt) -> &[u8]
        requires { k ≤ self.now.fence }
        ensures { result.now ≡ (segment self.now k).stable }
    {
        self.started(k).stable()
    }

    /// The length of the tail of the segment of `k`.
    pub fn tail(&self, k: AppAttempt) -> usize
        requires { k ≤ self.now.fence }
        ensures { result ≡ length (segment self.now k).tail }
    {
        self.started(k).tail()
    }

    /// The records of all segments before that of `k`, from stable bytes alone.
    ///
    /// Refusals in order: `Superseded` where `k` is below the fence, `NoMemory`.
    pub fn read(&self, k: AppAttempt) -> Result<Records, HistoryFault>
        requires { k ≤ self.now.fence }
        ensures made { Makes (λ records. Told records) self.now k Read result self.now }
        // To tell of no record takes no memory.
        ensures nothing { records_before self.now k ≡ [] → MakesAlways (λ records. Told records) self.now k Read result self.now }
    {
        if let Some(fault) = self.superseded(k) {
            return Err(fault);
        }
        self.first_records(place(k))
    }

    /// The records of the segments of all generations up to the fence, from stable bytes alone. It answers no
    /// fault but `NoMemory`, and that only where there is a record.
    pub fn records(&self) -> Result<Records, HistoryFault>
        ensures told { IfOk result (λ told. told ≡ records self.now) }
        ensures memory { IsOkUnless result HistoryFault.NoMemory }
        ensures nothing { records self.now ≡ [] → IsOk result }
    {
        self.first_records(self.segments.len())
    }

    // The segment of a generation that is not above the fence.
    fn started(&self, k: AppAttempt) -> &Segment
        requires { k ≤ self.now.fence }
        ensures { result.now ≡ segment self.now k }
    {
        &self.segments[place(k)]
    }

    // The records of the first `count` segments, from stable bytes alone.
    fn first_records(&self, count: usize) -> Result<Records, HistoryFault>
        requires { count ≤ self.now.fence }
        ensures told { IfOk result (λ told. told ≡ records_in (take count self.now.segments)) }
        ensures memory { IsOkUnless result HistoryFault.NoMemory }
        ensures nothing { records_in (take count self.now.segments) ≡ [] → IsOk result }
    {
        records_of_all(self.alloc, &self.segments[..count])
    }

    // Why a call of `k` is refused for the fence.
    fn superseded(&self, k: AppAttempt) -> Option<HistoryFault>
        ensures { result ≡ superseded self.now k }
    {
        let fence = self.fence();
        if k.number() < fence {
            Some(HistoryFault::Superseded(fence))
        } else {
            None
        }
    }
}

// Where the segment of a generation stands.
fn place(k: AppAttempt) -> usize
    ensures place { result ≡ k - 1 }
    ensures below { result < k }
    ensures bound { result < 1000 }
{
    k.number() as usize - 1
}
