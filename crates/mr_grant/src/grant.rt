//! Permission to commit one task (Hadoop's `canCommit`): which attempts asked, in order of arrival, of whom the first has it. For the machine of a task.
ghost use Rattle.std.specs.Prelude.{◌≡◌, ◌↔◌, false, OnOk, OnErr, IfOk, IsTrue};
ghost use Rattle.std.specs.List.{IsDistinct};
ghost use Rattle.mr_grant.specs.Attempts.{has, first_of, is_first, same_attempt, without};
ghost use Rattle.mr_grant.specs.Grant.{nobody, after_pending, after_release, after_fix};

use indexmap::IndexSet;
use mr_ids::AttemptId;
use std::alloc::{AllocError, Global};
use std::marker::Model;

/// The attempts at one task that asked for permission to commit, in order of arrival. The first has the permission.
///
/// Whoever asks waits behind those who asked before. When the first is released, the next has the permission; once the grant is
/// fixed, nobody is released any more, so the first has it for good.
#[derive(Drop)]
pub struct Grant {
    attempts: IndexSet<AttemptId>,
    fixed: bool,
}

impl Model for Grant {
    ghost use Rattle.mr_grant.specs.Grant.{Askers};

    ghost Value = { Askers };

    ghost view = { λ g. record { attempts = g.attempts.keys; is_fixed = g.fixed } };
}

impl Grant {
    /// A grant that nobody asked for.
    pub fn new(alloc: Global) -> Grant
        ensures { result ≡ nobody }
    {
        Grant {
            attempts: IndexSet::new(alloc),
            fixed: false,
        }
    }

    /// An equal grant.
    pub fn copy(&self) -> Result<Grant, AllocError>
        ensures { IfOk result (λ grant. grant ≡ self.now) }
    {
        Ok(Grant {
            attempts: self.attempts.clone()?,
            fixed: self.fixed,
        })
    }

    /// Whether both hold the same: the same attempts in the same order, and both are fixed or neither is.
    #[tactic(auto, using(crate::proofs::Same::lists_decide))]
    pub fn is_same(&self, other: &Grant) -> bool
        ensures { IsTrue result ↔ (self.now ≡ other.now) }
    {
        self.fixed == other.fixed && self.attempts.as_slice() == other.attempts.as_slice()
    }

    /// The attempt asks for permission: it waits as the last, if it is not there. One that is there keeps its place.
    ///
    /// Only an attempt that is not there may allocate; where it is refused, nothing changes.
    pub fn pending(&mut self, a: AttemptId) -> Result<(), AllocError>
        ensures ok { OnOk result (self.new ≡ after_pending self.old a) }
        ensures err { OnErr result (self.new ≡ self.old) }
        ensures absent { OnErr result (has self.old.attempts a ≡ false) }
    {
        self.attempts.insert(a)?;
        Ok(())
    }

    /// Whether the attempt has the permission: whether it is the first. Of one that is not there the answer is no.
    pub fn can_commit(&self, a: AttemptId) -> bool
        ensures { result ≡ is_first self.now.attempts a }
    {
        self.first() == Some(a)
    }

    /// Takes the attempt out, if it is there and the grant is not fixed.
    pub fn release(&mut self, a: AttemptId)
        ensures { self.new ≡ after_release self.old a }
    {
        if !self.fixed {
            self.take_out(a);
        }
    }

    // Takes the attempt out, if it is there.
    fn take_out(&mut self, a: AttemptId)
        ensures { self.new ≡ record self.old { attempts = without self.old.attempts a } }
    {
        self.attempts.shift_remove(&a);
    }

    /// Fixes the grant for good if the attempt is the first, and tells whether it is. A fixed grant stays as it is.
    pub fn fix(&mut self, a: AttemptId) -> bool
        ensures told { result ≡ is_first self.old.attempts a }
        ensures fixed { self.new ≡ after_fix self.old a }
    {
        let is_first = self.can_commit(a);
        if is_first {
            self.fixed = true;
        }
        is_first
    }

    /// The attempt that has the permission, if any asked.
    pub fn first(&self) -> Option<AttemptId>
        ensures { result ≡ first_of self.now.attempts }
    {
        self.attempts.first().copied()
    }

    /// The attempts that are kept, in order of arrival.
    pub fn attempts(&self) -> &[AttemptId]
        ensures kept { result.now ≡ self.now.attempts }
        ensures once { IsDistinct same_attempt self.now.attempts }
    {
        self.attempts.as_slice()
    }

    /// Whether the grant is fixed.
    pub fn is_fixed(&self) -> bool
        ensures { result ≡ self.now.is_fixed }
    {
        self.fixed
    }
}
