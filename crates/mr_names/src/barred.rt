//! The attempts that are barred, as the namespace keeps them: every call of theirs is refused.
ghost use Rattle.std.specs.Prelude.{◌≡◌, ◌↔◌, IsTrue, IfOk, OnOk, OnErr, ◌<◌, ◌^◌, false};
ghost use Rattle.std.specs.FinSet as set;
ghost use Rattle.mr_names.specs.Barred.{bars};

use indexmap::IndexSet;
use mr_ids::AttemptId;
use std::alloc::{AllocError, Global};
use std::marker::Model;

/// The attempts that are barred. Contracts see a finite set.
#[derive(Drop)]
pub struct Barred {
    attempts: IndexSet<AttemptId>,
}

impl Model for Barred {
    ghost use Rattle.mr_names.specs.Barred.{Barred as Set, barred_code};
    ghost use Rattle.std.specs.FinSet as set;

    ghost Value = { Set };

    ghost coded = { barred_code };

    ghost view = { λ b. set.from_list b.attempts.keys };
}

impl Barred {
    pub fn new(alloc: Global) -> Barred
        ensures { result ≡ set.empty }
    {
        Barred {
            attempts: IndexSet::new(alloc),
        }
    }

    /// An equal set.
    pub fn copy(&self) -> Result<Barred, AllocError>
        ensures { IfOk result (λ barred. barred ≡ self.now) }
    {
        Ok(Barred {
            attempts: self.attempts.clone()?,
        })
    }

    /// Whether both have the same attempts. It takes no memory.
    pub fn is_same(&self, other: &Barred) -> bool
        ensures { IsTrue result ↔ (self.now ≡ other.now) }
    {
        self.attempts == other.attempts
    }

    pub fn contains(&self, a: AttemptId) -> bool
        ensures { result ≡ set.contains self.now a }
    {
        self.attempts.contains(&a)
    }

    /// Whether a caller's attempt is among them.
    pub fn bars(&self, attempt: Option<AttemptId>) -> bool
        ensures { result ≡ bars self.now attempt }
    {
        match attempt {
            Some(a) => self.contains(a),
            None => false,
        }
    }

    pub fn len(&self) -> usize
        ensures len { result ≡ set.len self.now }
        ensures small { result < 2 ^ 63 }
    {
        self.attempts.len()
    }

    pub fn insert(&mut self, a: AttemptId) -> Result<(), AllocError>
        ensures ok { OnOk result (self.new ≡ set.insert self.old a) }
        ensures err { OnErr result (self.new ≡ self.old) }
        ensures absent { OnErr result (set.contains self.old a ≡ false) }
    {
        self.attempts.insert(a)?;
        Ok(())
    }
}
