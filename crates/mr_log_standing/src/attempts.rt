//! Attempts in an order.
ghost use Rattle.std.specs.Prelude.{◌≡◌, ◌++◌, ◌∷◌, [], OnOk, OnErr};

use mr_ids::AttemptId;
use std::alloc::{AllocError, Global};
use std::marker::Model;

/// Attempts in an order.
#[derive(Drop)]
pub struct Attempts {
    items: Vec<AttemptId>,
}

impl Model for Attempts {
    ghost use Rattle.std.specs.Prelude.{List};
    ghost use Rattle.mr_ids.specs.Attempt.{Attempt};

    ghost Value = { List Attempt };

    ghost view = { λ r. r.items.items };
}

impl Attempts {
    /// None.
    pub fn new(alloc: Global) -> Attempts
        ensures { result ≡ [] }
    {
        Attempts {
            items: Vec::new(alloc),
        }
    }

    /// Adds one at the end.
    pub fn push(&mut self, a: AttemptId) -> Result<(), AllocError>
        ensures ok { OnOk result (self.new ≡ self.old ++ a ∷ []) }
        ensures err { OnErr result (self.new ≡ self.old) }
    {
        self.items.push(a)?;
        Ok(())
    }

    /// All of them.
    pub fn as_slice(&self) -> &[AttemptId]
        ensures { result.now ≡ self.now }
    {
        &self.items
    }
}
