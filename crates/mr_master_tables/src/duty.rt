//! What a master's next store call is for, and the call.
ghost use Rattle.std.specs.Prelude.{◌≡◌};

use mr_master_model::{DutyName, StoreCall};
use std::marker::Model;

/// A store call that a master has to make, and what it is for.
pub struct Duty {
    name: DutyName,
    call: StoreCall,
}

// By hand: one is dropped by this call.
impl Drop for Duty {
    fn drop(self) {
        let Duty { name: _, call: _ } = self;
    }
}

impl Model for Duty {
    ghost use Rattle.mr_master_model.specs.Duty.{Duty};

    ghost Value = { Duty };

    ghost view = { λ d. record { name = d.name; call = d.call } };
}

impl Duty {
    /// A call, and what it is for.
    pub fn new(name: DutyName, call: StoreCall) -> Duty
        ensures { result ≡ record { name = name; call = call } }
    {
        Duty { name, call }
    }

    /// What the call is for.
    pub fn name(&self) -> DutyName
        ensures { result ≡ self.now.name }
    {
        self.name
    }

    /// The call. A call of the namespace is made with the master's generation as the caller, and no attempt.
    pub fn call(&self) -> &StoreCall
        ensures { result.now ≡ self.now.call }
    {
        &self.call
    }

    /// The call, taken out.
    pub fn into_call(self) -> StoreCall
        ensures { result ≡ self.call }
    {
        let Duty { name: _, call } = self;
        call
    }
}
