//! Values that the parts of several worlds have in common, until one world changes them.
//! So a copy of the parts copies none of them.
ghost use Rattle.std.specs.Prelude.{◌≡◌, ◌⊎◌, IfOk};
ghost use Rattle.std.specs.Borrow.{sem};
ghost use Rattle.mr_world_actors.specs.Sharing.{LendsClone, LendsShared};

use mr_history::History;
use mr_names::Namespace;
use mr_node::NodeMachine;
use std::alloc::{AllocError, Global};
use std::marker::Model;
use std::ops::Deref;
use std::sync::Arc;

/// What can be made a second time.
pub trait Duplicate: Drop {
    /// An equal value. Its only fault is an allocation failure.
    fn duplicate(&self) -> Result<Self, AllocError>
        ensures { IfOk result (λ value. value ≡ self.now) };
}

impl Duplicate for Namespace {
    fn duplicate(&self) -> Result<Namespace, AllocError> {
        self.copy()
    }
}

impl Duplicate for NodeMachine {
    fn duplicate(&self) -> Result<NodeMachine, AllocError> {
        self.copy()
    }
}

impl Duplicate for History {
    fn duplicate(&self) -> Result<History, AllocError> {
        self.copy()
    }
}

/// A value that several worlds may have. Contracts see the value alone: whoever changes it gets one of its own first.
#[derive(Drop)]
pub struct Shared<T> {
    value: Arc<T>,
    alloc: Global,
}

impl<T> Model for Shared<T> {
    ghost use Rattle.std.specs.Arc.{arc_value};

    ghost Value = { T };

    ghost view = { λ shared. arc_value shared.value };
}

impl<T: Drop> Shared<T> {
    /// A value that nobody else has yet. Its only fault is an allocation failure.
    pub fn new(alloc: Global, value: T) -> Result<Shared<T>, AllocError>
        ensures { IfOk result (λ shared. shared ≡ value) }
    {
        Ok(Shared {
            value: Arc::new(alloc, value)?,
            alloc,
        })
    }

    /// The same value, for one world more. It is not copied. Where too many have it, an allocation failure is answered.
    pub fn share(&self) -> Result<Shared<T>, AllocError>
        ensures { IfOk result (λ shared. shared ≡ self.now) }
    {
        Ok(Shared {
            value: Arc::try_clone(&self.value)?,
            alloc: self.alloc,
        })
    }
}

impl<T: Duplicate> Shared<T> {
    /// The value, to be changed. Where others have it too, an equal one takes its place first. Where memory is refused
    /// the value is as it was.
    pub fn own(&mut self) -> Result<&mut T, AllocError>
        ensures* writes_back { sem 𝓛 (LendsShared T.row self.entry result) }
        ensures value { IfOk result (λ value. value.now ≡ self.old) }
    {
        self.part()?;
        match Arc::get_mut(&mut self.value) {
            Some(value) => Ok(value),
            None => Err(AllocError),
        }
    }

    // Nobody else has the value from then on.
    fn part(&mut self) -> Result<(), AllocError>
        ensures { self.new ≡ self.old }
    {
        if Arc::strong_count(&self.value) == 1 {
            return Ok(());
        }
        let value = self.value.duplicate()?;
        self.value = Arc::new(self.alloc, value)?;
        Ok(())
    }
}

impl<T: Clone> Shared<T> {
    /// As `own`, of a value whose clone may differ from it: where others have the value too, a clone takes its place
    /// first. It may have taken it where memory is refused.
    pub fn own_clone(&mut self) -> Result<&mut T, AllocError>
        ensures* writes_back { sem 𝓛 (LendsClone T.row T.is_clone self.entry result) }
        ensures value { IfOk result (λ value. (value.now ≡ self.old) ⊎ T.is_clone self.old value.now) }
    {
        Arc::make_mut(&mut self.value)
    }
}

impl<T> Deref for Shared<T> {
    type Target = T;

    ghost deref_gives = { λ shared value. value ≡ shared };

    fn deref(&self) -> &T
        ensures { result.now ≡ self.now }
    {
        &self.value
    }
}
