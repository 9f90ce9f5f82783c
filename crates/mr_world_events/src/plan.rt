//! The faults that are planned for a run: what is to happen to its cluster, and how many events before it.
ghost use Rattle.std.specs.Prelude.{◌≡◌, IfOk};
ghost use Rattle.std.specs.Cmp.{partial_equiv_from_equiv};
ghost use Rattle.std.specs.Cmp.Lexicographic.{pointwise, lists_equiv};
ghost use Rattle.mr_world_events.specs.contracts.plan.PlanFaultPartialEq.TheImpl.{eq-value};
ghost use Rattle.mr_world_events.specs.contracts.plan.PlanFaultEq.TheImpl.Laws.{laws-law};

use std::alloc::AllocError;
use std::marker::Model;

/// What a fault of a plan does.
#[derive(Clone, Copy, Debug, PartialEq, Eq)]
pub enum PlanAct {
    /// This node restarts.
    Node(u32),
    /// The newest master crashes, and the next one starts. This number of bytes of its unflushed history is kept.
    Master(u64),
    /// The newest master gives this node up.
    Expire(u32),
}

/// A fault that is made as soon as the journal has `after` events.
#[derive(Clone, Copy, Debug, PartialEq, Eq)]
pub struct PlanFault {
    /// How many events there are before it, from 0 to 1,000,000.
    pub after: u32,
    pub act: PlanAct,
}

/// The faults of a plan, in the order in which they are made. Contracts see them as a list.
#[derive(Debug, Drop)]
pub struct PlanFaults {
    items: Vec<PlanFault>,
}

impl Model for PlanFaults {
    ghost use Rattle.std.specs.Prelude.{List};
    ghost use Rattle.mr_world_events.specs.declared.plan.PlanFault.{PlanFault};

    ghost Value = { List PlanFault };

    ghost view = { λ f. f.items.items };
}

impl PlanFaults {
    /// These faults, without a copy.
    pub fn from_vec(items: Vec<PlanFault>) -> PlanFaults
        ensures { result ≡ items.items }
    {
        PlanFaults { items }
    }

    /// The faults as a vector, without a copy.
    pub fn into_vec(self) -> Vec<PlanFault>
        ensures { result.items ≡ self }
    {
        self.items
    }

    /// The faults as a slice.
    pub fn as_slice(&self) -> &[PlanFault]
        ensures { result.now ≡ self.now }
    {
        &self.items
    }

    /// Equal faults. It may allocate, and refuses nothing else.
    pub fn copy(&self) -> Result<PlanFaults, AllocError>
        ensures { IfOk result (λ faults. faults ≡ self.now) }
    {
        Ok(PlanFaults {
            items: Vec::from_slice(*self.items.allocator(), &self.items)?,
        })
    }
}

impl PartialEq for PlanFaults {
    ghost eq = { pointwise eq-value.it };

    ghost laws = { partial_equiv_from_equiv (lists_equiv laws-law) };

    fn eq(&self, other: &PlanFaults) -> bool {
        self.items.as_slice() == other.items.as_slice()
    }
}

impl Eq for PlanFaults {
    ghost laws = { lists_equiv laws-law };
}
