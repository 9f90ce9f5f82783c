//! The machines of the masters that are alive, by generation.
ghost use Rattle.std.specs.Prelude.{◌≡◌, ◌↔◌, ℕ, suc, None, is_some, IsTrue, IfOk, OnOk, OnErr};
ghost use Rattle.std.specs.Option.{option_copied, option_copied_mut};
ghost use Rattle.std.specs.Borrow.{sem};
ghost use Rattle.mr_world_state.specs.Machines.{master_of, master_count, SameMaster};
ghost use Rattle.mr_world_state.specs.inner.Lending.{LendsMaster};
ghost use Rattle.mr_world_state.specs.inner.Masters.{SameMasters, Begins, Ceases};

use mr_master::MasterMachine;
use mr_world_actors::Shared;
use std::alloc::{AllocError, Global};

/// The machines of the masters that are alive, by generation, from 1. For each other one that was started an empty
/// place is kept. Several worlds may have a machine, until one of them changes it.
#[derive(Drop)]
pub struct Masters {
    machines: Vec<Option<Shared<MasterMachine>>>,
}

impl Masters {
    /// No master was started.
    #[tactic(auto, unfolding(crate::specs::Machines::master_of, crate::specs::Machines::master_count))]
    pub(crate) fn new(alloc: Global) -> Masters
        ensures none { (k : ℕ) → master_of result k ≡ None }
        ensures count { master_count result ≡ 0 }
    {
        Masters {
            machines: Vec::new(alloc),
        }
    }

    /// The same machines of the same generations. None is copied. Its only fault is an allocation failure.
    #[tactic(auto, unfolding(crate::specs::Machines::master_of, crate::specs::Machines::master_count))]
    pub(crate) fn copy(&self) -> Result<Masters, AllocError>
        ensures { IfOk result (SameMasters self.now) }
    {
        let mut machines = Vec::with_capacity(*self.machines.allocator(), self.machines.len())?;
        for machine in &self.machines {
            machines.push(shared(machine)?)?;
        }
        Ok(Masters { machines })
    }

    /// Whether the masters of the same generations are alive in both, and those of each hold the same. Their settings
    /// are not compared, nor how many masters were started.
    pub fn is_same(&self, other: &Masters) -> bool
        ensures { IsTrue result ↔ ((k : ℕ) → SameMaster (master_of self.now k) (master_of other.now k)) }
    {
        for place in 0..self.places().max(other.places()) {
            if !are_same(self.at(place), other.at(place)) {
                return false;
            }
        }
        true
    }

    // How many masters were started.
    #[tactic(auto, unfolding(crate::specs::Machines::master_count))]
    fn places(&self) -> usize
        ensures { result ≡ master_count self.now }
    {
        self.machines.len()
    }

    // The machine at a place, from 0: of the generation after it.
    #[tactic(auto, unfolding(crate::specs::Machines::master_of))]
    fn at(&self, place: usize) -> Option<&MasterMachine>
        ensures { option_copied result ≡ master_of self.now (suc place) }
    {
        machine_at(self.machines.get(place)?)
    }

    /// The machine of the master of this generation, if it is alive.
    #[tactic(auto, unfolding(crate::specs::Machines::master_of))]
    pub fn get(&self, k: u32) -> Option<&MasterMachine>
        ensures { option_copied result ≡ master_of self.now k }
    {
        let place = k.checked_sub(1)?;
        machine_at(self.machines.get(place as usize)?)
    }

    /// The same, to be changed. Other worlds may have it too.
    pub(crate) fn get_mut(&mut self, k: u32) -> Option<&mut Shared<MasterMachine>>
        ensures* writes_back { sem 𝓛 (LendsMaster self.entry k result) }
        ensures value { option_copied_mut result ≡ master_of self.old k }
    {
        let Some(place) = k.checked_sub(1) else {
            return None;
        };
        match self.machines.get_mut(place as usize) {
            Some(machine) => machine.as_mut(),
            None => None,
        }
    }

    /// Whether the master of this generation is alive.
    pub fn contains(&self, k: u32) -> bool
        ensures { result ≡ is_some (master_of self.now k) }
    {
        self.get(k).is_some()
    }

    /// A master of the next generation begins, with this machine. Where memory is refused nothing changes.
    #[tactic(auto, unfolding(crate::specs::Machines::master_of, crate::specs::Machines::master_count))]
    pub(crate) fn begin(&mut self, alloc: Global, machine: MasterMachine) -> Result<(), AllocError>
        ensures ok { OnOk result (Begins self.old machine self.new) }
        ensures err { OnErr result (SameMasters self.old self.new) }
    {
        let machine = Shared::new(alloc, machine)?;
        self.machines.push(Some(machine))?;
        Ok(())
    }

    /// The master of this generation is alive no longer.
    #[tactic(auto, unfolding(crate::specs::Machines::master_of, crate::specs::Machines::master_count))]
    pub(crate) fn cease(&mut self, k: u32)
        ensures { Ceases self.old k self.new }
    {
        let Some(place) = k.checked_sub(1) else {
            return;
        };
        if let Some(machine) = self.machines.get_mut(place as usize) {
            *machine = None;
        }
    }
}

// The machine at a place, for a place of another world, if there is one.
fn shared(
    place: &Option<Shared<MasterMachine>>,
) -> Result<Option<Shared<MasterMachine>>, AllocError>
    ensures { IfOk result (λ other. other ≡ place.now) }
{
    match place {
        Some(machine) => Ok(Some(machine.share()?)),
        None => Ok(None),
    }
}

// The machine at a place, if there is one.
fn machine_at(place: &Option<Shared<MasterMachine>>) -> Option<&MasterMachine>
    ensures { option_copied result ≡ place.now }
{
    match place {
        Some(machine) => Some(&**machine),
        None => None,
    }
}

// Whether there is a machine at neither place, or at both, and the two hold the same.
fn are_same(one: Option<&MasterMachine>, other: Option<&MasterMachine>) -> bool
    ensures { IsTrue result ↔ SameMaster (option_copied one.entry) (option_copied other.entry) }
{
    let Some(one) = one else {
        return other.is_none();
    };
    let Some(other) = other else {
        return false;
    };
    one.keeps_same(other)
}
