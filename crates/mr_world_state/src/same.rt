//! Whether the parts of two worlds hold the same.
ghost use Rattle.std.specs.Prelude.{◌≡◌, ◌↔◌, IsTrue, IfOk};
ghost use Rattle.mr_world_state.specs.Same.{SameParts};
ghost use Rattle.mr_world_state.specs.inner.Compared.{SameMachinesIn, SameStores};

use crate::config::Config;
use crate::parts::Parts;
use mr_history::History;
use mr_names::Namespace;
use mr_world_actors::Shared;
use std::alloc::AllocError;

impl Parts {
    /// Whether both hold the same. The bag and the number of launches are not compared, nor what follows from the config:
    /// the paths, and the settings of masters. Its only fault is an allocation failure.
    pub fn is_same(&self, other: &Parts) -> Result<bool, AllocError>
        ensures { IfOk result (λ same. IsTrue same ↔ SameParts self.now other.now) }
    {
        if !self.has_same_machines(other) {
            return Ok(false);
        }
        self.has_same_stores(other)
    }

    // Whether the machines of nodes, containers and masters hold the same.
    fn has_same_machines(&self, other: &Parts) -> bool
        ensures { IsTrue result ↔ SameMachinesIn self.now other.now }
    {
        self.nodes.is_same(&other.nodes)
            && self.living.is_same(&other.living)
            && self.masters.is_same(&other.masters)
    }

    // Whether the stores hold the same, and both were made for the same. The tree of the namespace comes last, since
    // memory is taken for it.
    fn has_same_stores(&self, other: &Parts) -> Result<bool, AllocError>
        ensures { IfOk result (λ same. IsTrue same ↔ SameStores self.now other.now) }
    {
        if !is_same_history(&self.history, &other.history) {
            return Ok(false);
        }
        if !is_same_config(&self.config, &other.config) {
            return Ok(false);
        }
        is_same_names(&self.names, &other.names)
    }
}

fn is_same_history(one: &Shared<History>, other: &Shared<History>) -> bool
    ensures { IsTrue result ↔ (one.now ≡ other.now) }
{
    one.is_same(other)
}

#[tactic(auto, using(crate::proofs::Same_parts::same_config))]
fn is_same_config(one: &Shared<Config>, other: &Shared<Config>) -> bool
    ensures { IsTrue result ↔ (one.now ≡ other.now) }
{
    **one == **other
}

fn is_same_names(one: &Shared<Namespace>, other: &Shared<Namespace>) -> Result<bool, AllocError>
    ensures { IfOk result (λ same. IsTrue same ↔ (one.now ≡ other.now)) }
{
    one.is_same(other)
}
