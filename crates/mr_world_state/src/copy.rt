//! Parts of a world once more, for a world of its own that is as far.
ghost use Rattle.std.specs.Prelude.{◌≡◌, IfOk};
ghost use Rattle.mr_world_actors.specs.Living.{Same};
ghost use Rattle.mr_world_actors.specs.Nodes.{SameNodes};
ghost use Rattle.mr_world_model.specs.World.{World};
ghost use Rattle.mr_world_state.specs.Standing.{Standing};
ghost use Rattle.mr_world_state.specs.inner.Masters.{SameMasters};

use crate::masters::Masters;
use crate::parts::Parts;
use mr_history::History;
use mr_names::Namespace;
use mr_packet::Bag;
use mr_world_actors::{Living, Nodes, Shared};
use std::alloc::AllocError;

// The stores and the bag.
#[derive(Drop)]
struct Stores {
    names: Shared<Namespace>,
    history: Shared<History>,
    bag: Bag,
}

// The machines of masters, containers and nodes.
#[derive(Drop)]
struct Machines {
    masters: Masters,
    living: Living,
    nodes: Nodes,
}

impl Parts {
    /// Parts of their own, which stand for each world that these stand for.
    pub fn copy(&self) -> Result<Parts, AllocError>
        ensures config { IfOk result (λ parts. parts.config ≡ self.now.config) }
        ensures history { IfOk result (λ parts. parts.history ≡ self.now.history) }
        ensures stands { IfOk result (λ parts. (w : World) → Standing self.now w → Standing parts w) }
    {
        let config = self.config.share()?;
        let layout = self.layout.share()?;
        let stores = self.copy_stores()?;
        let machines = self.copy_machines()?;
        Ok(Parts {
            config,
            layout,
            names: stores.names,
            history: stores.history,
            bag: stores.bag,
            masters: machines.masters,
            living: machines.living,
            nodes: machines.nodes,
            launched: self.launched,
        })
    }

    fn copy_stores(&self) -> Result<Stores, AllocError>
        ensures names { IfOk result (λ stores. stores.names ≡ self.now.names) }
        ensures history { IfOk result (λ stores. stores.history ≡ self.now.history) }
        ensures bag { IfOk result (λ stores. stores.bag.packets ≡ self.now.bag.packets) }
    {
        Ok(Stores {
            names: self.names.share()?,
            history: self.history.share()?,
            bag: self.bag.copy()?,
        })
    }

    fn copy_machines(&self) -> Result<Machines, AllocError>
        ensures masters { IfOk result (λ machines. SameMasters self.now.masters machines.masters) }
        ensures living { IfOk result (λ machines. Same self.now.living machines.living) }
        ensures nodes { IfOk result (λ machines. SameNodes self.now.nodes machines.nodes) }
    {
        Ok(Machines {
            masters: self.masters.copy()?,
            living: self.living.copy()?,
            nodes: self.nodes.copy()?,
        })
    }
}
