//! All that a world stores: both stores, the bag, and the machines of masters, containers and nodes. Most other files
//! give it the calls of one kind of event.
ghost use Rattle.std.specs.Prelude.{◌≡◌, ◌<◌, ◌≤◌, ◌+◌, length, OnOk, IfErr};
ghost use Rattle.mr_names.specs.Calls.{IsSound};
ghost use Rattle.mr_world_state.specs.declared.fault.WorldFault.TheVariants.{Full};

use crate::config::Config;
use crate::fault::WorldFault;
use crate::masters::Masters;
use crate::room::check_room;
use mr_history::History;
use mr_names::Namespace;
use mr_packet::{Bag, MAX_PACKETS};
use mr_paths::Layout;
use mr_world_actors::{Living, Nodes, Shared};
use std::alloc::Global;

/// What a world stores. Of containers that are over nothing is kept, and of old masters an empty place for each.
pub struct Parts {
    /// What the world was made for.
    pub config: Shared<Config>,
    /// The paths of the job's committer, at the destination.
    pub layout: Shared<Layout>,
    /// The namespace, in which the job's output lies.
    pub names: Shared<Namespace>,
    /// The job history, in bytes.
    pub history: Shared<History>,
    /// All packets that were ever sent.
    pub bag: Bag,
    /// The machines of the masters that are alive.
    pub masters: Masters,
    /// The machines of the containers that are alive.
    pub living: Living,
    /// The machines of all nodes.
    pub nodes: Nodes,
    /// How many containers were launched.
    pub launched: u32,
}

// By hand, so that what a world stores is dropped by this call: a derived drop is taken apart by the check at each
// place where one is dropped.
impl Drop for Parts {
    fn drop(self) {
        let Parts {
            config: _,
            layout: _,
            names: _,
            history: _,
            bag: _,
            masters: _,
            living: _,
            nodes: _,
            launched: _,
        } = self;
    }
}

impl Parts {
    /// Refuses `Full` where `more` packets find no room in the bag.
    pub(crate) fn check_room(&self, more: usize) -> Result<(), WorldFault>
        ensures room { OnOk result (length self.now.bag.packets + more ≤ MAX_PACKETS) }
        ensures full { IfErr result (λ fault. (fault ≡ WorldFault.Full) × (MAX_PACKETS < length self.now.bag.packets + more)) }
    {
        check_room(&self.bag, more)
    }

    /// How many masters were started.
    pub(crate) fn fence(&self) -> u32
        ensures value { result ≡ self.now.names.fence }
        ensures sound { IsSound self.now.names }
    {
        self.names.fence()
    }

    /// How many reduces the job has.
    pub(crate) fn reduce_count(&self) -> u32
        ensures { result ≡ self.now.config.reduces }
    {
        self.config.reduce_count()
    }

    /// How many maps the job has.
    pub(crate) fn maps(&self) -> u32
        ensures { result ≡ length self.now.config.splits }
    {
        self.config.maps()
    }

    /// What a world takes memory from.
    pub(crate) fn allocator(&self) -> Global {
        self.layout.dest.allocator()
    }
}
