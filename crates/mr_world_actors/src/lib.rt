//! What is kept of the containers and nodes of a cluster: the machines of the containers that are alive, in order, and
//! those of all nodes, by number. Also the packets of a container's step. Only the types here know how they are kept.
//!
//! None of them knows a master, the namespace or the bag. The world that keeps them is `mr_world`; which past they stand for is said there.
//!
//! # What is proved
//!
//! - Each call changes the machine of one container (`Changes`) or of one node (`ChangesNode`) as that machine's own
//!   step does, and those of no other. Where memory is refused, all is as it was. Of who does not live, and of a number
//!   that no node has, nothing changes.
//! - `Living::end_on` ends the containers that were launched on a node, and no other.
//! - `Living::copy` and `Nodes::copy` keep an equal machine of each container and each node, and of no other.
//! - `Living::is_same` and `Nodes::is_same` are true exactly where both hold the same machine of each container or node,
//!   and of no other.
//! - `Shared` holds a value that several worlds have, until one of them changes it. Contracts see the value alone.
//!   `Shared::share` gives the same value to one world more, and copies nothing. `Shared::own` lends the value to be
//!   changed: who else has it keeps what was. So does `Shared::own_clone`, of a value whose clone may differ from it.
//! - Memory may be taken by `Living::insert`, `Living::hear`, `Living::all`, `Nodes::new`, `Nodes::put`, `Nodes::hear`,
//!   `Nodes::restart`, `Shared::new`, `Shared::own`, `Shared::own_clone` and the copies. No other call takes any.
//! - `Living::all` lists who lives, by generation, then number; `Living::next` is the next one after another, in cyclic order.
//! - `Living::letters` tells the packet of a container's step, and whether it is its last. `Living::would_end` and
//!   `Nodes::would_answer` tell beforehand what a packet would lead to, and change nothing.
#![tactic(auto)]

mod letters;
mod living;
mod nodes;
mod shared;

pub use letters::Letters;
pub use living::Living;
pub use nodes::Nodes;
pub use shared::{Duplicate, Shared};
