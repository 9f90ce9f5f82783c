//! What `tree` stores of each directory or file: what it is, and the keys of its entries. And what a walk through the tree has still to visit.
ghost use Rattle.std.specs.Prelude.{◌≡◌, IfOk};
ghost use Rattle.mr_names_tree.specs.inner.Tree.{SamePlace};

use crate::node::Node;
use mr_paths::{Name, Path};
use std::alloc::AllocError;
use std::collections::BTreeMap;

/// A node of the tree: what stands there, and beneath a directory the keys of its entries' nodes by their names.
#[derive(Drop)]
pub struct Place {
    /// The key of the node above. It saves a delete the way down from the top. No contract rests on it: it is tried before it is used.
    pub above: usize,
    pub node: Node,
    pub children: BTreeMap<Name, usize>,
}

impl Place {
    /// An equal place: the same node, and the same keys by the same names.
    #[tactic(auto, using(crate::proofs::Copying::same_links))]
    pub fn copy(&self) -> Result<Place, AllocError>
        ensures { IfOk result (SamePlace self.now) }
    {
        Ok(Place {
            above: self.above,
            node: self.node.copy()?,
            children: self.children.clone()?,
        })
    }
}

impl Clone for Place {
    ghost use Rattle.mr_names_tree.specs.inner.Tree.{SamePlace};

    ghost is_clone = { SamePlace };

    fn clone(&self) -> Result<Place, AllocError> {
        self.copy()
    }
}

/// A node that is still to be visited, and the path that leads to it.
#[derive(Drop)]
pub struct Ahead {
    pub path: Path,
    pub at: usize,
}
