//! Nodes that are gone, wholly or in their lower incarnations.
ghost use Rattle.std.specs.Prelude.{◌≡◌, Some, ℕ};
ghost use Rattle.mr_master_tables.specs.Gone.{is_gone, is_lost};
ghost use Rattle.mr_master_tables.specs.Spots.{node_of};

use mr_master_model::Launch;

/// What is gone with a node.
#[derive(Clone, Copy, Drop)]
pub enum Gone {
    /// The node runs in this incarnation: what was launched or lies there in a lower one is gone.
    Restarted(u32, u32),
    /// The node was given up.
    GivenUp(u32),
}

impl Gone {
    /// The node that was restarted or given up.
    pub fn node(&self) -> u32
        ensures { result ≡ node_of self.now }
    {
        match *self {
            Gone::Restarted(node, _) | Gone::GivenUp(node) => node,
        }
    }

    /// Whether what was launched so is gone.
    pub fn has(&self, launch: &Launch) -> bool
        ensures { result ≡ is_gone self.now (Some launch.now) }
    {
        self.lies(launch.node, launch.incarnation)
    }

    /// Whether an output that lies there is lost.
    pub fn lies(&self, node: u32, incarnation: u32) -> bool
        ensures { result ≡ is_lost self.now (Some (record { node = node; incarnation = incarnation })) }
    {
        match *self {
            Gone::Restarted(n, i) => node == n && incarnation < i,
            Gone::GivenUp(n) => node == n,
        }
    }
}
