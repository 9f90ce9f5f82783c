//! Which incarnation of each node is known. This is the only place that knows the map.
ghost use Rattle.std.specs.Prelude.{◌≡◌, ◌↔◌, ℕ, All, IfOk, IsTrue, OnOk, OnErr, nat_eq, if◌then◌else◌};
ghost use Rattle.std.specs.Map.{keys_of};
ghost use Rattle.mr_master_tables.specs.Nodes.{KeepsNodes, known_in};

use indexmap::IndexMap;
use std::alloc::{AllocError, Global};
use std::marker::Model;

/// The known incarnations. That of a node of which none was noted is 1.
pub struct Nodes {
    known: IndexMap<u32, u32>,
}

// By hand: one is dropped by this call.
impl Drop for Nodes {
    fn drop(self) {
        let Nodes { known: _ } = self;
    }
}

impl Model for Nodes {
    ghost use Rattle.std.specs.Prelude.{List, ℕ};

    ghost Value = { List (ℕ × ℕ) };

    ghost view = { λ n. n.known.entries };
}

impl Nodes {
    /// Each node is known in its first incarnation.
    pub fn new(alloc: Global) -> Nodes
        ensures { KeepsNodes result (λ n. 1) }
    {
        Nodes {
            known: IndexMap::new(alloc),
        }
    }

    /// The same incarnations.
    pub fn copy(&self) -> Result<Nodes, AllocError>
        ensures { IfOk result (λ nodes. nodes ≡ self.now) }
    {
        Ok(Nodes {
            known: self.known.clone()?,
        })
    }

    /// Whether each node is known in the same incarnation. The order in which incarnations were noted is not compared.
    #[tactic(auto, using(crate::proofs::Agreeing::agree_each))]
    pub fn is_same(&self, other: &Nodes) -> bool
        ensures { IsTrue result ↔ ((k : ℕ) → known_in self.now k ≡ known_in other.now k) }
    {
        self.agrees(other, self.noted()) && self.agrees(other, other.noted())
    }

    // The nodes of which an incarnation was noted.
    fn noted(&self) -> &[u32]
        ensures { result.now ≡ keys_of self.now }
    {
        self.known.keys().as_slice()
    }

    // Whether each of these nodes is known in the same incarnation.
    fn agrees(&self, other: &Nodes, nodes: &[u32]) -> bool
        ensures { IsTrue result ↔ All (λ k. known_in self.now k ≡ known_in other.now k) nodes.now }
    {
        nodes
            .iter()
            .all(|node| self.incarnation(*node) == other.incarnation(*node))
    }

    /// The known incarnation of a node.
    pub fn incarnation(&self, node: u32) -> u32
        ensures { result ≡ known_in self.now node }
    {
        match self.known.get(&node) {
            Some(incarnation) => *incarnation,
            None => 1,
        }
    }

    /// This incarnation of the node is known from then on.
    pub fn note(&mut self, node: u32, incarnation: u32) -> Result<(), AllocError>
        ensures noted { OnOk result ((n : ℕ) → known_in self.new n ≡ (if nat_eq n node then incarnation else known_in self.old n)) }
        ensures err { OnErr result (self.new ≡ self.old) }
    {
        self.known.insert(node, incarnation)?;
        Ok(())
    }
}
