//! Whether two trees keep the same nodes under the same keys, as those do that the same calls have made.
ghost use Rattle.std.specs.Prelude.{◌≡◌, ℕ, ◌<◌, IsTrue};
ghost use Rattle.std.specs.Option.{option_copied};
ghost use Rattle.slab.specs.Slab.{get};
ghost use Rattle.mr_names_tree.specs.inner.Tree.{AreSamePlaces, SameGraph, SamePlace};

use crate::node::Node;
use crate::place::Place;
use mr_paths::Name;
use slab::Slab;
use std::collections::BTreeMap;

/// Whether both have the same nodes with the same edges, under the same keys. It takes no memory.
#[tactic(auto, using(crate::proofs::Same_places::graph_is))]
pub fn is_same_graph(nodes: &Slab<Place>, others: &Slab<Place>) -> bool
    ensures { IsTrue result → SameGraph nodes.now others.now }
{
    let keys = nodes.capacity().max(others.capacity());
    are_same_places(nodes, others, keys)
}

// The same, of the keys below this one.
fn are_same_places(nodes: &Slab<Place>, others: &Slab<Place>, keys: usize) -> bool
    ensures { IsTrue result → (key : ℕ) → key < keys → AreSamePlaces (get nodes.now key) (get others.now key) }
{
    for key in 0..keys {
        if !is_same_slot(nodes.get(key), others.get(key)) {
            return false;
        }
    }
    true
}

// Whether both have nothing, or the same node with the same edges.
fn is_same_slot(one: Option<&Place>, other: Option<&Place>) -> bool
    ensures { IsTrue result → AreSamePlaces (option_copied one.entry) (option_copied other.entry) }
{
    let Some(one) = one else {
        return other.is_none();
    };
    let Some(other) = other else {
        return false;
    };
    is_same_place(one, other)
}

// Whether both have the same node with the same edges.
fn is_same_place(one: &Place, other: &Place) -> bool
    ensures { IsTrue result → SamePlace one.now other.now }
{
    is_same_node(&one.node, &other.node) && have_same_edges(&one.children, &other.children)
}

#[tactic(auto, using(crate::proofs::Comparing::nodes_decide))]
fn is_same_node(one: &Node, other: &Node) -> bool
    ensures { IsTrue result → other.now ≡ one.now }
{
    other == one
}

// By their names and keys, in order.
fn have_same_edges(one: &BTreeMap<Name, usize>, other: &BTreeMap<Name, usize>) -> bool
    ensures { IsTrue result → other.now.entries ≡ one.now.entries }
{
    other == one
}
