//! The nodes as a graph: edges by name.
//! These are the steps of `tree`: edges are followed, added, moved and taken out, and with them the nodes behind them.
ghost use Rattle.std.specs.Prelude.{◌≡◌, Some, None, true, is_some, OnOk, OnErr, IfOk, IfSome, [], ◌∷◌, ℕ, List, MatchOption, length, nat_lt, take, ◌≤◌, ◌<◌, ◌+◌, ◌++◌, reverse};
ghost use Rattle.mr_names_tree.specs.inner.Tree.{edges_of, nodes_of, steps, IsTold, EdgeSet, SameGraph, NodeAdded, EdgeMoved, NodeChanged, NodeCut, CutBeneath, first_edge, DirsAdded, SomeAdded, links_of, line_at, ahead_of};
ghost use Rattle.std.specs.Prelude.{map as list_map};
ghost use Rattle.std.specs.List.{filter_map};
ghost use Rattle.std.specs.List.Sorted.{IsStrictlySortedBy};
ghost use Rattle.std.specs.Cmp.Lexicographic.{slice_cmp};
ghost use Rattle.std.specs.Ordering.{nat_cmp};
ghost use Rattle.mr_names_tree.specs.Listing.{entry_of};
ghost use Rattle.mr_names_tree.specs.Node.{appended, closed_of};
ghost use Rattle.std.specs.FinMap as map;
ghost use Rattle.std.specs.Option.{option_map};

use crate::node::{Entries, Entry, Node};
use crate::place::{Ahead, Place};
use mr_ids::Bytes;
use mr_paths::{Name, Path};
use slab::Slab;
use std::alloc::{AllocError, Global};
use std::collections::BTreeMap;

/// The node to which an edge with this name leads.
pub fn child(nodes: &Slab<Place>, at: usize, name: &Name) -> Option<usize>
    ensures { result ≡ edges_of nodes.now at name.now }
{
    match nodes.get(at) {
        Some(place) => place.children.get(name).copied(),
        None => None,
    }
}

/// The node at the end of a path, from a node on.
pub fn find(nodes: &Slab<Place>, from: usize, names: &[Name]) -> Option<usize>
    ensures { result ≡ steps (edges_of nodes.now) (Some from) names.now }
{
    let mut at = from;
    for name in names {
        match child(nodes, at, name) {
            Some(key) => at = key,
            None => return None,
        }
    }
    Some(at)
}

/// The last node to which a path leads, from a node on, and how many names lead to it.
pub fn reach(nodes: &Slab<Place>, from: usize, names: &[Name]) -> (usize, usize)
    ensures within { result.1 ≤ length names.now }
    ensures leads { steps (edges_of nodes.now) (Some from) (take result.1 names.now) ≡ Some result.0 }
    ensures ends { result.1 < length names.now → steps (edges_of nodes.now) (Some from) (take (result.1 + 1) names.now) ≡ None }
{
    let mut at = from;
    for (count, name) in names.iter().enumerate() {
        match child(nodes, at, name) {
            Some(key) => at = key,
            None => return (at, count),
        }
    }
    (at, names.len())
}

/// Adds an edge.
pub fn link(nodes: &mut Slab<Place>, at: usize, name: Name, key: usize) -> Result<(), AllocError>
    requires { is_some (nodes_of nodes.old at) ≡ true }
    ensures ok { OnOk result (EdgeSet nodes.old nodes.new at name (Some key)) }
    ensures err { OnErr result (SameGraph nodes.old nodes.new) }
{
    match nodes.get_mut(at) {
        Some(place) => {
            place.children.insert(name, key)?;
            Ok(())
        }
        None => unreachable!(),
    }
}

/// Takes an edge out.
pub fn unlink(nodes: &mut Slab<Place>, at: usize, name: &Name)
    ensures { EdgeSet nodes.old nodes.new at name.now None }
{
    if let Some(place) = nodes.get_mut(at) {
        place.children.remove(name);
    }
}

/// Adds a node with no edges at the end of a new edge. Its key is the result.
pub fn add_node(
    nodes: &mut Slab<Place>,
    alloc: Global,
    at: usize,
    name: Name,
    node: Node,
) -> Result<usize, AllocError>
    requires { is_some (nodes_of nodes.old at) ≡ true }
    ensures ok { IfOk result (λ key. NodeAdded nodes.old nodes.new at name node key) }
    ensures err { OnErr result (SameGraph nodes.old nodes.new) }
{
    let key = nodes.insert(Place {
        above: at,
        node,
        children: BTreeMap::new(alloc),
    })?;
    match link(nodes, at, name, key) {
        Ok(()) => Ok(key),
        Err(error) => {
            nodes.try_remove(key);
            Err(error)
        }
    }
}

/// Adds directories by these names from a node on, each beneath the one before. Refused, it has added some of them.
pub fn add_dirs(
    nodes: &mut Slab<Place>,
    alloc: Global,
    start: usize,
    names: &[Name],
) -> Result<(), AllocError>
    requires { is_some (nodes_of nodes.old start) ≡ true }
    ensures ok { OnOk result (DirsAdded nodes.old nodes.new start names.now) }
    ensures err { OnErr result (SomeAdded nodes.old nodes.new start names.now) }
{
    let mut at = start;
    for name in names {
        let copied = name.copy()?;
        let key = add_node(nodes, alloc, at, copied, Node::Dir)?;
        at = key;
    }
    Ok(())
}

// Notes the node above a node.
fn set_above(nodes: &mut Slab<Place>, key: usize, at: usize)
    ensures { SameGraph nodes.old nodes.new }
{
    if let Some(place) = nodes.get_mut(key) {
        place.above = at;
    }
}

/// Moves an edge.
pub fn move_edge(
    nodes: &mut Slab<Place>,
    from: usize,
    from_name: &Name,
    key: usize,
    at: usize,
    name: Name,
) -> Result<(), AllocError>
    requires { is_some (nodes_of nodes.old at) ≡ true }
    ensures ok { OnOk result (EdgeMoved nodes.old nodes.new from from_name.now key at name) }
    ensures err { OnErr result (SameGraph nodes.old nodes.new) }
{
    link(nodes, at, name, key)?;
    unlink(nodes, from, from_name);
    set_above(nodes, key, at);
    Ok(())
}

/// Adds bytes at the end of the file at a node.
pub fn append_at(nodes: &mut Slab<Place>, key: usize, more: &Bytes) -> Result<(), AllocError>
    ensures ok { OnOk result (NodeChanged nodes.old nodes.new key (appended more.now)) }
    ensures err { OnErr result (SameGraph nodes.old nodes.new) }
    ensures some { OnErr result (nat_lt 0 (length more.now) ≡ true) }
{
    match nodes.get_mut(key) {
        Some(place) => place.node.append(more),
        None => Ok(()),
    }
}

/// Closes the file at a node.
pub fn close_at(nodes: &mut Slab<Place>, key: usize)
    ensures { NodeChanged nodes.old nodes.new key closed_of }
{
    if let Some(place) = nodes.get_mut(key) {
        place.node.close();
    }
}

/// A node with no edges alone: a directory.
pub fn root_alone(alloc: Global) -> Result<(Slab<Place>, usize), AllocError>
    ensures { IfOk result (λ made. IsTold (edges_of made.0) (nodes_of made.0) made.1 (map.insert map.empty [] Node.Dir)) }
{
    let mut nodes = Slab::new(alloc);
    let root = nodes.insert(Place {
        above: 0,
        node: Node::Dir,
        children: BTreeMap::new(alloc),
    })?;
    Ok((nodes, root))
}

/// The same nodes with the same edges, under the same keys.
#[tactic(auto, using(crate::proofs::Copying::graph_copied))]
pub fn copy_nodes(nodes: &Slab<Place>) -> Result<Slab<Place>, AllocError>
    ensures { IfOk result (SameGraph nodes.now) }
{
    nodes.clone()
}

/// Takes out an edge, and the node to which it leads.
pub fn cut(nodes: &mut Slab<Place>, at: usize, name: &Name, key: usize)
    ensures { NodeCut nodes.old nodes.new at name.now key }
{
    unlink(nodes, at, name);
    nodes.try_remove(key);
}

/// The node to which the edge leads whose name comes first.
pub fn first_child(nodes: &Slab<Place>, at: usize) -> Option<usize>
    ensures { result ≡ option_map (λ e. e.1) (first_edge nodes.now at) }
{
    match nodes.get(at) {
        Some(place) => place.children.first_key_value().map(|(_, key)| *key),
        None => None,
    }
}

// Takes out the edge whose name comes first.
fn unlink_first(nodes: &mut Slab<Place>, at: usize) -> Option<usize>
    ensures { MatchOption result (first_edge nodes.old at ≡ None) (λ key. (name : List ℕ) × (first_edge nodes.old at ≡ Some (name, key)) × EdgeSet nodes.old nodes.new at name None) }
{
    match nodes.get_mut(at) {
        Some(place) => match place.children.pop_first() {
            Some((_name, key)) => Some(key),
            None => None,
        },
        None => None,
    }
}

/// Takes out the edge whose name comes first, and the node to which it leads.
pub fn cut_first(nodes: &mut Slab<Place>, at: usize)
    ensures { IfSome (first_edge nodes.old at) (λ e. NodeCut nodes.old nodes.new at e.0 e.1) }
{
    if let Some(key) = unlink_first(nodes, at) {
        nodes.try_remove(key);
    }
}

// The node above, if the edge from there whose name comes first leads here.
fn first_above(nodes: &Slab<Place>, at: usize) -> Option<usize>
    ensures { IfSome result (λ up. option_map (λ e. e.1) (first_edge nodes.now up) ≡ Some at) }
{
    match nodes.get(at) {
        Some(place) if first_child(nodes, place.above) == Some(at) => Some(place.above),
        _ => None,
    }
}

/// Deletes what is beneath the node `top`, bottom-up, from the node `start` beneath it on. Of several entries the one whose
/// name comes first goes first.
pub fn cut_on(nodes: &mut Slab<Place>, top: usize, start: usize)
    ensures { CutBeneath nodes.old nodes.new top start }
{
    let mut at = start;
    for _turn in 0..usize::MAX {
        if let Some(next) = first_child(nodes, at) {
            at = next;
            continue;
        }
        if at == top {
            return;
        }
        let Some(up) = first_above(nodes, at) else {
            return;
        };
        cut_first(nodes, up);
        at = up;
    }
}

/// The entries of a node, by the bytes of their names.
pub fn list(nodes: &Slab<Place>, alloc: Global, at: usize) -> Result<Entries, AllocError>
    ensures lines { IfOk result (λ entries. entries ≡ filter_map (line_at nodes.now) (links_of nodes.now at)) }
    ensures rising { IsStrictlySortedBy (slice_cmp nat_cmp) (list_map (λ e. e.0) (links_of nodes.now at)) }
    ensures some { OnErr result (nat_lt 0 (length (filter_map (line_at nodes.now) (links_of nodes.now at))) ≡ true) }
{
    let mut entries = Entries::new(alloc);
    if let Some(place) = nodes.get(at) {
        for (name, key) in place.children.iter() {
            if let Some(found) = nodes.get(*key) {
                push_entry(&mut entries, name, &found.node)?;
            }
        }
    }
    Ok(entries)
}

// Adds the entry of a node at the end.
fn push_entry(entries: &mut Entries, name: &Name, node: &Node) -> Result<(), AllocError>
    ensures { OnOk result (entries.new ≡ entries.old ++ entry_of name.now node.now ∷ []) }
{
    entries.push(Entry {
        name: name.copy()?,
        kind: node.kind(),
    })
}

/// Puts the nodes to which edges lead on top of those that are ahead, the one whose name comes first on top.
pub fn push_ahead(ahead: &mut Vec<Ahead>, place: &Place, path: &Path) -> Result<(), AllocError>
    ensures pushed { OnOk result (ahead.new.items ≡ ahead.old.items ++ list_map (ahead_of path.now) (reverse place.now.children.entries)) }
    ensures rising { OnOk result (IsStrictlySortedBy (slice_cmp nat_cmp) (list_map (λ e. e.0) place.now.children.entries)) }
{
    for (name, key) in place.children.iter().rev() {
        ahead.push(Ahead {
            path: path.child(name.copy()?)?,
            at: *key,
        })?;
    }
    Ok(())
}
