//! The directories and files of a namespace by their paths, as a tree in memory. It knows no callers, and fails by an allocation failure alone.
ghost use Rattle.std.specs.Prelude.{◌≡◌, ◌↔◌, ◌+◌, ℕ, All, [], ◌∷◌, ◌++◌, IfOk, OnOk, OnErr, length, nat_lt, ◌<◌, ◌≤◌, ◌^◌, Some, None, is_some, true, false, IsTrue, take, drop, filter};
ghost use Rattle.std.specs.Prelude.{map as list_map};
ghost use Rattle.std.specs.FinMap as map;
ghost use Rattle.std.specs.Option.{option_copied};
ghost use Rattle.mr_names_tree.specs.inner.Tree.{Held};
ghost use Rattle.mr_names_tree.specs.inner.TreeProofs.{held_prop};
ghost use Rattle.mr_names_tree.specs.Content.{IsTree, without, renamed, changed_at, with_dirs};
ghost use Rattle.mr_names_tree.specs.Node.{appended, closed_of};
ghost use Rattle.mr_names_tree.specs.Listing.{children};
ghost use Rattle.mr_names_tree.specs.Walk.{walk};
ghost use Rattle.mr_names_tree.specs.Held.{MayRename, is_absent, missing_count};
ghost use Rattle.mr_paths.specs.Path.{parent, prefixes};

use crate::links::{
    add_dirs, add_node, append_at, child, close_at, copy_nodes, cut, cut_first, cut_on, find,
    first_child, list, move_edge, push_ahead, reach, root_alone,
};
use crate::node::{Entries, Node};
use crate::place::{Ahead, Place};
use crate::same::is_same_graph;
use crate::walk::{Found, Walk};
use mr_ids::Bytes;
use mr_paths::{Name, Path};
use slab::Slab;
use std::alloc::{AllocError, Global};
use std::marker::Model;

/// Nodes by their paths.
#[derive(Drop)]
pub struct Tree {
    nodes: Slab<Place>,
    root: usize,
    ghost held: { Held nodes root } by { held_prop nodes root },
}

impl Model for Tree {
    ghost use Rattle.mr_names_tree.specs.Content.{Content, content_code};

    ghost Value = { Content };

    ghost coded = { content_code };

    ghost view = { λ t. t.held.0 };
}

impl Tree {
    pub fn get(&self, names: &[Name]) -> Option<&Node>
        ensures { option_copied result ≡ map.get self.now names.now }
    {
        let key = find(&self.nodes, self.root, names)?;
        match self.nodes.get(key) {
            Some(place) => Some(&place.node),
            None => None,
        }
    }

    /// How many entries there are, the root among them.
    pub fn len(&self) -> usize
        ensures { result ≡ map.len self.now }
    {
        self.nodes.len()
    }

    /// Puts a node where nothing is, beneath a path at which something is.
    pub fn insert(&mut self, alloc: Global, names: &[Name], node: Node) -> Result<(), AllocError>
        requires free { map.get self.old names.now ≡ None }
        requires above { is_some (map.get self.old (parent names.now)) ≡ true }
        ensures ok { OnOk result (self.new ≡ map.insert self.old names.now node) }
        ensures err { OnErr result (self.new ≡ self.old) }
    {
        let Some((name, above)) = names.split_last() else {
            unreachable!();
        };
        let name = name.copy()?;
        let Some(at) = find(&self.nodes, self.root, above) else {
            unreachable!();
        };
        let _key = add_node(&mut self.nodes, alloc, at, name, node)?;
        Ok(())
    }

    /// How many of the directories on the way down to a path are missing, the path with them. None where one is a file.
    pub fn missing(&self, names: &[Name]) -> Option<usize>
        requires { IsTree self.now }
        ensures { result ≡ missing_count self.now (prefixes names.now) }
    {
        let (at, there) = reach(&self.nodes, self.root, names);
        match self.nodes.get(at) {
            Some(place) => match place.node {
                Node::Dir => Some(names.len() - there),
                Node::File { .. } => None,
            },
            None => None,
        }
    }

    /// Makes what is missing on the way down to a path, the path with it, all or none.
    pub fn make_dirs(&mut self, alloc: Global, names: &[Name]) -> Result<(), AllocError>
        ensures ok { OnOk result (self.new ≡ with_dirs self.old (filter (is_absent self.old) (prefixes names.now))) }
        ensures err { OnErr result (self.new ≡ self.old) }
        ensures absent { OnErr result (is_absent self.old names.now ≡ true) }
    {
        let (at, there) = reach(&self.nodes, self.root, names);
        if names.len() <= there {
            return Ok(());
        }
        match add_dirs(&mut self.nodes, alloc, at, &names[there..]) {
            Ok(()) => Ok(()),
            Err(error) => {
                self.take_out(&names[..there + 1]);
                Err(error)
            }
        }
    }

    /// Moves what is at and beneath a path to a path where nothing is, beneath a directory: one edge.
    pub fn rename(&mut self, from: &[Name], to: &[Name]) -> Result<(), AllocError>
        requires { MayRename self.old from.now to.now }
        ensures ok { OnOk result (self.new ≡ renamed from.now to.now self.old) }
        ensures err { OnErr result (self.new ≡ self.old) }
    {
        let (Some((from_name, from_above)), Some((name, above))) = (
            from.split_last(),
            to.split_last(),
        ) else {
            unreachable!();
        };
        let name = name.copy()?;
        let Some(from_at) = find(&self.nodes, self.root, from_above) else {
            unreachable!();
        };
        let Some(key) = child(&self.nodes, from_at, from_name) else {
            unreachable!();
        };
        let Some(at) = find(&self.nodes, self.root, above) else {
            unreachable!();
        };
        move_edge(&mut self.nodes, from_at, from_name, key, at, name)?;
        Ok(())
    }

    /// The entries directly beneath a path, by the bytes of their names.
    pub fn children(&self, alloc: Global, top: &[Name]) -> Result<Entries, AllocError>
        ensures entries { IfOk result (λ entries. entries ≡ children self.now top.now) }
        ensures some { OnErr result (nat_lt 0 (length (children self.now top.now)) ≡ true) }
    {
        match find(&self.nodes, self.root, top) {
            Some(key) => list(&self.nodes, alloc, key),
            None => Ok(Entries::new(alloc)),
        }
    }

    /// What stands at each path, in the order of the paths.
    pub fn walk(&self, alloc: Global) -> Result<Walk, AllocError>
        ensures { IfOk result (λ found. found ≡ walk self.now) }
    {
        let mut found = Walk::new(alloc);
        let mut ahead = vec![in alloc;
            Ahead {
                path: Path::root(alloc),
                at: self.root
            },
        ]?;
        while let Some(next) = ahead.pop() {
            let Some(place) = self.nodes.get(next.at) else {
                unreachable!();
            };
            push_ahead(&mut ahead, place, &next.path)?;
            found.push(Found {
                path: next.path,
                length: place.node.length(),
            })?;
        }
        Ok(found)
    }

    /// The root alone.
    pub fn new(alloc: Global) -> Result<Tree, AllocError>
        ensures { IfOk result (λ tree. tree ≡ map.insert map.empty [] Node.Dir) }
    {
        let (nodes, root) = root_alone(alloc)?;
        Ok(Tree { nodes, root })
    }

    /// The same nodes by the same paths.
    pub fn copy(&self) -> Result<Tree, AllocError>
        ensures { IfOk result (λ tree. tree ≡ self.now) }
    {
        let nodes = copy_nodes(&self.nodes)?;
        Ok(Tree {
            nodes,
            root: self.root,
        })
    }

    /// Whether both hold the same: the same paths, and at each the same directory or file. It takes memory for a walk
    /// through one, where both have as many entries and were not made by the same calls.
    pub fn is_same(&self, alloc: Global, other: &Tree) -> Result<bool, AllocError>
        ensures { IfOk result (λ same. IsTrue same ↔ (self.now ≡ other.now)) }
    {
        if self.len() != other.len() {
            return Ok(false);
        }
        if self.is_made_alike(other) {
            return Ok(true);
        }
        let found = self.walk(alloc)?;
        Ok(self.are_alike(other, found.as_slice()))
    }

    // Whether both keep the same nodes under the same keys.
    fn is_made_alike(&self, other: &Tree) -> bool
        ensures { IsTrue result → self.now ≡ other.now }
    {
        self.root == other.root && is_same_graph(&self.nodes, &other.nodes)
    }

    // Whether both hold the same at each path that was found.
    fn are_alike(&self, other: &Tree, found: &[Found]) -> bool
        ensures { IsTrue result ↔ All (λ f. map.get self.now f.path ≡ map.get other.now f.path) found.now }
    {
        found.iter().all(|it| self.is_alike(other, it.path.names()))
    }

    // Whether both hold the same at a path.
    #[tactic(auto, using(crate::proofs::Comparing::nodes_decide))]
    fn is_alike(&self, other: &Tree, names: &[Name]) -> bool
        ensures { IsTrue result ↔ (map.get self.now names.now ≡ map.get other.now names.now) }
    {
        match self.get(names) {
            None => other.get(names).is_none(),
            Some(node) => match other.get(names) {
                None => false,
                Some(beside) => node == beside,
            },
        }
    }

    /// Adds bytes at the end of a file.
    pub fn append(&mut self, names: &[Name], more: &Bytes) -> Result<(), AllocError>
        ensures ok { OnOk result (self.new ≡ changed_at self.old names.now (appended more.now)) }
        ensures err { OnErr result (self.new ≡ self.old) }
        ensures some { OnErr result (nat_lt 0 (length more.now) ≡ true) }
    {
        let Some(key) = find(&self.nodes, self.root, names) else {
            return Ok(());
        };
        append_at(&mut self.nodes, key, more)?;
        Ok(())
    }

    /// Closes a file.
    pub fn close(&mut self, names: &[Name])
        ensures { self.new ≡ changed_at self.old names.now closed_of }
    {
        if let Some(key) = find(&self.nodes, self.root, names) {
            close_at(&mut self.nodes, key);
        }
    }

    /// Deletes what is at and beneath a path, bottom-up. The path is not the root.
    pub fn take_out(&mut self, top: &[Name])
        requires { 0 < length top.now }
        ensures { self.new ≡ without top.now self.old }
    {
        while self.take_leaf(top) {}
    }

    // Deletes a leaf, an entry that has no entries, at or beneath a path. Then it goes on beneath the path, bottom-up. False
    // where nothing is at the path.
    fn take_leaf(&mut self, top: &[Name]) -> bool
        requires { 0 < length top.now }
        ensures more { IsTrue result → (without top.now self.new ≡ without top.now self.old) × (map.len self.new < map.len self.old) }
        ensures done { result ≡ false → self.new ≡ without top.now self.old }
    {
        let Some((name, above)) = top.split_last() else {
            return false;
        };
        let Some(above) = find(&self.nodes, self.root, above) else {
            return false;
        };
        let Some(key) = child(&self.nodes, above, name) else {
            return false;
        };
        let Some(mut first) = first_child(&self.nodes, key) else {
            cut(&mut self.nodes, above, name, key);
            return true;
        };
        let mut at = key;
        'down: while let Some(next) = first_child(&self.nodes, first) {
            at = first;
            first = next;
        }
        cut_first(&mut self.nodes, at);
        cut_on(&mut self.nodes, key, at);
        true
    }
}
