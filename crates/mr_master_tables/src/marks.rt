//! Places that are marked, and the first of them, each in time that grows with the logarithm of their number.
//! A master finds the first task that waits by them; the marks of a job commit are another thing.
ghost use Rattle.std.specs.Prelude.{◌≡◌, ℕ, ◌+◌, ◌*◌, ◌/◌, ◌^◌, ◌<◌, ◌≤◌, Bool, true, false, length, slice_index_or, IfOk, IfSome, IfNone, vec_len, if◌then◌else◌};
ghost use Rattle.mr_master_tables.specs.Marks.{is_marked, IsFirst, IsSet, NodesBut, IsTree, NoneBetween};

use std::alloc::{AllocError, Global};
use std::marker::Model;

/// Places, some of which are marked.
pub struct Marks {
    // a node is marked where one of its two children is: the root is node 1, and the last nodes are the places
    tree: Vec<bool>,
    // how many times 2 is taken for the number of places
    height: usize,
}

// By hand: one is dropped by this call.
impl Drop for Marks {
    fn drop(self) {
        let Marks { tree: _, height: _ } = self;
    }
}

impl Model for Marks {
    ghost use Rattle.std.specs.Prelude.{◌^◌, Bool, List, drop};
    ghost use Rattle.mr_master_tables.specs.Marks.{IsTree};

    ghost Value = { List Bool };

    ghost view = { λ m. drop (2 ^ m.height) m.tree.items };

    ghost invariant = { λ m. IsTree m.tree.items m.height };
}

impl Marks {
    /// At least `count` places, none of which is marked.
    pub fn new(alloc: Global, count: usize) -> Result<Marks, AllocError>
        requires { count ≤ 2 ^ 40 }
        ensures room { IfOk result (λ marks. count ≤ length marks) }
        ensures none { IfOk result (λ marks. (i : ℕ) → is_marked marks i ≡ false) }
    {
        let (size, height) = size_for(count);
        let tree = vec![in alloc; false; 2 * size]?;
        Ok(Marks { tree, height })
    }

    /// The same places, with the same marks.
    pub fn copy(&self) -> Result<Marks, AllocError>
        ensures { IfOk result (λ marks. marks ≡ self.now) }
    {
        Ok(Marks {
            tree: self.tree.clone()?,
            height: self.height,
        })
    }

    /// The place is marked, or not, from then on.
    pub fn set(&mut self, place: usize, on: bool)
        requires { place < length self.old }
        ensures { IsSet self.old place on self.new }
    {
        let size = self.tree.len() / 2;
        mark(&mut self.tree, size, place, on);
    }

    /// The first marked place.
    pub fn first(&self) -> Option<usize>
        ensures first { IfSome result (λ i. IsFirst self.now i) }
        ensures none { IfNone result ((i : ℕ) → is_marked self.now i ≡ false) }
    {
        if self.tree[1] {
            let size = self.tree.len() / 2;
            Some(first_leaf(&self.tree, self.height) - size)
        } else {
            None
        }
    }
}

// The least power of 2 that is enough, and its exponent.
fn size_for(count: usize) -> (usize, usize)
    requires { count ≤ 2 ^ 40 }
    ensures enough { count ≤ result.0 }
    ensures most { result.0 ≤ 2 * 2 ^ 40 }
    ensures power { result.0 ≡ 2 ^ result.1 }
{
    let mut size = 1;
    let mut height = 0;
    while size < count {
        size *= 2;
        height += 1;
    }
    (size, height)
}

// A place is set, and then each node above it.
fn mark(tree: &mut Vec<bool>, size: usize, place: usize, on: bool)
    requires count { length tree.old.items ≡ 2 * size }
    requires within { place < size }
    requires nodes { NodesBut tree.old.items size 0 }
    ensures count { length tree.new.items ≡ length tree.old.items }
    ensures nodes { NodesBut tree.new.items size 0 }
    ensures here { slice_index_or tree.new.items (size + place) false ≡ on }
    ensures others { (j : ℕ) → size ≤ j → (j ≡ size + place → ⊥) → slice_index_or tree.new.items j false ≡ slice_index_or tree.old.items j false }
{
    let leaf = size + place;
    if tree[leaf] == on {
        return;
    }
    tree[leaf] = on;
    let mut node = leaf / 2;
    while node > 0 {
        let marked = tree[2 * node] || tree[2 * node + 1];
        tree[node] = marked;
        node /= 2;
    }
}

// Where the first marked place stands.
fn first_leaf(tree: &Vec<bool>, height: usize) -> usize
    requires tree { IsTree tree.now.items height }
    requires root { slice_index_or tree.now.items 1 false ≡ true }
    ensures after { 2 ^ height ≤ result }
    ensures within { result < 2 * 2 ^ height }
    ensures marked { slice_index_or tree.now.items result false ≡ true }
    ensures first { NoneBetween tree.now.items (2 ^ height) result }
{
    let mut node = 1;
    for _level in 0..height {
        node = below(tree, node);
    }
    node
}

// The first marked child.
fn below(tree: &Vec<bool>, node: usize) -> usize
    requires { 2 * node + 1 < vec_len tree.now }
    ensures { result ≡ 2 * node + (if slice_index_or tree.now.items (2 * node) false then 0 else 1) }
{
    if tree[2 * node] {
        2 * node
    } else {
        2 * node + 1
    }
}
