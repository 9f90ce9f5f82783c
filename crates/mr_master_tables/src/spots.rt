//! The tasks that are on a node, by node: attempts of theirs were launched there, or outputs of theirs lay there. This is the only place
//! that knows how they are kept.
ghost use Rattle.std.specs.Prelude.{◌≡◌, ◌<◌, ◌≤◌, ℕ, true, false, IfOk, IfSome, IfNone, OnOk, OnErr};
ghost use Rattle.std.specs.BTreeSet.{contains};
ghost use Rattle.mr_master_tables.specs.declared.spots.Spot.{Spot};
ghost use Rattle.mr_master_tables.specs.Spots.{has_spot, spot_cmp, lower, Grows, NoneBetween, NoneFrom};

use mr_ids::{TaskId, TaskKind};
use std::alloc::{AllocError, Global};
use std::collections::BTreeSet;
use std::marker::Model;
use std::ops::Bound;

/// A node, and the number of a task that is on it.
#[derive(Clone, Copy, Debug, PartialEq, Eq, PartialOrd, Ord)]
pub struct Spot {
    pub node: u32,
    pub number: u32,
}

/// The spots of maps, and those of reduces.
pub struct Spread {
    maps: BTreeSet<Spot>,
    reduces: BTreeSet<Spot>,
}

// By hand: one is dropped by this call.
impl Drop for Spread {
    fn drop(self) {
        let Spread {
            maps: _,
            reduces: _,
        } = self;
    }
}

impl Model for Spread {
    ghost use Rattle.mr_master_tables.specs.Spots.{Spread};

    ghost Value = { Spread };

    ghost view = { λ s. record { maps = s.maps; reduces = s.reduces } };
}

impl Spread {
    /// No task is on a node.
    pub fn new(alloc: Global) -> Spread {
        Spread {
            maps: BTreeSet::new(alloc),
            reduces: BTreeSet::new(alloc),
        }
    }

    /// The same tasks on the same nodes.
    pub fn copy(&self) -> Result<Spread, AllocError>
        ensures { IfOk result (λ spread. spread ≡ self.now) }
    {
        Ok(Spread {
            maps: self.maps.clone()?,
            reduces: self.reduces.clone()?,
        })
    }

    /// The task is on the node from then on.
    pub fn add(&mut self, node: u32, task: TaskId) -> Result<(), AllocError>
        ensures added { OnOk result (has_spot self.new task.kind node task.number ≡ true) }
        ensures kept { Grows self.old self.new }
    {
        let spot = Spot {
            node,
            number: task.number,
        };
        match task.kind {
            TaskKind::Map => insert(&mut self.maps, spot),
            TaskKind::Reduce => insert(&mut self.reduces, spot),
        }
    }

    /// Whether the task is on the node.
    pub fn has(&self, node: u32, task: &TaskId) -> bool
        ensures { result ≡ has_spot self.now task.now.kind node task.now.number }
    {
        let spot = Spot {
            node,
            number: task.number,
        };
        match task.kind {
            TaskKind::Map => self.maps.contains(&spot),
            TaskKind::Reduce => self.reduces.contains(&spot),
        }
    }

    /// Of the tasks of a kind on the node the first one from this number on.
    pub fn next(&self, kind: TaskKind, node: u32, from: u32) -> Option<u32>
        ensures from { IfSome result (λ number. from ≤ number) }
        ensures first { IfSome result (λ number. NoneBetween self.now kind node from number) }
        ensures none { IfNone result (NoneFrom self.now kind node from) }
    {
        match kind {
            TaskKind::Map => next_of(&self.maps, node, from),
            TaskKind::Reduce => next_of(&self.reduces, node, from),
        }
    }
}

fn insert(spots: &mut BTreeSet<Spot>, spot: Spot) -> Result<(), AllocError>
    ensures added { OnOk result (contains spot_cmp spots.new spot ≡ true) }
    ensures kept { (other : Spot) → contains spot_cmp spots.old other ≡ true → contains spot_cmp spots.new other ≡ true }
{
    spots.insert(spot)?;
    Ok(())
}

// The number of the first spot on the node that has this number at least.
fn next_of(spots: &BTreeSet<Spot>, node: u32, from: u32) -> Option<u32>
    ensures from { IfSome result (λ number. from ≤ number) }
    ensures first { IfSome result (λ number. (other : ℕ) → from ≤ other → other < number → contains spot_cmp spots.now (record { node = node; number = other }) ≡ false) }
    ensures none { IfNone result ((other : ℕ) → from ≤ other → contains spot_cmp spots.now (record { node = node; number = other }) ≡ false) }
{
    let first = Spot { node, number: from };
    let behind = (Bound::Included(first), Bound::Unbounded);
    match spots.range(behind).next() {
        Some(spot) => {
            if spot.node == node {
                Some(spot.number)
            } else {
                None
            }
        }
        None => None,
    }
}

/// The lower of two numbers, where there are both.
pub fn lower(one: Option<u32>, other: Option<u32>) -> Option<u32>
    ensures { result ≡ lower one other }
{
    match (one, other) {
        (Some(n), Some(m)) => Some(n.min(m)),
        (Some(n), None) => Some(n),
        (None, _) => other,
    }
}
