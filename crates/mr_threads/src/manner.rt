//! How the threads are run.
ghost use Rattle.std.specs.Prelude.{◌↔◌, ◌<◌, IsTrue};

use mr_drive::Plan;

// How many turns each thread has at most where that is not told: so many of any job, and so many more for each map from which each reduce fetches.
const TURNS: u64 = 100_000;

const TURNS_OF_A_FETCH: u64 = 10;

// How many looks show that no second map work comes, where none can.
const FEW_LOOKS: u64 = 1_000;

/// How the threads are run.
#[derive(Clone, Copy, Debug, PartialEq, Eq)]
pub struct Manner {
    /// How many turns each thread has at most; where that is not told it follows from the job's size.
    pub turns: Option<u64>,
    /// Whether the first map work is held until the second has begun, for at most as many looks as there are turns. A job of one split or of one node has no
    /// second one: its first is held for few looks.
    pub hold: bool,
}

impl Manner {
    // How many turns each thread has at most that runs this plan.
    pub(crate) fn turns_of(&self, plan: &Plan) -> u64 {
        match self.turns {
            Some(turns) => turns,
            None => default_turns(plan.config.maps(), plan.config.reduces),
        }
    }

    // How many times the gate looks at most that holds the first map work.
    pub(crate) fn looks_of(&self, plan: &Plan) -> u64 {
        let turns = self.turns_of(plan);
        if is_for_pairs(plan.config.splits.len(), plan.config.nodes) {
            turns
        } else {
            turns.min(FEW_LOOKS)
        }
    }
}

/// Whether works of two maps can be done at once: a node does one work at a time, and all works of a map are done on the node of the map's number.
pub fn is_for_pairs(maps: usize, nodes: u32) -> bool
    ensures { IsTrue result ↔ ((1 < maps) × (1 < nodes)) }
{
    maps > 1 && nodes > 1
}

fn default_turns(maps: u32, reduces: u32) -> u64 {
    u64::from(maps)
        .saturating_mul(u64::from(reduces))
        .saturating_mul(TURNS_OF_A_FETCH)
        .saturating_add(TURNS)
}
