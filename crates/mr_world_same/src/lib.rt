//! Where the parts of two worlds hold the same, the worlds are alike.
//!
//! # What is proved
//!
//! `SameParts` says of each part of a world's parts what has to be equal: of both stores all, of the machines of masters, containers and nodes
//! what they store. Spare room, the bag and the number of launches are not compared. Where it holds, and the same outcome was told, the worlds
//! that the parts stand for are alike (`what_is_same_is_alike`), so the same events lead both to the same ends (mr_world_alike). There is no code
//! in this crate.
//!
//! # What compares them
//!
//! `Parts::is_same` of mr_world_state, which answers true exactly where `SameParts` holds. It stands on an `is_same`
//! beside each `copy` of a part: of stores (mr_names_tree, mr_names, mr_history), masters (mr_commit, mr_attempt, mr_grant, mr_task, and the crates
//! mr_master_tables to mr_master), containers and nodes (mr_mapside, mr_shuffle, mr_node, mr_container, mr_world_actors). `World::is_alike` of mr_world
//! compares the outcome too. Bags are compared apart (`SamePackets` of mr_world_alike).
#![tactic(auto)]

ghost use Rattle.mr_world_same.specs.Same.{WhatIsSameIsAlike};

/// Where two worlds' parts hold the same, and the same outcome was told, the worlds are alike.
pub fn what_is_same_is_alike()
    ensures { WhatIsSameIsAlike }
{}
