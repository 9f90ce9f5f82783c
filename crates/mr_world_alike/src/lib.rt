//! Two runs that go on alike: whatever led to them, the same events lead both to the same ends.
//!
//! # What is proved
//!
//! `Alike` compares two worlds by what the machines and the stores of a running cluster hold, and by no past. It compares the
//! content of the namespace with its fence and bars, the records of the history, who lives, each living master and container,
//! each node, and the outcome. There is no code in this crate: each law is the contract of a function that does nothing.
//!
//! - **An event that is the same in two alike worlds of runs is permitted in both, or refused for the same reason**
//!   (`what_is_alike_stays_alike`). Where it is permitted, the same packets are sent, and both worlds are alike again. A packet
//!   that comes is the same where its envelope is, at whatever places of the two bags it lies.
//! - So it is of lists of events, where the limits take the same of them (`alike_runs_stay_alike`).
//! - `SamePackets` says of two bags which packets are still to come, and which may come once more. The same events keep it
//!   (`packets_stay_the_same`).
//! - To be alike is an equivalence among worlds of runs (`alike_is_an_equivalence`).
//! - Alike worlds of runs have one end: winners, marker, outcome, and the files that a reader sees (`alike_worlds_end_the_same`).
//!
//! Limits that bound what is handed in are a premise (`BoundsBytes`): those of a world are such.
//!
//! # Why worlds are compared so
//!
//! - **Machines are compared, not pasts.** A master that heard a question twice has another past, and the same machine. The
//!   machine of a task forgets who asked and is over, and in which order its attempts ended. So one machine stands for two pasts
//!   where what is read off them differs, and it is what code can compare.
//! - **The bag is no part of it.** An event reads one envelope of the bag, so bags are compared apart.
//! - **Dead masters and dead containers are not compared**: nothing reads them.
//! - **Limits are no part of it.** A world with fewer packets passes a limit later.
#![tactic(auto)]

ghost use Rattle.mr_world_alike.specs.Laws.{AlikeIsAnEquivalence, AlikeRunsStayAlike, AlikeWorldsEndTheSame, WhatIsAlikeStaysAlike};
ghost use Rattle.mr_world_alike.specs.Packets.{PacketsStayTheSame};
ghost use Rattle.mr_world_model.specs.Actors.{BoundsBytes};
ghost use Rattle.mr_world_model.specs.Claims.{Limits};
ghost use Rattle.mr_world_model.specs.Packets.{Config};

/// Where two runs have led to alike worlds, an event that is the same in both is permitted in both or refused for the same reason. If it is
/// permitted, it sends the same, and leaves alike worlds.
pub fn what_is_alike_stays_alike()
    ensures stays { (config : Config) (within : Limits) → BoundsBytes within → WhatIsAlikeStaysAlike config within }
{}

/// Where two runs have led to alike worlds, the same events lead to alike worlds, if the limits forbid the same of them.
pub fn alike_runs_stay_alike()
    ensures stay { (config : Config) (within : Limits) → BoundsBytes within → AlikeRunsStayAlike config within }
{}

/// Two runs that have the same packets before them, at whatever places of their bags, and of which one was delivered whatever the other was, stay so
/// where the same event sends the same. A packet of the one is then an event of the other.
pub fn packets_stay_the_same()
    ensures stay { PacketsStayTheSame }
{}

/// A world of a run is like itself. Where one is like another, that is like the first, and what is like the other is like the first too.
pub fn alike_is_an_equivalence()
    ensures { AlikeIsAnEquivalence }
{}

/// Alike worlds of runs have one end: the same winners, the marker in both or in none, the same outcome and the same files.
pub fn alike_worlds_end_the_same()
    ensures same { AlikeWorldsEndTheSame }
{}
