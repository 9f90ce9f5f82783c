//! Alike worlds show the same to whoever runs them.
//!
//! # What is proved
//!
//! What programs read of a world (mr_world) is the same of two alike worlds of runs (`alike_worlds_show_the_same`). It is the phase, the next store
//! call and the next task of each living master, what it did not flush, the place, the wish and the input of each living container, and who lives,
//! in order. So whoever goes by these goes on alike. There is no code in this crate.
#![tactic(auto)]

ghost use Rattle.mr_world_shows.specs.Shows.{AlikeWorldsShowTheSame};

/// Of two alike worlds of runs the same is read.
pub fn alike_worlds_show_the_same()
    ensures { AlikeWorldsShowTheSame }
{}
