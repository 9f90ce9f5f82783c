//! Alike plays go on alike.
//!
//! # What is proved
//!
//! Two plays are alike (`SamePlay`) where their worlds are, the same packets are still to come, the same of these were dropped, and the same container stepped
//! last. A calm then makes the same event next in both, or none (`alike_plays_go_on_alike`). Where calms of both come to their
//! ends, no limit forbidding an event, the plays are alike again (`alike_plays_calm_alike`). So they are behind the same
//! event of its own (`alike_plays_take_alike`), and where both drop the packet that is as far behind their cursors
//! (`alike_plays_drop_alike`). There is no code in this crate.
#![tactic(auto)]

ghost use Rattle.mr_play_alike.specs.Plays.{AlikePlaysCalmAlike, AlikePlaysDropAlike, AlikePlaysGoOnAlike, AlikePlaysTakeAlike};
ghost use Rattle.mr_world_model.specs.Actors.{BoundsBytes};
ghost use Rattle.mr_world_model.specs.Claims.{Limits};
ghost use Rattle.mr_world_model.specs.Packets.{Config};
ghost use Rattle.mr_world_model.specs.Sequential.{Job};

/// Of two alike plays a calm of a living master makes the same event next, or none.
pub fn alike_plays_go_on_alike()
    ensures { AlikePlaysGoOnAlike }
{}

/// Two alike plays are alike behind a calm too, where both come to its end.
pub fn alike_plays_calm_alike()
    ensures { (job : Job) (config : Config) (within : Limits) → BoundsBytes within → AlikePlaysCalmAlike job config within }
{}

/// Two alike plays are alike behind the same event of a line or a fault, where both take it.
pub fn alike_plays_take_alike()
    ensures { (job : Job) (config : Config) (within : Limits) → BoundsBytes within → AlikePlaysTakeAlike job config within }
{}

/// Two alike plays are alike where both drop the packet that is as far behind their cursors.
pub fn alike_plays_drop_alike()
    ensures { (job : Job) (config : Config) (within : Limits) → AlikePlaysDropAlike job config within }
{}
