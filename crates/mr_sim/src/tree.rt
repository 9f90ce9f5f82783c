//! `play` with the listing of the namespace at the end in place of its text.
ghost use Rattle.std.specs.Prelude.{◌≡◌, IfOk, IfErr};
ghost use Rattle.mr_sim_commands.specs.committer.Listing.{listing};
ghost use Rattle.mr_trace.specs.mr_play.specs.Text.{IsAsExpected, PlayFails};
ghost use Rattle.mr_trace.specs.mr_world.specs.Journal.{world_in};
ghost use Rattle.mr_trace.specs.mr_world.specs.Limits.{within};
ghost use Rattle.mr_sim.specs.Trees.{ListsPlay};

use mr_sim_commands::{Printed, SimFault, print_listing};
use mr_trace::mr_play::{Player, played};
use std::alloc::{AllocError, Global};

/// The listing of the namespace, as `committer` has it, of the world to which the script of the input leads; with the faults of `play`.
/// `NoMemory` may come of the listing too.
pub(crate) fn play_tree(alloc: Global, input: &[u8]) -> Result<Printed, SimFault>
    ensures ok { IfOk result (λ v. ListsPlay within input.now v.text.items) }
    ensures met { IfOk result (λ v. IsAsExpected within input.now v.met) }
    ensures fault { IfErr result (PlayFails within input.now) }
{
    let player = played(alloc, input)?;
    let text = tree_of(alloc, &player)?;
    Ok(player.printed(text))
}

// The listing of the namespace of a player's world.
fn tree_of(alloc: Global, player: &Player) -> Result<Vec<u8>, AllocError>
    ensures { IfOk result (λ text. text.items ≡ listing (world_in player.now.world).content) }
{
    let mut text = Vec::new(alloc);
    print_listing(player.world.names(), &mut text)?;
    Ok(text)
}
