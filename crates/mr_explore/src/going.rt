//! A run goes on by itself.
ghost use Rattle.std.specs.Prelude.{◌≡◌, ◌&&◌, not, true, IfOk};
ghost use Rattle.mr_explore.specs.Faults.{onward_by};
ghost use Rattle.mr_explore.specs.Exploring.{goes_on};
ghost use Rattle.mr_explore.specs.inner.Players.{GoesAs, calm_in, onward_in, vain_in};
ghost use Rattle.mr_play.specs.Players.{state_in};

use crate::vain::is_in_vain;
use mr_play::{Player, PlayerFault};
use std::alloc::{AllocError, Global};

/// The run makes an event more by itself; whether there was one. It has ended too where it goes on in vain, unless it is deep.
pub fn go_further(alloc: Global, player: &mut Player, deep: bool) -> Result<bool, PlayerFault>
    ensures { GoesAs (onward_in deep player.old) player.old result player.new }
{
    if is_ended(alloc, player, deep)? {
        return Ok(false);
    }
    calm_further(alloc, player)
}

/// Whether the run goes on where it is, if it is deep.
pub fn goes_on(alloc: Global, player: &Player) -> Result<bool, AllocError>
    ensures { IfOk result (λ on. on ≡ goes_on (onward_in true player.now)) }
{
    let mut ahead = player.fork(alloc)?;
    ahead_goes_on(alloc, &mut ahead)
}

// The same. The player makes the event.
#[tactic(auto, using(crate::proofs::Onwards::goes_if, crate::proofs::Onwards::goes_to_limit))]
fn ahead_goes_on(alloc: Global, ahead: &mut Player) -> Result<bool, AllocError>
    ensures { IfOk result (λ on. on ≡ goes_on (onward_in true ahead.old)) }
{
    match go_further(alloc, ahead, true) {
        Ok(went) => Ok(went),
        Err(fault) => match fault {
            PlayerFault::Full => Ok(true),
            PlayerFault::NoMemory => Err(AllocError),
        },
    }
}

// Whether the run goes on in vain, and is not deep.
fn is_ended(alloc: Global, player: &Player, deep: bool) -> Result<bool, AllocError>
    ensures { IfOk result (λ ended. ended ≡ (not deep && vain_in player.now)) }
{
    if deep {
        return Ok(false);
    }
    is_in_vain(alloc, player)
}

// The calm makes an event more; whether there was one.
fn calm_further(alloc: Global, player: &mut Player) -> Result<bool, PlayerFault>
    ensures { GoesAs (onward_by (state_in player.old) (calm_in player.old 1 (state_in player.old))) player.old result player.new }
{
    let before = player.world.journal().len();
    let newest = player.world.newest();
    match player.calm_for(alloc, newest, None, 1) {
        Ok(()) => {
            let after = player.world.journal().len();
            Ok(before < after)
        }
        Err(fault) => match fault {
            PlayerFault::Full => Err(PlayerFault::Full),
            PlayerFault::NoMemory => Err(PlayerFault::NoMemory),
        },
    }
}
