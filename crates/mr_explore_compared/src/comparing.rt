//! Whether a run is like another one.
ghost use Rattle.std.specs.Prelude.{◌≡◌, false, IsTrue, IfOk, IfErr};
ghost use Rattle.mr_play.specs.Players.{cluster_in, state_in};
ghost use Rattle.mr_explore_search.specs.Steps.{IsNotFull};
ghost use Rattle.mr_explore_likeness.specs.Plays.{asking_last};
ghost use Rattle.mr_explore_likeness.specs.Runs.{like};
ghost use Rattle.mr_explore_compared.specs.inner.Compared.{AreComparable, AreDroppedAlike, AreSame, HasComeToo, HaveLedAlike, IsNoNearerIn, MayGoOn, PlayersLookAlike};

use crate::deliveries::have_come;
use crate::dropping::are_dropped_too;
use crate::owing::are_owed_alike;
use crate::packets::{asking_last, have_one_ahead};
use mr_explore::{Explored, Fault};
use mr_explore_search::WalkFault;
use mr_packet::ContainerId;
use mr_play::Player;
use mr_play::mr_world::World;
use mr_sim_commands::JobKind;

/// Whether a run, in which this was put off, is known to be like another one, in which that was put off: whatever comes of
/// it then comes of the other one. It does not find all that are alike. Its only fault is an allocation failure.
pub fn is_like(
    run: &Explored,
    owed: &[Fault],
    other: &Explored,
    other_owed: &[Fault],
) -> Result<bool, WalkFault>
    ensures known { IfOk result (λ known. IsTrue known → like false run.now owed.now other.now other_owed.now) }
    ensures fault { IfErr result IsNotFull }
{
    if !are_comparable(run, other) {
        return Ok(false);
    }
    let player = run.player();
    let beside = other.player();
    if !are_owed_alike(player, owed, beside, other_owed) || !look_alike(player, beside) {
        return Ok(false);
    }
    led_alike(player, beside)
}

// Whether both may go on, and are of one job.
fn are_comparable(run: &Explored, other: &Explored) -> bool
    ensures { IsTrue result → AreComparable run.now other.now }
{
    if !may_go_on(run) || !may_go_on(other) {
        return false;
    }
    is_same_job(run.player().job(), other.player().job())
}

// Whether it has begun, no limit forbids its last fault, and it is not deep.
fn may_go_on(run: &Explored) -> bool
    ensures { IsTrue result → MayGoOn run.now }
{
    if run.passes_limit() || run.is_deep() {
        return false;
    }
    !run.world().journal().is_empty()
}

fn is_same_job(job: JobKind, other: JobKind) -> bool
    ensures { IsTrue result → job ≡ other }
{
    job == other
}

// Whether two plays have the same before them, and the second is nowhere nearer to a limit. Where they have led is not compared.
fn look_alike(player: &Player, beside: &Player) -> bool
    ensures { IsTrue result → PlayersLookAlike player.now beside.now }
{
    if !is_no_nearer(player, beside) || !is_same_container(player.stepped(), beside.stepped()) {
        return false;
    }
    if !have_one_ahead(player, beside) || !ask_alike(player, beside) {
        return false;
    }
    are_dropped_alike(player, beside)
}

// Whether the second play is nowhere nearer to a limit.
fn is_no_nearer(player: &Player, beside: &Player) -> bool
    ensures { IsTrue result → IsNoNearerIn player.now beside.now }
{
    beside.world.journal().len() <= player.world.journal().len()
        && beside.world.bag().len() <= player.world.bag().len()
        && beside.world.launches() <= player.world.launches()
}

// Whether as many packets that only ask lie last.
fn ask_alike(player: &Player, beside: &Player) -> bool
    ensures { IsTrue result → asking_last (cluster_in player.now).bag ≡ asking_last (cluster_in beside.now).bag }
{
    asking_last(player.world.bag()) == asking_last(beside.world.bag())
}

fn is_same_container(stepped: Option<ContainerId>, other: Option<ContainerId>) -> bool
    ensures { IsTrue result → stepped ≡ other }
{
    stepped == other
}

// Whether the same was dropped of what is ahead.
fn are_dropped_alike(player: &Player, beside: &Player) -> bool
    ensures { IsTrue result → AreDroppedAlike (state_in player.now) (state_in beside.now) }
{
    let (m, n) = (player.cursor() as u64, beside.cursor() as u64);
    are_dropped_too(player.dropped(), m, beside.dropped(), n)
        && are_dropped_too(beside.dropped(), n, player.dropped(), m)
}

// Whether two plays have led to worlds that are alike, and what came in the first came in the second. Most that differ differ in their worlds.
fn led_alike(player: &Player, beside: &Player) -> Result<bool, WalkFault>
    ensures led { IfOk result (λ known. IsTrue known → HaveLedAlike player.now beside.now) }
    ensures fault { IfErr result IsNotFull }
{
    if !are_worlds_same(&player.world, &beside.world)? {
        return Ok(false);
    }
    Ok(has_come_too(player, beside))
}

// Whether each packet that came in the first play came in the second.
fn has_come_too(player: &Player, beside: &Player) -> bool
    ensures { IsTrue result → HasComeToo player.now beside.now }
{
    have_come(
        player,
        player.world.journal(),
        beside,
        beside.world.journal(),
    )
}

// Whether two worlds are alike.
fn are_worlds_same(world: &World, other: &World) -> Result<bool, WalkFault>
    ensures same { IfOk result (λ same. IsTrue same → AreSame world.now other.now) }
    ensures fault { IfErr result IsNotFull }
{
    match world.is_alike(other) {
        Ok(alike) => Ok(alike),
        Err(_) => Err(WalkFault::NoMemory),
    }
}
