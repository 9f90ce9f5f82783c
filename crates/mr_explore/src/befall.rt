//! A fault befalls a run, or what an earlier one put off comes.
ghost use Rattle.std.specs.Prelude.{◌≡◌, false, IfOk};
ghost use Rattle.mr_world_model.specs.World.{Crash, Duty, Expire, LaunchOn};
ghost use Rattle.mr_play.specs.mr_world.specs.Applying.{CanHappen};
ghost use Rattle.mr_play.specs.mr_world.specs.Journal.{world_in};
ghost use Rattle.mr_play.specs.Players.{state_in};
ghost use Rattle.mr_explore_faults.specs.declared.fault.Fault.TheVariants as fault;
ghost use Rattle.mr_explore.specs.Faults.{NotPermitted};
ghost use Rattle.mr_explore.specs.inner.Players.{Fares, befallen_in, happening_in, starting_in};

use crate::tried::Tried;
use mr_explore_faults::Fault;
use mr_ids::{MAX_APP_ATTEMPTS, TaskId};
use mr_play::Player;
use mr_play::mr_world::WorldFault;
use mr_world_events::{Event, Weather};
use std::alloc::AllocError;

/// The fault befalls the run, or what one put off comes, if it is permitted and no limit forbids it. It fails by an allocation failure.
pub fn befall(player: &mut Player, fault: Fault) -> Result<Tried, AllocError>
    ensures { Fares player.old (befallen_in player.old (world_in player.old.world).fence fault) result player.new }
{
    let k = player.world.newest();
    match fault {
        Fault::Duty(weather) => tell(player, duty(k, weather)),
        Fault::Step(container, weather) => {
            tell(player, Event::ContainerStep { container, weather })
        }
        Fault::Lost(packet) => lose(player, packet),
        Fault::Late(packet) => tell(player, Event::Deliver { packet }),
        Fault::Again(packet) => tell(player, Event::Deliver { packet }),
        Fault::Crash(kept) => crash(player, k, kept),
        Fault::Halt(kept) => tell(player, halt(k, kept)),
        Fault::Next => start_next(player, k),
        Fault::Superseded(kept) => start(player, k, kept),
        Fault::SupersededLate(kept) => supersede_late(player, k, kept),
        Fault::Death(container) => tell(player, Event::Die { container }),
        Fault::Restart(node) => tell(player, Event::NodeRestart { node }),
        Fault::Expiry(node) => tell(player, expiry(k, node)),
        Fault::Attempt(task, node) => tell(player, launch(k, task, node)),
    }
}

/// Whether the fault may be tried on the run: where not, it is not permitted. It fails by an allocation failure.
///
/// It looks at what is often not permitted and is one event; whether all else can befall a run is found out by trying it.
pub fn may_befall(player: &Player, fault: &Fault) -> Result<bool, AllocError>
    ensures { IfOk result (λ may. may ≡ false → befallen_in player.now (world_in player.now.world).fence fault.now ≡ NotPermitted) }
{
    let k = player.world.newest();
    match *fault {
        Fault::Late(packet) => may_happen(player, &Event::Deliver { packet }),
        Fault::Next => Ok(may_start_next(player, k)),
        Fault::Again(packet) => may_happen(player, &Event::Deliver { packet }),
        Fault::Expiry(node) => may_happen(player, &expiry(k, node)),
        Fault::Attempt(task, node) => may_happen(player, &launch(k, task, node)),
        _ => Ok(true),
    }
}

// Whether `k` is not alive, so that the next master may start.
fn may_start_next(player: &Player, k: u32) -> bool
    ensures { result ≡ false → befallen_in player.now k fault.Next ≡ NotPermitted }
{
    match player.world.unflushed(k) {
        Some(_) => false,
        None => true,
    }
}

// Whether the event is permitted now. A limit may forbid it.
fn may_happen(player: &Player, event: &Event) -> Result<bool, AllocError>
    ensures { IfOk result (λ may. may ≡ false → happening_in player.now event.now (state_in player.now) ≡ NotPermitted) }
{
    match player.world.foresee(event) {
        Ok(()) => Ok(true),
        Err(WorldFault::NoMemory) => Err(AllocError),
        Err(WorldFault::NotNow(_)) => Ok(false),
        Err(WorldFault::Full) => Ok(true),
    }
}

// The store call of master `k` that is due.
fn duty(k: u32, weather: Weather) -> Event
    ensures { result ≡ Duty k weather }
{
    Event::Duty {
        generation: k,
        weather,
    }
}

// The crash of master `k`.
fn halt(k: u32, kept: u64) -> Event
    ensures { result ≡ Crash k kept }
{
    Event::Crash {
        generation: k,
        kept,
    }
}

// Master `k` gives a node up.
fn expiry(k: u32, node: u32) -> Event
    ensures { result ≡ Expire k node }
{
    Event::Expire {
        generation: k,
        node,
    }
}

// Master `k` launches an attempt of a task on a node.
fn launch(k: u32, task: TaskId, node: u32) -> Event
    ensures { result ≡ LaunchOn k task node }
{
    Event::LaunchOn {
        generation: k,
        task,
        node,
    }
}

// From here on no calm delivers the packet.
#[tactic(auto, using(crate::proofs::Trying::so_happens))]
fn lose(player: &mut Player, packet: u64) -> Result<Tried, AllocError>
    ensures { Fares player.old (befallen_in player.old 0 (fault.Lost packet)) result player.new }
{
    player.drop_packet(packet)?;
    Ok(Tried::Befell)
}

// Master `k` crashes, and the next one starts.
fn crash(player: &mut Player, k: u32, kept: u64) -> Result<Tried, AllocError>
    ensures { Fares player.old (befallen_in player.old k (fault.Crash kept)) result player.new }
{
    match tell(player, halt(k, kept))? {
        Tried::Befell => start(player, k, 0),
        Tried::CanNot => Ok(Tried::CanNot),
        Tried::PassesLimit => Ok(Tried::PassesLimit),
    }
}

// The next master starts, if `k` is not alive.
fn start_next(player: &mut Player, k: u32) -> Result<Tried, AllocError>
    ensures { Fares player.old (befallen_in player.old k fault.Next) result player.new }
{
    match player.world.unflushed(k) {
        Some(_) => Ok(Tried::CanNot),
        None => start(player, k, 0),
    }
}

// The next master starts, and `k` makes the store call that is due.
fn supersede_late(player: &mut Player, k: u32, kept: u64) -> Result<Tried, AllocError>
    ensures { Fares player.old (befallen_in player.old k (fault.SupersededLate kept)) result player.new }
{
    match start(player, k, kept)? {
        Tried::Befell => tell(player, duty(k, Weather::Calm)),
        Tried::CanNot => Ok(Tried::CanNot),
        Tried::PassesLimit => Ok(Tried::PassesLimit),
    }
}

// The master behind `k` starts; there is a last one.
#[tactic(auto, using(crate::proofs::Trying::starts, crate::proofs::Trying::is_last))]
fn start(player: &mut Player, k: u32, kept: u64) -> Result<Tried, AllocError>
    ensures { Fares player.old (starting_in player.old k kept) result player.new }
{
    if k < MAX_APP_ATTEMPTS {
        tell(
            player,
            Event::Start {
                generation: k + 1,
                kept,
            },
        )
    } else {
        Ok(Tried::PassesLimit)
    }
}

// The event happens as that of a line, if it is permitted and no limit forbids it.
#[tactic(auto, using(crate::proofs::Trying::not_permitted, crate::proofs::Trying::past_limit))]
fn tell(player: &mut Player, event: Event) -> Result<Tried, AllocError>
    ensures { Fares player.old (happening_in player.old event (state_in player.old)) result player.new }
{
    match player.world.foresee(&event) {
        Ok(()) => make(player, event),
        Err(WorldFault::NoMemory) => Err(AllocError),
        Err(WorldFault::NotNow(_)) => Ok(Tried::CanNot),
        Err(WorldFault::Full) => Ok(Tried::PassesLimit),
    }
}

// The same, of an event that is permitted and passes no limit.
#[tactic(auto, using(crate::proofs::Trying::as_told, crate::proofs::Trying::must_happen))]
fn make(player: &mut Player, event: Event) -> Result<Tried, AllocError>
    requires { CanHappen player.old.world event }
    ensures { Fares player.old (happening_in player.old event (state_in player.old)) result player.new }
{
    if player.tell(event)? {
        Ok(Tried::Befell)
    } else {
        unreachable!()
    }
}
