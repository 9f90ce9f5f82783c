//! Calms: what happens by itself, without a fault, until a master is through.
ghost use Rattle.std.specs.Prelude.{◌≡◌, ◌<◌, ◌%◌, ◌||◌, ℕ, false, Some, None, IfOk, is_some, length};
ghost use Rattle.std.specs.List.{slice_get};
ghost use Rattle.std.specs.Option.{option_map};
ghost use Rattle.mr_world_model.specs.Effect.{addressee};
ghost use Rattle.mr_world.specs.Journal.{world_in};
ghost use Rattle.mr_world.specs.Limits.{within};
ghost use Rattle.mr_world.specs.Readings.{due_in};
ghost use Rattle.mr_play.specs.EventNames.{stops_at};
ghost use Rattle.mr_play.specs.Text.{job_as};
ghost use Rattle.mr_play.specs.Played.{cursor_at, is_dropped, is_through, most_of, next_of, next_step, stop_of};
ghost use Rattle.mr_play.specs.Players.{calm_of, cluster_in, next_in, CalmsOnce, Goes, HappensAs, MakesNext, names_of};

use crate::event_names::{duty_event, wish_event};
use crate::fault::PlayerFault;
use crate::memory::read;
use crate::player::Player;
use mr_ids::TaskId;
use mr_master_model::{DutyName, Phase};
use mr_packet::ContainerId;
use mr_script::{EventName, Until};
use mr_world::{MAX_EVENTS, World};
use mr_world_events::{Event, Weather};
use std::alloc::{AllocError, Global};
use std::collections::BTreeSet;

/// Most events of a calm that is not to go through.
pub const MOST_CALM: u64 = 10_000;

/// Before which event a calm stops, if it is told one.
pub(crate) fn stop_of(until: Until) -> Option<EventName>
    ensures { result ≡ stop_of until }
{
    match until {
        Until::Before(name) => Some(name),
        Until::Most | Until::Through => None,
    }
}

/// How many events a calm makes at most. One that goes through makes as many as a journal holds.
#[tactic(auto, unfolding(crate::specs::Played::most_of, crate::specs::Played::most_calm))]
pub(crate) fn most_of(until: Until) -> u64
    ensures { result ≡ most_of until }
{
    match until {
        Until::Most | Until::Before(_) => MOST_CALM,
        Until::Through => MAX_EVENTS as u64,
    }
}

/// What a calm makes next.
#[derive(Clone, Copy, Debug, PartialEq, Eq)]
pub enum Coming {
    /// The packet at the cursor is delivered.
    Deliver,
    /// The master makes the store call that is due, which has this name.
    Duty(EventName),
    /// The master launches an attempt of the task.
    Launch(TaskId),
    /// The container makes its next step, which has this name.
    Step(ContainerId, Option<EventName>),
    /// The container computes.
    Compute(ContainerId),
}

impl Coming {
    /// Whether a calm that stops before a name stops here.
    pub fn stops_at(&self, stop: Option<EventName>) -> bool
        ensures { result ≡ stops_at stop (names_of self.now) }
    {
        let Some(name) = stop else {
            return false;
        };
        match self {
            Coming::Deliver => false,
            Coming::Duty(duty) => name == *duty,
            Coming::Launch(_) => name == EventName::Launch,
            Coming::Step(_, wish) => name == EventName::Step || *wish == Some(name),
            Coming::Compute(_) => name == EventName::Step || name == EventName::Compute,
        }
    }
}

impl Player {
    /// Makes events until master `k` is Ended, Stopped or not alive, nothing is left to do, or it is as far as the line says.
    pub(crate) fn calm(&mut self, alloc: Global, k: u32, until: Until) -> Result<(), PlayerFault>
        ensures { Goes self.old (calm_of self.old k (stop_of until) (most_of until)) result self.new }
    {
        self.calm_for(alloc, k, stop_of(until), most_of(until))
    }

    /// The same, where an event of the name `stop` is not made, and at most `most` events are. A calm goes on where the last one was.
    pub fn calm_for(
        &mut self,
        alloc: Global,
        k: u32,
        stop: Option<EventName>,
        most: u64,
    ) -> Result<(), PlayerFault>
        ensures { Goes self.old (calm_of self.old k stop most) result self.new }
    {
        for _ in 0..most {
            if !self.calm_once(alloc, k, stop)? {
                return Ok(());
            }
        }
        Ok(())
    }

    /// Makes one event of a calm; whether it goes on.
    fn calm_once(
        &mut self,
        alloc: Global,
        k: u32,
        stop: Option<EventName>,
    ) -> Result<bool, PlayerFault>
        ensures { CalmsOnce self.old k stop result self.new }
    {
        if self.is_through(k) {
            return Ok(false);
        }
        self.pass();
        let Some(coming) = self.coming(k)? else {
            return Ok(false);
        };
        if coming.stops_at(stop) {
            return Ok(false);
        }
        self.make_next(alloc, k, &coming)
    }

    // The master is Ended, Stopped or not alive.
    fn is_through(&self, k: u32) -> bool
        ensures { result ≡ is_through self.now.world.config (cluster_in self.now) k }
    {
        match self.world.phase(k) {
            None | Some(Phase::Ended | Phase::Stopped) => true,
            Some(_) => false,
        }
    }

    // The cursor passes over the packets that the script dropped and those that go to nobody who is alive, up to the first that is delivered.
    fn pass(&mut self)
        ensures { self.new ≡ record self.old { cursor = cursor_at (cluster_in self.old) self.old.dropped.keys self.old.cursor } }
    {
        self.cursor = passed(&self.world, &self.dropped, self.cursor);
    }

    /// The first that is there of a packet at the cursor, a duty, a launch and a step, of a master that is not through.
    #[tactic(auto, using(crate::proofs::Coming::packet_is, crate::proofs::Coming::duty_is, crate::proofs::Coming::launch_is, crate::proofs::Coming::step_is))]
    pub(crate) fn coming(&self, k: u32) -> Result<Option<Coming>, AllocError>
        ensures is { IfOk result (λ coming. is_through self.now.world.config (cluster_in self.now) k ≡ false →
            option_map (next_in self.now k) coming ≡ next_of (job_as self.now.job) self.now.world.config (within self.now.world.config) (cluster_in self.now) k self.now.stepped self.now.cursor) }
        ensures packet { IfOk result (λ coming. coming ≡ Some Coming.Deliver → self.now.cursor < length (cluster_in self.now).bag) }
    {
        if self.cursor < self.world.bag().len() {
            return Ok(Some(Coming::Deliver));
        }
        if let Some(duty) = self.duty(k)? {
            return Ok(Some(Coming::Duty(duty_event(duty))));
        }
        if let Some(task) = self.world.wanted(k) {
            return Ok(Some(Coming::Launch(task)));
        }
        Ok(self.coming_step())
    }

    // What the store call that is due is for.
    fn duty(&self, k: u32) -> Result<Option<DutyName>, AllocError>
        ensures is { IfOk result (λ due. due ≡ due_in self.now.world.config (cluster_in self.now) k) }
    {
        Ok(read(self.world.duty(k))?)
    }

    // The next living container after the one that stepped last.
    #[tactic(auto, using(crate::proofs::Coming::no_step, crate::proofs::Coming::next_wishes, crate::proofs::Coming::compute_is, crate::proofs::Coming::other_is))]
    fn coming_step(&self) -> Option<Coming>
        ensures other { result ≡ Some Coming.Deliver → ⊥ }
        ensures is { (k : ℕ) → option_map (next_in self.now k) result ≡ next_step (job_as self.now.job) self.now.world.config (within self.now.world.config) (cluster_in self.now) self.now.stepped self.now.cursor }
    {
        let Some(c) = self.world.next_living(self.stepped) else {
            return None;
        };
        let Some(wish) = self.world.wish(&c) else {
            return None;
        };
        if wish.is_computing() {
            Some(Coming::Compute(c))
        } else {
            Some(Coming::Step(c, wish_event(&wish)))
        }
    }

    // Makes the event; whether it was permitted.
    fn make_next(&mut self, alloc: Global, k: u32, coming: &Coming) -> Result<bool, PlayerFault>
        requires { coming.now ≡ Coming.Deliver → self.old.cursor < length (cluster_in self.old).bag }
        ensures { MakesNext self.old (next_in self.old k coming.now) result self.new }
    {
        match coming {
            Coming::Deliver => self.deliver(),
            Coming::Duty(_) => self.happens_alone(Event::Duty {
                generation: k,
                weather: Weather::Calm,
            }),
            Coming::Launch(task) => self.launch(k, task),
            Coming::Step(c, _) => self.happens(
                Event::ContainerStep {
                    container: *c,
                    weather: Weather::Calm,
                },
                Some(*c),
            ),
            Coming::Compute(c) => self.compute(alloc, c),
        }
    }

    // The packet at the cursor is delivered, and the cursor goes on.
    fn deliver(&mut self) -> Result<bool, PlayerFault>
        requires { self.old.cursor < length (cluster_in self.old).bag }
        ensures { (k : ℕ) → MakesNext self.old (next_in self.old k Coming.Deliver) result self.new }
    {
        let _count = self.world.bag().len();
        let place = self.cursor as u64;
        self.cursor += 1;
        self.happens_alone(Event::Deliver { packet: place })
    }

    // A launch of the task, on the node whose number is the task's, modulo the number of nodes.
    fn launch(&mut self, k: u32, task: &TaskId) -> Result<bool, PlayerFault>
        ensures { MakesNext self.old (next_in self.old k (Coming.Launch task.now)) result self.new }
    {
        let node = self.node_of(task.number);
        self.happens_alone(Event::LaunchOn {
            generation: k,
            task: *task,
            node,
        })
    }

    // The node of a task of this number.
    fn node_of(&self, number: u32) -> u32
        ensures { result ≡ number % self.now.world.config.nodes }
    {
        let config = self.world.config();
        config.ranges();
        number % config.nodes
    }

    // The container computes.
    fn compute(&mut self, alloc: Global, c: &ContainerId) -> Result<bool, PlayerFault>
        ensures { (k : ℕ) → MakesNext self.old (next_in self.old k (Coming.Compute c.now)) result self.new }
    {
        let event = self.computing(alloc, c)?;
        self.happens(event, Some(*c))
    }

    // An event that is no container's step; whether it was permitted.
    fn happens_alone(&mut self, event: Event) -> Result<bool, PlayerFault>
        ensures { HappensAs self.old event self.old.stepped result self.new }
    {
        let stepped = self.stepped;
        self.happens(event, stepped)
    }

    // Makes an event; whether it was permitted.
    fn happens(&mut self, event: Event, stepped: Option<ContainerId>) -> Result<bool, PlayerFault>
        ensures { HappensAs self.old event stepped result self.new }
    {
        match self.apply(event, stepped)? {
            None => Ok(true),
            Some(_) => Ok(false),
        }
    }
}

// Whether a calm passes over the packet at this place: it was dropped, or goes to nobody who is alive.
fn is_passed(world: &World, dropped: &BTreeSet<u64>, place: usize) -> bool
    ensures { result ≡ (is_dropped dropped.now.keys place || is_some (addressee (world_in world.now) (slice_get (world_in world.now).bag place))) }
{
    dropped.contains(&(place as u64)) || world.undeliverable(place).is_some()
}

// The place of the first packet from here on that is not passed over.
#[tactic(auto, using(crate::proofs::Coming::cursor_end, crate::proofs::Coming::cursor_stays, crate::proofs::Coming::cursor_goes))]
fn passed(world: &World, dropped: &BTreeSet<u64>, from: usize) -> usize
    ensures { result ≡ cursor_at (world_in world.now) dropped.now.keys from }
{
    let mut cursor = from;
    while cursor < world.bag().len() {
        if !is_passed(world, dropped, cursor) {
            return cursor;
        }
        cursor += 1;
    }
    cursor
}
