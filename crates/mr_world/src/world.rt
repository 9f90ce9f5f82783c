//! The world as programs see it: events are applied to it, its journal keeps them, and all that it tells is read here.
ghost use Rattle.std.specs.Prelude.{◌≡◌, ◌≤◌, ◌<◌, [], IfOk, IfErr, IsTrue, map, slice_get};
ghost use Rattle.std.specs.List.{range_with_len};
ghost use Rattle.std.specs.Option.{option_map};
ghost use Rattle.mr_history.specs.Reading.{records_of};
ghost use Rattle.mr_world_alike.specs.Alike.{Alike};
ghost use Rattle.mr_world_model.specs.Ids.{marker, reduce_of};
ghost use Rattle.mr_world_model.specs.Content.{entry_at, is_file};
ghost use Rattle.mr_world_model.specs.World.{Compute};
ghost use Rattle.mr_world_model.specs.Effect.{addressee};
ghost use Rattle.mr_world_model.specs.Claims.{winner};
ghost use Rattle.mr_world_model.specs.Results.{outcome, visible};
ghost use Rattle.mr_world_state.specs.declared.fault.WorldFault.TheVariants.{NoMemory};
ghost use Rattle.mr_world.specs.Applying.{Applies, Foretells, Passes, Runs, foretold_in};
ghost use Rattle.mr_world.specs.Asks.{asked_in};
ghost use Rattle.mr_world.specs.Headline.{HeadlineHolds};
ghost use Rattle.mr_world.specs.Histories.{stable_bytes};
ghost use Rattle.mr_world.specs.Journal.{history_in, world_in};
ghost use Rattle.mr_world.specs.Limits.{launch_count};
ghost use Rattle.mr_world.specs.Readings.{as_input, due_in, input_in, living, next_living, phase_in, place_in, unflushed_in, wanted_in, wish_in};
ghost use Rattle.mr_world.specs.Repeating.{CanFollow};
ghost use Rattle.mr_world.specs.VisibleFiles.{as_pair};

use crate::alike::{are_alike, launches};
use crate::copy::copy_events;
use crate::happen::{foresee, foresee_computed, make_room, take};
use crate::inputs::{Input, input_of, place, wish};
use crate::living_ones::{living, next_living};
use crate::reading::{due, names, newest, packets, phase, stable, unflushed, wanted};
use crate::results::{VisibleFile, marker, outcome, visible};
use crate::took::Took;
use crate::winners::{recorded_winner, recorded_winners};
use mr_container::{Place, Wish};
use mr_ids::{AttemptId, TaskId};
use mr_master_model::{DutyName, Phase};
use mr_names::Namespace;
use mr_packet::{Bytes, ContainerId, Envelope};
use mr_world_events::{Event, Why};
use mr_world_state::{Asked, Config, Parts, WorldFault};
use std::alloc::Global;
use std::marker::Model;

/// A cluster that is run, event by event. Contracts see its config and its journal, the events that were taken, in
/// order. The world is at each point the run of its journal.
pub struct World {
    parts: Parts,
    journal: Vec<Event>,
}

// By hand, so that a world is dropped by this call: a derived drop is taken apart by the check at each place where
// one is dropped.
impl Drop for World {
    fn drop(self) {
        let World {
            parts: _,
            journal: _,
        } = self;
    }
}

impl Model for World {
    ghost use Rattle.mr_world.specs.Journal.{Journal, Keeps};

    ghost Value = { Journal };

    ghost view = { λ w. record { config = w.parts.config; events = w.journal.items } };

    ghost invariant = { λ w. Keeps w.parts w.journal.items };
}

impl World {
    /// The opening world of a config, with an empty journal. Its only fault is an allocation failure.
    pub fn new(alloc: Global, config: Config) -> Result<World, WorldFault>
        ensures opens { IfOk result (λ world. world ≡ record { config = config; events = [] }) }
        ensures memory { IfErr result (λ fault. fault ≡ WorldFault.NoMemory) }
    {
        let parts = Parts::new(alloc, config)?;
        Ok(World {
            parts,
            journal: Vec::new(alloc),
        })
    }

    /// A world of its own that is as far as this one: it has the same config and journal. Its only fault is an
    /// allocation failure.
    pub fn copy(&self) -> Result<World, WorldFault>
        ensures is { IfOk result (λ world. world ≡ self.now) }
        ensures memory { IfErr result (λ fault. fault ≡ WorldFault.NoMemory) }
    {
        let alloc = *self.journal.allocator();
        let parts = self.parts.copy()?;
        let journal = copy_events(alloc, &self.journal)?;
        Ok(World { parts, journal })
    }

    /// The event happens: it is the last of the journal from then on.
    ///
    /// Refusals in order: `NotNow` with the first reason why the event is not permitted, `Full` where it would pass a
    /// limit or the journal has `MAX_EVENTS` events, `NoMemory`. A refusal changes nothing. One exception to the
    /// order: where `Full` applies, `NoMemory` may be answered to a step of a master or a container's store call.
    /// Such a step is a packet that the master hears, a duty or an expiry.
    pub fn apply(&mut self, event: Event) -> Result<Took, WorldFault>
        ensures applies { Applies self.old event result self.new }
        ensures headline { HeadlineHolds self.old self.new }
    {
        make_room(&self.parts, &mut self.journal, &event)?;
        let took = take(&mut self.parts, &event)?;
        self.journal.push_reserved(event);
        Ok(took)
    }

    /// Whether the event would be taken now; else what `apply` would refuse it for. It changes nothing.
    pub fn foresee(&self, event: &Event) -> Result<(), WorldFault>
        ensures { Foretells self.now event.now result }
    {
        foresee(&self.parts, self.journal.len(), event)
    }

    /// As `foresee` of these bytes as what the container computed, without a copy of them. It takes no memory, so it
    /// has two refusals. They are `NotNow`, and `Full` where that event would pass a limit or the journal has
    /// `MAX_EVENTS` events.
    pub fn foresee_computed(&self, c: &ContainerId, bytes: &Bytes) -> Result<(), WorldFault>
        ensures { result ≡ foretold_in self.now (Compute c.now bytes.now) }
    {
        foresee_computed(&self.parts, self.journal.len(), c, bytes)
    }

    /// The events happen, in order. One that is not permitted when it comes is passed over.
    ///
    /// Refusals: `Full` or `NoMemory`, at the first event that `apply` refuses so. Those before it have happened then.
    pub fn run(&mut self, events: Vec<Event>) -> Result<(), WorldFault>
        ensures runs { Runs self.old events.items result self.new }
        ensures headline { HeadlineHolds self.old self.new }
    {
        for event in events {
            self.apply_or_pass(event)?;
        }
        Ok(())
    }

    // The event happens, or is passed over where it is not permitted now.
    fn apply_or_pass(&mut self, event: Event) -> Result<(), WorldFault>
        ensures { Passes self.old event result self.new }
    {
        match self.apply(event) {
            Ok(_took) => Ok(()),
            Err(WorldFault::NotNow(_why)) => Ok(()),
            Err(WorldFault::Full) => Err(WorldFault::Full),
            Err(WorldFault::NoMemory) => Err(WorldFault::NoMemory),
        }
    }

    /// The events that were taken, in order.
    pub fn journal(&self) -> &[Event]
        ensures { result.now ≡ self.now.events }
    {
        self.journal.as_slice()
    }

    /// The events of the journal can happen once more, each in turn, in a world of their own that has the same config.
    /// This call does nothing: it tells the caller so.
    pub fn repeats(&self)
        ensures { CanFollow self.now.config [] self.now.events }
    {
        // For the prover: the events of a journal can follow one another.
        let _events = &self.journal;
    }

    /// The config that the world was made with.
    pub fn config(&self) -> &Config
        ensures { result.now ≡ self.now.config }
    {
        &self.parts.config
    }

    /// All packets that were ever sent, in the order of their sending.
    pub fn bag(&self) -> &[Envelope]
        ensures { result.now ≡ (world_in self.now).bag }
    {
        packets(&self.parts)
    }
}

// What comes of the world for those outside
impl World {
    /// The namespace, in which the job's output lies.
    pub fn names(&self) -> &Namespace
        ensures { result.now.content ≡ (world_in self.now).content }
    {
        names(&self.parts)
    }

    /// The recorded winner of a reduce, if it has one: the attempt of its first success that is stable. Its only
    /// fault is an allocation failure.
    pub fn winner(&self, task: TaskId) -> Result<Option<AttemptId>, WorldFault>
        ensures is { IfOk result (λ won. won ≡ winner (world_in self.now) task) }
        ensures memory { IfErr result (λ fault. fault ≡ WorldFault.NoMemory) }
    {
        recorded_winner(&self.parts, task)
    }

    /// The recorded winner of each reduce of the job, by number. Its only fault is an allocation failure; it reads
    /// the history once.
    pub fn winners(&self) -> Result<Vec<Option<AttemptId>>, WorldFault>
        ensures is { IfOk result (λ all. all.items ≡ map (λ r. winner (world_in self.now) (reduce_of self.now.config.job r)) (range_with_len 0 self.now.config.reduces)) }
        ensures memory { IfErr result (λ fault. fault ≡ WorldFault.NoMemory) }
    {
        recorded_winners(&self.parts)
    }

    /// Whether the success marker is there. Its only fault is an allocation failure.
    pub fn marker(&self) -> Result<bool, WorldFault>
        ensures is { IfOk result (λ marked. marked ≡ is_file (entry_at (world_in self.now).content marker)) }
        ensures memory { IfErr result (λ fault. fault ≡ WorldFault.NoMemory) }
    {
        marker(&self.parts)
    }

    /// The outcome of the job that was told first, if one was told: whether the job succeeded.
    pub fn outcome(&self) -> Option<bool>
        ensures { result ≡ outcome (world_in self.now) }
    {
        outcome(&self.parts)
    }

    /// The files directly beneath the destination whose names are not hidden, by rising name. Its only fault is an
    /// allocation failure.
    pub fn visible(&self) -> Result<Vec<VisibleFile>, WorldFault>
        ensures is { IfOk result (λ files. map as_pair files.items ≡ visible (world_in self.now)) }
        ensures memory { IfErr result (λ fault. fault ≡ WorldFault.NoMemory) }
    {
        visible(&self.parts)
    }
}

// What programs read of masters, and of packets
impl World {
    /// How many masters were started: the newest is of this generation.
    pub fn newest(&self) -> u32
        ensures { result ≡ (world_in self.now).fence }
    {
        newest(&self.parts)
    }

    /// The phase of the master of this generation; none where it is not alive.
    pub fn phase(&self, k: u32) -> Option<Phase>
        ensures { result ≡ phase_in self.now.config (world_in self.now) k }
    {
        phase(&self.parts, k)
    }

    /// What the next store call of the master of this generation is for, if there is one; none where the master is
    /// not alive. Its only fault is an allocation failure.
    pub fn duty(&self, k: u32) -> Result<Option<DutyName>, WorldFault>
        ensures is { IfOk result (λ due. due ≡ due_in self.now.config (world_in self.now) k) }
        ensures memory { IfErr result (λ fault. fault ≡ WorldFault.NoMemory) }
    {
        due(&self.parts, k)
    }

    /// The task that the master of this generation launches next, if there is one; none where it is not alive.
    pub fn wanted(&self, k: u32) -> Option<TaskId>
        ensures { result ≡ wanted_in self.now.config (world_in self.now) k }
    {
        wanted(&self.parts, k)
    }

    /// How many bytes of its segment the master of this generation has not flushed; none where it is not alive.
    pub fn unflushed(&self, k: u32) -> Option<usize>
        ensures { result ≡ unflushed_in (world_in self.now) k }
    {
        unflushed(&self.parts, k)
    }

    /// The stable bytes of the history segment of this generation, a torn end among them; none where its master was
    /// not started.
    pub fn stable(&self, k: u32) -> &[u8]
        ensures bytes { result.now ≡ stable_bytes (history_in self.now) k }
        ensures stable { k ≤ (world_in self.now).fence → records_of result.now ≡ ((world_in self.now).history k).stable }
        ensures none { (world_in self.now).fence < k → result.now ≡ [] }
    {
        stable(&self.parts, k)
    }

    /// Why the packet at this place of the bag can't be delivered now: `NoPacket`, or `NoAddressee` where it goes to
    /// nobody who is alive; none where it can.
    pub fn undeliverable(&self, i: usize) -> Option<Why>
        ensures { result ≡ addressee (world_in self.now) (slice_get (world_in self.now).bag i) }
    {
        self.parts.undeliverable(i)
    }
}

// What programs read of containers that live
impl World {
    /// The containers that are alive, by generation, then number. Its only fault is an allocation failure.
    pub fn living(&self) -> Result<Vec<ContainerId>, WorldFault>
        ensures is { IfOk result (λ all. all.items ≡ living self.now.config (world_in self.now)) }
        ensures memory { IfErr result (λ fault. fault ≡ WorldFault.NoMemory) }
    {
        living(&self.parts)
    }

    /// The next container that is alive after another, in cyclic order by generation, then number. Where none is
    /// given, it is the first. It walks over none.
    pub fn next_living(&self, after: Option<ContainerId>) -> Option<ContainerId>
        ensures { result ≡ next_living (living self.now.config (world_in self.now)) after }
    {
        next_living(&self.parts, after)
    }

    /// What a container was launched as: for which attempt, and on which node in which of its incarnations. None
    /// where it is not alive.
    pub fn place(&self, c: &ContainerId) -> Option<Place>
        ensures { result ≡ place_in (world_in self.now) c.now }
    {
        place(&self.parts, c)
    }

    /// What a container wishes to do next; none where it is not alive.
    pub fn wish(&self, c: &ContainerId) -> Option<Wish>
        ensures { result ≡ wish_in self.now.config (world_in self.now) c.now }
    {
        wish(&self.parts, c)
    }

    /// What a container is to compute from; none where it is not alive, or does not wish to compute.
    pub fn input(&self, c: &ContainerId) -> Option<Input<'_>>
        ensures { option_map as_input result ≡ input_in self.now.config (world_in self.now) c.now }
    {
        input_of(&self.parts, c)
    }
}

// What programs read of worlds that go on as others do
impl World {
    /// Whether this world and another were found to be alike: then they have one config, the bytes of their histories
    /// are the same, and the same events lead both to the same ends. What was sent is not compared, but for the
    /// outcome, nor how many containers were launched, nor how the worlds came there: how near each is to a limit is
    /// not told. Its only fault is an allocation failure.
    pub fn is_alike(&self, other: &World) -> Result<bool, WorldFault>
        ensures alike { IfOk result (λ alike. IsTrue alike → Alike self.now.config (world_in self.now) (world_in other.now)) }
        ensures config { IfOk result (λ alike. IsTrue alike → self.now.config ≡ other.now.config) }
        ensures history { IfOk result (λ alike. IsTrue alike → history_in self.now ≡ history_in other.now) }
        ensures memory { IfErr result (λ fault. fault ≡ WorldFault.NoMemory) }
    {
        are_alike(&self.parts, &other.parts)
    }

    /// How many containers were launched.
    pub fn launches(&self) -> u32
        ensures { result ≡ launch_count (world_in self.now) }
    {
        launches(&self.parts)
    }
}

// What programs read of an event before it happens
impl World {
    /// The store call that this event would make now, by whom, and what its caller would hear. That is the answer, a
    /// refusal too, or in bad weather nothing. None where the event makes no store call, or would not be taken. It
    /// changes nothing, and its only fault is an allocation failure.
    pub fn asks(&self, event: &Event) -> Result<Option<Asked>, WorldFault>
        ensures is { IfOk result (λ asked. asked ≡ asked_in self.now event.now) }
        ensures memory { IfErr result (λ fault. fault ≡ WorldFault.NoMemory) }
    {
        match self.foresee(event) {
            Ok(()) => self.parts.asked(event),
            Err(WorldFault::NotNow(_why)) => Ok(None),
            Err(WorldFault::Full) => Ok(None),
            Err(WorldFault::NoMemory) => Err(WorldFault::NoMemory),
        }
    }
}
