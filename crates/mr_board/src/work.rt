//! The work of a container, taken off a board to be done elsewhere, and what it gave.
ghost use Rattle.std.specs.Prelude.{◌≡◌, ◌↔◌, ◌≤◌, IfOk, IfErr, IsTrue, Some};
ghost use Rattle.mr_ids.specs.declared.id.TaskKind.{TaskKind};
ghost use Rattle.mr_user.specs.Computation.{computation};
ghost use Rattle.mr_world_model.specs.Packets.{Config};
ghost use Rattle.mr_world_model.specs.World.{Compute};
ghost use Rattle.mr_world_model.specs.Sequential.{made_of};
ghost use Rattle.mr_world_files.specs.Jobs.{job_of};
ghost use Rattle.mr_container_work.specs.Works.{as_input, FaultIs, IsShort};
ghost use Rattle.mr_world.specs.Readings.{as_input as as_lent};
ghost use Rattle.mr_board.specs.Boards.{IsMeant, kind_of};

use mr_container_work::{Input, work};
use mr_ids::Bytes;
use mr_mapside::WorkFault;
use mr_packet::ContainerId;
use mr_user::{Gate, Job, MAX_REDUCES};
use mr_world_events::Event;
use std::alloc::{AllocError, Global};
use std::marker::{Model, PhantomData};

/// What a container is to compute, copied: it needs the board no more until it is done.
#[derive(Drop)]
pub struct Work {
    container: ContainerId,
    input: Input,
    reduces: u32,
}

impl Model for Work {
    ghost use Rattle.std.specs.Prelude.{◌≤◌};
    ghost use Rattle.mr_container_work.specs.Works.{as_input, IsShort};
    ghost use Rattle.mr_board.specs.Boards.{Task};

    ghost Value = { Task };

    ghost view = { λ w. record { container = w.container; input = as_input w.input; reduces = w.reduces } };

    ghost invariant = { λ w. IsShort (as_input w.input) × (1 ≤ w.reduces) × (w.reduces ≤ 1000) };
}

/// What a work gave: the bytes that the job means for the work's input. `Work::run` alone makes it.
#[derive(Drop)]
pub struct Finished<J: Job> {
    container: ContainerId,
    input: Input,
    reduces: u32,
    bytes: Bytes,
    // The same bytes again, for a seat's list.
    copy: Bytes,
    of: PhantomData<J>,
}

impl<J: Job> Model for Finished<J> {
    ghost use Rattle.std.specs.Prelude.{◌≡◌};
    ghost use Rattle.mr_user.specs.Computation.{computation};
    ghost use Rattle.mr_world_files.specs.Jobs.{job_of};
    ghost use Rattle.mr_container_work.specs.Works.{as_input};
    ghost use Rattle.mr_board.specs.Boards.{Done, IsMeant};

    ghost Value = { Done };

    ghost view = { λ f. record { container = f.container; input = as_input f.input; reduces = f.reduces; bytes = f.bytes } };

    ghost invariant = { λ f. IsMeant (job_of (computation J.Key.cmp J.Key.codec J.Value.codec J.functions)) f.reduces (as_input f.input) f.bytes × (f.copy ≡ f.bytes) };
}

impl Work {
    // The work of a container on this input, in a job with this many reduces.
    pub(crate) fn new(container: ContainerId, input: Input, reduces: u32) -> Work
        requires short { IsShort (as_input input) }
        requires some { (1 ≤ reduces) × (reduces ≤ MAX_REDUCES) }
        ensures { result ≡ record { container = container; input = as_input input; reduces = reduces } }
    {
        Work {
            container,
            input,
            reduces,
        }
    }

    /// Passes the gate, and computes. It needs no board, and returns where the gate's `enter` does.
    ///
    /// Its refusals are those of `mr_container_work::work`. `Gate` is answered where the gate lets no work pass, `User` where
    /// the job refuses a line, and `Shuffle` where the pieces can't be merged. `Full` is answered where the bytes are
    /// too many, and `NoMemory` where memory was refused.
    pub fn run<J: Job, G: Gate>(
        self,
        alloc: Global,
        job: &J,
        gate: &G,
    ) -> Result<Finished<J>, WorkFault>
        ensures finished { IfOk result (λ f. (f.container ≡ self.container) × (f.input ≡ self.input) × (f.reduces ≡ self.reduces)) }
        ensures meant { let all = computation J.Key.cmp J.Key.codec J.Value.codec J.functions in
            IfOk result (λ f. (config : Config) → config.reduces ≡ self.reduces → made_of (job_of all) config self.input ≡ Some f.bytes) }
        ensures fault { let all = computation J.Key.cmp J.Key.codec J.Value.codec J.functions in
            IfErr result (FaultIs (G.refuses gate.now (kind_of self.input)) all self.reduces self.input) }
    {
        let bytes = work(alloc, job, gate, &self.input, self.reduces)?;
        let copy = bytes.copy()?;
        let Work {
            container,
            input,
            reduces,
        } = self;
        Ok(Finished {
            container,
            input,
            reduces,
            bytes,
            copy,
            of: PhantomData,
        })
    }
}

impl<J: Job> Finished<J> {
    // The container that it is for.
    pub(crate) fn container(&self) -> ContainerId
        ensures { result ≡ self.now.container }
    {
        self.container
    }

    // Its bytes.
    pub(crate) fn bytes(&self) -> &Bytes
        ensures bytes { result.now ≡ self.now.bytes }
        ensures meant { IsMeant (job_of (computation J.Key.cmp J.Key.codec J.Value.codec J.functions)) self.now.reduces self.now.input self.now.bytes }
    {
        &self.bytes
    }

    // The event that hands its bytes in, twice.
    pub(crate) fn into_events(self) -> (Event, Event)
        ensures event { result.0 ≡ Compute self.container self.bytes }
        ensures same { result.1 ≡ result.0 }
        ensures meant { IsMeant (job_of (computation J.Key.cmp J.Key.codec J.Value.codec J.functions)) self.reduces self.input self.bytes }
    {
        let Finished {
            container,
            input: _,
            reduces: _,
            bytes,
            copy,
            of: _,
        } = self;
        (computed(&container, bytes), computed(&container, copy))
    }

    // Whether it was made of what is lent here, in a job with this many reduces.
    pub(crate) fn is_of(&self, lent: mr_world::Input<'_>, reduces: u32) -> bool
        ensures { IsTrue result ↔ ((self.now.input ≡ as_lent lent.entry) × (self.now.reduces ≡ reduces)) }
    {
        self.reduces == reduces && is_copy_of(&self.input, lent)
    }
}

// The event that hands these bytes in.
fn computed(container: &ContainerId, bytes: Bytes) -> Event
    ensures { result ≡ Compute container.now bytes }
{
    Event::Computed {
        container: *container,
        bytes,
    }
}

// A copy of what a world lends.
pub fn copied(alloc: Global, lent: mr_world::Input<'_>) -> Result<Input, AllocError>
    ensures { IfOk result (λ input. as_input input ≡ as_lent lent.entry) }
{
    match lent {
        mr_world::Input::Map { split, bytes } => Input::of_map(split, bytes),
        mr_world::Input::Reduce { reduce, pieces } => Input::of_reduce(alloc, reduce, pieces),
    }
}

// Whether an input is equal to what a world lends.
fn is_copy_of(input: &Input, lent: mr_world::Input<'_>) -> bool
    ensures { IsTrue result ↔ (as_input input.now ≡ as_lent lent.entry) }
{
    match lent {
        mr_world::Input::Map { split, bytes } => input.is_of_map(split, bytes.as_slice()),
        mr_world::Input::Reduce { reduce, pieces } => input.is_of_reduce(reduce, pieces),
    }
}
