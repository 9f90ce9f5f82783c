//! What the tests begin with: a job of the words of `a b a`, and a run of it.

use crate::again::{applied, due, world_copied};
use crate::events::{start, store_call};
use crate::masters::JOB;
use mr_container::Wish;
use mr_master_model::Phase;
use mr_packet::{Bytes, ContainerId};
use mr_world::{Config, Input, Splits, World, WorldFault};
use mr_world_events::{Event, Weather};
use std::alloc::{AllocError, Global};
use std::process::Abort;

/// What the map of `a b a` makes for one reduce: the length of its block, then `a` with 2 and `b` with 1.
const BLOCK: [u8; 30] = [
    0, 0, 0, 26, 0, 0, 0, 1, 97, 0, 0, 0, 0, 0, 0, 0, 2, 0, 0, 0, 1, 98, 0, 0, 0, 0, 0, 0, 0, 1,
];

/// What the one reduce makes of its block.
const TEXT: &[u8] = b"a\t2\nb\t1\n";

/// How far a run is: its world, how many packets were delivered or passed over, and who stepped last.
#[derive(Drop)]
pub struct Run {
    pub world: World,
    pub next: usize,
    pub last: Option<ContainerId>,
}

/// Where a run stops, if not at its master's end.
#[derive(Clone, Copy)]
pub enum Stop {
    Never,
    BeforeStep,
    BeforeCompute,
    BeforeWrite,
}

/// These bytes.
pub fn bytes(rt: &impl Abort, alloc: Global, items: &[u8]) -> Bytes {
    match Bytes::from_slice(alloc, items) {
        Ok(made) => made,
        Err(_) => Bytes::from_slice(alloc, items).expect(rt, "no memory"),
    }
}

/// A job of one map, of the split `a b a`, and of one reduce, on so many nodes.
fn config(rt: &impl Abort, alloc: Global, nodes: u32) -> Result<Config, AllocError> {
    let mut splits = Vec::new(alloc);
    let split = Bytes::from_slice(alloc, b"a b a")?;
    assert!(rt; split.len() <= 16_777_216);
    splits.push(split)?;
    assert!(rt; nodes >= 1 && nodes <= 64);
    Ok(Config {
        job: JOB,
        splits: Splits::from_vec(splits),
        reduces: 1,
        nodes,
        limit: 4,
        v2_from: 1,
    })
}

/// The opening world of the job.
pub fn world(rt: &impl Abort, alloc: Global, nodes: u32) -> World {
    match opened(rt, alloc, nodes) {
        Ok(world) => world,
        Err(_) => opened(rt, alloc, nodes).expect(rt, "no memory"),
    }
}

/// It, or what refuses it.
fn opened(rt: &impl Abort, alloc: Global, nodes: u32) -> Result<World, WorldFault> {
    World::new(alloc, config(rt, alloc, nodes)?)
}

/// A run whose first master started.
pub fn started(rt: &impl Abort, alloc: Global, nodes: u32) -> Run {
    let mut world = world(rt, alloc, nodes);
    comes_to(rt, &mut world, start(1), Ok(()));
    Run {
        world,
        next: 0,
        last: None,
    }
}

/// The event comes to this, as was foreseen. Where it is taken the journal grows, and the packets that it added are the last ones of the
/// bag. Else neither journal nor bag grows.
pub fn comes_to(rt: &impl Abort, world: &mut World, event: Event, want: Result<(), WorldFault>) {
    is_foreseen(rt, world, &event, want);
    let bag = world.bag().len();
    let journal = world.journal().len();
    match applied(rt, world, event) {
        Ok(took) => {
            confirm!(rt; want.is_ok());
            confirm_eq!(rt; took.first, bag);
            confirm!(rt; world.journal().len() > journal);
        }
        Err(fault) => {
            confirm_eq!(rt; want, Err(fault));
            confirm_eq!(rt; world.bag().len(), bag);
            confirm_eq!(rt; world.journal().len(), journal);
        }
    }
}

// What is foreseen of the event. Of bytes that are handed in the same is foreseen without a copy of them.
fn is_foreseen(rt: &impl Abort, world: &World, event: &Event, want: Result<(), WorldFault>) {
    let answer = match world.foresee(event) {
        Err(WorldFault::NoMemory) => world.foresee(event),
        answer => answer,
    };
    confirm_eq!(rt; answer, want);
    if let Event::Computed { container, bytes } = event {
        confirm_eq!(rt; world.foresee_computed(container, bytes), want);
    }
}

/// Bytes are handed in to the container: what the job makes of what it asks for.
pub fn computes(rt: &impl Abort, alloc: Global, world: &mut World, container: ContainerId) {
    let items = match world.input(&container) {
        Some(Input::Map { .. }) => BLOCK.as_slice(),
        Some(Input::Reduce { .. }) => TEXT,
        None => panic!(rt; "it does not compute"),
    };
    let bytes = bytes(rt, alloc, items);
    comes_to(rt, world, Event::Computed { container, bytes }, Ok(()));
}

impl Run {
    /// A run whose world is a copy of this one's.
    pub fn copied(&self, rt: &impl Abort) -> Run {
        Run {
            world: world_copied(rt, &self.world),
            next: self.next,
            last: self.last,
        }
    }

    /// What happens by itself until the first master is through, or until it stops.
    pub fn calms(&mut self, rt: &impl Abort, alloc: Global, stop: Stop) {
        for _ in 0..1000 {
            match self.world.phase(1) {
                Some(Phase::Ended | Phase::Stopped) | None => return,
                Some(_) => {}
            }
            if !self.goes_on(rt, alloc, stop) {
                return;
            }
        }
    }

    // Whether it stops before what the container wishes.
    fn stops_before(&self, stop: Stop, c: &ContainerId) -> bool {
        match stop {
            Stop::BeforeCompute => self.world.wish(c) == Some(Wish::Compute),
            Stop::BeforeWrite => self.world.wish(c) == Some(Wish::Write),
            Stop::Never | Stop::BeforeStep => false,
        }
    }

    // One event, the first that is there of a packet, a store call, a launch and a step of a container; false where it stops or none is there.
    fn goes_on(&mut self, rt: &impl Abort, alloc: Global, stop: Stop) -> bool {
        if self.delivers(rt) {
            return true;
        }
        if due(rt, &self.world, 1).is_some() {
            comes_to(rt, &mut self.world, store_call(1), Ok(()));
            return true;
        }
        if let Some(task) = self.world.wanted(1) {
            let launch = Event::LaunchOn {
                generation: 1,
                task,
                node: 0,
            };
            comes_to(rt, &mut self.world, launch, Ok(()));
            return true;
        }
        match stop {
            Stop::BeforeStep => false,
            _ => self.steps(rt, alloc, stop),
        }
    }

    // The next packet that goes to somebody who is alive is delivered.
    fn delivers(&mut self, rt: &impl Abort) -> bool {
        for place in self.next..self.world.bag().len() {
            self.next = place + 1;
            if self.world.undeliverable(place).is_none() {
                let packet = place as u64;
                comes_to(rt, &mut self.world, Event::Deliver { packet }, Ok(()));
                return true;
            }
        }
        false
    }

    // The next living container steps or computes; false where none lives, or it stops.
    fn steps(&mut self, rt: &impl Abort, alloc: Global, stop: Stop) -> bool {
        let Some(container) = self.world.next_living(self.last) else {
            return false;
        };
        if self.stops_before(stop, &container) {
            return false;
        }
        self.last = Some(container);
        if self.world.input(&container).is_some() {
            computes(rt, alloc, &mut self.world, container);
        } else {
            let step = Event::ContainerStep {
                container,
                weather: Weather::Calm,
            };
            comes_to(rt, &mut self.world, step, Ok(()));
        }
        true
    }
}
