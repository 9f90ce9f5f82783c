//! Who a thread acts for, how far it has looked, and which containers are ready.
use mr_board::mr_world::World;
use mr_packet::{Address, ContainerId, Envelope, Packet};
use std::alloc::{AllocError, Global};

/// Who a thread acts for.
#[derive(Clone, Copy, Debug, PartialEq, Eq)]
pub(crate) enum Role {
    /// The node of this number, and its containers.
    Node(u32),
    /// The master of this generation.
    Master(u32),
    /// Starts of masters, and the faults of the plan.
    Faults,
}

/// A role, how many packets of the bag it has passed, and which of its containers are ready to step or to compute.
#[derive(Drop)]
pub(crate) struct Actor {
    pub(crate) role: Role,
    passed: usize,
    ready: Vec<ContainerId>,
    // Reduces whose works wait until no reduce fetches any longer.
    held: Vec<ContainerId>,
    round: u64,
}

impl Actor {
    pub(crate) fn new(alloc: Global, role: Role) -> Actor {
        Actor {
            role,
            passed: 0,
            ready: Vec::new(alloc),
            held: Vec::new(alloc),
            round: 0,
        }
    }

    /// The place of the next packet for this role that can be delivered. Packets before it are passed for good.
    pub(crate) fn next_packet(&mut self, world: &World) -> Option<usize> {
        for place in self.passed..world.bag().len() {
            self.passed = place + 1;
            let envelope = world.bag().get(place)?;
            if self.hears(world, &envelope.to) && world.undeliverable(place).is_none() {
                return Some(place);
            }
        }
        None
    }

    fn hears(&self, world: &World, to: &Address) -> bool {
        match (self.role, to) {
            (Role::Master(k), Address::Master(master)) => master.number() == k,
            (Role::Node(n), Address::Node(node)) => *node == n,
            (Role::Node(n), Address::Container(c)) => is_on(world, c, n),
            _ => false,
        }
    }

    /// The container that the packet starts, or wakes, is ready.
    pub(crate) fn heard(&mut self, envelope: &Envelope) -> Result<(), AllocError> {
        match (&envelope.to, &envelope.body) {
            (Address::Container(c), _) => self.is_ready(c),
            (Address::Node(_), Packet::Launch { container, .. }) => self.is_ready(container),
            _ => Ok(()),
        }
    }

    /// A container is ready.
    pub(crate) fn is_ready(&mut self, c: &ContainerId) -> Result<(), AllocError> {
        Ok(self.ready.push(*c)?)
    }

    /// The container that became ready last. It is not ready from then on.
    pub(crate) fn next_ready(&mut self) -> Option<ContainerId> {
        self.ready.pop()
    }

    /// Whether no round has begun yet. From the first round on no work waits.
    pub(crate) fn is_early(&self) -> bool {
        self.round == 0
    }

    /// The work of a reduce waits.
    pub(crate) fn hold(&mut self, c: &ContainerId) -> Result<(), AllocError> {
        Ok(self.held.push(*c)?)
    }

    /// Whether the work of a reduce waits.
    pub(crate) fn holds(&self) -> bool {
        !self.held.is_empty()
    }

    /// The reduce whose work began to wait last. It waits no longer from then on.
    pub(crate) fn next_held(&mut self) -> Option<ContainerId> {
        self.held.pop()
    }

    /// In a new round each living container of the node is ready: whoever waits for an answer asks again.
    pub(crate) fn begin(&mut self, world: &World, n: u32, round: u64) -> Result<(), AllocError> {
        if self.round == round {
            return Ok(());
        }
        self.round = round;
        self.ready.clear();
        self.held.clear();
        let first = world.next_living(None);
        let mut at = first;
        for _ in 0..mr_board::mr_world::MAX_CONTAINERS {
            let Some(c) = at else {
                return Ok(());
            };
            if is_on(world, &c, n) {
                self.is_ready(&c)?;
            }
            at = world.next_living(Some(c));
            if at == first {
                return Ok(());
            }
        }
        Ok(())
    }
}

fn is_on(world: &World, c: &ContainerId, n: u32) -> bool {
    matches!(world.place(c), Some(place) if place.node == n)
}
