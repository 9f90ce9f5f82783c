//! All that can happen in a cluster, one step each, and the weather of a store call: whether it is made, and whether its answer arrives.
ghost use Rattle.std.specs.Prelude.{◌≡◌, IfOk, OnErr, true};
ghost use Rattle.mr_world_events.specs.Memory.{takes_memory};

use mr_ids::{Bytes, TaskId};
use mr_packet::ContainerId;
use std::alloc::AllocError;

/// What befalls a store call, for the one who makes it.
#[derive(Clone, Copy, Debug, PartialEq, Eq)]
pub enum Weather {
    /// The call is made, and its answer arrives.
    Calm,
    /// The call is not made.
    Unavailable,
    /// The call is made, and its answer is lost.
    Unanswered,
}

/// What happens, one step of the whole cluster (this project's profile). A master is told by its generation, a node by its number.
#[derive(Debug, PartialEq, Eq, Drop)]
pub enum Event {
    /// A master starts. It raises the fence of both stores to its generation.
    Start {
        /// The master's generation.
        generation: u32,
        /// How many bytes stay of what was not flushed of the history's newest unsealed segment.
        kept: u64,
    },
    /// A master crashes.
    Crash {
        /// The master's generation.
        generation: u32,
        /// How many bytes stay of what it did not flush.
        kept: u64,
    },
    /// A master makes the store call that is due.
    Duty {
        /// The master's generation.
        generation: u32,
        /// What befalls the call.
        weather: Weather,
    },
    /// A master launches an attempt.
    LaunchOn {
        /// The master's generation.
        generation: u32,
        /// The task of the attempt.
        task: TaskId,
        /// Where it is launched.
        node: u32,
    },
    /// A packet is delivered.
    Deliver {
        /// Its place in the bag, from 0.
        packet: u64,
    },
    /// A container makes the store call, or sends the packet, that it wishes to.
    ContainerStep {
        container: ContainerId,
        /// What befalls the call.
        weather: Weather,
    },
    /// A container computed.
    Computed {
        container: ContainerId,
        /// What it computed.
        bytes: Bytes,
    },
    /// A container ends before it is done.
    Die {
        container: ContainerId,
    },
    /// A node restarts: its containers end, and what lay on its shelf is gone.
    NodeRestart {
        node: u32,
    },
    /// A master gives a node up.
    Expire {
        /// The master's generation.
        generation: u32,
        node: u32,
    },
}

impl Event {
    /// An equal event. It may allocate, but only for computed bytes, and refuses nothing else.
    pub fn copy(&self) -> Result<Event, AllocError>
        ensures ok { IfOk result (λ event. event ≡ self.now) }
        ensures some { OnErr result (takes_memory self.now ≡ true) }
    {
        Ok(match *self {
            Event::Start { generation, kept } => Event::Start { generation, kept },
            Event::Crash { generation, kept } => Event::Crash { generation, kept },
            Event::Duty {
                generation,
                weather,
            } => Event::Duty {
                generation,
                weather,
            },
            Event::LaunchOn {
                generation,
                task,
                node,
            } => Event::LaunchOn {
                generation,
                task,
                node,
            },
            Event::Deliver { packet } => Event::Deliver { packet },
            Event::ContainerStep { container, weather } => Event::ContainerStep {
                container,
                weather,
            },
            Event::Computed {
                container,
                ref bytes,
            } => Event::Computed {
                container,
                bytes: bytes.copy()?,
            },
            Event::Die { container } => Event::Die { container },
            Event::NodeRestart { node } => Event::NodeRestart { node },
            Event::Expire { generation, node } => Event::Expire { generation, node },
        })
    }
}
