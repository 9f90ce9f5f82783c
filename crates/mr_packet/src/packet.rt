//! The packets that masters, nodes and containers send one another, to whom they go, and how a container is named.
ghost use Rattle.std.specs.Prelude.{◌≡◌, IfOk};

use mr_ids::{AppAttempt, AttemptId, Bytes, TaskId};
use std::alloc::AllocError;

/// A container, by the generation of the master that launched it and its number under that master, counted from 0.
/// No two launches have one.
#[derive(Clone, Copy, Debug, PartialEq, Eq, PartialOrd, Ord, Hash)]
pub struct ContainerId {
    pub app: AppAttempt,
    pub number: u32,
}

/// To whom a packet goes.
#[derive(Clone, Copy, Debug, PartialEq, Eq)]
pub enum Address {
    /// The master of a generation.
    Master(AppAttempt),
    /// A container.
    Container(ContainerId),
    /// A node, by its number.
    Node(u32),
}

/// What is told. The first five go to nodes, the next seven to masters, the last four to containers. `FetchLost` goes
/// from a node to a container, and from the container on to its master.
///
/// The packets between a container and its master restate the calls of Hadoop's umbilical protocol (commit pending, can
/// commit, done, failed). Those to and from a node restate its container launcher and shuffle handler. Incarnations,
/// offsets and the recorded length are this project's profile.
#[derive(Clone, PartialEq, Eq, Drop)]
pub enum Packet {
    /// To a node: the container is to run the attempt, in this incarnation of the node.
    Launch {
        container: ContainerId,
        attempt: AttemptId,
        incarnation: u32,
    },
    /// To a node: the container is to end.
    Kill {
        container: ContainerId,
    },
    /// To a node: the container wants its reduce's block of the attempt's output, from an offset in bytes on, from this incarnation
    /// of the node.
    Fetch {
        container: ContainerId,
        attempt: AttemptId,
        reduce: u32,
        incarnation: u32,
        offset: u64,
    },
    /// To a node: the attempt is the recorded winner of the reduce task.
    Won {
        task: TaskId,
        attempt: AttemptId,
    },
    /// To a node: the job came to its end.
    Outcome {
        succeeded: bool,
    },
    /// To a master: the attempt has output, and asks for permission to commit.
    Pending {
        attempt: AttemptId,
    },
    /// To a master: the attempt was told no, and asks again.
    Poll {
        attempt: AttemptId,
    },
    /// To a master: the attempt is done. A reduce's tells the length of its part file in bytes, a map's none.
    Done {
        attempt: AttemptId,
        bytes: Option<u32>,
    },
    /// To a master: the attempt failed.
    Failed {
        attempt: AttemptId,
    },
    /// To a master: the container came to its end.
    Ended {
        container: ContainerId,
    },
    /// To a master: the node runs, in this incarnation.
    NodeUp {
        node: u32,
        incarnation: u32,
    },
    /// To a master: the container asks where the output of a map task lies, by the task's number.
    Where {
        container: ContainerId,
        map: u32,
    },
    /// To a container, and from it to its master: the output of the map attempt is not there.
    FetchLost {
        container: ContainerId,
        attempt: AttemptId,
    },
    /// To a container: whether its attempt may commit.
    Answer {
        attempt: AttemptId,
        yes: bool,
    },
    /// To a container: its master heard that the attempt is done.
    DoneAck {
        attempt: AttemptId,
    },
    /// To a container: the output of the map task is this attempt's, on this node of this incarnation.
    MapReady {
        map: u32,
        attempt: AttemptId,
        node: u32,
        incarnation: u32,
    },
    /// To a container: bytes of the block of this reduce in the attempt's output, from an offset on; `total` is the length of the whole
    /// block.
    Piece {
        attempt: AttemptId,
        reduce: u32,
        offset: u64,
        total: u64,
        bytes: Bytes,
    },
}

impl Packet {
    /// An equal packet. It may allocate, but only for the bytes of a `Piece`, and refuses nothing else.
    pub fn copy(&self) -> Result<Packet, AllocError>
        ensures { IfOk result (λ packet. packet ≡ self.now) }
    {
        self.clone()
    }
}

/// A packet and to whom it goes.
#[derive(PartialEq, Eq, Drop)]
pub struct Envelope {
    pub to: Address,
    pub body: Packet,
}

impl Envelope {
    /// An equal envelope. It may allocate, but only for the bytes of a `Piece`, and refuses nothing else.
    pub fn copy(&self) -> Result<Envelope, AllocError>
        ensures { IfOk result (λ envelope. envelope ≡ self.now) }
    {
        Ok(Envelope {
            to: self.to,
            body: self.body.copy()?,
        })
    }
}

impl Clone for Envelope {
    ghost is_clone = { λ a b. b ≡ a };

    fn clone(&self) -> Result<Envelope, AllocError> {
        self.copy()
    }
}
