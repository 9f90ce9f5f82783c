//! The reasons why an event is not permitted now: a world answers them, and `mrsim play` prints them.
use mr_task::TaskFault;
use thiserror::Error;

/// Why an event is not taken now: the first reason that applies. Each prints as its variant, `Task` with what it
/// holds behind it, as `Task AlreadyWon`.
#[derive(Clone, Copy, Debug, PartialEq, Eq, Error)]
pub enum Why {
    /// A master starts as the next generation only.
    #[error("WrongGeneration")]
    WrongGeneration,
    /// No master of this generation is alive.
    #[error("NoMaster")]
    NoMaster,
    /// The master has no store call to make.
    #[error("NoDuty")]
    NoDuty,
    /// The master is not Running.
    #[error("NotRunning")]
    NotRunning,
    /// The job has no such task.
    #[error("NoTask")]
    NoTask,
    /// There is no such node.
    #[error("NoNode")]
    NoNode,
    /// The bag has no packet at this place.
    #[error("NoPacket")]
    NoPacket,
    /// The master or the container that the packet goes to is not alive.
    #[error("NoAddressee")]
    NoAddressee,
    /// No such container is alive.
    #[error("NoContainer")]
    NoContainer,
    /// The container is to compute and takes no other step, or it is not to compute.
    #[error("WrongWish")]
    WrongWish,
    /// The container's step makes no store call that could be lost.
    #[error("NoStoreCall")]
    NoStoreCall,
    /// The bytes of a map are not the blocks of the job's reduces.
    #[error("NotBlocks")]
    NotBlocks,
    /// The task has no attempt to launch: AlreadyWon, TooManyLive or TooManyAttempts.
    #[error("Task {0}")]
    Task(TaskFault),
}
