//! What a role finds to do, and what its thread does next.
use mr_board::Work;
use mr_packet::ContainerId;

/// What a role finds to do.
#[derive(Drop)]
pub(crate) enum Turn {
    /// An event was made, or something was dropped that is not permitted any more.
    Made,
    /// A work of this container, to be done outside the lock.
    Compute(ContainerId, Work),
    /// Nothing, until something changes.
    Nothing,
}

/// What a thread does next.
#[derive(Drop)]
pub(crate) enum Next {
    /// It goes on; others may have something to do.
    Goes,
    /// It does this work of this container outside the lock.
    Computes(ContainerId, Work),
    /// It waits while this is the count of changes.
    Waits(u64),
    /// It ends.
    Ends,
}
