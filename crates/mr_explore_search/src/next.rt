//! What comes next in a walk.

use crate::ended::Ended;

/// What comes next in a walk.
#[derive(Drop)]
pub enum Next<R> {
    /// A run at its end.
    Run(Ended<R>),
    /// A run would pass a limit.
    PassesLimit,
}
