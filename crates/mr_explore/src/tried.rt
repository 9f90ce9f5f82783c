//! What comes of a fault that is tried.

/// What comes of a fault that is tried on a run.
#[derive(Clone, Copy, Debug, PartialEq, Eq)]
pub enum Tried {
    /// It befell the run.
    Befell,
    /// It is not permitted where the run is.
    CanNot,
    /// It is permitted, and a limit forbids it.
    PassesLimit,
}
