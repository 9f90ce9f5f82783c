//! Runs that are at their ends.

/// A run at its end.
#[derive(Debug, Drop)]
pub struct Ended<R> {
    pub run: R,
    /// How many faults it has.
    pub faults: u32,
}
