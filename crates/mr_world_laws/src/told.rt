//! What one call answers before events and after them.

/// What a call answered before some events, and what it answered after them.
#[derive(Drop)]
pub struct Told<T: Drop> {
    /// The answer before the events.
    pub before: T,
    /// The answer after them.
    pub after: T,
}
