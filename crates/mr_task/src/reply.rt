//! What comes of an attempt's report that it is done.

/// What `Done` of an attempt came to.
#[derive(Clone, Copy, Debug, PartialEq, Eq)]
pub enum DoneReply {
    /// The attempt is accepted now: its success is to be recorded.
    Accepted,
    /// The attempt was accepted before.
    Again,
    /// The attempt is not accepted: nothing changed.
    Ignored,
}
