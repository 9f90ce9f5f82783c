//! Which line of the script made an event.

/// What made an event: a line of the script by itself, or its calm.
#[derive(Clone, Copy, Debug, PartialEq, Eq)]
pub struct Source {
    /// The number of the line in the whole input, from 1.
    pub line: u64,
    pub is_calm: bool,
}

/// The events of one line, if it made any: those before this place of the journal, from where the last stretch ended.
#[derive(Clone, Copy, Debug, PartialEq, Eq)]
pub struct Stretch {
    pub source: Source,
    /// How many events there were once the line was played.
    pub end: u64,
}
