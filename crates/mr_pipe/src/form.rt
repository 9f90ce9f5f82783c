//! The form of what is written and read.

/// The form of what is written over a pipe, and read.
#[derive(Clone, Copy, Debug, PartialEq, Eq)]
pub enum Form {
    /// Words, with a space between each two.
    Text,
    /// An object of JSON a line.
    Json,
}
