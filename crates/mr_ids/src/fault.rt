//! Why a text is no identifier: the first fault from the left, for whoever reads one.
use thiserror::Error;

/// Why a text is no identifier of the kind that was asked for: the first fault from the left.
///
/// The fields are the pieces of the text between its bars. The order of the variants says nothing.
#[derive(Clone, Copy, Debug, PartialEq, Eq, Error)]
pub enum IdFault {
    /// The first field is not the word that begins such a text.
    #[error("the text does not begin with the identifier's word")]
    Prefix,
    /// A number is missing or empty, holds a byte that is no digit, or is out of range.
    #[error("a number is missing, has a byte that is no digit, or is out of range")]
    Number,
    /// The kind of the task is missing, or is neither `m` nor `r`.
    #[error("the kind of the task is neither m nor r")]
    Kind,
    /// A number in range is not spelled as it should be: it has a digit too few, or a zero too many.
    #[error("a number has a digit too few or a zero too many")]
    Width,
    /// A field is left over.
    #[error("a field is left over")]
    Trailing,
}
