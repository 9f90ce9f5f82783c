//! What is asked of a search that leaves out runs which are alike.

use mr_explore::Form;
use mr_script::Expectation;

/// How many faults a run has at most, which end is sought, and how the ends are told.
#[derive(Clone, Copy, Debug, PartialEq, Eq)]
pub struct Question<'a> {
    /// How many faults a run has at most.
    pub faults: u32,
    /// What is so of the end that is sought; all ends are told where no end is sought.
    pub goal: Option<&'a [Expectation]>,
    pub form: Form,
}
