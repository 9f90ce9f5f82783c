//! What `check` is asked for.
use mr_out_check::{Shape, Told};
use mr_out_listing::Format;

/// What `check` is asked for.
#[derive(Clone, Copy)]
pub struct Request {
    /// What is told of the job.
    pub told: Told,
    /// In which form each answer is printed.
    pub shape: Shape,
    /// The format of the listing that is read, if one is.
    pub listing: Option<Format>,
}
