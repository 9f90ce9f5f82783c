//! Job texts, and the jobs that are submitted by them, for `seq` and `play`.
mod idle_keys;
mod submission;
mod text;

pub use idle_keys::IdleKeys;
pub use submission::{JobKind, Submission};
pub use text::read_job_text;
