//! Three jobs: how often each word stands, the greatest number of each key, and where each word stands.
//!
//! # What is proved
//!
//! - **`WordCount`, `MaxByKey` and `LineIndex`** are jobs (`Job` of mr_user) with all laws of a job. What the functions
//!   of each give is a definition of `specs/` (`word_count`, `max_by_key`, `line_index`), and each method is proved to
//!   give exactly that, an allocation failure aside. `MaxByKey` alone refuses a line: one whose words are not a key and a
//!   number. docs/USING.md is for who writes a job of his own, and begins with these.
//! - Memory may be taken by each method but `partition`.
//! - Only tested (crates/tests_jobs/src/user.rt): what the functions of the three jobs give for small examples (worked
//!   job texts are tested through `seq`).
#![tactic(auto)]

mod line_index;
mod max_by_key;
mod word;
mod word_count;

pub use line_index::LineIndex;
pub use max_by_key::MaxByKey;
pub use word_count::WordCount;
