//! The identifiers of a MapReduce job: the job, its tasks, the attempts at them, and the
//! generations of its master. And the bytes that all crates above pass on.
//!
//! Each has one text, which Hadoop MapReduce prints and puts into paths. It is written, and read
//! back as nothing else. The ranges of the numbers are our own, and so is it that no other
//! spelling is read.
//!
//! # How to begin
//!
//! ```rust
//! fn launched_by(text: &str) -> Result<(TaskId, AppAttempt), IdFault> {
//!     let attempt = AttemptId::parse(text)?;
//!     Ok((attempt.task(), attempt.generation()))
//! }
//! ```
//!
//! (It is run in `crates/tests_guides`.)
//!
//! # What is proved
//!
//! **mr_ids, identifiers.** `JobId`, `TaskKind`, `TaskId`, `AttemptId`, `AppAttempt`, `IdFault`. A value out of
//! range can't be made: the numbers' types bound them, `AttemptId::new` and `AppAttempt::new` test, and both have
//! private fields.
//! - Each identifier has one text (`job_200707121733_0003`, `task_200707121733_0003_m_000005`,
//!   `attempt_200707121733_0003_m_000005_0`, a generation's decimal). Proved: `write` appends exactly it, and where
//!   memory is refused appends nothing. `{}` prints exactly it. `parse` and `text.parse()` answer v exactly where the
//!   text is v's text, and else the first fault from the left. That fault is a function of the fields between the bars.
//!   Memory may be taken by each `write`, and by `from_slice`, `share`, `part`, `extend`, `append`, `copy`,
//!   `copies` and `clone` of `Bytes`. No other call of the crate takes any.
//! - Proved: `generation` is number / 1000 + 1 and `first_attempt_number` of generation k is 1000 * (k - 1), and the
//!   two are inverse (`numbers_tell_generations`). `is_map`, `is_reduce`, `new`, `task` and `number` are what they say.
//!   `==`, the order and the hash are those of the parts (derived).
//! - Proved laws, on functions that do nothing, for the layers above:
//!   - no two identifiers have one text, of one kind or of different kinds (`texts_are_distinct`);
//!   - a numeral is of one number alone (`numerals_are_distinct`);
//!   - a text has only letters, digits and bars, and at most 35, 49 or 59 bytes (`texts_are_plain`, and beside each
//!     `write`);
//!   - a numeral has only digits, at least its width and no more than its number needs (`numerals_are_digits`);
//!   - the ranges of each identifier's numbers (`ranges`).
//! - **`Bytes`** is the bytes that it was made of, seen as a list: `new`, `from_vec`, `from_slice`, `as_slice`, `len`,
//!   `is_empty` are what they say. `extend` and `append` add at the end or change nothing, `copy` and `clone` give equal
//!   bytes, `copies` does so of each in a list, `part` gives those from one place to another, and `==` is that of the
//!   lists. `share` changes nothing that is seen. What may be refused is refused for want of memory alone, and never of no
//!   bytes (of `clone` that is read in the code: it is a call of `copy`).
//! - Read in the code, not proved: after `share` a copy or a part of the bytes copies none of them, in whichever thread it
//!   is made, and neither does an `append` to no bytes. Nor does one of bytes that lie right behind these in what is
//!   shared, as the next part of one list of bytes: they are compared with what lies there, and belong to these too. All
//!   is held by `Bytes` of the crate `bytes`, which counts the holders.
//! - Only tested: the texts of the faults, what `{:?}` prints, and that the calls succeed with ample memory.
#![tactic(auto)]

mod contents;
mod display;
mod fault;
mod from_str;
mod id;
mod laws;
mod reading;
mod share;

pub use contents::Bytes;
pub use fault::IdFault;
pub use id::{AppAttempt, AttemptId, JobId, MAX_APP_ATTEMPTS, TaskId, TaskKind};
pub use laws::{
    numbers_tell_generations, numerals_are_digits, numerals_are_distinct, texts_are_distinct,
    texts_are_plain,
};
