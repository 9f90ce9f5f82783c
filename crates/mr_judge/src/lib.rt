//! A store's own trace, judged by the namespace's definition. `mrsim judge` tells the first answer that the definition would not give: a test of a store
//! against its duties.
//!
//! # What is proved
//!
//! - **`judged`**: for every input, the verdict is the one that the definition of the trace says (`Judges`). The calls are those of its lines, in their order
//!   and by their callers, beginning with an empty namespace. Where each answer is the one that `call_of` of `mr_names` gives, it is `Right`. Else the first line whose
//!   answer is another one is told, with the words of that answer and of the right one. A line is read exactly where it is the line that a call with its answer is
//!   written as; the first that is none is told (`BadLine`).
//! - **`judge_input`, bytes to bytes**: what is written is what is said of the verdict of the bytes that were read (`said_of`: a line, or a line of JSON); nothing where there
//!   is none. `TooLong`: there are more than 16,777,216 bytes.
//! - **`run`**, which the program calls: its status is that of the judgement (`Runs`). `status_of` is the table of statuses.
//!
//! Only tested: that these succeed with ample memory, and what stands on standard error.
#![tactic(auto)]

mod command;
mod fault;
mod judge;
mod line;
mod verdict;

pub use command::{judge_input, run};
pub use fault::JudgeFault;
pub use judge::judged;
pub use line::Told;
pub use verdict::{Verdict, said_of, status_of, verdict_json, verdict_text};
