//! The recovery plan of a master that starts, from the bytes of the segments before it. `mrsim recovery`: which tasks are taken over, with which winners and of which
//! lengths; or that the job's success, or its failure, is reported.
//!
//! # What is proved
//!
//! - **`planned`**: for every list of segments, the plan is that of the definition (`Plans`): the segments' records, in their order, are those that a master reads
//!   (`records_of` of `mr_history`), and the plan is `IsPlan` of `mr_recover` for them and the marks, among which a record of a failed job counts as
//!   COMMIT_FAIL. The first segment that is refused is named: `BadLine` by the first line that is none, `EarlierGeneration` where a record in it is of an earlier
//!   generation than one before it (`Order`).
//! - **`recover`, bytes to bytes**: what is written is what is said of that plan (`said_of`); nothing where there is none.
//! - **`run`**, which the program calls: its status is that of the plan (`Runs`). `status_of` is the table of statuses.
//!
//! Only tested: that these succeed with ample memory, and what stands on standard error.
#![tactic(auto)]

mod command;
mod fault;
mod object;
mod plan;
mod said;

pub use command::{recover, run};
pub use fault::PlanFault;
pub use object::plan_json;
pub use plan::planned;
pub use said::{plan_text, said_of, status_of};
