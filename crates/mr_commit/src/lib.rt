//! The output committer, one call of the namespace at a time.
//!
//! # How to begin
//!
//! ```rust
//! fn commit(
//!     store: &mut Namespace,
//!     caller: Caller,
//!     step: &mut Step,
//!     most: u32,
//! ) -> Result<StepDone, CommitFault> {
//!     for _ in 0..most {
//!         let Some(op) = step.call() else {
//!             return Err(CommitFault::Over);
//!         };
//!         let answer = store.perform(caller, op); // or your own store
//!         if step.took(answer)? == StepDone::Finished {
//!             return Ok(StepDone::Finished);
//!         }
//!     }
//!     Ok(StepDone::More)
//! }
//! ```
//!
//! (It is run in `crates/tests_guides`.)
//!
//! # What is proved
//!
//! The output committer of a job, one call of the namespace at a time. Six operations of Hadoop's `OutputCommitter`
//! stand as step values, so that a machine, a driver or a crash can stop between any two calls. Five are a `Step`, made
//! by `Step::setup_job`, `Step::commit_task`, `Step::abort_task`, `Step::commit_job` or `Step::abort_job`. The sixth is
//! `RecoverTask`, which stands over one.
//!
//! What is proved, and by which contract:
//!
//! - **The next call, and nothing else.** `next` (clause `Steps`), `call` (`next_call`) and `took` (`Hears`) are one
//!   definition. A step value is the list of lines of its table that are left. The first line has a call, and its
//!   answer puts the lines that follow in its place. `next` is `call`, `Namespace::perform` and `took` in one.
//! - **The same in two halves.** `follow` makes ready for an answer and changes nothing: it gives the lines that
//!   follow, and whether calls are left then, or the fault. `go_on` puts these lines in the place of the first and
//!   takes no memory. Together they are `took` (`Follows`, of a recovery `FollowsOf`). So whoever has to make ready for
//!   an answer before its call is made copies no lines.
//! - **Over is over.** After `Finished`, and after each fault but `NoMemory`, no line is left: the answer is `Over`
//!   from then on and no call is made. After `NoMemory` the step value and the namespace are as before, and
//!   `NoMemory` is answered only by a line that may allocate and whose call is not refused.
//! - **`call` lends the operation and takes no memory.** Each line holds its call ready made. So `took` wants
//!   memory only after `list` or `exists`, which change nothing; after a `delete`, `rename`, `mkdirs` or `create`
//!   it only drops the line.
//! - **Recovery.** `RecoverTask` looks at the earlier generations from the newest down to the first, and what it finds
//!   takes the place of what this generation had committed. Where a length was recorded, the part file is read first:
//!   another length is `WrongLength`, no file there is `OutputMissing`. `OutputMissing` is also answered where nothing
//!   is found at all. Generation 1 has no earlier one: `call` gives none, and the first `next` answers `OutputMissing`
//!   without a call, also to a caller that is superseded or barred. Then it is over (`next_of`, `StepsOf`, `HearsOf`;
//!   whole: `RecoveryHas`, `RecoveryMade`).
//! - **Whole forms** `setup_job`, `commit_task`, `abort_task`, `recover_task`, `commit_job`, `abort_job` end and have
//!   the committer effect. For every answer but `NoMemory` it is `whole table before caller ≡ (answer, after)` (clause
//!   `effect`), and the same said as a path of steps (clause `made`). `NoMemory` leaves what the earlier calls did, and
//!   comes in two places only (`Commits`). One is that there was no memory for the table's lines: then the caller is
//!   neither superseded nor barred, and the namespace is as it was. The other is that the line that is next may
//!   allocate and its call is not refused.
//! - `needs_task_commit` and `check_output` are their one `exists`.
//! - **An answer of another call is a fault**: `took` and `follow` answer `WrongAnswer` to it, and nothing goes on. What
//!   the namespace answers is always of its call (law `answers_own_calls`).
//! - `copy` of a step value is an equal value, and `is_same` tells whether two are equal. Memory may be taken by what
//!   makes or copies a step value, by `follow`, `took` and `next`, by the whole forms, and by `needs_task_commit`. No
//!   other call takes any.
//! - **Laws**: steps lead to one answer and one namespace (`one_result`). Whole forms end, and the tables meet the
//!   condition for it (`whole_forms_end`). After a task commit that was answered the committed path holds what the
//!   attempt path held, and the attempt path holds nothing. Nothing else changed, and the fence is as before
//!   (`task_commits`). The law of a job commit asks that each task had committed one closed file and nothing else, no
//!   two of one name, with no such name in the destination. After one that was answered each of these files stands in
//!   the destination with its bytes, closed. Nothing is at `$dest/_temporary` or beneath it, and the marker is an empty
//!   closed file. No other path differs, fence and barred attempts are as before (`job_commits`). After a task's abort
//!   that was answered nothing is at the attempt path or beneath it, after a job's abort nothing at `$dest/_temporary`
//!   or beneath it. No other path differs, fence and barred attempts are as before. An abort that was not answered
//!   changes nothing (`aborts_leave`). The last law is of a recovery (`task_recovers`), of the committer effect, so an
//!   allocation failure aside. After one that was answered the committed path of this generation, and every path
//!   beneath it, hold what the newest earlier generation with committed output held there. That one holds nothing of
//!   the task any more. No other path differs, fence and barred attempts are as before, and where a length was recorded
//!   the part file has it. `OutputMissing` says that no earlier generation committed output, or that a length is
//!   recorded and the newest one has no part file. `WrongLength` says that its part file has another length. A
//!   superseded or barred caller is refused, but in generation 1. Each fault leaves the namespace as it was.
//!
//! Only tested: that memory suffices where there is plenty; the printed text of two faults.
#![tactic(auto)]

mod abort;
mod answer;
mod checks;
mod fault;
mod job;
mod laws;
mod line;
mod recover;
mod setup;
mod step;
mod takeover;
mod task;

pub use abort::{abort_job, abort_task};
pub use checks::{check_output, needs_task_commit};
pub use fault::{CommitFault, StepDone};
pub use job::commit_job;
pub use laws::{
    aborts_leave, answers_own_calls, job_commits, one_result, task_commits, task_recovers,
    whole_forms_end,
};
pub use recover::{RecoverTask, recover_task};
pub use setup::setup_job;
pub use step::{Following, Step};
pub use task::commit_task;
