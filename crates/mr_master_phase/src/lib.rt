//! What a master is at in its phase, which store call is due by that alone, and what is next after the call's answer.
//!
//! `Work` is the work of `mr_master_model`, with what is left of a committer's table. It knows no task's machine, no
//! container and no node. The machine that keeps it is `mr_master_state`. Which past it stands for is said there.
//!
//! # What is proved
//!
//! - `Work::duty` is the call that is due by the work alone. Where it is refused memory, a call is due.
//! - What is next is `work_after` of the definitions: after a look for a mark (`look`), after the creation of one, and
//!   after the abort that follows COMMIT_FAIL (`told`).
//! - `follow` tells what comes of a committer's answer, and changes nothing. Where calls are left, `go_on` puts the lines
//!   that follow in place. After the last one `finished` is what is next, but for the reduces that are left after the
//!   next one: `move_on` moves them. After a refusal `refused` is what is next. `go_on` and `move_on` take no memory.
//! - `read_work` is what is next after the earlier segments were read, `aborted` what is next after the abort of a
//!   failed job.
//! - `Work::is_same` is true exactly where two works are equal, with the calls and reduces that are left.
//! - The questions tell the kinds of work apart (`is_look`, `is_tell`, `is_read`, `is_step`, `fails`, `is_running`,
//!   `is_over`).
#![tactic(auto)]

mod abort;
mod duty;
mod marks;
mod reading;
mod store;
mod winners;
mod work;

pub use abort::aborted;
pub use duty::{abort_duty, of_mark};
pub use marks::started_mark;
pub use reading::{read_work, records_in};
pub use store::{Coming, is_fine};
pub use work::Work;
