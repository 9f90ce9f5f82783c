//! What a store sees of a script of committer calls: each call with its answer. It is what `mrsim committer --trace` and `--json` print.
//!
//! As text a call is a line of a store's trace, as `mrsim judge` reads it (`mr_judge`): `GENERATION ATTEMPT CALL: ANSWER`, with `none` for the attempt of a master, or
//! `raise GENERATION`. Before the calls of a command stands a comment with its line and its word. As JSON each call is an object with the keys `line`, `command`, `generation`,
//! `attempt` (where the call has one), `call` and `answer`; of a raised fence, `line`, `command` and `fence`.
//!
//! # What is proved
//!
//! - **`committer_trace`, bytes to bytes**: for every script, what is written is the trace of its commands (`PrintsTrace`). The calls are those of each operation's table, in
//!   their order, from an empty namespace on, and each command goes on where the one before it led (`SeesAll`, by `outcome` of mr_sim_commands: so it is the run that `committer`
//!   lists). Each answer is the one that `call_of` of mr_names gives. Else it tells the first line that is no command, or there was no memory (`CommitterFails`).
//! - A script has one trace at most (`one_trace`), and `mr_judge` finds each call of it right (`traces_are_right`).
//!
//! Only tested: that it succeeds with ample memory, and that `judge` reads each trace as it is written.
#![tactic(auto)]

mod call;
mod command;
mod laws;
mod shown;
mod table;
mod trace;

pub use laws::{one_trace, traces_are_right};
pub use trace::committer_trace;
