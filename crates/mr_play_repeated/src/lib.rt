//! The script of a run's events is played to the same run.
//!
//! # What is proved
//!
//! - **`runs_are_repeated`**: where each event of a run was permitted and passed no limit when it came, the bytes that were handed in are those that
//!   `compute` hands in, and no start and no crash keeps 2 ^ 64 bytes or more, `play` of the run's script, comments behind it or not, takes just these events,
//!   refuses none, and prints what came of them and nothing else. A script has words for the events (`runs_can_be_said`).
//! - Such are the events to which a script leads, by its own and by its calms (`scripts_are_repeatable`).
//! - Such are those of a journal, where the bytes are what the job's functions give, and are not too many (`faithful_runs_are_repeatable`).
//!
//! There is no code in this crate.
#![tactic(auto)]

ghost use Rattle.mr_play_repeated.specs.Repeated.{FaithfulRunsAreRepeatable, RunsAreRepeated, RunsCanBeSaid, ScriptsAreRepeatable};

/// `play` of the script of a run's events comes to the same run.
pub fn runs_are_repeated()
    ensures { RunsAreRepeated }
{}

/// A script has words for the events of a run that can be repeated.
pub fn runs_can_be_said()
    ensures { RunsCanBeSaid }
{}

/// The events to which a script leads can be repeated.
pub fn scripts_are_repeatable()
    ensures { ScriptsAreRepeatable }
{}

/// The events of a journal can be repeated, where the bytes that were handed in are what the job's functions give, and not too many.
pub fn faithful_runs_are_repeatable()
    ensures { FaithfulRunsAreRepeatable }
{}
