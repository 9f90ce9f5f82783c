//! When a run of an exploration need not be made: another one is like it.
//!
//! # What is proved
//!
//! Two runs are alike (`like`) where their worlds are, the same packets are still to come and may come once more, the same was
//! put off, and the second is nowhere nearer to a limit. Whatever comes of the first then comes of the second (`Likens` of
//! mr_explore_alike):
//!
//! - of runs that are as near to each limit, as mr_explore's definitions make them go on (`level_runs_liken`);
//! - of runs of which the second may have more room, where a run passes a limit as soon as the look-ahead for one that goes on
//!   in vain does (`careful_runs_liken`). Those are some of the exploration's runs (`careful_runs_are_runs`).
//!
//! The run of an input is like itself (`runs_are_like_themselves`).
//!
//! A run is earlier than another one where it has fewer faults, or as many, and its script comes before in the order of
//! mr_script_order. So a search of mr_explore's runs may leave out each run of which one that is like it and earlier was made. Of
//! all runs of which no look-ahead passes a limit it then finds each one, or an earlier one that came to the same end
//! (`no_careful_end_is_lost`), and none of them is earlier than the least that it finds with that end
//! (`no_careful_run_is_earlier`). The least of all runs to an end has one script (`least_runs_have_one_script`). Searches that
//! leave out only runs that are as near to each limit find that one, whichever they left out (`searches_find_one_script`).
//!
//! There is no code in this crate: each law is the contract of a function that does nothing.
//!
//! # What is compared
//!
//! - **What machines and stores hold** (`Alike` of mr_world_alike), and the histories byte by byte: how many bytes stay of what
//!   was not flushed is read off these.
//! - **The packets that calms have not come to**, and which of these were dropped.
//! - **Where a packet lies that was delivered**, or may come late: it was passed over in both and is equal, or it lies as far
//!   ahead in both. What comes next by itself is no fault, and that is told by the place.
//! - **How many packets lie last that only ask**: by these a run is found to go on in vain.
//! - **How many events, packets and launches there are**: the second run has no more. All else that a limit reads is the same
//!   in alike worlds.
//!
//! # Why room counts
//!
//! Whether a run goes on in vain is found by a look-ahead, which a limit may end. Of two runs that are alike but for their room
//! one may then have ended in vain, where the other goes on for some events, to its limit. So runs of mr_explore are compared
//! that have the same room; and of those that may have more only such as look ahead within the limits.
#![tactic(auto)]

ghost use Rattle.std.specs.Prelude.{true, false};
ghost use Rattle.mr_explore.specs.Faults.{most_events};
ghost use Rattle.mr_explore.specs.Runs.{explored};
ghost use Rattle.mr_explore_alike.specs.Likens.{Likens};
ghost use Rattle.mr_explore_likeness.specs.Careful.{careful, ends_careful};
ghost use Rattle.mr_explore_likeness.specs.Losing.{CarefulRunsAreRuns, LeastRunsHaveOneScript, NoCarefulEndIsLost, NoCarefulRunIsEarlier, RunsAreLikeThemselves, SearchesFindOneScript};
ghost use Rattle.mr_explore_likeness.specs.Runs.{before, ends, like, rest, void};

/// Runs of an exploration that are alike and as near to each limit: whatever comes of one comes of the other.
pub fn level_runs_liken()
    ensures { Likens explored rest before void (like true) ends most_events }
{}

/// Runs that are alike, of which the second is nowhere nearer to a limit: whatever comes of the first comes of the second, where a run
/// passes a limit as soon as the look-ahead for one that goes on in vain does.
pub fn careful_runs_liken()
    ensures { Likens careful rest before void (like false) ends_careful most_events }
{}

/// The run of an input is like itself.
pub fn runs_are_like_themselves()
    ensures { RunsAreLikeThemselves }
{}

/// A run that goes on so is one of the exploration's.
pub fn careful_runs_are_runs()
    ensures { CarefulRunsAreRuns }
{}

/// Where a run of an exploration is left out only if an earlier one that is like it was made, of all runs of which no look-ahead passes a
/// limit each one is found, or an earlier one that came to the same end.
pub fn no_careful_end_is_lost()
    ensures { NoCarefulEndIsLost }
{}

/// None of these runs is then earlier than the least that is found with the same end.
pub fn no_careful_run_is_earlier()
    ensures { NoCarefulRunIsEarlier }
{}

/// Two runs with one end, to which none of all runs is earlier, have as many faults, and one script.
pub fn least_runs_have_one_script()
    ensures { LeastRunsHaveOneScript }
{}

/// Of two searches that leave out runs that are like an earlier one and as near to each limit, the least that they find with one end have as
/// many faults, and one script.
pub fn searches_find_one_script()
    ensures { SearchesFindOneScript }
{}
