//! The script of each run of an exploration is played to the end to which the run came.
//!
//! # What is proved
//!
//! `scripts_lead_to_their_ends`: of each run that comes of an input by faults, however many, deep or not, `play` of its script behind the job text prints the
//! end to which it came (`LeadsTo` of mr_explore).
//!
//! So each script that `explore` prints leads to the end beside it (`explored_scripts_lead`). There is no code in this crate.
#![tactic(auto)]

ghost use Rattle.mr_explore_repeated.specs.Leading.{ExploredScriptsLead, ScriptsLeadToTheirEnds};

use mr_explore::{Explored, outcomes_are_printed};
use mr_explore_search::runs_are_all_that_depart;

/// `play` of the script of a run, behind the job text of its input, comes to the run's end.
pub fn scripts_lead_to_their_ends()
    ensures { ScriptsLeadToTheirEnds }
{
    outcomes_are_printed();
}

/// `play` of each script that `explore` prints, behind the job text of its input, comes to the end beside it.
pub fn explored_scripts_lead()
    ensures { ExploredScriptsLead }
{
    scripts_lead_to_their_ends();
    runs_are_all_that_depart::<Explored>();
}
