//! Laws of the definitions: these functions do nothing.
ghost use Rattle.mr_explore_merged.specs.Laws.{MergedOrRefused, MergedScriptsLead, OneTextIsPrinted};

use mr_explore::explored_or_refused;
use mr_explore_repeated::scripts_lead_to_their_ends;
use mr_sim_commands::one_seq_text;

/// Of an input of which no run comes near a limit one text is printed at most, by however many threads.
pub fn one_merged_text()
    ensures { OneTextIsPrinted }
{
    one_seq_text();
    explored_or_refused();
}

/// Nothing is printed of an input whose job text or script is refused. Where something is printed, the script and the start of the first master pass no limit.
pub fn merged_or_refused()
    ensures { MergedOrRefused }
{}

/// `play` of each script that is printed, behind the job text of its input, comes to the end beside it.
pub fn merged_scripts_lead()
    ensures { MergedScriptsLead }
{
    scripts_lead_to_their_ends();
}
