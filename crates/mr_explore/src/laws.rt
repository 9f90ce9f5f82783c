//! Laws of the definitions: these functions do nothing.
ghost use Rattle.mr_explore.specs.Laws.{AskingShowsNothing, ExploredOrRefused, OneExploredText, OutcomesArePrinted};

use mr_sim_commands::one_seq_text;

/// An input has one run at most from which it is explored, and nothing is printed of an input that is refused.
pub fn explored_or_refused()
    ensures { ExploredOrRefused }
{}

/// Of an input one text is printed at most, where no time is given.
pub fn one_explored_text()
    ensures { OneExploredText }
{
    one_seq_text();
}

/// What a run came to is written as `play` prints its cluster.
pub fn outcomes_are_printed()
    ensures { OutcomesArePrinted }
{}

/// An event by which somebody only asks, or is told no, changes nothing that `play` prints of a cluster. Nor does
/// anything that is looked ahead at where a run goes on in vain.
pub fn asking_shows_nothing()
    ensures { AskingShowsNothing }
{}
