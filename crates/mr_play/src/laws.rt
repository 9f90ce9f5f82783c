//! Laws of the definitions: these functions do nothing.
ghost use Rattle.mr_play.specs.Laws.{CalmsArePermitted, NamesAreOfDutiesAndWishes, OnePlayText, ScriptsGoOn};
ghost use Rattle.mr_play.specs.Rows.{PlayedRows};

/// Each name that a calm stops before, but `launch` and `step`, is that of a master's duty or of a container's wish.
pub fn names_are_of_duties_and_wishes()
    ensures { NamesAreOfDutiesAndWishes }
{}

/// A job text with a script has at most one text, and none where it is refused.
pub fn one_play_text()
    ensures { OnePlayText }
{}

/// What a script led to stays, whatever commands follow it: its events, each winner, and, once the marker is there, all that a reader sees.
pub fn scripts_go_on()
    ensures { ScriptsGoOn }
{}

/// What a few scripts print, worked out.
pub fn played_rows()
    ensures { PlayedRows }
{}

/// What a calm makes next is permitted, where the job keeps its laws and there is a node.
pub fn calms_are_permitted()
    ensures { CalmsArePermitted }
{}
