//! Laws of the definitions: these functions do nothing.
ghost use Rattle.mr_sim_commands.specs.Laws.{OneReading, ReadOrBad, OneFirstBad, CommentsAreNoCommands, OneSeqText};

/// A script has at most one reading.
pub fn one_reading()
    ensures { OneReading }
{}

/// A script is not both read and bad.
pub fn read_or_bad()
    ensures { ReadOrBad }
{}

/// A script has at most one first bad line.
pub fn one_first_bad()
    ensures { OneFirstBad }
{}

/// A line that is a command is no comment.
pub fn comments_are_no_commands()
    ensures { CommentsAreNoCommands }
{}

/// `seq` prints at most one text for an input.
pub fn one_seq_text()
    ensures { OneSeqText }
{}
