//! The script that repeats a run: for each event of a journal the line of a script that makes it again.
//!
//! # What is proved
//!
//! - **`put_script`**: for every list of events, it writes exactly their commands, a line each (`repeating`). Bytes that were computed are told by `compute`
//!   alone: a script hands in what the job's definition gives for the container's input.
//! - `put_command` writes exactly the command of one event (`command_line`), `put_container` and `put_number` a word of it.
//! - What came of a run is written exactly in the words that a script expects (`put_winner`, `put_marker`, `put_outcome`),
//!   and in the lines that `play` prints (`put_winner_lines`, `put_marker_line`, `put_outcome_line`; `specs/Results`).
//! - `put_comments` writes exactly the lines of a text as comments (`commented`).
//! - Such a script, with such comments behind it, is read by mr_script as exactly these commands, where a script can say them (`scripts_are_read_back`).
//!
//! That `play` of such a script comes to the same end is a law of mr_play_repeated.
#![tactic(auto)]

mod comment;
mod laws;
mod line;
mod results;
mod script;
mod word;

pub use comment::put_comments;
pub use laws::scripts_are_read_back;
pub use line::put_command;
pub use results::{
    put_marker, put_marker_line, put_outcome, put_outcome_line, put_winner, put_winner_lines,
};
pub use script::put_script;
pub use word::{put_container, put_number};
