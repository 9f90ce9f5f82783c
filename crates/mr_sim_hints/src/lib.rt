//! What is told beside a refused or an odd input: which word of a line does not fit, what is wrong with a job text, and which of its
//! keys say nothing.
//!
//! Behind `bad command` stand the word that does not fit, and how its command is written (`hint_of`). The words of a line
//! are tried one by one by what reads them in a script (`mr_script`). So a word that is told as bad is one that its
//! command does not take there. No byte of the line is repeated, since it may be no text. A hint takes no memory.
//!
//! A job text that is refused is read once more (`JobHint::of`): where it breaks off, which key is missing though one is there that is
//! nearly spelled so, which split or fault is bad. `refused_line` finds the line that a job refuses. Where there is no memory for
//! that, less is told. A `RecordHint` tells what is wrong with a line of a segment, and takes none.
//!
//! Keys of a job text that no job has are ignored, and told in a line each (`put_idle_keys`), with the key that may be meant.
//!
//! # What is proved
//!
//! That it is safe, and ends, and which word a trouble is about (`Trouble::place`). What else is told is tested
//! (`tests_sim`, `tools/hostile`), and no clause tells it: it stands beside the output, or beside the fault.
#![tactic(auto)]

mod forms;
mod hint;
mod idle_keys;
mod job;
mod near;
mod record;

pub use forms::Script;
pub use hint::{Hint, Trouble, hint_of};
pub use idle_keys::put_idle_keys;
pub use job::{FaultTrouble, JobHint, JobTrouble, NodeKey, RefusedLine, refused_line};
pub use record::{RecordHint, RecordTrouble};
