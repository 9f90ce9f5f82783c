//! The entries of an output directory's log: each is one decision, the lines of all its records and
//! where it came from.
//!
//! # What is proved
//!
//! - Each function is safe, and returns.
//! - `Entry::text` is the entry's one text (`entry_text`), which can be a link's target: at least a
//!   byte, and each can be printed and is no slash (`IsLinkText`).
//! - `Entry::read` of the bytes of a link answers an entry exactly where the bytes are its text,
//!   and the entry is of the job: its attempts are the job's, at reduces. Otherwise it answers
//!   nothing; and it fails for want of memory alone. So no two entries of a job have one text.
//! - `usual_entries_are_short`: an entry of one line with usual numbers has at most 59 bytes.
//!   `lines_fit` and `origins_fit`: no line takes more than `MAX_LINE_LEN` bytes, no origin more
//!   than `MAX_ORIGIN_LEN`. `Line::len` tells how many a line takes.
//! - `records_of` is the job history that the lines of all entries tell (`records_of` of
//!   specs/Histories), and each of its records has a line in a segment of version 1
//!   (`records_have_lines`).
//! - `push_number` and `number_in` write and read a number in a base of at most 64: each number has
//!   one text.
//!
//! Only tested: that the calls succeed with ample memory, and the texts against some that are
//! worked out by hand.
#![tactic(auto)]

mod entry;
mod history;
mod laws;
mod line;
mod numeral;
mod reading;
mod text;

pub use entry::{Entries, Entry, Lines, Origin};
pub use history::{records_have_lines, records_of};
pub use laws::{lines_fit, origins_fit, usual_entries_are_short};
pub use line::{Handed, Line};
pub use numeral::{number_in, push_number};
pub use text::{MAX_LINE_LEN, MAX_ORIGIN_LEN, MAX_TEXT_LEN};
