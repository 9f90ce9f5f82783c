//! Objects of JSON, as they are put together member by member, and lines of JSON.
//!
//! # What is proved
//!
//! - `put_word`, `put_text`, `put_count`, `put_flag` and `put_list` put exactly the value of the definition (`specs/Members`) at a key.
//! - `put_line` writes exactly the line of a value (`line_of`): its compact text, as `serde_json` has it. A value with a float has no such text here, and none is asked for.
#![tactic(auto)]

mod object;

pub use object::{Object, into_value, put_count, put_flag, put_line, put_list, put_text, put_word};
