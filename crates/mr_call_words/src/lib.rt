//! The words of a namespace call and of its answer, as a line: written, and read back as nothing else. For programs that talk over
//! a pipe with a store that is not here.
//!
//! A line is words with a space between each two, and has no line feed. The first word says which call or answer it is. In the words behind it,
//! which are paths, names and bytes, each byte but a letter, a digit and `-._~/` is written `%XX`, as in the path of a URL (RFC 3986). So no word
//! has a space, and a name as `part-r-00000` stands as it is.
//!
//! | Call | Answers |
//! |---|---|
//! | `mkdirs PATH`, `create PATH`, `create PATH closed`, `append PATH BYTES`, `close PATH`, `delete PATH`, `rename FROM TO`, `bar ATTEMPT` | `done` |
//! | `list PATH` | `entries NAME/ NAME ..`: a directory has a `/` behind its name; alone, `entries` lists none |
//! | `exists PATH` | `nothing`, `a directory`, `a file` |
//! | `read PATH` | `bytes BYTES` |
//!
//! Each call may be refused: `Superseded FENCE`, `Barred`, `Missing`, `Exists`, `NotDir`, `NotFile`, `Closed`, `NoParent`, `IntoItself`,
//! `Full`, `NoMemory`. These are the words of a trace; where a trace counts entries or bytes, the entries and the bytes stand here.
//!
//! # What is proved
//!
//! - `put_call` and `put_answer` add exactly the line of a call (`call_line`), of an answer (`answer_line`).
//! - `call_in` and `answer_in` answer exactly the call, the answer, that the line is written as, or that there is none (`ReadsCall`, `ReadsAnswer`).
//!   So what is written is read back, no two calls and no two answers have one line, and a line that is spelled in another way is none.
//!
//! Memory may be taken by each of the four, and refused.
//!
//! Only tested: that they succeed with ample memory.
#![tactic(auto)]

mod answer;
mod call;
mod opening;
mod path;
mod word;

pub use answer::{answer_in, put_answer, put_fault};
pub use call::{call_in, put_call};
pub use word::{put_first, put_next};
