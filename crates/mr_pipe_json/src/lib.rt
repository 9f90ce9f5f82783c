//! The lines of a pipe as objects of JSON, both ways. The first word of a line is at a key, those behind it at `words`.
//!
//! A word is escaped in an object as in a line, since a name may have bytes that are no text.
//!
//! # What is proved
//!
//! - **`said_as`**: a line that is written, in either form, is exactly that of the definition (`said_as` of specs/Form): the line itself, or its object (`line_object`),
//!   in the compact text of `serde_json`.
//! - **`told_as`**: a line that is read gives exactly the line that the definition says, or none: itself, or the line of its object (`line_in`), where it is one.
//!
//! Only tested: that these succeed with ample memory.
#![tactic(auto)]

mod key;
mod said;
mod told;

pub use key::{Key, key_text};
pub use said::said_as;
pub use told::told_as;
