//! Lines over a pipe: one is read, a text is sent at once. For the machines that talk to a program in another language.
//!
//! # What is proved
//!
//! - **`next_line`** gives the next line of the stream (`lines_in`), or says that there is none. A line ends with a line feed: what stands
//!   behind the last one is no line, since its writer may have been cut off.
//! - **`read_all`** gives all that a reader has; nothing where that is more than 16,777,216 bytes. **`send`** has written the whole text where it
//!   answers `Ok`.
//! - `status_of` is the table of a fault's statuses. **`say`** has written the fault's line (`fault_line`) where it answers `Ok`.
//!
//! Only tested: that a text is flushed, and what is written before a stream fails.
#![tactic(auto)]

mod fault;
mod form;
mod lines;

pub use fault::{PipeFault, say, status_of};
pub use form::Form;
pub use lines::{next_line, read_all, send};
