//! The recorded calls of a command, and what follows where their answers are honest.
//!
//! Whoever carries out a command on a real disk keeps a record of its calls (mr_out_files). No contract can say what a
//! disk holds, but one can say that the record is a command's.
//!
//! # What is defined
//!
//! `IsCarriedOut`: the calls that were recorded are those of a command, one after another, each once the answers before
//! it were taken, and no other; and it ended as the command that took these answers.
//!
//! # What is proved
//!
//! `recorded_directories_keep_promises`: of any list of commands that were carried out so, of commands that were killed, of
//! what others did meanwhile, and of power cuts. Where each recorded answer is one that a disk may give (mr_out_disk), what
//! is left is what a run of mr_out_model leaves, and its promises hold of it and of all that follows.
#![tactic(auto)]

mod laws;

pub use laws::recorded_directories_keep_promises;
