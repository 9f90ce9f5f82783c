//! A reader of a directory of `mrout`: the bridge from the promise of the directory to the answer of `mrout check`.
//!
//! # What is proved
//!
//! [`yes_is_whole`], a law: let a run be any list of moves, kills and power cuts among them. A reader looks for the marker at some moment, reads the history
//! at any later one, also while a command appends to it, and lists the directory. The answer is yes only where each task's recorded winner's whole file is there,
//! and stays there, with its bytes, whatever happens later.
//!
//! [`marked_is_yes`], a law, the other way round: where the marker was seen, and then all was listed, each name as it stood at some moment behind, the
//! answer is yes.
//!
//! Both stand on the laws of mr_out_model alone. That the answer needs each file to be listed, with its length, whatever happened to the disk, says
//! `yes_means_whole` of mr_out_winners.
#![tactic(auto)]

ghost use Rattle.mr_out_yes.specs.Readers.{MarkedIsYes, YesIsWhole};

/// A yes to whoever saw the marker, then read the history and listed the directory, at any moments of a run: each task's winner's whole file is there,
/// and stays.
pub fn yes_is_whole()
    ensures { YesIsWhole }
{}

/// The marker was seen, and the directory was listed behind that, whatever happened meanwhile: the answer is yes.
pub fn marked_is_yes()
    ensures { MarkedIsYes }
{}
