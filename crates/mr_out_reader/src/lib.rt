//! A reader of a cluster's destination: the bridge from the promise of a cluster to the answer of `mrout check`.
//!
//! # What is proved
//!
//! [`yes_is_whole`], a law: let a run of a cluster be any list of events, and a listing of its destination any lines, each of which was true at some moment of
//! the run (a listing is not one moment). Whatever is told of the job, the answer is yes only where `_SUCCESS` is there in the end. And then each reduce's
//! part file is its winner's whole file, and nothing else is seen. [`yes_of_text_is_whole`] says the same of the text of a listing, in each format.
//!
//! So a yes rests on three things: that the store and the job are as the cluster is here, which the premises of the answer ask for; that the listing is
//! honest; and that it is of the job's directory.
#![tactic(auto)]

ghost use Rattle.mr_out_reader.specs.Moments.{YesIsWhole, YesOfTextIsWhole};

/// A yes to what was listed of a destination, each line as it stood at some moment of a run: the marker is there, and the output is whole.
pub fn yes_is_whole()
    ensures { YesIsWhole }
{}

/// A yes to the text of a listing, the lines of which each stood so at some moment of a run.
pub fn yes_of_text_is_whole()
    ensures { YesOfTextIsWhole }
{}
