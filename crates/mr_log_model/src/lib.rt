//! Runs of any number of commands at once over a log of names, with kills and power cuts, and what each of them keeps.
//!
//! # What is proved
//!
//! `decisions_stay`: of any list of moves from what an honest `begin` left, and of any more moves after it. A move is a
//! command that begins, an honest answer to the call of any command that is under way, its end, its end by a kill after
//! any of its calls, or a power cut, which ends all commands. No lock is among the premises: entries are exclusive names.
//! Nobody but commands makes entries and visible names.
//!
//! What commands make and remove is promised by their calls: none is made that durable entries do not allow for good.
//!
//! `outputs_stay`: of such runs too. Nothing is visible unless the job may be published by durable entries, and what is
//! linked is from the folder of the recorded winner. Where the marker is, or the log says that the job is published, the
//! whole output of each task is visible, and no name of it is another later, whatever power cuts come. Once the log is
//! forgotten, that is so for good. Of a folder that was handed in, all that its list has is its output; a list that is read
//! is the one that was written.
//!
//! `some_job_is_published`: such a run there is, from the first attempt to the marker and the entry that says so. So the
//! premises of the other laws hold of a job that comes to its end.
//!
//! Not claimed: which file each of these names is, and that it is whole; that a command ends, and time; a disk whose
//! power is cut while the commands go on (a server's).
//!
//! # The proofs
//!
//! A phase has a stage (`proofs/Invariant.antt`): what the command knows. A front of what is durable, and one of all
//! entries, stay so whatever others do: one lemma (`amid-stays`) serves all moves of others. Who finds no name right after
//! a durable front knows all entries (`ends-here`): so a put that is made follows exactly what it was decided from. What
//! was said or made is carried along as a durable front that says so (`Stood`, `Permits`). That it says so for good is
//! asked once, at the end, of the laws of mr_log_standing.
//!
//! What a publisher knows of the names (`SeesAt`): each name of a winner is there, or a step that makes it is still to be
//! made (`Progress`, `proofs/Steps.antt`); nothing is made after the sync of a folder. No call takes a visible name away or
//! makes it another, so this stays too, and a power cut ends whoever knew it. Of a name, each moment counts (`Every`).
#![tactic(auto)]

mod laws;

pub use laws::{decisions_stay, outputs_stay, some_job_is_published};
