//! What may yet befall a run.

use crate::owed::Owed;

/// What may yet befall a run on its way.
#[derive(Drop)]
pub struct Chances<F> {
    /// What its faults put off, and has not come.
    pub owed: Owed<F>,
    /// How many faults it has yet.
    pub spare: u32,
    /// How often it departs at most: by a fault, or by what comes later.
    pub departs: u64,
    /// How many faults it has at its end.
    pub total: u32,
}
