//! What a world answers to an event that it took: which packets the event added to the bag.

/// The packets that an event added to the bag: they are the last ones of it.
#[derive(Clone, Copy, Debug, PartialEq, Eq)]
pub struct Took {
    /// The place of the first of them in the bag, counted from 0: how many packets there were before.
    pub first: usize,
    /// How many there are of them.
    pub count: usize,
}
