//! The first pair of a run that was not given yet: what a merge of runs holds of each run, in a heap.

// The first pair of a list that was not given yet: its key and value, the place of the list, and how many bytes the
// pair takes. Fronts are ordered by key and then by place.
#[derive(Drop)]
#[derive_where(PartialEq, Eq, PartialOrd, Ord; K)]
pub struct Front<K, V> {
    pub key: K,
    pub list: usize,
    #[derive_where(skip(EqHashOrd))]
    pub value: V,
    #[derive_where(skip(EqHashOrd))]
    pub len: usize,
}
