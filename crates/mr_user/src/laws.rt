//! Laws of the definitions: these functions do nothing.
ghost use Rattle.mr_user.specs.Meaning.{LinesArePieces, KeysRise, LeastGroupFirst};

/// The lines of a split are the pieces before each line feed, and the rest after the last one if that is not empty.
pub fn lines_are_pieces()
    ensures { LinesArePieces }
{}

/// The rising keys of a list are its own, each once, and each less than the next.
pub fn keys_rise<K: Ord>()
    ensures { KeysRise K.cmp }
{}

/// The group of a least key comes first, with all its values in order, and then the groups of the pairs of other keys.
/// By this the pairs of many sorted lists can be grouped one key at a time.
pub fn least_group_first<K: Ord, V>()
    ensures { LeastGroupFirst V K.cmp }
{}
