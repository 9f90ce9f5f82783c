//! Laws of the definitions: these functions do nothing.
ghost use Rattle.mr_user.specs.Computation.{computation};
ghost use Rattle.mr_shuffle.specs.PieceMeaning.{PieceIsWhatItSays};
ghost use Rattle.mr_shuffle.specs.Shelf.{AttemptsAreApart};
ghost use Rattle.mr_shuffle.specs.SequentialText.{ShuffleGivesSequentialText, WorksGiveSequentialText};

use mr_user::Job;

/// Shuffle gives the sequential text. The maps of splits hand blocks to a reduce exactly where the sequential
/// execution of the job over the splits has a text for that reduce. Then the part of the blocks is that text. There
/// are at most 1,000 splits of at most 2^24 bytes (Dean and Ghemawat 2004, section 3.3).
pub fn shuffle_gives_sequential_text<J: Job>()
    ensures { ShuffleGivesSequentialText (computation J.Key.cmp J.Key.codec J.Value.codec J.functions) }
{}

/// The same in the words of the calls. Let `map_work` over each of the splits give an output, and let reduce r get of
/// each the block that `blocks` cuts for r. Then the sequential execution has a text for r, and the part of the
/// pieces, which `reduce_work` gives, is that text.
pub fn works_give_sequential_text<J: Job>()
    ensures { WorksGiveSequentialText (computation J.Key.cmp J.Key.codec J.Value.codec J.functions) }
{}

/// A piece of bytes is Ok exactly where it is the bytes of pairs that fit, none with a key less than the one before
/// it. It is `Truncated` exactly where such pairs are followed by a rest, not empty, with which no pair begins. It is
/// `Disorder` exactly where they are followed by a pair whose key is less than the last. It has no other fault.
pub fn piece_is_what_it_says<J: Job>()
    ensures { PieceIsWhatItSays (computation J.Key.cmp J.Key.codec J.Value.codec J.functions) }
{}

/// A shelf keeps what was put of each attempt apart from that of any other attempt.
pub fn attempts_are_apart()
    ensures { AttemptsAreApart }
{}
