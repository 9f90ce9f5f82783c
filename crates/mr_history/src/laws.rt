//! Laws of lines, segments and histories, for the layers above: these functions do nothing.
ghost use Rattle.mr_history.specs.Laws.{LinesReadBack, LinesReplay, FrontsReplay, SegmentsRecord, SegmentsStaySound, OthersStay, WinnersStay, WinnersHaveLengths, RefusalsAreHeard, HistoriesStay, StableStays};

/// A line is read back as its record, and nothing else is read as a record.
pub fn lines_read_back()
    ensures { LinesReadBack }
{}

/// Whole lines and more bytes tell the records of both; lines tell their records, and what has no line feed is torn.
pub fn lines_replay()
    ensures { LinesReplay }
{}

/// The first bytes of a segment tell the records that lie whole in them, which are the first ones.
pub fn fronts_replay()
    ensures { FrontsReplay }
{}

/// What each change of a segment does to its records.
pub fn segments_record()
    ensures { SegmentsRecord }
{}

/// Each change keeps a segment made of the lines of records that its version can tell.
pub fn segments_stay_sound()
    ensures { SegmentsStaySound }
{}

/// A change of one segment changes no other; raising seals, and gives a version.
pub fn others_stay()
    ensures { OthersStay }
{}

/// A winner that is there stays when records are added behind, with the length that was recorded with it.
pub fn winners_stay()
    ensures { WinnersStay }
{}

/// The record that made a winner tells a length exactly where its segment is of version 2.
pub fn winners_have_lengths()
    ensures { WinnersHaveLengths }
{}

/// A call that has a refusal answers it and changes nothing; one that has none is made, an allocation failure aside.
pub fn refusals_are_heard()
    ensures { RefusalsAreHeard }
{}

/// Each change leaves a history of a thousand sound segments, sealed below the fence and unwritten above it.
pub fn histories_stay()
    ensures { HistoriesStay }
{}

/// A sealed segment never changes, stable bytes only grow at their end, and the records below the fence stay.
pub fn stable_stays()
    ensures { StableStays }
{}
