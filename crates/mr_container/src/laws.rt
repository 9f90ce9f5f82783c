//! Laws of a container's readings, for the layers above: these functions do nothing.
ghost use Rattle.mr_container.specs.Laws.{YesFirst, RenamedFirst, CommitsByTable, AllFetched, BytesStay};

/// Who commits, or reports that it did, was told yes.
pub fn yes_first()
    ensures { YesFirst }
{}

/// A reduce reports only what it renamed.
pub fn renamed_first()
    ensures { RenamedFirst }
{}

/// A container commits, and aborts, by the calls of the committer's tables.
pub fn commits_by_table()
    ensures { CommitsByTable }
{}

/// A reduce computes, and does all that comes after, with the blocks of all maps.
pub fn all_fetched()
    ensures { AllFetched }
{}

/// A reduce's bytes, once handed in, are its output for good, and the blocks from which they were computed stay.
pub fn bytes_stay()
    ensures { BytesStay }
{}
