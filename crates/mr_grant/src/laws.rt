//! Laws of the grant, for the layers above: these functions do nothing.
ghost use Rattle.mr_grant.specs.Laws.{SameAttempts, OneIsFirst, FirstStays, FixedStays};

/// The test for one attempt holds of an attempt and itself alone.
pub fn same_attempts()
    ensures { SameAttempts }
{}

/// Yes is for one attempt at a time.
pub fn one_is_first()
    ensures { OneIsFirst }
{}

/// Who is first stays so until it is released, whatever else is called.
pub fn first_stays()
    ensures { FirstStays }
{}

/// A fixed grant stays fixed, and its first is the first for good.
pub fn fixed_stays()
    ensures { FixedStays }
{}
