//! Laws of the definitions: these functions do nothing.
ghost use Rattle.mr_commit_trace.specs.Laws.{OneTrace, TracesAreRight};

/// A script has one trace at most, in each form.
pub fn one_trace()
    ensures { OneTrace }
{}

/// What is seen of a script is what a right store tells: the judge of a store's trace finds nothing wrong in it.
pub fn traces_are_right()
    ensures { TracesAreRight }
{}
