//! Laws of an output directory with a log of names: these functions do nothing.
ghost use Rattle.mr_log_model.specs.Promises.{DecisionsStay};
ghost use Rattle.mr_log_model.specs.Visible.{OutputsStay, SomeJobIsPublished};

/// The entries of the log are durable, but for one at the end at most. A durable entry stays. Each was decided from exactly
/// the entries before it. Of whom a command said that it won, it is its task's recorded winner from then on; of whom one
/// said that it lost, it never is; an attempt that was said to be begun is recorded. Nothing is made visible unless the job
/// may be published by durable entries, and so for good: under hold, not before that was decided. Nothing that an attempt
/// left is removed unless it can't win any more, or the job is published for good; so too the log. A job that was ended as
/// failed is never published, and the other way round.
pub fn decisions_stay()
    ensures { DecisionsStay }
{}

/// Nothing is visible unless the job may be published by durable entries: under hold, not before that was decided. What is
/// linked to a visible name is from the folder of its task's recorded winner. Where the marker is, or the log says that the
/// job is published, the whole output of each task is visible: each name of what its recorded winner handed in; and none of
/// these is another later, whatever power cuts come. Where the log says that the job is published, or was forgotten, the
/// marker is there, and stays.
pub fn outputs_stay()
    ensures { OutputsStay }
{}

/// Such a run there is: of a job with one task an attempt is begun and done, and the marker is there in the end.
pub fn some_job_is_published()
    ensures { SomeJobIsPublished }
{}
