//! Laws of the definitions: these functions do nothing.
ghost use Rattle.mr_commit.specs.Laws.{AnswersOwnCalls, OneResult, WholeFormsEnd, TablesSettle, TaskCommits, JobCommits, AbortsLeave};
ghost use Rattle.mr_commit.specs.Recovered.{TasksRecover};

/// What the namespace answers to a call is an answer of this call: so no step value that makes its calls meets
/// `WrongAnswer`.
pub fn answers_own_calls()
    ensures { AnswersOwnCalls }
{}

/// The steps of a table lead to one answer and one namespace.
pub fn one_result()
    ensures { OneResult }
{}

/// Whole forms end, and give what their steps lead to.
pub fn whole_forms_end()
    ensures end { WholeFormsEnd }
    ensures tables { TablesSettle }
{}

/// After a task commit that was answered the committed path holds what the attempt path held, and nothing else
/// changed.
pub fn task_commits()
    ensures { TaskCommits }
{}

/// A job commit that was answered, where each task had committed one file and nothing at the destination had its name.
/// After it each of these files stands in the destination with its bytes. Nothing is at `_temporary` or beneath it, the
/// marker is an empty closed file, and nothing else changed.
pub fn job_commits()
    ensures { JobCommits }
{}

/// After a task's abort that was answered nothing is at the attempt path or beneath it, after a job's abort nothing at
/// `_temporary` or beneath it, and nothing else changed. An abort that was not answered changes nothing.
pub fn aborts_leave()
    ensures { AbortsLeave }
{}

/// After a task's recovery that was answered the committed path holds what the newest earlier generation had committed,
/// of the recorded length where one is recorded. That generation holds nothing of the task, and nothing else changed. A
/// fault changes nothing, and tells why: `OutputMissing`, `WrongLength`, or that the caller is not heard.
pub fn task_recovers()
    ensures { TasksRecover }
{}
