//! Two questions of a committer (Hadoop's `needsTaskCommit` and `checkOutputSpecs`): whether an attempt has output, and whether the destination is free.
//! And for the whole operations the test that a caller is neither superseded nor barred.
ghost use Rattle.std.specs.Prelude.{◌≡◌, OnOk, IfOk, IfErr, None, Some};
ghost use Rattle.mr_names.specs.Calls.{unheard};
ghost use Rattle.mr_commit.specs.CommitterEffect.{NeedsTaskCommit, checked};

use crate::fault::CommitFault;
use mr_ids::{AppAttempt, AttemptId};
use mr_names::{Caller, NameFault, Namespace};
use mr_paths::Layout;

/// Whether a task's attempt has output that can be committed, in the caller's generation.
///
/// One call, `exists` of the task attempt path.
pub fn needs_task_commit(
    names: &Namespace,
    caller: Caller,
    layout: &Layout,
    attempt: AttemptId,
) -> Result<bool, CommitFault>
    ensures { NeedsTaskCommit layout.now.dest attempt names.now caller result }
{
    let k = heard_generation(names, &caller)?;
    let path = layout.task_attempt(k, attempt)?;
    Ok(names.exists(caller, &path)?.is_some())
}

/// Refuses a destination that is there already: `DestinationExists`.
///
/// One call, `exists` of the destination.
pub fn check_output(names: &Namespace, caller: Caller, layout: &Layout) -> Result<(), CommitFault>
    ensures { result ≡ checked layout.now.dest names.now caller }
{
    match names.exists(caller, &layout.dest)? {
        None => Ok(()),
        Some(_kind) => Err(CommitFault::DestinationExists),
    }
}

/// The caller's generation. That a caller is superseded or barred comes first, also where there is no memory.
pub fn heard_generation(names: &Namespace, caller: &Caller) -> Result<AppAttempt, NameFault>
    ensures heard { OnOk result (unheard names.now caller.now ≡ None) }
    ensures generation { IfOk result (λ k. k ≡ caller.now.app) }
    ensures unheard { IfErr result (λ why. unheard names.now caller.now ≡ Some why) }
{
    names.check_caller(*caller)?;
    Ok(caller.app)
}
