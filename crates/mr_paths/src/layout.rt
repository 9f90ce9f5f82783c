//! Where a job's committer keeps what it makes, as Hadoop does: the temporary directories, the part files and the marker. And the staging folder, in which masters
//! leave marks for later ones.
ghost use Rattle.std.specs.Prelude.{◌≡◌, IfOk};
ghost use Rattle.mr_ids.specs.Text.{numeral, task_text, attempt_text};
ghost use Rattle.mr_paths.specs.Layout.{temporary_name, marker_name, temporary, job_attempt, task_attempt, committed, marker, part, staging, is_hidden};

use crate::name::{INLINE_LEN, Name};
use crate::path::Path;
use mr_ids::{AppAttempt, AttemptId, TaskId};
use std::alloc::{AllocError, Global};

/// The paths of a job's committer, beneath the job's destination: those of the committer architecture
/// document of Hadoop MapReduce.
#[derive(Debug, PartialEq, Eq, Drop)]
pub struct Layout {
    /// Where the job's output goes.
    pub dest: Path,
}

impl Layout {
    /// `$dest/_temporary`: beneath it stands all work that is not yet output.
    pub fn temporary(&self) -> Result<Path, AllocError>
        ensures { IfOk result (λ path. path ≡ temporary self.now.dest) }
    {
        self.dest.child(temporary_name(self.dest.allocator())?)
    }

    /// `$dest/_temporary/k`: the work of the master's generation k.
    #[tactic(auto, using(crate::proofs::Layouts::job_attempt_pushed))]
    pub fn job_attempt(&self, k: AppAttempt) -> Result<Path, AllocError>
        ensures { IfOk result (λ path. path ≡ job_attempt self.now.dest k) }
    {
        let mut path = self.temporary()?;
        path.push(generation_name(self.dest.allocator(), k)?)?;
        Ok(path)
    }

    /// `$dest/_temporary/k/_temporary/<attempt>`: where an attempt writes.
    #[tactic(auto, using(crate::proofs::Layouts::task_attempt_pushed))]
    pub fn task_attempt(&self, k: AppAttempt, attempt: AttemptId) -> Result<Path, AllocError>
        ensures { IfOk result (λ path. path ≡ task_attempt self.now.dest k attempt) }
    {
        let mut path = self.job_attempt(k)?;
        path.push(temporary_name(self.dest.allocator())?)?;
        path.push(attempt_name(self.dest.allocator(), attempt)?)?;
        Ok(path)
    }

    /// `$dest/_temporary/k/<task>`: what the task's committed attempt wrote.
    #[tactic(auto, using(crate::proofs::Layouts::committed_pushed))]
    pub fn committed(&self, k: AppAttempt, task: TaskId) -> Result<Path, AllocError>
        ensures { IfOk result (λ path. path ≡ committed self.now.dest k task) }
    {
        let mut path = self.job_attempt(k)?;
        path.push(task_name(self.dest.allocator(), task)?)?;
        Ok(path)
    }

    /// `$dest/_SUCCESS`: the empty file that says that the output is whole.
    pub fn marker(&self) -> Result<Path, AllocError>
        ensures { IfOk result (λ path. path ≡ marker self.now.dest) }
    {
        self.dest.child(marker_name(self.dest.allocator())?)
    }

    /// An equal layout.
    pub fn copy(&self) -> Result<Layout, AllocError>
        ensures { IfOk result (λ layout. layout ≡ self.now) }
    {
        let dest = self.dest.copy()?;
        Ok(Layout { dest })
    }
}

/// The name of the file with a reduce's output: `part-r-` and the reduce in at least five digits.
pub fn part_name(alloc: Global, reduce: u32) -> Result<Name, AllocError>
    ensures { IfOk result (λ name. name ≡ part reduce) }
{
    let text = format!(in alloc; "part-r-{reduce:05}")?;
    Ok(Name::from_bytes(text.into_bytes()))
}

/// `/staging/<name>`: where the masters of a job leave marks for those that come after them.
#[tactic(auto, unfolding(crate::specs::Layout::staging))]
pub fn staging(alloc: Global, name: Name) -> Result<Path, AllocError>
    ensures { IfOk result (λ path. path ≡ staging name) }
{
    let mut path = Path::root(alloc);
    path.push(Name::new(alloc, "staging".as_bytes())?)?;
    path.push(name)?;
    Ok(path)
}

/// Whether a name begins with `_` or `.`, so that no listing of the output shows it.
pub fn is_hidden(name: &Name) -> bool
    ensures { result ≡ is_hidden name.now }
{
    matches!(name.as_bytes().first(), Some(b'_' | b'.'))
}

fn temporary_name(alloc: Global) -> Result<Name, AllocError>
    ensures { IfOk result (λ name. name ≡ temporary_name) }
{
    Name::new(alloc, "_temporary".as_bytes())
}

fn marker_name(alloc: Global) -> Result<Name, AllocError>
    ensures { IfOk result (λ name. name ≡ marker_name) }
{
    Name::new(alloc, "_SUCCESS".as_bytes())
}

fn generation_name(alloc: Global, k: AppAttempt) -> Result<Name, AllocError>
    ensures { IfOk result (λ name. name ≡ numeral 1 k) }
{
    let mut text = Vec::with_capacity(alloc, INLINE_LEN)?;
    k.write(&mut text)?;
    Ok(Name::from_bytes(text))
}

fn task_name(alloc: Global, task: TaskId) -> Result<Name, AllocError>
    ensures { IfOk result (λ name. name ≡ task_text task) }
{
    let mut text = Vec::with_capacity(alloc, INLINE_LEN)?;
    task.write(&mut text)?;
    Ok(Name::from_bytes(text))
}

fn attempt_name(alloc: Global, attempt: AttemptId) -> Result<Name, AllocError>
    ensures { IfOk result (λ name. name ≡ attempt_text attempt) }
{
    let mut text = Vec::with_capacity(alloc, INLINE_LEN)?;
    attempt.write(&mut text)?;
    Ok(Name::from_bytes(text))
}
