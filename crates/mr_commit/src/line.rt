//! One line of a committer's table: its namespace call, and the lines that take its place once that was answered. Here are the merge of directories and the
//! search through earlier generations; a `Step` keeps such lines for each operation.
ghost use Rattle.std.specs.Prelude.{◌≡◌, ◌↔◌, ◌<◌, [], ◌∷◌, ◌++◌, IsTrue, IfOk, IfErr, OnErr, Ok, Err, map, filter, length};
ghost use Rattle.mr_commit.specs.Line.{replaced, answered, op_of, merging, merging_child, merging_task, is_task, passes_missing, before, older, sought, measured, fault_at, moves};
ghost use Rattle.mr_commit.specs.Line.Line.{Does, Clears, Needs, Merges, MergesEach, MergesTasks, Seeks, Measures};
ghost use Rattle.mr_commit.specs.Steps.{IsFault};
ghost use Rattle.mr_commit.specs.inner.TableLine.{line_by, IsWhy};

use crate::answer::{bytes_read, found, is_answer_to, listed};
use crate::fault::CommitFault;
use crate::takeover::taking_over;
use mr_ids::{AppAttempt, TaskId};
use mr_names::{Answer, Entry, Kind, NameFault, Op};
use mr_paths::{Layout, Path};
use std::alloc::{AllocError, Global};
use std::collections::LinkedList;
use std::marker::Model;

/// What follows once the call of a line was answered.
#[derive(PartialEq, Eq, Drop)]
enum Rule {
    /// Nothing follows.
    Plain,
    /// Nothing follows, also where there was nothing to delete.
    MissingPasses,
    /// Nothing follows, if something is there.
    Needed,
    /// `from` is merged, as a file or a directory, onto what the call looked at.
    Merge {
        taken: Kind,
        from: Path,
        to: Path,
    },
    /// Each child that is listed is merged onto the same name in `to`.
    MergeEach {
        from: Path,
        to: Path,
    },
    /// Each entry that is listed but `_temporary` is merged as a directory onto `to`.
    MergeTasks {
        from: Path,
        to: Path,
    },
    /// What generation `j` committed of a task is taken over to generation `k`, or what the newest one before it did.
    Seek {
        layout: Layout,
        task: TaskId,
        bytes: Option<u32>,
        k: AppAttempt,
        j: AppAttempt,
    },
    /// Nothing follows, if the file that is read has this number of bytes.
    Measure(u32),
}

impl Rule {
    fn copy(&self) -> Result<Rule, AllocError>
        ensures { IfOk result (λ rule. rule ≡ self.now) }
    {
        match self {
            Rule::Plain => Ok(Rule::Plain),
            Rule::MissingPasses => Ok(Rule::MissingPasses),
            Rule::Needed => Ok(Rule::Needed),
            Rule::Merge { taken, from, to } => {
                let (from, to) = both(from, to)?;
                Ok(Rule::Merge {
                    taken: *taken,
                    from,
                    to,
                })
            }
            Rule::MergeEach { from, to } => {
                let (from, to) = both(from, to)?;
                Ok(Rule::MergeEach { from, to })
            }
            Rule::MergeTasks { from, to } => {
                let (from, to) = both(from, to)?;
                Ok(Rule::MergeTasks { from, to })
            }
            Rule::Seek {
                layout,
                task,
                bytes,
                k,
                j,
            } => Ok(Rule::Seek {
                layout: layout.copy()?,
                task: *task,
                bytes: *bytes,
                k: *k,
                j: *j,
            }),
            Rule::Measure(bytes) => Ok(Rule::Measure(*bytes)),
        }
    }

    // The lines that follow from an answer of the call.
    fn lines_after(
        &self,
        alloc: Global,
        answer: &Answer,
    ) -> Result<LinkedList<TableLine>, CommitFault>
        ensures lines { IfOk result (λ lines. (call : Op) → answered (line_by call self.now) answer.now ≡ Ok lines) }
        ensures fault { IfErr result (λ f. (call : Op) → IsWhy (answered (line_by call self.now) answer.now) f) }
    {
        match self {
            Rule::Plain | Rule::MissingPasses => Ok(LinkedList::new(alloc)),
            Rule::Needed => match found(answer) {
                Some(_kind) => Ok(LinkedList::new(alloc)),
                None => Err(CommitFault::OutputMissing),
            },
            Rule::Merge { taken, from, to } => {
                Ok(merging(alloc, *taken, from, to, found(answer))?)
            }
            Rule::MergeEach { from, to } => {
                Ok(merging_children(alloc, from, to, listed(answer))?)
            }
            Rule::MergeTasks { from, to } => Ok(merging_tasks(alloc, from, to, listed(answer))?),
            Rule::Seek {
                layout,
                task,
                bytes,
                k,
                j,
            } => sought(alloc, layout, *task, *bytes, *k, *j, found(answer)),
            Rule::Measure(bytes) => measured(alloc, *bytes, bytes_read(answer)),
        }
    }
}

/// One line of a committer's table: its call, ready to be made, and what follows from the answer.
pub struct TableLine {
    op: Op,
    rule: Rule,
}

// By hand: where a line is dropped, its paths are not taken apart once more.
impl Drop for TableLine {
    fn drop(self) {
        let TableLine { op: _, rule: _ } = self;
    }
}

impl Model for TableLine {
    ghost use Rattle.mr_commit.specs.Line.{Line, op_of};

    ghost Value = { Line };

    ghost use Rattle.std.specs.Prelude.{◌≡◌};
    ghost use Rattle.mr_commit.specs.inner.TableLine.{line_of};

    ghost view = { line_of };

    ghost invariant = { λ l. l.op ≡ op_of (line_of l) };
}

impl TableLine {
    /// One call, each refusal of which ends all.
    pub fn does(op: Op) -> TableLine
        ensures { result ≡ Does op }
    {
        TableLine {
            op,
            rule: Rule::Plain,
        }
    }

    /// What is at `from` is moved to `to`.
    pub fn moves(from: Path, to: Path) -> TableLine
        ensures { result ≡ moves from to }
    {
        TableLine::does(Op::Rename { from, to })
    }

    /// What is at the path is deleted, and a missing path is accepted.
    pub fn clears(path: Path) -> TableLine
        ensures { result ≡ Clears path }
    {
        TableLine {
            op: Op::Delete(path),
            rule: Rule::MissingPasses,
        }
    }

    /// Something has to be at the path.
    pub fn needs(path: Path) -> TableLine
        ensures { result ≡ Needs path }
    {
        TableLine {
            op: Op::Exists(path),
            rule: Rule::Needed,
        }
    }

    /// `from` is merged, as a file or a directory, onto `to`.
    pub fn merges(taken: Kind, from: Path, to: Path) -> Result<TableLine, AllocError>
        ensures { IfOk result (λ line. line ≡ Merges taken from to) }
    {
        Ok(TableLine {
            op: Op::Exists(to.copy()?),
            rule: Rule::Merge { taken, from, to },
        })
    }

    /// Each child of `from` is merged onto the same name in `to`.
    pub fn merges_each(from: Path, to: Path) -> Result<TableLine, AllocError>
        ensures { IfOk result (λ line. line ≡ MergesEach from to) }
    {
        Ok(TableLine {
            op: Op::List(from.copy()?),
            rule: Rule::MergeEach { from, to },
        })
    }

    /// Each entry of `from` but `_temporary` is merged as a directory onto `to`.
    pub fn merges_tasks(from: Path, to: Path) -> Result<TableLine, AllocError>
        ensures { IfOk result (λ line. line ≡ MergesTasks from to) }
    {
        Ok(TableLine {
            op: Op::List(from.copy()?),
            rule: Rule::MergeTasks { from, to },
        })
    }

    /// What generation `j` committed of a task is taken over to generation `k`, or what the newest one before it did.
    pub fn seeks(
        layout: &Layout,
        task: TaskId,
        bytes: Option<u32>,
        k: AppAttempt,
        j: AppAttempt,
    ) -> Result<TableLine, AllocError>
        ensures { IfOk result (λ line. line ≡ Seeks layout.now.dest task bytes k j) }
    {
        let own = layout.copy()?;
        let op = Op::Exists(own.committed(j, task)?);
        Ok(TableLine {
            op,
            rule: Rule::Seek {
                layout: own,
                task,
                bytes,
                k,
                j,
            },
        })
    }

    /// The file at the path has to have `bytes` bytes.
    pub fn measures(path: Path, bytes: u32) -> TableLine
        ensures { result ≡ Measures path bytes }
    {
        TableLine {
            op: Op::Read(path),
            rule: Rule::Measure(bytes),
        }
    }

    /// The line's call.
    pub fn op(&self) -> &Op
        ensures { result.now ≡ op_of self.now }
    {
        &self.op
    }

    /// Whether it is well if there is nothing to delete.
    pub fn passes_missing(&self) -> bool
        ensures { result ≡ passes_missing self.now }
    {
        matches!(self.rule, Rule::MissingPasses)
    }

    /// An equal line.
    pub fn copy(&self) -> Result<TableLine, AllocError>
        ensures { IfOk result (λ line. line ≡ self.now) }
    {
        Ok(TableLine {
            op: self.op.copy()?,
            rule: self.rule.copy()?,
        })
    }

    /// Whether both are the same line. It takes no memory.
    pub fn is_same(&self, other: &TableLine) -> bool
        ensures { IsTrue result ↔ (self.now ≡ other.now) }
    {
        if self.op == other.op {
            let is_rule = self.rule == other.rule;
            return is_rule;
        }
        false
    }

    /// The lines that take the place of this one once its call was answered.
    pub fn replaced(
        &self,
        alloc: Global,
        answer: &Result<Answer, NameFault>,
    ) -> Result<LinkedList<TableLine>, CommitFault>
        ensures lines { IfOk result (λ lines. replaced self.now answer.now ≡ Ok lines) }
        ensures fault { IfErr result (λ f. IsFault self.now answer.now f) }
    {
        match answer {
            Ok(answer) => self.answered(alloc, answer),
            Err(NameFault::Missing) if matches!(self.rule, Rule::MissingPasses) => {
                Ok(LinkedList::new(alloc))
            }
            Err(NameFault::Missing | NameFault::NotFile)
                if matches!(self.rule, Rule::Measure(_bytes)) => { Err(CommitFault::OutputMissing) }
            Err(fault) => Err(CommitFault::from(*fault)),
        }
    }

    // The same of an answer, which has to be one of its call.
    fn answered(&self, alloc: Global, answer: &Answer) -> Result<LinkedList<TableLine>, CommitFault>
        ensures lines { IfOk result (λ lines. replaced self.now (Ok answer.now) ≡ Ok lines) }
        ensures fault { IfErr result (λ f. IsFault self.now (Ok answer.now) f) }
    {
        if !is_answer_to(&self.op, answer) {
            return Err(CommitFault::WrongAnswer);
        }
        self.rule.lines_after(alloc, answer)
    }
}

/// Nothing follows where a file has the recorded length.
fn measured(alloc: Global, bytes: u32, found: &[u8]) -> Result<LinkedList<TableLine>, CommitFault>
    ensures lines { IfOk result (λ lines. measured bytes found.now ≡ Ok lines) }
    ensures fault { IfErr result (λ f. (f ≡ CommitFault.WrongLength) × (measured bytes found.now ≡ Err CommitFault.WrongLength)) }
{
    if found.len() == bytes as usize {
        Ok(LinkedList::new(alloc))
    } else {
        Err(CommitFault::WrongLength)
    }
}

/// The generation before, if there is one.
pub fn before(k: AppAttempt) -> Option<AppAttempt>
    ensures { result ≡ before k }
{
    if 1 < k.number() {
        AppAttempt::new(k.number() - 1)
    } else {
        None
    }
}

/// The lines that follow once it is known whether generation `j` committed something of a task.
fn sought(
    alloc: Global,
    layout: &Layout,
    task: TaskId,
    bytes: Option<u32>,
    k: AppAttempt,
    j: AppAttempt,
    there: Option<Kind>,
) -> Result<LinkedList<TableLine>, CommitFault>
    ensures lines { IfOk result (λ lines. sought layout.now.dest task bytes k j there ≡ Ok lines) }
    ensures fault { IfErr result (λ f. IsWhy (sought layout.now.dest task bytes k j there) f) }
{
    match there {
        Some(_kind) => Ok(taking_over(alloc, layout, task, bytes, k, j)?),
        None => match before(j) {
            Some(older) => Ok(seeking(layout, task, bytes, k, older)?),
            None => Err(CommitFault::OutputMissing),
        },
    }
}

/// The line that looks at generation `j`, alone.
pub fn seeking(
    layout: &Layout,
    task: TaskId,
    bytes: Option<u32>,
    k: AppAttempt,
    j: AppAttempt,
) -> Result<LinkedList<TableLine>, AllocError>
    ensures { IfOk result (λ lines. lines ≡ Seeks layout.now.dest task bytes k j ∷ []) }
{
    let line = TableLine::seeks(layout, task, bytes, k, j)?;
    Ok(LinkedList::from_array(layout.dest.allocator(), [line])?)
}

/// The lines of a merge, where what is at `to` is known.
fn merging(
    alloc: Global,
    taken: Kind,
    from: &Path,
    to: &Path,
    there: Option<Kind>,
) -> Result<LinkedList<TableLine>, AllocError>
    ensures { IfOk result (λ lines. lines ≡ merging taken from.now to.now there) }
{
    match (taken, there) {
        (_, None) => Ok(LinkedList::from_array(alloc, [moving(from, to)?])?),
        (Kind::Dir, Some(Kind::Dir)) => {
            let each = TableLine::merges_each(from.copy()?, to.copy()?)?;
            Ok(LinkedList::from_array(alloc, [each])?)
        }
        (_, Some(_)) => {
            let deleted = TableLine::does(Op::Delete(to.copy()?));
            Ok(LinkedList::from_array(alloc, [deleted, moving(from, to)?])?)
        }
    }
}

/// The line that moves what is at `from` to `to`.
fn moving(from: &Path, to: &Path) -> Result<TableLine, AllocError>
    ensures { IfOk result (λ line. line ≡ moves from.now to.now) }
{
    let (from, to) = both(from, to)?;
    Ok(TableLine::moves(from, to))
}

// Equal paths.
fn both(from: &Path, to: &Path) -> Result<(Path, Path), AllocError>
    ensures { IfOk result (λ p. (p.0 ≡ from.now) × (p.1 ≡ to.now)) }
{
    let from = from.copy()?;
    let to = to.copy()?;
    Ok((from, to))
}

/// The lines that merge each child of `from` onto the same name in `to`.
fn merging_children(
    alloc: Global,
    from: &Path,
    to: &Path,
    entries: &[Entry],
) -> Result<LinkedList<TableLine>, AllocError>
    ensures lines { IfOk result (λ lines. lines ≡ map (merging_child from.now to.now) entries.now) }
    ensures memory { OnErr result (0 < length entries.now) }
{
    let mut lines = LinkedList::new(alloc);
    for entry in entries {
        lines.push_back(merging_child(from, to, entry)?)?;
    }
    Ok(lines)
}

/// The line that merges a child of `from` onto the same name in `to`.
fn merging_child(from: &Path, to: &Path, entry: &Entry) -> Result<TableLine, AllocError>
    ensures { IfOk result (λ line. line ≡ merging_child from.now to.now entry.now) }
{
    let child = from.child(entry.name.copy()?)?;
    let place = to.child(entry.name.copy()?)?;
    TableLine::merges(entry.kind, child, place)
}

/// The lines that merge each entry of `from` but `_temporary` as a directory onto `to`.
fn merging_tasks(
    alloc: Global,
    from: &Path,
    to: &Path,
    entries: &[Entry],
) -> Result<LinkedList<TableLine>, AllocError>
    ensures lines { IfOk result (λ lines. lines ≡ map (merging_task from.now to.now) (filter is_task entries.now)) }
    ensures memory { OnErr result (0 < length (filter is_task entries.now)) }
{
    let mut lines = LinkedList::new(alloc);
    for entry in entries {
        if is_task(entry) {
            lines.push_back(merging_task(from, to, entry)?)?;
        }
    }
    Ok(lines)
}

/// Whether an entry of a job attempt path is a task's: the attempts that were not committed stand in `_temporary`.
fn is_task(entry: &Entry) -> bool
    ensures { result ≡ is_task entry.now }
{
    entry.name.as_bytes() != "_temporary".as_bytes()
}

/// The line that merges an entry of `from` as a directory onto `to`.
fn merging_task(from: &Path, to: &Path, entry: &Entry) -> Result<TableLine, AllocError>
    ensures { IfOk result (λ line. line ≡ merging_task from.now to.now entry.now) }
{
    let task = from.child(entry.name.copy()?)?;
    TableLine::merges(Kind::Dir, task, to.copy()?)
}
