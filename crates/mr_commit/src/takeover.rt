//! The lines by which a recovery takes over what an earlier generation committed of a task.
ghost use Rattle.std.specs.Prelude.{◌≡◌, [], ◌∷◌, ◌++◌, IfOk};
ghost use Rattle.mr_paths.specs.Layout.{committed, part};
ghost use Rattle.mr_commit.specs.Line.{moves, taking_over};
ghost use Rattle.mr_commit.specs.Line.Line.{Clears, Measures};

use crate::line::TableLine;
use mr_ids::{AppAttempt, TaskId};
use mr_paths::{Layout, part_name};
use std::alloc::{AllocError, Global};
use std::collections::LinkedList;

/// The lines by which what generation `j` committed of a task takes the place of what generation `k` committed.
pub fn taking_over(
    alloc: Global,
    layout: &Layout,
    task: TaskId,
    bytes: Option<u32>,
    k: AppAttempt,
    j: AppAttempt,
) -> Result<LinkedList<TableLine>, AllocError>
    ensures { IfOk result (λ lines. lines ≡ taking_over layout.now.dest task bytes k j) }
{
    let mut lines = replacing(alloc, layout, task, k, j)?;
    match bytes {
        None => Ok(lines),
        Some(bytes) => {
            lines.push_front(measuring(alloc, layout, task, bytes, j)?)?;
            Ok(lines)
        }
    }
}

/// The line that measures the part file which generation `j` committed of a task.
fn measuring(
    alloc: Global,
    layout: &Layout,
    task: TaskId,
    bytes: u32,
    j: AppAttempt,
) -> Result<TableLine, AllocError>
    ensures { IfOk result (λ line. line ≡ Measures (committed layout.now.dest j task ++ part task.number ∷ []) bytes) }
{
    let name = part_name(alloc, task.number)?;
    let part = layout.committed(j, task)?.child(name)?;
    Ok(TableLine::measures(part, bytes))
}

/// The lines that delete what generation `k` committed of a task, and bring what generation `j` committed there.
fn replacing(
    alloc: Global,
    layout: &Layout,
    task: TaskId,
    k: AppAttempt,
    j: AppAttempt,
) -> Result<LinkedList<TableLine>, AllocError>
    ensures { IfOk result (λ lines. lines ≡ Clears (committed layout.now.dest k task) ∷ moves (committed layout.now.dest j task) (committed layout.now.dest k task) ∷ []) }
{
    let cleared = TableLine::clears(layout.committed(k, task)?);
    let moved = TableLine::moves(layout.committed(j, task)?, layout.committed(k, task)?);
    Ok(LinkedList::from_array(alloc, [cleared, moved])?)
}
