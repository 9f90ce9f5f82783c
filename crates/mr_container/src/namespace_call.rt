//! The namespace calls that carry out wishes: to make and write the part file, to commit the attempt, to abort it.
ghost use Rattle.std.specs.Prelude.{◌≡◌, IfOk};
ghost use Rattle.mr_container.specs.Wished.{wished_op, part_path};

use crate::wish::Wish;
use mr_ids::{AppAttempt, AttemptId};
use mr_names::Op;
use mr_packet::Bytes;
use mr_paths::{Layout, Path, part_name};
use std::alloc::AllocError;

/// The call of a wish, if it is one. It may allocate for paths and for the bytes to write, and refuses nothing else.
#[tactic(auto, unfolding(crate::specs::Wished::wished_op))]
pub fn wished_op(
    layout: &Layout,
    k: AppAttempt,
    a: AttemptId,
    written: &Bytes,
    wish: &Wish,
) -> Result<Option<Op>, AllocError>
    ensures { IfOk result (λ op. op ≡ wished_op layout.now.dest k a written.now wish.now) }
{
    Ok(match wish {
        Wish::Mkdirs => Some(Op::Mkdirs(layout.task_attempt(k, a)?)),
        Wish::Create => Some(Op::Create {
            path: part_path(layout, k, a)?,
            closed: false,
        }),
        Wish::Write => Some(Op::Append {
            path: part_path(layout, k, a)?,
            bytes: written.copy()?,
        }),
        Wish::Close => Some(Op::Close(part_path(layout, k, a)?)),
        Wish::Needs | Wish::Look => Some(Op::Exists(layout.task_attempt(k, a)?)),
        Wish::Clear => Some(Op::Delete(layout.committed(k, a.task())?)),
        Wish::Rename => Some(Op::Rename {
            from: layout.task_attempt(k, a)?,
            to: layout.committed(k, a.task())?,
        }),
        Wish::Abort => Some(Op::Delete(layout.task_attempt(k, a)?)),
        Wish::Where { .. }
        | Wish::Fetch { .. }
        | Wish::Lost { .. }
        | Wish::Compute
        | Wish::Pending
        | Wish::Poll
        | Wish::Report
        | Wish::Failed
        | Wish::Over => None,
    })
}

fn part_path(layout: &Layout, k: AppAttempt, a: AttemptId) -> Result<Path, AllocError>
    ensures { IfOk result (λ path. path ≡ part_path layout.now.dest k a) }
{
    let mut path = layout.task_attempt(k, a)?;
    path.push(part_name(path.allocator(), a.task().number)?)?;
    Ok(path)
}
