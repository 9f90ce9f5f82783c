//! In which form an answer is printed.
ghost use Rattle.std.specs.Prelude.{◌≡◌, ◌++◌, IfOk, OnOk};
ghost use Rattle.mr_out_check.specs.Printed.{printed};
ghost use Rattle.mr_out_check.specs.Verdicts.{answer};

use crate::json::put_json;
use crate::report::{put_line, put_report};
use crate::seen::Seen;
use crate::told::Told;
use crate::verdict::{Answer, judge};
use std::alloc::{AllocError, Global};

/// In which form an answer is printed.
#[derive(Clone, Copy, Debug, PartialEq, Eq)]
pub enum Shape {
    /// The answer in one line, then what was seen, and the premises that are not met.
    Report,
    /// The answer in one line.
    Line,
    /// A line of JSON.
    Json,
    /// Nothing.
    Quiet,
}

// What is printed.
fn put_shaped(
    out: &mut Vec<u8>,
    alloc: Global,
    shape: Shape,
    dir: &[u8],
    seen: &Seen,
    told: &Told,
) -> Result<(), AllocError>
    ensures { OnOk result (out.new.items ≡ out.old.items ++ printed shape dir.now seen.now told.now) }
{
    match shape {
        Shape::Report => put_report(out, dir, seen, told),
        Shape::Line => put_line(out, dir, seen, told),
        Shape::Json => put_json(out, alloc, dir, seen, told),
        Shape::Quiet => Ok(()),
    }
}

/// Prints the answer of a directory in this form, and answers it. It fails where there is no memory.
pub fn put_answer(
    out: &mut Vec<u8>,
    alloc: Global,
    shape: Shape,
    dir: &[u8],
    seen: &Seen,
    told: &Told,
) -> Result<Answer, AllocError>
    ensures printed { OnOk result (out.new.items ≡ out.old.items ++ printed shape dir.now seen.now told.now) }
    ensures answer { IfOk result (λ found. found ≡ answer seen.now told.now) }
{
    put_shaped(out, alloc, shape, dir, seen, told)?;
    Ok(judge(seen, told))
}
