//! What faults put off.
ghost use Rattle.std.specs.Prelude.{◌≡◌, ◌<◌, ◌++◌, length, option_to_list, remove, IfOk};

use std::alloc::{AllocError, Global};

/// The same, and behind it what a fault puts off, if it does. It fails where there is no memory.
pub fn with_later<F: Copy + Drop>(
    alloc: Global,
    owed: &[F],
    later: Option<F>,
) -> Result<Vec<F>, AllocError>
    ensures { IfOk result (λ all. all.items ≡ owed.now ++ option_to_list later) }
{
    let mut all = Vec::from_slice(alloc, owed)?;
    if let Some(fault) = later {
        all.push(fault)?;
    }
    Ok(all)
}

/// The same without the one at a place. It fails where there is no memory.
pub fn without<F: Copy + Drop>(
    alloc: Global,
    owed: &[F],
    place: usize,
) -> Result<Vec<F>, AllocError>
    requires { place < length owed.now }
    ensures { IfOk result (λ others. others.items ≡ remove owed.now place) }
{
    let mut others = Vec::from_slice(alloc, owed)?;
    others.remove(place);
    Ok(others)
}
