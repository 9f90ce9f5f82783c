//! Paths of the marks that the master makes.
ghost use Rattle.std.specs.Prelude.{◌≡◌, IfOk, codes};
ghost use Rattle.mr_paths.specs.Layout.{staging};
ghost use Rattle.mr_master_model.specs.Duty.{success_mark, fail_mark, started_mark};

use mr_paths::{Name, Path, staging};
use std::alloc::{AllocError, Global};

/// The path of COMMIT_SUCCESS.
pub fn success_mark(alloc: Global) -> Result<Path, AllocError>
    ensures { IfOk result (λ path. path ≡ success_mark) }
{
    staging(alloc, Name::new(alloc, "COMMIT_SUCCESS".as_bytes())?)
}

/// The path of COMMIT_FAIL.
pub fn fail_mark(alloc: Global) -> Result<Path, AllocError>
    ensures { IfOk result (λ path. path ≡ fail_mark) }
{
    staging(alloc, Name::new(alloc, "COMMIT_FAIL".as_bytes())?)
}

/// The path of COMMIT_STARTED.
pub fn started_mark(alloc: Global) -> Result<Path, AllocError>
    ensures { IfOk result (λ path. path ≡ started_mark) }
{
    staging(alloc, Name::new(alloc, "COMMIT_STARTED".as_bytes())?)
}
