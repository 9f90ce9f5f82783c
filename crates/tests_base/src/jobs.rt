//! What the committer's tests begin with: a job's place and its setup.

use crate::fixtures::{new_namespace, path};
use mr_commit::setup_job;
use mr_names::{Caller, Namespace};
use mr_paths::Layout;
use std::alloc::Global;
use std::process::Abort;

/// The place of the job's output.
pub fn out(rt: &impl Abort, alloc: Global) -> Layout {
    Layout {
        dest: path(rt, alloc, "/out"),
    }
}

/// The job is set up.
pub fn sets_up(rt: &impl Abort, names: &mut Namespace, caller: &Caller, layout: &Layout) {
    setup_job(names, *caller, layout).expect(rt, "refused");
}

/// A namespace in which the job of the caller's generation was set up.
pub fn job_set_up(rt: &impl Abort, alloc: Global, caller: &Caller, layout: &Layout) -> Namespace {
    let mut names = new_namespace(rt, alloc);
    sets_up(rt, &mut names, caller, layout);
    names
}
