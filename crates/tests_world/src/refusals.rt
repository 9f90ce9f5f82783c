//! Bytes that are no block, which no script of a run can hand in.

use crate::fixtures::{Stop, bytes, comes_to, started};
use crate::masters::container;
use mr_world::WorldFault;
use mr_world_events::{Event, Why};

// The container is to compute, and takes no such bytes.
#[test]
fn bytes_that_are_no_block_are_refused(rt: HostRuntime) {
    let rt = &rt;
    let alloc = rt.alloc();
    let mut run = started(rt, alloc, 1);
    run.calms(rt, alloc, Stop::BeforeStep);
    let wrong = Event::Computed {
        container: container(rt, 0),
        bytes: bytes(rt, alloc, b"abc"),
    };
    let refused = Err(WorldFault::NotNow(Why::NotBlocks));
    comes_to(rt, &mut run.world, wrong, refused);
    drop(run);
}
