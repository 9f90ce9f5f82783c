//! What a player holds of the calms.

use crate::fixtures::container;
use mr_play::{Player, played};
use std::alloc::Global;
use std::process::Abort;

/// The job of one map and one reduce, on one node, whose first master starts.
const JOB: &str =
    "{\"id\":\"job_200707121733_0003\",\"job\":\"wordcount\",\"reduces\":1,\"splits\":[\"a b a\"]}\nstart 1 0\n";

// The player of the job and these further lines.
fn player(rt: &impl Abort, alloc: Global, lines: &str) -> Player {
    let input = format!(in alloc; "{JOB}{lines}").expect(rt, "no memory");
    match played(alloc, input.as_bytes()) {
        Ok(player) => player,
        Err(fault) => panic!(rt; "{fault}"),
    }
}

// The first launch is lost. So nothing else is sent, and no container steps.
#[test]
fn lost_packet_is_passed_over(rt: HostRuntime) {
    let rt = &rt;
    let player = player(rt, rt.alloc(), "drop 0\ncalm 1\n");
    confirm!(*rt; player.cursor() == 1);
    confirm!(*rt; player.dropped().len() == 1);
    confirm!(*rt; player.dropped().contains(&0));
    confirm!(*rt; player.stepped().is_none());
    drop(player);
}

// All packets that were sent before the reduce commits have come.
#[test]
fn container_that_stepped_is_told(rt: HostRuntime) {
    let rt = &rt;
    let player = player(rt, rt.alloc(), "calm 1 before look\n");
    confirm!(*rt; player.cursor() == player.world.bag().len());
    confirm!(*rt; player.dropped().is_empty());
    confirm!(*rt; player.stepped() == Some(container(rt, 1)));
    drop(player);
}
