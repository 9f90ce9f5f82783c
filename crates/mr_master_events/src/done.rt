//! An attempt says that it is done.
ghost use Rattle.std.specs.Prelude.{◌≡◌, IfOk};
ghost use Rattle.mr_master_model.specs.Readings.{launch_of};
ghost use Rattle.mr_master_model.specs.Hearing.{after_done, success_of};
ghost use Rattle.mr_master_model.specs.Sends.{ack_to};
ghost use Rattle.mr_master_state.specs.Prepared.{Plans};
ghost use Rattle.mr_master_events.specs.inner.Reporting.{ack_of, due_of};

use mr_history::Record;
use mr_ids::{AttemptId, TaskKind};
use mr_master_model::Launch;
use mr_master_state::mr_master_tables::to_container;
use mr_master_state::{Change, Machine, Prepared};
use mr_packet::{ContainerId, Envelope, Packet};
use mr_task::DoneReply;
use std::alloc::AllocError;

// It is acknowledged where it is accepted, now or before; where now, its record is due.
pub fn prepare_done(
    master: &Machine,
    attempt: AttemptId,
    bytes: Option<u32>,
) -> Result<Prepared, AllocError>
    ensures { IfOk result (λ ready. Plans master.now ready (λ w s. ack_to w s attempt (launch_of w s attempt)) (λ w s. after_done w s attempt bytes (launch_of w s attempt))) }
{
    let Some((place, launch)) = master.known(attempt) else {
        return Ok(Prepared::silent(master.alloc, Change::Nothing));
    };
    let reply = master.tasks.done_reply(place, attempt);
    let due = due_of(reply, attempt, &launch, bytes);
    let ready = Prepared::of_some(
        master.alloc,
        ack_of(reply, launch.container, attempt),
        Change::Reports {
            place,
            attempt,
            reply,
            due,
        },
    )?;
    Ok(ready)
}

// Where it is accepted, now or before, its container is told so.
fn ack_of(reply: DoneReply, container: ContainerId, attempt: AttemptId) -> Option<Envelope>
    ensures { result ≡ ack_of reply container attempt }
{
    match reply {
        DoneReply::Accepted | DoneReply::Again => {
            Some(to_container(container, Packet::DoneAck { attempt }))
        }
        DoneReply::Ignored => None,
    }
}

// Where it is accepted now, the record of its success is due.
fn due_of(
    reply: DoneReply,
    attempt: AttemptId,
    launch: &Launch,
    bytes: Option<u32>,
) -> Option<Record>
    ensures { result ≡ due_of reply attempt launch.now bytes }
{
    match reply {
        DoneReply::Accepted => Some(success_of(attempt, launch, bytes)),
        DoneReply::Again | DoneReply::Ignored => None,
    }
}

// The record of a success.
fn success_of(attempt: AttemptId, launch: &Launch, bytes: Option<u32>) -> Record
    ensures { result ≡ success_of attempt.task.kind attempt launch.now bytes }
{
    match attempt.task().kind {
        TaskKind::Map => Record::MapSucceeded {
            attempt,
            node: launch.node,
            incarnation: launch.incarnation,
        },
        TaskKind::Reduce => Record::ReduceSucceeded { attempt, bytes },
    }
}
