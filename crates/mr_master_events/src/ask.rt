//! An attempt asks for permission to commit, for the first time or again.
ghost use Rattle.std.specs.Prelude.{◌≡◌, IfOk};
ghost use Rattle.mr_packet.specs.Sends.{to_container};
ghost use Rattle.mr_master_model.specs.Readings.{launch_of};
ghost use Rattle.mr_master_model.specs.Hearing.{after_ask};
ghost use Rattle.mr_master_model.specs.Sends.{pending_answer};
ghost use Rattle.mr_master_state.specs.Prepared.{Plans};

use mr_ids::AttemptId;
use mr_master_state::mr_master_tables::to_container;
use mr_master_state::{Boxed, Change, Machine, Prepared};
use mr_packet::{ContainerId, Envelope, Packet};
use std::alloc::AllocError;

// The attempt is answered whether it is named once it asked.
pub fn prepare_ask(master: &Machine, attempt: AttemptId) -> Result<Prepared, AllocError>
    ensures { IfOk result (λ ready. Plans master.now ready (λ w s. pending_answer w s attempt) (λ w s. after_ask s attempt (launch_of w s attempt))) }
{
    let Some((place, launch)) = master.known(attempt) else {
        return Ok(Prepared::silent(master.alloc, Change::Nothing));
    };
    let may = master.tasks.would_name(place, attempt);
    let asked = master.tasks.asked(place, attempt)?;
    let machine = Boxed::new(master.alloc, asked)?;
    let ready = Prepared::of_one(
        master.alloc,
        answer(launch.container, attempt, may),
        Change::Asks {
            place,
            attempt,
            machine,
        },
    )?;
    Ok(ready)
}

// Whether the attempt may commit.
fn answer(container: ContainerId, attempt: AttemptId, may: bool) -> Envelope
    ensures { result ≡ to_container container (Packet.Answer attempt may) }
{
    to_container(container, Packet::Answer { attempt, yes: may })
}
