//! What `threads` prints.
ghost use Rattle.std.specs.Prelude.{◌≡◌, true, IfOk, IfErr, map};
ghost use Rattle.std.specs.List.{flat_map};
ghost use Rattle.mr_play.specs.mr_world.specs.VisibleFiles.{as_pair};
ghost use Rattle.mr_play.specs.WorldText.{visible_text};
ghost use Rattle.mr_threads.specs.Text.{PrintsSuccess, ShownFails, ThreadsFail};

use crate::driven::report_of;
use crate::manner::Manner;
use mr_play::mr_world::VisibleFile;
use mr_sim_commands::{Printed, SimFault, print_file, read_job_text};
use std::alloc::{AllocError, AllocGlobal, Global};
use std::rt::Clock;
use std::sync::Wait;
use std::thread::Threads;

/// What `threads` prints for a job text: the part files of the job, which threads ran with success. It is what `seq` prints for the text.
///
/// `Job` names the first bad key of the job text. `JobFailed`: a failure was told, or the newest master stopped. `TurnsSpent`, `JournalMismatch`, `Thread` and `Full`
/// are those of `report_of`. `NoMemory` may come at any text; no other fault comes.
#[tactic(auto, using(crate::proofs::Files::prints, crate::proofs::Files::has_succeeded, crate::proofs::Failing::nothing_to_print, crate::proofs::Failing::has_failed))]
pub fn threads_output<H: AllocGlobal + Clock + Threads + Wait + Sync>(
    rt: &H,
    input: &[u8],
    turns: Option<u64>,
    hold: bool,
) -> Result<Printed, SimFault>
    ensures ok { IfOk result (λ v. PrintsSuccess input.now v.text.items) }
    ensures met { IfOk result (λ v. v.met ≡ true) }
    ensures fault { IfErr result (ThreadsFail input.now) }
{
    let (report, idle_keys) = report_of(rt, input, Manner { turns, hold })?;
    if !report.succeeded {
        return Err(SimFault::JobFailed);
    }
    let text = files_text(rt.alloc(), &report.files)?;
    Ok(Printed::plain(rt.alloc(), text, idle_keys))
}

// Files as they are printed.
fn files_text(alloc: Global, files: &[VisibleFile]) -> Result<Vec<u8>, AllocError>
    ensures { IfOk result (λ text. text.items ≡ flat_map visible_text (map as_pair files.now)) }
{
    let mut text = Vec::with_capacity(alloc, room_for(files))?;
    for file in files {
        print_file(&mut text, file.name.as_bytes(), file.bytes.as_slice())?;
    }
    Ok(text)
}

// More bytes than the line before a file has, whose name is that of a reduce's part.
const HEAD_LEN: usize = 64;

// For how many bytes room is made at once for the text of files.
fn room_for(files: &[VisibleFile]) -> usize {
    let mut room = 0usize;
    for file in files {
        room = room
            .saturating_add(HEAD_LEN)
            .saturating_add(file.bytes.len());
    }
    room
}

/// What `threads` answers where there is no handle that starts threads: what is wrong with the job text, else `Thread`.
#[tactic(auto, using(crate::proofs::Failing::bad_text))]
pub fn unthreaded(alloc: Global, input: &[u8]) -> Result<Printed, SimFault>
    ensures fault { IfErr result (ShownFails input.now) }
    ensures none { IfOk result (λ _. ⊥) }
{
    let _submission = read_job_text(alloc, input)?;
    Err(SimFault::Thread)
}
