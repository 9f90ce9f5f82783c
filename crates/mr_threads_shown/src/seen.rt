//! What is shown of a run that threads made.
ghost use Rattle.std.specs.Prelude.{◌≡◌, ◌++◌, [], true, false, IfOk, IfErr, OnOk};
ghost use Rattle.mr_sim_commands.specs.declared.fault.SimFault.TheVariants.{NoMemory};
ghost use Rattle.mr_threads.specs.Text.{ShownFails};
ghost use Rattle.mr_threads_shown.specs.Text.{ShowsRun, Tells, TellsRun, text_of_run};
ghost use Rattle.mr_threads_shown.specs.inner.{CanBeSaid, IsUnshown, MayRepeat};
ghost use Rattle.mr_script_writer.specs.Repeating.{commented, repeating};
ghost use Rattle.mr_trace.specs.Happened.{by_threads};
ghost use Rattle.mr_trace.specs.Trace.{trace_text};

use crate::sayable::are_sayable;
use mr_play::mr_world::World;
use mr_play::{Shown, print_histories, print_world};
use mr_script_writer::{put_comments, put_script};
use mr_sim_commands::{Printed, SimFault};
use mr_threads::{Manner, report_of};
use mr_trace::{Makers, trace_of};
use mr_trace_json::json_of;
use mr_trace_picture::drawn;
use mr_trace_svg::Part;
use std::alloc::{AllocGlobal, Global};
use std::rt::Clock;
use std::sync::Wait;
use std::thread::Threads;

/// What is shown of a run in place of the job's part files.
#[derive(Clone, Copy, Debug, PartialEq, Eq)]
pub enum Seen {
    /// What `play` would print of it, with a trace before it and the history behind it, where they are asked for.
    Shown(Shown),
    /// A picture of this part of it.
    Drawn(Part),
    /// The same as lines of JSON.
    Json,
    /// The script by which `play` repeats it, and behind that what `play` prints then, as comments.
    Script,
}

/// What `threads` shows of the run that happened, whether the job succeeded or failed. The faults are those of `threads_output`, without `JobFailed`.
#[tactic(auto, using(crate::proofs::Files::shows_run, crate::proofs::Files::unshown))]
pub fn threads_seen<H: AllocGlobal + Clock + Threads + Wait + Sync>(
    rt: &H,
    input: &[u8],
    turns: Option<u64>,
    hold: bool,
    seen: Seen,
) -> Result<Printed, SimFault>
    ensures ok { IfOk result (λ v. ShowsRun seen input.now v.text.items) }
    ensures met { IfOk result (λ v. v.met ≡ true) }
    ensures fault { IfErr result (ShownFails input.now) }
{
    let (report, idle_keys) = report_of(rt, input, Manner { turns, hold })?;
    let text = seen_of(rt.alloc(), &report.world, &report.by, seen)?;
    Ok(Printed::plain(rt.alloc(), text, idle_keys))
}

// What is shown of a world's run.
fn seen_of(alloc: Global, world: &World, by: &[u32], seen: Seen) -> Result<Vec<u8>, SimFault>
    ensures text { IfOk result (λ v. Tells seen by.now world.now v.items) }
    ensures repeats { OnOk result (MayRepeat seen world.now) }
    ensures fault { IfErr result IsUnshown }
{
    match seen {
        Seen::Shown(shown) => shown_of(alloc, world, by, shown),
        Seen::Drawn(part) => drawn(alloc, world, &Makers::Threads(by), part, &[]),
        Seen::Json => json_of(alloc, world, &Makers::Threads(by), &[]),
        Seen::Script => scripted(alloc, world),
    }
}

// The trace of a world's run, with the threads of the seats that made it, where it is asked for, else nothing.
fn before_of(alloc: Global, world: &World, by: &[u32], shown: Shown) -> Result<Vec<u8>, SimFault>
    ensures untraced { IfOk result (λ v. shown.trace ≡ false → v.items ≡ []) }
    ensures traced { IfOk result (λ v. shown.trace ≡ true → v.items ≡ trace_text (by_threads by.now) world.now) }
    ensures memory { IfErr result (λ e. e ≡ NoMemory) }
{
    if shown.trace {
        trace_of(alloc, world, &Makers::Threads(by))
    } else {
        Ok(Vec::new(alloc))
    }
}

// What `play` prints of a world, with what is asked for before it and behind it.
fn shown_of(alloc: Global, world: &World, by: &[u32], shown: Shown) -> Result<Vec<u8>, SimFault>
    ensures text { IfOk result (λ v. TellsRun shown by.now world.now v.items) }
    ensures memory { IfErr result (λ e. e ≡ NoMemory) }
{
    let mut text = before_of(alloc, world, by, shown)?;
    print_world(&mut text, world)?;
    if shown.history {
        print_histories(&mut text, world)?;
    }
    Ok(text)
}

// The script of a world's run, and what `play` prints of it, as comments. No thread hands in a result that is too long.
#[tactic(auto, using(crate::proofs::Files::can_be_said))]
fn scripted(alloc: Global, world: &World) -> Result<Vec<u8>, SimFault>
    ensures text { IfOk result (λ v. v.items ≡ repeating world.now.events ++ commented (text_of_run world.now)) }
    ensures said { OnOk result (CanBeSaid world.now) }
    ensures fault { IfErr result IsUnshown }
{
    world.repeats();
    if !are_sayable(world.journal()) {
        return Err(SimFault::JournalMismatch);
    }
    let mut ending = Vec::new(alloc);
    print_world(&mut ending, world)?;
    let mut text = Vec::new(alloc);
    put_script(&mut text, world.journal())?;
    put_comments(&mut text, &ending)?;
    Ok(text)
}
