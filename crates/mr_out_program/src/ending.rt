//! How a command ended: as its order says, or with a fault.
ghost use Rattle.std.specs.Prelude.{◌≡◌, IfOk, IfErr};
ghost use Rattle.std.specs.String.{string_bytes};
ghost use Rattle.mr_out_layout.specs.Faults.{IsRefusal};
ghost use Rattle.mr_out_layout.specs.Layout.{part_name, kept_path};
ghost use Rattle.mr_out_files.specs.Made.{Keeps};
ghost use Rattle.mr_out_files.specs.Troubles.{trouble_of};
ghost use Rattle.mr_out_program.specs.Faults.{IsNotKnown, unfit_path};
ghost use Rattle.mr_out_program.specs.Carried.{CarriesAndSettles};
ghost use Rattle.mr_out_program.specs.inner.Settled.{IsToldBy, SettlesAs};

use crate::carrying::carry_out;
use mr_ids::AttemptId;
use mr_out_files::Directory;
use mr_out_layout::{Fault, Why, kept_path, part_name, work_path};
use mr_out_steps::{Order, Outcome};

// What a call of the history says that failed: the record may be there, or not.
const NOT_KNOWN: &str = "it is not known whether it was recorded; say it again";

/// Carries out an order. Outcomes that refuse it, or tell of a call that failed, are faults.
#[tactic(auto, using(crate::proofs::Advancing::settles))]
pub fn settle(rt: &HostRuntime, directory: &mut Directory, order: Order) -> Result<Outcome, Fault>
    ensures { CarriesAndSettles order directory.old directory.new result }
{
    let end = carry_out(rt, directory, order);
    settled(rt, directory, &order, end)
}

fn settled(
    rt: &HostRuntime,
    directory: &mut Directory,
    order: &Order,
    end: Outcome,
) -> Result<Outcome, Fault>
    ensures same { Keeps directory.old directory.new }
    ensures tells { SettlesAs order.now directory.old end result }
{
    match end {
        Outcome::NoMemory => Err(Fault::NoMemory),
        Outcome::Failed => Err(trouble(rt, directory)),
        Outcome::NotKnown => Err(not_known(rt, directory)),
        Outcome::Foreign(a) => Err(foreign(rt, directory, a)?),
        Outcome::Vanished(a) => Err(vanished(rt, a)?),
        Outcome::NoFile => Err(unfit(rt, directory, order, Why::NoFile)?),
        Outcome::NotAFile => Err(unfit(rt, directory, order, Why::NotAFile)?),
        Outcome::StillWritten => Err(unfit(rt, directory, order, Why::StillWritten)?),
        other => Ok(other),
    }
}

fn trouble(rt: &HostRuntime, directory: &mut Directory) -> Fault
    ensures same { Keeps directory.old directory.new }
    ensures told { IsToldBy (trouble_of directory.old) result }
{
    match directory.trouble() {
        Some(fault) => fault,
        None => Fault::refused(rt.alloc(), "_mrout", Why::Foreign),
    }
}

fn not_known(rt: &HostRuntime, directory: &mut Directory) -> Fault
    ensures same { Keeps directory.old directory.new }
    ensures told { (told : Fault) × IsToldBy (trouble_of directory.old) told × IsNotKnown told result }
{
    let told = trouble(rt, directory);
    unknown(told)
}

// The same fault; that of a call says that the end of it is not known.
fn unknown(told: Fault) -> Fault
    ensures { IsNotKnown told result }
{
    match told {
        Fault::Call {
            what: _,
            path,
            error,
        } => Fault::Call {
            what: NOT_KNOWN,
            path,
            error,
        },
        other => other,
    }
}

fn foreign(rt: &HostRuntime, directory: &Directory, a: AttemptId) -> Result<Fault, Fault>
    ensures told { IfOk result (IsRefusal (part_name (string_bytes directory.now.job.suffix) a.task.number) Why.Foreign) }
    ensures failed { IfErr result (λ fault. fault ≡ Fault.NoMemory) }
{
    let number = a.task().number;
    let path = part_name(rt.alloc(), &directory.job, number)?;
    Ok(Fault::refused(rt.alloc(), &path, Why::Foreign))
}

fn vanished(rt: &HostRuntime, a: AttemptId) -> Result<Fault, Fault>
    ensures told { IfOk result (IsRefusal (kept_path a) Why.Vanished) }
    ensures failed { IfErr result (λ fault. fault ≡ Fault.NoMemory) }
{
    let path = kept_path(rt.alloc(), a)?;
    Ok(Fault::refused(rt.alloc(), &path, Why::Vanished))
}

// The file of the attempt that the order is about is refused.
fn unfit(rt: &HostRuntime, directory: &Directory, order: &Order, why: Why) -> Result<Fault, Fault>
    ensures told { IfOk result (IsRefusal (unfit_path directory.now.job order.now) why) }
    ensures failed { IfErr result (λ fault. fault ≡ Fault.NoMemory) }
{
    match *order {
        Order::Done(a) => {
            let path = work_path(rt.alloc(), &directory.job, a)?;
            Ok(Fault::refused(rt.alloc(), &path, why))
        }
        _ => Ok(Fault::refused(rt.alloc(), "_mrout", why)),
    }
}
