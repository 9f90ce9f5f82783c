//! Store calls as duties: that of a committer's line, a look for a mark, the creation of one, the abort of the job.
ghost use Rattle.std.specs.Prelude.{◌≡◌, true, IfOk, OnErr};
ghost use Rattle.std.specs.Option.{is_some, option_map, option_copied};
ghost use Rattle.mr_master_model.specs.Answered.{name_of};
ghost use Rattle.mr_master_model.specs.Duty.{looks, creates, abort_duty};

use mr_master_model::{DutyName, Setting, StoreCall};
use mr_master_tables::Duty;
use mr_names::Op;
use mr_paths::Path;
use std::alloc::AllocError;

/// The call of the line that is next, if there is one.
pub fn of_line(name: DutyName, op: Option<&Op>) -> Result<Option<Duty>, AllocError>
    ensures due { IfOk result (λ due. due ≡ option_map (λ o. record { name = name; call = StoreCall.Names o }) (option_copied op.entry)) }
    ensures due_on_memory { OnErr result (is_some (option_copied op.entry) ≡ true) }
{
    match op {
        None => Ok(None),
        Some(op) => {
            let op = op.copy()?;
            Ok(Some(Duty::new(name, StoreCall::Names(op))))
        }
    }
}

/// What that call is for.
pub fn name_of_line(name: DutyName, op: Option<&Op>) -> Option<DutyName>
    ensures { result ≡ name_of (option_map (λ o. record { name = name; call = StoreCall.Names o }) (option_copied op.entry)) }
{
    match op {
        None => None,
        Some(_) => Some(name),
    }
}

/// It looks for a mark.
pub fn of_look(path: Path) -> Option<Duty>
    ensures { result ≡ looks path }
{
    Some(Duty::new(DutyName::Marks, StoreCall::Names(Op::Exists(path))))
}

/// It creates a mark.
pub fn of_mark(name: DutyName, path: Path) -> Option<Duty>
    ensures { result ≡ creates name path }
{
    let op = Op::Create { path, closed: true };
    Some(Duty::new(name, StoreCall::Names(op)))
}

/// The call of the job's abort.
pub fn abort_duty(setting: &Setting) -> Result<Option<Duty>, AllocError>
    ensures { IfOk result (λ due. due ≡ abort_duty setting.now) }
{
    let path = setting.layout.temporary()?;
    Ok(Some(Duty::new(DutyName::Abort, StoreCall::Names(Op::Delete(path)))))
}
