//! What a master does next of the winners that are left to be taken over.
ghost use Rattle.std.specs.Prelude.{◌≡◌, take, IfOk};
ghost use Rattle.mr_master_model.specs.Answered.{next_winner};

use crate::work::Work;
use mr_master_model::Setting;
use mr_recover::TaskWinner;
use std::alloc::{AllocError, Global};
use std::collections::VecDeque;

/// What is next: a reduce is taken over, or where none is left the master runs. Where there is no earlier generation
/// there is no output to take over.
pub fn next_winner(setting: &Setting, others: VecDeque<TaskWinner>) -> Result<Work, AllocError>
    ensures { IfOk result (λ work. work ≡ next_winner setting.now others.items) }
{
    let mut others = others;
    match others.pop_front() {
        None => Ok(Work::running()),
        Some(winner) => Work::takes_over(setting, winner, others),
    }
}

/// The same where the list stays where it is: the next reduce is taken over, and no other after it yet.
pub fn first_winner(
    alloc: Global,
    setting: &Setting,
    others: &VecDeque<TaskWinner>,
) -> Result<Work, AllocError>
    ensures { IfOk result (λ work. work ≡ next_winner setting.now (take 1 others.now.items)) }
{
    let Some(winner) = others.front() else {
        return Ok(Work::running());
    };
    let work = Work::takes_over(setting, *winner, VecDeque::new(alloc))?;
    Ok(work)
}
