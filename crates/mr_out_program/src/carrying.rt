//! A command is carried out on a real disk, call by call.
ghost use Rattle.mr_out_program.specs.Carried.{CarriesOut};
ghost use Rattle.mr_out_program.specs.Faults.{TellsTrouble};
ghost use Rattle.mr_out_program.specs.inner.Advance.{Advances};

use mr_out_files::Directory;
use mr_out_machine::Command;
use mr_out_steps::{Order, Outcome};

/// Makes the calls of a command until it has ended. Just its calls are made, each once the answers before it were taken,
/// and it ends as the step machine that took these answers. Where the last one failed, the directory tells its trouble.
#[tactic(auto, using(crate::proofs::Advancing::one_made, crate::proofs::Advancing::all_made, crate::proofs::Advancing::too_many))]
pub fn carry_out(rt: &HostRuntime, directory: &mut Directory, order: Order) -> Outcome
    ensures { CarriesOut order directory.old directory.new result × TellsTrouble directory.old directory.new }
{
    let (id, tasks) = (directory.job.id, directory.job.tasks);
    let (limit, hold) = (directory.job.limit, directory.job.hold);
    let mut command = Command::new(rt.alloc(), order, id, tasks, limit, hold);
    for _ in 0..u64::MAX {
        if let Some(outcome) = advance(rt, directory, &mut command) {
            return outcome;
        }
    }
    Outcome::Failed
}

// Makes the next call of a command, and hands it the answer. How it ended, where it has no next call.
#[tactic(auto, using(crate::proofs::Advancing::ended_so))]
fn advance(rt: &HostRuntime, directory: &mut Directory, command: &mut Command) -> Option<Outcome>
    ensures { Advances command.old directory.old command.new directory.new result }
{
    match command.call() {
        Some(call) => {
            let answer = directory.perform(rt, call);
            command.took(answer);
            None
        }
        None => command.outcome(),
    }
}
