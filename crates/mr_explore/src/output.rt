//! The output of `explore`.
ghost use Rattle.std.specs.Prelude.{◌≡◌, true, IfOk, IfErr};
ghost use Rattle.std.specs.Option.{option_map};
ghost use Rattle.mr_explore_ends.specs.Founds.{as_found};
ghost use Rattle.mr_explore.specs.Ends.{TellFails, TellsEnds, told_text};
ghost use Rattle.mr_explore.specs.Explored.{ExploredFails, PrintsExplored};
ghost use Rattle.mr_explore.specs.Exploring.{found_of};

use crate::asked::{Asked, Form};
use crate::exploration::Exploration;
use crate::sequential::sequential_of;
use crate::watch::Watch;
use mr_explore_ends::{Found, Sequential, put_ends, put_found};
use mr_script::Expectation;
use mr_sim_commands::{Printed, SimFault};
use std::alloc::{AllocError, Global};

/// What `explore` prints of an input, which is a job text and a script behind it. It tells the ends of the input's
/// runs with at most `asked.faults` faults, of which at most `asked.most` are made, none behind the first that came to
/// the end that is sought, and none after `asked.seconds`.
///
/// The first bad key of the job text is told (`Job`), else the first bad line of the script (`BadCommand`). Else
/// `Full` is told where the script, the start of the first master, or one of these runs would pass a limit of the
/// world. `NoMemory` may come at any input. `JournalMismatch` would come where the events of a run could not happen once more.
pub fn explore_output<W: Watch>(
    alloc: Global,
    input: &[u8],
    asked: &Asked<'_>,
    watch: &W,
) -> Result<Printed, SimFault>
    ensures ok { IfOk result (λ v. PrintsExplored asked.now input.now v.text.items) }
    ensures met { IfOk result (λ v. v.met ≡ true) }
    ensures fault { IfErr result (ExploredFails asked.now input.now) }
{
    let mut exploration = Exploration::new(alloc, input, asked.faults, asked.deep)?;
    exploration.make(alloc, asked.most, asked.seconds, asked.goal, watch)?;
    explored_text(alloc, input, &exploration, asked.goal, asked.form)
}

/// What is printed of an exploration of an input: all ends, or the best that meets a goal.
///
/// The first bad key of the job text is told (`Job`). `NoMemory` may come at any input.
pub fn explored_text(
    alloc: Global,
    input: &[u8],
    exploration: &Exploration,
    goal: Option<&[Expectation]>,
    form: Form,
) -> Result<Printed, SimFault>
    ensures tells { IfOk result (λ v. TellsEnds input.now form (option_map (λ g. g.now) goal.entry) (found_of exploration.now) v.text.items) }
    ensures met { IfOk result (λ v. v.met ≡ true) }
    ensures fault { IfErr result (TellFails input.now) }
{
    let table = exploration.table();
    let (sequential, idle_keys) = sequential_of(alloc, input)?;
    let found = Found {
        table,
        faults: exploration.faults(),
        whole: exploration.is_whole(),
    };
    let text = told(alloc, &found, &sequential, goal, form)?;
    Ok(Printed::plain(alloc, text, idle_keys))
}

// What was found, in this form.
fn told(
    alloc: Global,
    found: &Found<'_>,
    sequential: &Sequential,
    goal: Option<&[Expectation]>,
    form: Form,
) -> Result<Vec<u8>, AllocError>
    ensures { IfOk result (λ text. text.items ≡ told_text form sequential.now (option_map (λ g. g.now) goal.entry) (as_found found.now)) }
{
    let mut text = Vec::new(alloc);
    match form {
        Form::Text => put_found(&mut text, alloc, found, sequential, goal)?,
        Form::Json => put_ends(&mut text, alloc, found, sequential, goal)?,
    }
    Ok(text)
}
