//! Where marker, history and files do not agree.
ghost use Rattle.std.specs.Prelude.{◌≡◌, ◌++◌, ◌∷◌, [], IfOk, OnOk, length, map, flat_map, not};
ghost use Rattle.std.specs.List.{list_any};
ghost use Rattle.std.specs.Str.{bytes_eq};
ghost use Rattle.mr_paths.specs.Layout.{is_hidden};
ghost use Rattle.mr_out_winners.specs.Findings.{as_found, answer_of, findings, found_at, has_part, is_file, is_foreign, is_other, length_trouble, look_trouble, name_found, task_found, task_trouble, trouble_if, whole_found, won_trouble};
ghost use Rattle.mr_out_winners.specs.Tasks.{Part, as_part, as_seen};

use crate::name::{Look, Name, is_one, look_at};
use crate::task::{Task, Won};
use crate::trouble::Trouble;
use mr_out_check::Answer;
use mr_out_listing::Kind;
use std::alloc::{AllocError, Global};

/// Something that does not agree.
#[derive(Debug, Drop)]
pub struct Finding {
    /// What it is.
    pub trouble: Trouble,
    /// At which name.
    pub name: Vec<u8>,
}

fn put_found(
    alloc: Global,
    all: &mut Vec<Finding>,
    name: &[u8],
    trouble: Option<Trouble>,
) -> Result<(), AllocError>
    ensures { OnOk result (map as_found all.new.items ≡ map as_found all.old.items ++ found_at name.now trouble) }
{
    let Some(trouble) = trouble else {
        return Ok(());
    };
    let name = Vec::from_slice(alloc, name)?;
    all.push(Finding { trouble, name })?;
    Ok(())
}

fn trouble_if(holds: bool, trouble: Trouble) -> Option<Trouble>
    ensures { result ≡ trouble_if holds trouble }
{
    if holds { Some(trouble) } else { None }
}

// ---- the whole

fn is_other(told: Option<u32>, tasks: usize) -> bool
    ensures { result ≡ is_other told tasks }
{
    match told {
        None => false,
        Some(n) => n as usize != tasks,
    }
}

fn put_whole(
    alloc: Global,
    all: &mut Vec<Finding>,
    is_marked: bool,
    told: Option<u32>,
    is_over: bool,
    tasks: usize,
) -> Result<(), AllocError>
    ensures { OnOk result (map as_found all.new.items ≡ map as_found all.old.items ++ whole_found is_marked told is_over tasks) }
{
    put_found(
        alloc,
        all,
        b"_SUCCESS",
        trouble_if(!is_marked, Trouble::Unmarked),
    )?;
    let other = is_other(told, tasks);
    put_found(
        alloc,
        all,
        b"_mrout",
        trouble_if(other, Trouble::OtherTasks),
    )?;
    put_found(alloc, all, b"_mrout", trouble_if(is_over, Trouble::Over))
}

// ---- a task

fn is_file(kind: Kind) -> bool
    ensures { result ≡ is_file kind }
{
    match kind {
        Kind::File => true,
        Kind::Directory | Kind::Closed | Kind::Other => false,
    }
}

fn length_trouble(noted: Option<u64>, len: u64) -> Option<Trouble>
    ensures { result ≡ length_trouble noted len }
{
    match noted {
        None => Some(Trouble::Unmeasured),
        Some(noted) => trouble_if(noted != len, Trouble::OtherLength),
    }
}

fn look_trouble(won: Won, look: Look) -> Option<Trouble>
    ensures { result ≡ look_trouble won look }
{
    if is_file(look.kind) {
        length_trouble(won.len, look.len)
    } else {
        Some(Trouble::NoFile)
    }
}

fn won_trouble(won: Won, look: Option<Look>) -> Option<Trouble>
    ensures { result ≡ won_trouble won look }
{
    match look {
        None => Some(Trouble::Missing),
        Some(look) => look_trouble(won, look),
    }
}

fn task_trouble(won: Option<Won>, look: Option<Look>) -> Option<Trouble>
    ensures { result ≡ task_trouble won look }
{
    match won {
        None => Some(Trouble::Unwon),
        Some(won) => won_trouble(won, look),
    }
}

fn put_task(
    alloc: Global,
    all: &mut Vec<Finding>,
    names: &[Name],
    task: &Task,
) -> Result<(), AllocError>
    ensures { OnOk result (map as_found all.new.items ≡ map as_found all.old.items ++ task_found (map as_seen names.now) (as_part task.now)) }
{
    let trouble = task_trouble(task.won, look_at(&task.name, names));
    put_found(alloc, all, &task.name, trouble)
}

fn put_tasks(
    alloc: Global,
    all: &mut Vec<Finding>,
    names: &[Name],
    tasks: &[Task],
) -> Result<(), AllocError>
    ensures { OnOk result (map as_found all.new.items ≡ map as_found all.old.items ++ flat_map (task_found (map as_seen names.now)) (map as_part tasks.now)) }
{
    for task in tasks {
        put_task(alloc, all, names, task)?;
    }
    Ok(())
}

// ---- a name

fn is_hidden(name: &[u8]) -> bool
    ensures { result ≡ is_hidden name.now }
{
    matches!(name.first(), Some(b'_' | b'.'))
}

fn has_part(name: &[u8], tasks: &[Task]) -> bool
    ensures { result ≡ list_any (λ (p : Part). bytes_eq p.name name.now) (map as_part tasks.now) }
{
    for task in tasks {
        if is_one(&task.name, name) {
            return true;
        }
    }
    false
}

fn is_foreign(tasks: &[Task], name: &[u8]) -> bool
    ensures { result ≡ is_foreign (map as_part tasks.now) name.now }
{
    !is_hidden(name) && !has_part(name, tasks)
}

fn put_name(
    alloc: Global,
    all: &mut Vec<Finding>,
    tasks: &[Task],
    name: &Name,
) -> Result<(), AllocError>
    ensures { OnOk result (map as_found all.new.items ≡ map as_found all.old.items ++ name_found (map as_part tasks.now) (as_seen name.now)) }
{
    let foreign = is_foreign(tasks, &name.name);
    put_found(
        alloc,
        all,
        &name.name,
        trouble_if(foreign, Trouble::Foreign),
    )
}

fn put_names(
    alloc: Global,
    all: &mut Vec<Finding>,
    tasks: &[Task],
    names: &[Name],
) -> Result<(), AllocError>
    ensures { OnOk result (map as_found all.new.items ≡ map as_found all.old.items ++ flat_map (name_found (map as_part tasks.now)) (map as_seen names.now)) }
{
    for name in names {
        put_name(alloc, all, tasks, name)?;
    }
    Ok(())
}

/// Where marker, history and files do not agree. `is_marked`: the empty file `_SUCCESS` was seen before anything else was looked at. `told`: how many tasks
/// the job is told to have. `is_over`: the job was ended as failed. `tasks`: what the history says of each, in order. `names`: all names in the
/// directory itself. It fails where there is no memory.
pub fn find(
    alloc: Global,
    is_marked: bool,
    told: Option<u32>,
    is_over: bool,
    tasks: &[Task],
    names: &[Name],
) -> Result<Vec<Finding>, AllocError>
    ensures { IfOk result (λ all. map as_found all.items ≡ findings is_marked told is_over (map as_part tasks.now) (map as_seen names.now)) }
{
    let mut all = Vec::new(alloc);
    put_whole(alloc, &mut all, is_marked, told, is_over, tasks.len())?;
    put_tasks(alloc, &mut all, names, tasks)?;
    put_names(alloc, &mut all, tasks, names)?;
    Ok(all)
}

/// May the directory be read? Yes where nothing was found, else no.
pub fn answer_of(findings: &[Finding]) -> Answer
    ensures { result ≡ answer_of (map as_found findings.now) }
{
    if findings.is_empty() {
        Answer::Yes
    } else {
        Answer::No
    }
}
