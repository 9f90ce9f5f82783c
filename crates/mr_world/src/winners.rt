//! Which attempts won, as the history tells.
ghost use Rattle.std.specs.Prelude.{◌≡◌, ℕ, IfOk, IfErr, None, map, replicate, slice_get};
ghost use Rattle.std.specs.List.{range_with_len};
ghost use Rattle.mr_world_model.specs.Ids.{reduce_of};
ghost use Rattle.mr_world_model.specs.Records.{winner_in};
ghost use Rattle.mr_world_model.specs.Claims.{records, winner};
ghost use Rattle.mr_world_model.specs.World.{World};
ghost use Rattle.mr_world_state.specs.declared.fault.WorldFault.TheVariants.{NoMemory};
ghost use Rattle.mr_world_state.specs.Standing.{Standing};
ghost use Rattle.mr_world.specs.inner.Winning.{Notes, NotesAt, if_at, is_free, success_of};

use mr_history::{Record, Records};
use mr_ids::{AttemptId, JobId, TaskId, TaskKind};
use mr_world_state::{Parts, WorldFault};
use std::alloc::{AllocError, Global};

/// The recorded winner of a reduce, if it has one: the attempt of its first success that is stable. Its only
/// fault is an allocation failure.
pub fn recorded_winner(parts: &Parts, task: TaskId) -> Result<Option<AttemptId>, WorldFault>
    ensures is { IfOk result (λ won. (w : World) → Standing parts.now w → won ≡ winner w task) }
    ensures memory { IfErr result (λ fault. fault ≡ WorldFault.NoMemory) }
{
    let told = records(parts)?;
    Ok(winner_of(told.as_slice(), task))
}

/// The recorded winner of each reduce of the job, by number. Its only fault is an allocation failure; it reads
/// the history once.
pub fn recorded_winners(parts: &Parts) -> Result<Vec<Option<AttemptId>>, WorldFault>
    ensures is { IfOk result (λ all. (w : World) → Standing parts.now w → all.items ≡ map (λ r. winner w (reduce_of parts.now.config.job r)) (range_with_len 0 parts.now.config.reduces)) }
    ensures memory { IfErr result (λ fault. fault ≡ WorldFault.NoMemory) }
{
    let told = records(parts)?;
    let alloc = parts.layout.dest.allocator();
    let reduces = parts.config.reduce_count();
    let all = winners_of(alloc, parts.config.job_id(), reduces, told.as_slice())?;
    Ok(all)
}

// The records of all stable lines, by rising generation.
fn records(parts: &Parts) -> Result<Records, WorldFault>
    ensures is { IfOk result (λ told. (w : World) → Standing parts.now w → told ≡ records w) }
    ensures memory { IfErr result (λ fault. fault ≡ WorldFault.NoMemory) }
{
    match parts.history.records() {
        Ok(told) => Ok(told),
        Err(fault) => Err(WorldFault::from(fault.wants_memory())),
    }
}

// The attempt of the first success of a reduce.
fn winner_of(told: &[Record], task: TaskId) -> Option<AttemptId>
    ensures { result ≡ winner_in told.now task }
{
    for entry in told {
        if let Some(attempt) = success_of(entry, task) {
            return Some(attempt);
        }
    }
    None
}

// The attempt, where the entry tells a success of the reduce.
fn success_of(entry: &Record, task: TaskId) -> Option<AttemptId>
    ensures { result ≡ success_of entry.now task }
{
    match *entry {
        Record::ReduceSucceeded { attempt, .. } => if_at(attempt, task),
        _ => None,
    }
}

// The attempt, if it is one at the task.
fn if_at(attempt: AttemptId, task: TaskId) -> Option<AttemptId>
    ensures { result ≡ if_at attempt task }
{
    if attempt.task() == task {
        Some(attempt)
    } else {
        None
    }
}

// The winners of the first reduces of a job, by one walk over what is told.
fn winners_of(
    alloc: Global,
    job: JobId,
    reduces: u32,
    told: &[Record],
) -> Result<Vec<Option<AttemptId>>, AllocError>
    ensures { IfOk result (λ all. all.items ≡ map (λ r. winner_in told.now (reduce_of job r)) (range_with_len 0 reduces)) }
{
    let mut all = none_yet(alloc, reduces)?;
    note_all(&mut all, job, told);
    Ok(all)
}

// No winner is known of any reduce.
fn none_yet(alloc: Global, reduces: u32) -> Result<Vec<Option<AttemptId>>, AllocError>
    ensures { IfOk result (λ all. all.items ≡ replicate reduces None) }
{
    vec![in alloc; None; reduces as usize]
}

// Of each reduce the first success that is told is noted at its place.
fn note_all(all: &mut [Option<AttemptId>], job: JobId, told: &[Record])
    ensures { (n : ℕ) → all.old ≡ replicate n None → all.new ≡ map (λ r. winner_in told.now (reduce_of job r)) (range_with_len 0 n) }
{
    for entry in told {
        note(all, job, entry);
    }
}

// The success that an entry tells is noted, where none is yet.
fn note(all: &mut [Option<AttemptId>], job: JobId, entry: &Record)
    ensures { Notes job entry.now all.old all.new }
{
    let Record::ReduceSucceeded { attempt, .. } = *entry else {
        return;
    };
    let number = attempt.task().number;
    let reduce = TaskId {
        job,
        kind: TaskKind::Reduce,
        number,
    };
    if attempt.task() == reduce {
        note_at(all, number as usize, attempt);
    }
}

// The attempt is noted, where none is yet.
fn note_at(all: &mut [Option<AttemptId>], number: usize, attempt: AttemptId)
    ensures { NotesAt number attempt all.old all.new }
{
    if !is_free(all, number) {
        return;
    }
    all[number] = Some(attempt);
}

// Whether there is such a reduce, of which no attempt is noted.
fn is_free(all: &[Option<AttemptId>], number: usize) -> bool
    ensures { result ≡ is_free (slice_get all.now number) }
{
    matches!(all.get(number), Some(None))
}
