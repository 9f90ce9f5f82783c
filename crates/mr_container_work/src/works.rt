//! What a container computes from its input: a map's output, or a reduce's text.
ghost use Rattle.std.specs.Prelude.{◌≡◌, ◌≤◌, ℕ, IfErr, length};
ghost use Rattle.mr_ids.specs.declared.id.TaskKind.TheVariants as kind;
ghost use Rattle.mr_user.specs.Computation.{computation};
ghost use Rattle.mr_world_files.specs.mr_world_model.specs.Packets.{Config};
ghost use Rattle.mr_world_files.specs.mr_world_model.specs.Sequential.{Split, Pieces as Fetched, made_of};
ghost use Rattle.mr_world_files.specs.Jobs.{job_of};
ghost use Rattle.mr_container_work.specs.Works.{as_input, kind_of, FaultIs, InputsAreShort, IsShort, Works};

use crate::input::Input;
use mr_ids::Bytes;
use mr_mapside::{WorkFault, map_work};
use mr_shuffle::reduce_bytes;
use mr_user::{Gate, Job, MAX_REDUCES, MAX_SPLIT_LEN};
use std::alloc::Global;

/// What a job makes of an input, for this number of reduces: a map's output, or a reduce's text.
///
/// The gate is entered once, before the work, and a gate that answers a fault is answered `Gate`. Then a map's input
/// is answered `User(Refused)` where the job refuses a line. A reduce's input is answered `Shuffle(Truncated)` or
/// `Shuffle(Disorder)`, the first fault of its pieces. `Full` is answered where the bytes would be more than
/// `MAX_OUTPUT_LEN`, `NoMemory` only where a growth was refused.
pub fn work<J: Job, G: Gate>(
    alloc: Global,
    job: &J,
    gate: &G,
    input: &Input,
    reduces: u32,
) -> Result<Bytes, WorkFault>
    requires short { IsShort (as_input input.now) }
    requires some { (1 ≤ reduces) × (reduces ≤ MAX_REDUCES) }
    ensures works { let all = computation J.Key.cmp J.Key.codec J.Value.codec J.functions in
        (cfg : Config) → cfg.reduces ≡ reduces → Works (G.refuses gate.now (kind_of input.now)) (made_of (job_of all) cfg (as_input input.now)) result }
    ensures fault { let all = computation J.Key.cmp J.Key.codec J.Value.codec J.functions in
        IfErr result (FaultIs (G.refuses gate.now (kind_of input.now)) all reduces (as_input input.now)) }
{
    match input {
        Input::Map { split, bytes } => {
            work_of_map(alloc, job, gate, *split, bytes.as_slice(), reduces)
        }
        Input::Reduce { reduce, pieces } => {
            work_of_reduce(alloc, job, gate, *reduce, pieces.as_slice())
        }
    }
}

/// What a job makes of the split of a map, for this number of reduces: the map's output. Its refusals are those of
/// `work`.
pub fn work_of_map<J: Job, G: Gate>(
    alloc: Global,
    job: &J,
    gate: &G,
    number: u32,
    split: &[u8],
    reduces: u32,
) -> Result<Bytes, WorkFault>
    requires short { length split.now ≤ MAX_SPLIT_LEN }
    requires some { (1 ≤ reduces) × (reduces ≤ MAX_REDUCES) }
    ensures works { let all = computation J.Key.cmp J.Key.codec J.Value.codec J.functions in
        (cfg : Config) → cfg.reduces ≡ reduces → Works (G.refuses gate.now kind.Map) (made_of (job_of all) cfg (Split number split.now)) result }
    ensures fault { let all = computation J.Key.cmp J.Key.codec J.Value.codec J.functions in
        IfErr result (FaultIs (G.refuses gate.now kind.Map) all reduces (Split number split.now)) }
{
    let output = map_work(alloc, job, gate, number, split, reduces)?;
    Ok(shared(output.into_bytes()))
}

/// What a job makes of the pieces of a reduce, one of each map, by the maps' numbers: the reduce's text. Its refusals are those of `work`.
pub fn work_of_reduce<J: Job, G: Gate>(
    alloc: Global,
    job: &J,
    gate: &G,
    reduce: u32,
    pieces: &[Bytes],
) -> Result<Bytes, WorkFault>
    requires few { length pieces.now ≤ 1000 }
    ensures works { let all = computation J.Key.cmp J.Key.codec J.Value.codec J.functions in
        (cfg : Config) → Works (G.refuses gate.now kind.Reduce) (made_of (job_of all) cfg (Fetched reduce pieces.now)) result }
    ensures fault { let all = computation J.Key.cmp J.Key.codec J.Value.codec J.functions in
        (reduces : ℕ) → IfErr result (FaultIs (G.refuses gate.now kind.Reduce) all reduces (Fetched reduce pieces.now)) }
{
    let text = reduce_bytes(alloc, job, gate, pieces)?;
    Ok(shared(Bytes::from_vec(text)))
}

// The bytes of a result, which all who hold them share from now on.
fn shared(bytes: Bytes) -> Bytes
    ensures { result ≡ bytes }
{
    let mut bytes = bytes;
    bytes.share();
    bytes
}

/// What a container of a cluster is given is a split that is not too long, or one piece for each of its few maps.
pub fn inputs_are_short()
    ensures { InputsAreShort }
{}
