//! The work of a map task.
ghost use Rattle.std.specs.Prelude.{◌≡◌, ◌≢◌, ◌≤◌, ◌<◌, ◌++◌, [], length, Some, IfOk, IfErr, OnOk};
ghost use Rattle.std.specs.List.{flat_map, AllByRecursion};
ghost use Rattle.mr_user.specs.Computation.{computation};
ghost use Rattle.mr_mapside.specs.Block.{framed, combined_group, spelled, map_output};
ghost use Rattle.mr_mapside.specs.Runs.{AreRuns, merged};
ghost use Rattle.mr_mapside.specs.Work.{FullIf, MapFaultIs};
ghost use Rattle.mr_ids.specs.declared.id.TaskKind.TheVariants as kind;

use crate::MAX_OUTPUT_LEN;
use crate::fault::WorkFault;
use crate::kept::{KeptRuns, kept_runs};
use crate::merging::RunGroups;
use crate::output::MapOutput;
use mr_ids::TaskKind;
use mr_user::{Gate, Job, MAX_REDUCES, MAX_SPLIT_LEN, Wire};
use std::alloc::{AllocError, Global};

/// The output of map `number` over its split. It has, for each reduce in order, the length of its block in 4 bytes,
/// the highest first, and then the block. A block is the pairs of the keys that go to that reduce, by rising keys,
/// each key's values combined.
///
/// The gate is entered once, before the work, and a gate that answers a fault is answered `Gate`. Then
/// `User(Refused)` is answered where the job refuses a line, and `Full` where the output would pass `MAX_OUTPUT_LEN`.
/// `NoMemory` is answered only where a growth was refused. For n pairs it compares keys n log n times. It holds at
/// most 4,096 decoded pairs, beside those of the present line and the values of the one key that is combined. The
/// others are kept as they are written.
pub fn map_work<J: Job, G: Gate>(
    alloc: Global,
    job: &J,
    gate: &G,
    number: u32,
    split: &[u8],
    reduces: u32,
) -> Result<MapOutput, WorkFault>
    requires short { length split.now ≤ MAX_SPLIT_LEN }
    requires some { (1 ≤ reduces) × (reduces ≤ MAX_REDUCES) }
    ensures output { let all = computation J.Key.cmp J.Key.codec J.Value.codec J.functions in
        IfOk result (λ output. map_output all reduces number split.now ≡ Some output) }
    ensures short { IfOk result (λ output. length output ≤ MAX_OUTPUT_LEN) }
    ensures fault { let all = computation J.Key.cmp J.Key.codec J.Value.codec J.functions in
        IfErr result (λ fault. MapFaultIs (G.refuses gate.now kind.Map) fault (map_output all reduces number split.now)) }
{
    gate.enter(TaskKind::Map)?;
    let kept = kept_runs(alloc, job, number, split, reduces)?;
    merged_output(alloc, job, &kept)
}

// The output of the runs that were kept for each reduce.
fn merged_output<J: Job>(alloc: Global, job: &J, kept: &[KeptRuns]) -> Result<MapOutput, WorkFault>
    requires { AllByRecursion (AreRuns (computation J.Key.cmp J.Key.codec J.Value.codec J.functions)) kept.now }
    ensures output { let all = computation J.Key.cmp J.Key.codec J.Value.codec J.functions in
        IfOk result (λ output. output ≡ flat_map (λ runs. framed (spelled all (flat_map (combined_group all) (merged all runs)))) kept.now) }
    ensures short { IfOk result (λ output. length output ≤ MAX_OUTPUT_LEN) }
    ensures fault { let all = computation J.Key.cmp J.Key.codec J.Value.codec J.functions in
        IfErr result (λ fault. FullIf fault (flat_map (λ runs. framed (spelled all (flat_map (combined_group all) (merged all runs)))) kept.now)) }
{
    let mut bytes = Vec::new(alloc);
    let mut block = Vec::new(alloc);
    for runs in kept {
        merged_block(alloc, job, runs, &mut block)?;
        append_block(&mut bytes, &block)?;
    }
    Ok(MapOutput::from_vec(bytes))
}

// Appends a block behind its length, unless the bytes would pass `MAX_OUTPUT_LEN`.
fn append_block(bytes: &mut Vec<u8>, block: &[u8]) -> Result<(), WorkFault>
    ensures ok { OnOk result (bytes.new.items ≡ bytes.old.items ++ framed block.now) }
    ensures short { OnOk result (length bytes.new.items ≤ MAX_OUTPUT_LEN) }
    ensures fault { IfErr result (λ fault. FullIf fault (bytes.old.items ++ framed block.now)) }
{
    if MAX_OUTPUT_LEN < block.len() || MAX_OUTPUT_LEN - block.len() < bytes.len() + 4 {
        return Err(WorkFault::Full);
    }
    let len = block.len() as u32;
    bytes.extend_from_slice(&len.to_be_bytes())?;
    bytes.extend_from_slice(block)?;
    Ok(())
}

// Writes the block of the runs for one reduce over another one, whose memory it takes.
fn merged_block<J: Job>(
    alloc: Global,
    job: &J,
    runs: &KeptRuns,
    block: &mut Vec<u8>,
) -> Result<(), AllocError>
    requires { AreRuns (computation J.Key.cmp J.Key.codec J.Value.codec J.functions) runs.now }
    ensures { let all = computation J.Key.cmp J.Key.codec J.Value.codec J.functions in
        OnOk result (block.new.items ≡ spelled all (flat_map (combined_group all) (merged all runs.now))) }
{
    let mut groups = RunGroups::<J>::new(alloc, runs.lent(alloc)?)?;
    let mut name = Vec::new(alloc);
    block.clear();
    while let Some((key, values)) = groups.next_group(alloc)? {
        spell_group(alloc, job, &key, &values, &mut name, block)?;
    }
    Ok(())
}

// Appends the combined pairs of a key. The key is written once, to where the name of the key before stood.
fn spell_group<J: Job>(
    alloc: Global,
    job: &J,
    key: &J::Key,
    values: &[J::Value],
    name: &mut Vec<u8>,
    out: &mut Vec<u8>,
) -> Result<(), AllocError>
    requires { values.now ≢ [] }
    ensures { let all = computation J.Key.cmp J.Key.codec J.Value.codec J.functions in
        OnOk result (out.new.items ≡ out.old.items ++ spelled all (combined_group all (key.now, values.now))) }
{
    write_name(key, name)?;
    for value in &job.combine(alloc, key, values)? {
        out.extend_from_slice(name)?;
        value.write(out)?;
    }
    Ok(())
}

// Writes a key over what stood there.
fn write_name<K: Wire>(key: &K, name: &mut Vec<u8>) -> Result<(), AllocError>
    ensures { OnOk result (name.new.items ≡ K.codec.written key.now) }
{
    name.clear();
    key.write(name)
}
