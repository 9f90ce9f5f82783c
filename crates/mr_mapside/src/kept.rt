//! The runs that a map keeps of its pairs.
//! Each time that `RUN_LEN` pairs are there, they are sorted, shared out among the reduces and kept as bytes. `work`
//! merges these at the end.
ghost use Rattle.std.specs.Prelude.{◌≡◌, ◌≤◌, ◌<◌, ◌++◌, ◌∷◌, [], List, length, map, Some, None, IfOk, IfErr, OnOk};
ghost use Rattle.std.specs.List.{AllByRecursion};
ghost use Rattle.mr_user.specs.Computation.{computation};
ghost use Rattle.mr_user.specs.Faults.{RefusedIf};
ghost use Rattle.mr_user.specs.Laws.{PairsFit};
ghost use Rattle.mr_user.specs.Sequential.{pairs_of_split};
ghost use Rattle.mr_mapside.specs.Block.{spelled};
ghost use Rattle.mr_mapside.specs.inner.Kept.{Kept};

use mr_user::{Job, MAX_SPLIT_LEN, UserFault, Wire, next_line, shares, sort_pairs};
use std::alloc::{AllocError, Global};
use std::marker::Model;
use std::mem;

// How many pairs make a run.
const RUN_LEN: usize = 4096;

// The runs for one reduce, each as it is written. Contracts see them as a list of lists of bytes.
#[derive(Drop)]
pub struct KeptRuns {
    runs: Vec<Vec<u8>>,
}

impl Model for KeptRuns {
    ghost use Rattle.std.specs.Prelude.{List, ℕ, map};

    ghost Value = { List (List ℕ) };

    ghost view = { λ k. map (λ run. run.items) k.runs.items };
}

impl KeptRuns {
    fn new(alloc: Global) -> KeptRuns
        ensures { result ≡ [] }
    {
        KeptRuns {
            runs: Vec::new(alloc),
        }
    }

    fn add(&mut self, run: Vec<u8>) -> Result<(), AllocError>
        ensures { OnOk result (self.new ≡ self.old ++ run.items ∷ []) }
    {
        self.runs.push(run)?;
        Ok(())
    }

    // The runs, lent.
    pub fn lent(&self, alloc: Global) -> Result<Vec<&[u8]>, AllocError>
        ensures { IfOk result (λ lists. map (λ bytes. bytes.now) lists.items ≡ self.now) }
    {
        lent_runs(alloc, &self.runs)
    }
}

fn lent_runs(alloc: Global, runs: &[Vec<u8>]) -> Result<Vec<&[u8]>, AllocError>
    ensures { IfOk result (λ lists. map (λ bytes. bytes.now) lists.items ≡ map (λ run. run.items) runs.now) }
{
    let mut lists = Vec::with_capacity(alloc, runs.len())?;
    for run in runs {
        lists.push(run.as_slice())?;
    }
    Ok(lists)
}

// Pairs as they are written.
fn encoded<J: Job>(alloc: Global, pairs: &[(J::Key, J::Value)]) -> Result<Vec<u8>, AllocError>
    ensures bytes { IfOk result (λ bytes. bytes.items ≡ spelled (computation J.Key.cmp J.Key.codec J.Value.codec J.functions) pairs.now) }
    ensures fit { OnOk result (PairsFit (computation J.Key.cmp J.Key.codec J.Value.codec J.functions) pairs.now) }
{
    let mut bytes = Vec::new(alloc);
    for (key, value) in pairs {
        key.fits();
        value.fits();
        key.write(&mut bytes)?;
        value.write(&mut bytes)?;
    }
    Ok(bytes)
}

// Keeps what of a run goes to each reduce, sorted by key.
fn keep_run<J: Job>(
    alloc: Global,
    job: &J,
    kept: &mut Vec<KeptRuns>,
    run: Vec<(J::Key, J::Value)>,
    reduces: u32,
) -> Result<(), AllocError>
    requires some { 0 < reduces }
    requires many { length kept.old.items ≡ reduces }
    ensures many { length kept.new.items ≡ reduces }
    ensures kept { let all = computation J.Key.cmp J.Key.codec J.Value.codec J.functions in
        OnOk result ((done : List (J.Key × J.Value)) → Kept all reduces kept.old.items run.items done → Kept all reduces kept.new.items [] done) }
{
    let mut parts = shares(alloc, job, run, reduces)?;
    for r in 0..reduces as usize {
        sort_pairs(&mut parts[r])?;
        let bytes = encoded::<J>(alloc, &parts[r])?;
        kept[r].add(bytes)?;
    }
    Ok(())
}

// Adds pairs to a run, and keeps it each time that it is full.
fn add_pairs<J: Job>(
    alloc: Global,
    job: &J,
    kept: &mut Vec<KeptRuns>,
    run: &mut Vec<(J::Key, J::Value)>,
    pairs: Vec<(J::Key, J::Value)>,
    reduces: u32,
) -> Result<(), AllocError>
    requires some { 0 < reduces }
    requires many { length kept.old.items ≡ reduces }
    ensures many { length kept.new.items ≡ reduces }
    ensures kept { let all = computation J.Key.cmp J.Key.codec J.Value.codec J.functions in
        OnOk result ((done : List (J.Key × J.Value)) → Kept all reduces kept.old.items run.old.items done → Kept all reduces kept.new.items run.new.items (done ++ pairs.items)) }
{
    for pair in pairs {
        run.push(pair)?;
        if run.len() >= RUN_LEN {
            let room = Vec::with_capacity(alloc, RUN_LEN)?;
            let full = mem::replace(run, room);
            keep_run(alloc, job, kept, full, reduces)?;
        }
    }
    Ok(())
}

// For each reduce no runs.
fn no_runs(alloc: Global, reduces: u32) -> Result<Vec<KeptRuns>, AllocError>
    ensures many { IfOk result (λ kept. length kept.items ≡ reduces) }
    ensures empty { IfOk result (λ kept. AllByRecursion (λ runs. runs ≡ []) kept.items) }
{
    let mut kept = Vec::new(alloc);
    for _ in 0..reduces {
        kept.push(KeptRuns::new(alloc))?;
    }
    Ok(kept)
}

// The runs of a split's pairs. It holds at most `RUN_LEN` pairs beside those of the present line.
pub fn kept_runs<J: Job>(
    alloc: Global,
    job: &J,
    number: u32,
    split: &[u8],
    reduces: u32,
) -> Result<Vec<KeptRuns>, UserFault>
    requires short { length split.now ≤ MAX_SPLIT_LEN }
    requires some { 0 < reduces }
    ensures pairs { let all = computation J.Key.cmp J.Key.codec J.Value.codec J.functions in
        IfOk result (λ kept. (ps : List (J.Key × J.Value)) × (pairs_of_split all number split.now ≡ Some ps) × Kept all reduces kept.items [] ps) }
    ensures refused { let all = computation J.Key.cmp J.Key.codec J.Value.codec J.functions in
        IfErr result (λ fault. RefusedIf fault (pairs_of_split all number split.now ≡ None)) }
{
    let mut kept = no_runs(alloc, reduces)?;
    let mut run = Vec::new(alloc);
    let mut line_no = 0u64;
    let mut rest = split;
    while !rest.is_empty() {
        let (line, after) = next_line(rest);
        let pairs = job.map(alloc, number, line_no, line)?;
        add_pairs(alloc, job, &mut kept, &mut run, pairs, reduces)?;
        line_no += 1;
        rest = after;
    }
    keep_run(alloc, job, &mut kept, run, reduces)?;
    Ok(kept)
}
