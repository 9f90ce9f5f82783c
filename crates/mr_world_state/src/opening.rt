//! What stands before the first event: the staging folder, an empty history, nodes in their first incarnation, and no
//! master.
ghost use Rattle.std.specs.Prelude.{◌≡◌, IfOk};
ghost use Rattle.mr_names.specs.Calls as names;
ghost use Rattle.mr_names.specs.declared.op.Op.TheVariants as op;
ghost use Rattle.mr_world_model.specs.Ids.{dest, staged};
ghost use Rattle.mr_world_model.specs.Stored.{master};
ghost use Rattle.mr_world_model.specs.World.{opening_world};
ghost use Rattle.mr_world_state.specs.Histories.{opening_history};
ghost use Rattle.mr_world_state.specs.Standing.{Standing};

use crate::config::Config;
use crate::masters::Masters;
use crate::parts::Parts;
use mr_history::History;
use mr_ids::AppAttempt;
use mr_names::{Caller, Namespace};
use mr_packet::Bag;
use mr_paths::{Layout, Name, Path};
use mr_world_actors::{Living, Nodes, Shared};
use std::alloc::{AllocError, Global};

impl Parts {
    /// The parts of the opening world: the root and the staging folder, nodes that begin, and no master.
    pub fn new(alloc: Global, config: Config) -> Result<Parts, AllocError>
        ensures config { IfOk result (λ parts. parts.config ≡ config) }
        ensures history { IfOk result (λ parts. parts.history ≡ opening_history) }
        ensures opens { IfOk result (λ parts. Standing parts opening_world) }
    {
        let layout = open_layout(alloc)?;
        let names = share_names(alloc)?;
        let history = share_history(alloc)?;
        let nodes = Nodes::new(alloc, config.nodes, config.reduces)?;
        let shared = share_config(alloc, config)?;
        Ok(Parts {
            config: shared,
            layout,
            names,
            history,
            bag: Bag::new(alloc),
            masters: Masters::new(alloc),
            living: Living::new(alloc),
            nodes,
            launched: 0,
        })
    }
}

// The paths of the job's committer.
fn open_layout(alloc: Global) -> Result<Shared<Layout>, AllocError>
    ensures { IfOk result (λ layout. layout.dest ≡ dest) }
{
    let dest = destination(alloc)?;
    Shared::new(alloc, Layout { dest })
}

fn share_names(alloc: Global) -> Result<Shared<Namespace>, AllocError>
    ensures { IfOk result (λ opened. opened ≡ (names.call_of names.opening (master 1) (op.Mkdirs staged)).1) }
{
    let names = open_names(alloc)?;
    Shared::new(alloc, names)
}

fn share_history(alloc: Global) -> Result<Shared<History>, AllocError>
    ensures { IfOk result (λ history. history ≡ opening_history) }
{
    let history = open_history(alloc)?;
    Shared::new(alloc, history)
}

fn share_config(alloc: Global, config: Config) -> Result<Shared<Config>, AllocError>
    ensures { IfOk result (λ shared. shared ≡ config) }
{
    Shared::new(alloc, config)
}

// Where the job's output goes.
fn destination(alloc: Global) -> Result<Path, AllocError>
    ensures { IfOk result (λ path. path ≡ dest) }
{
    let mut path = Path::root(alloc);
    path.push(Name::new(alloc, "out".as_bytes())?)?;
    Ok(path)
}

// The folder in which masters leave marks for those that come after them.
fn staging_folder(alloc: Global) -> Result<Path, AllocError>
    ensures { IfOk result (λ path. path ≡ staged) }
{
    let mut path = Path::root(alloc);
    path.push(Name::new(alloc, "staging".as_bytes())?)?;
    Ok(path)
}

// A namespace with the root and the staging folder.
fn open_names(alloc: Global) -> Result<Namespace, AllocError>
    ensures { IfOk result (λ opened. opened ≡ (names.call_of names.opening (master 1) (op.Mkdirs staged)).1) }
{
    let staging = staging_folder(alloc)?;
    let mut opened = new_names(alloc)?;
    match opened.mkdirs(first_master(), &staging) {
        Ok(()) => Ok(opened),
        Err(fault) => Err(fault.wants_memory()),
    }
}

// The master of the first generation.
fn first_master() -> Caller
    ensures { result ≡ master 1 }
{
    Caller {
        app: AppAttempt::new(1).unwrap(),
        attempt: None,
    }
}

fn new_names(alloc: Global) -> Result<Namespace, AllocError>
    ensures { IfOk result (λ opened. opened ≡ names.opening) }
{
    match Namespace::new(alloc) {
        Ok(opened) => Ok(opened),
        Err(fault) => Err(fault.wants_memory()),
    }
}

fn open_history(alloc: Global) -> Result<History, AllocError>
    ensures { IfOk result (λ history. history ≡ opening_history) }
{
    match History::new(alloc) {
        Ok(history) => Ok(history),
        Err(fault) => Err(fault.wants_memory()),
    }
}
