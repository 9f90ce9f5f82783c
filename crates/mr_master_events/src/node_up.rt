//! A node is up in some incarnation.
ghost use Rattle.std.specs.Prelude.{[], IfOk, if◌then◌else◌};
ghost use Rattle.mr_master_model.specs.Readings.{is_over};
ghost use Rattle.mr_master_model.specs.Hearing.{with_known, after_restart, after_node_up};
ghost use Rattle.mr_master_state.specs.Prepared.{KnowsThen, Plans};

use mr_master_state::mr_master_tables::{Gone, Nodes};
use mr_master_state::{Change, Machine, Prepared};
use std::alloc::AllocError;

// It is known in this incarnation from then on, if that is a greater one. While Running, the attempts that were
// launched there in a lower one end, and the outputs that lay there are lost.
pub fn prepare_node_up(
    master: &Machine,
    node: u32,
    incarnation: u32,
) -> Result<Prepared, AllocError>
    ensures { IfOk result (λ ready. Plans master.now ready (λ w s. []) (λ w s. if is_over s.work then s else after_node_up w s node incarnation)) }
{
    if master.work.is_over() {
        return Ok(Prepared::silent(master.alloc, Change::Nothing));
    }
    if incarnation <= master.nodes.incarnation(node) {
        return Ok(Prepared::silent(master.alloc, Change::Nothing));
    }
    let nodes = nodes_with(master, node, incarnation)?;
    if !master.work.is_running() {
        return Ok(prepare_known(master, node, incarnation, nodes));
    }
    prepare_restart(master, node, incarnation, nodes)
}

// The same while it is not: nothing ends with it.
fn prepare_known(master: &Machine, node: u32, incarnation: u32, nodes: Nodes) -> Prepared
    requires { KnowsThen master.now node incarnation nodes }
    ensures { Plans master.now result (λ w s. []) (λ w s. with_known s node incarnation) }
{
    let dead = Vec::new(master.alloc);
    let lost = Vec::new(master.alloc);
    Prepared::silent(
        master.alloc,
        Change::Knows {
            node,
            incarnation,
            nodes,
            dead,
            lost,
        },
    )
}

// The same while Running.
fn prepare_restart(
    master: &Machine,
    node: u32,
    incarnation: u32,
    nodes: Nodes,
) -> Result<Prepared, AllocError>
    requires { KnowsThen master.now node incarnation nodes }
    ensures { IfOk result (λ ready. Plans master.now ready (λ w s. []) (λ w s. with_known (after_restart w s node incarnation) node incarnation)) }
{
    let gone = Gone::Restarted(node, incarnation);
    let dead = master.all_gone(&gone)?;
    let lost = master.all_lost(&gone)?;
    Ok(Prepared::silent(
        master.alloc,
        Change::Knows {
            node,
            incarnation,
            nodes,
            dead,
            lost,
        },
    ))
}

// What is known of the nodes once this one is known in this incarnation.
fn nodes_with(master: &Machine, node: u32, incarnation: u32) -> Result<Nodes, AllocError>
    ensures { IfOk result (λ nodes. KnowsThen master.now node incarnation nodes) }
{
    let mut nodes = master.nodes.copy()?;
    nodes.note(node, incarnation)?;
    Ok(nodes)
}
