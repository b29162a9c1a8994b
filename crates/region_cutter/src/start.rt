//! Boundaries after each lock, before each unlock and before each node that writes: none else is tried, and none of them is tried
//! where a section logs each write by itself.
ghost use Rattle.std.specs.Prelude.{◌≡◌, IfOk, map};
ghost use Rattle.flow_graph.specs.Nodes.{graph_of, node_of};
ghost use Rattle.flow_graph.specs.IdempotentCuts.{boundaries_of};
ghost use Rattle.region_cutter.specs.links.BoundaryTrials.{AreEverywhere, locks, may_stand, takes, unlocks};

use flow_graph::cuts::Cuts;
use flow_graph::graph::{Action, Graph, Node};
use ido_base::memory::OutOfMemory;
use std::alloc::Global;

/// Whether the node takes a mutex.
pub(crate) fn locks(node: &Node) -> bool
    ensures { result ≡ locks (node_of node.now).action }
{
    match node.action {
        Action::Lock { .. } => true,
        _ => false,
    }
}

/// Whether the node gives a mutex back.
pub(crate) fn unlocks(node: &Node) -> bool
    ensures { result ≡ unlocks (node_of node.now).action }
{
    match node.action {
        Action::Unlock { .. } => true,
        _ => false,
    }
}

/// Whether a boundary may stand before the node.
fn may_stand(node: &Node) -> bool
    ensures { result ≡ may_stand (node_of node.now) }
{
    unlocks(node) || node.writes.is_some()
}

fn before_each(alloc: Global, nodes: &[Node]) -> Result<Vec<bool>, OutOfMemory>
    ensures { IfOk result (λ before. before.items ≡ map may_stand (map node_of nodes.now)) }
{
    let mut before = Vec::with_capacity(alloc, nodes.len())?;
    for node in nodes {
        before.push(may_stand(node))?;
    }
    Ok(before)
}

fn after_each(alloc: Global, nodes: &[Node]) -> Result<Vec<bool>, OutOfMemory>
    ensures { IfOk result (λ after. after.items ≡ map takes (map node_of nodes.now)) }
{
    let mut after = Vec::with_capacity(alloc, nodes.len())?;
    for node in nodes {
        after.push(locks(node))?;
    }
    Ok(after)
}

/// Boundaries wherever they may stand.
pub(crate) fn everywhere(alloc: Global, graph: &Graph) -> Result<Cuts, OutOfMemory>
    ensures { IfOk result (λ cuts. AreEverywhere (graph_of graph.now) (boundaries_of cuts)) }
{
    let before = before_each(alloc, &graph.nodes)?;
    let after_lock = after_each(alloc, &graph.nodes)?;
    Ok(Cuts { before, after_lock })
}
