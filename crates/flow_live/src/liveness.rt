//! Live locals.
ghost use Rattle.std.specs.Prelude.{IfOk};
ghost use Rattle.flow_graph.specs.Nodes.{graph_of};
ghost use Rattle.flow_graph.specs.LocalSets.{AreLive};

use crate::passes::add_both_ways;
use crate::reading::{greatest_read, read_by_each};
use flow_graph::graph::Graph;
use flow_graph::live_sets::LiveSets;
use flow_graph::local_set::LocalSet;
use ido_base::memory::OutOfMemory;
use std::alloc::Global;

/// Of each node the locals that are live at its entry: those that a path from it reads before it assigns them.
pub fn live(alloc: Global, graph: &Graph) -> Result<LiveSets, OutOfMemory>
    ensures { IfOk result (AreLive (graph_of graph.now)) }
{
    let most = greatest_read(&graph.nodes);
    let mut sets = read_by_each(alloc, &graph.nodes, most)?;
    let mut coming = LocalSet::none(alloc, most)?;
    while add_both_ways(&mut sets, &graph.nodes, &mut coming) {}
    Ok(LiveSets::new(sets))
}
