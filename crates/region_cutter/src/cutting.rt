//! The boundaries of a graph.
ghost use Rattle.std.specs.Prelude.{IfOk};
ghost use Rattle.flow_graph.specs.Nodes.{graph_of};
ghost use Rattle.flow_graph.specs.IdempotentCuts.{AreCuts, IsMinimal, boundaries_of, AreAtWrites};
ghost use Rattle.region_cutter.specs.FewestCuts.{AreFewestCuts};

use crate::covered::none_covered;
use crate::marks::marks_of;
use crate::placing::few;
use crate::trying::take_away;
use flow_graph::cuts::Cuts;
use flow_graph::graph::Graph;
use ido_base::memory::OutOfMemory;
use std::alloc::Global;

/// Boundaries after each lock, before each unlock, and before those nodes that write where a region that went on would overwrite
/// what it has read. None of the latter can be taken away alone, and in straight code they are the fewest: no cut set has fewer there, and
/// of cut sets with as few none has its first later, or else its second, and so on.
pub fn cut(alloc: Global, graph: &Graph) -> Result<Cuts, OutOfMemory>
    ensures cuts { IfOk result (λ cuts. AreCuts (graph_of graph.now) (boundaries_of cuts)) }
    ensures minimal { IfOk result (λ cuts. IsMinimal (graph_of graph.now) (boundaries_of cuts)) }
    ensures fewest { IfOk result (λ cuts. AreFewestCuts (graph_of graph.now) (boundaries_of cuts)) }
    ensures places { IfOk result (λ cuts. AreAtWrites (graph_of graph.now) (boundaries_of cuts)) }
{
    let mut cuts = few(alloc, graph)?;
    let marks = marks_of(alloc, graph)?;
    let mut covered = none_covered(alloc, graph)?;
    while take_away(alloc, graph, &mut cuts, &marks, &mut covered)? {}
    Ok(cuts)
}
