//! Whether regions can be run again.
ghost use Rattle.std.specs.Prelude.{◌↔◌, ℕ, IfOk, IsTrue};
ghost use Rattle.flow_graph.specs.Nodes.{graph_of};
ghost use Rattle.flow_graph.specs.IdempotentCuts.{HasBoundaryAfter, IsIdempotent, IsLock, boundaries_of};

use crate::local::overwrites_read;
use crate::marks::marks_of;
use flow_graph::cuts::Cuts;
use flow_graph::graph::Graph;
use ido_base::memory::OutOfMemory;
use std::alloc::Global;

/// Whether each region may be run again, where boundaries stand after all locks: whether none overwrites what it has read, unless it
/// had written it before it read it. For each node that reads it looks at what the region writes after it, and goes back from it for each
/// location that it reads and that may be among these.
pub fn is_idempotent(alloc: Global, graph: &Graph, cuts: &Cuts) -> Result<bool, OutOfMemory>
    requires { (node : ℕ) → IsLock (graph_of graph.now) node → HasBoundaryAfter (graph_of graph.now) (boundaries_of cuts.now) node }
    ensures { IfOk result (λ yes. IsTrue yes ↔ IsIdempotent (graph_of graph.now) (boundaries_of cuts.now)) }
{
    let marks = marks_of(alloc, graph)?;
    for (number, node) in graph.nodes.iter().enumerate() {
        if overwrites_read(alloc, graph, cuts, &marks, number, node)? {
            return Ok(false);
        }
    }
    Ok(true)
}
