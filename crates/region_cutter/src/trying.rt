//! Trials: a boundary is taken away, and put back where regions could not be run again without it.
ghost use Rattle.std.specs.Prelude.{◌<◌, IfOk, length};
ghost use Rattle.flow_graph.specs.Nodes.{graph_of};
ghost use Rattle.flow_graph.specs.IdempotentCuts.{HasBefore, IsIdempotent, boundaries_of};
ghost use Rattle.region_cutter.specs.links.RemovalPaths.{AllAfter};
ghost use Rattle.region_cutter.specs.links.CoveredReads.{AreCovered};
ghost use Rattle.region_cutter.specs.links.NodeMarks.{AreMarks};
ghost use Rattle.region_cutter.specs.links.BoundaryTrials.{AreKept, IsTried, IsTrialPass};

use crate::local::is_idempotent_without;
use crate::marks::Marks;
use crate::start::unlocks;
use flow_graph::cuts::Cuts;
use flow_graph::graph::Graph;
use ido_base::memory::OutOfMemory;
use std::alloc::Global;

/// Takes the boundary before the node away, if regions can be run again without it. Whether it is gone.
fn try_without(
    alloc: Global,
    graph: &Graph,
    cuts: &mut Cuts,
    marks: &Marks,
    covered: &mut Vec<Vec<bool>>,
    node: usize,
) -> Result<bool, OutOfMemory>
    requires exists { node < length graph.now.nodes.items }
    requires marks { AreMarks (graph_of graph.now) marks.now }
    requires locks { AllAfter (graph_of graph.now) (boundaries_of cuts.old) }
    requires stands { HasBefore (boundaries_of cuts.old) node }
    requires idempotent { IsIdempotent (graph_of graph.now) (boundaries_of cuts.old) }
    requires covered { AreCovered (graph_of graph.now) (boundaries_of cuts.old) covered.old.items }
    ensures tried { IfOk result (λ taken. IsTried (graph_of graph.now) (boundaries_of cuts.old) (boundaries_of cuts.new) node taken) }
    ensures covered { IfOk result (λ _. AreCovered (graph_of graph.now) (boundaries_of cuts.new) covered.new.items) }
{
    cuts.before[node] = false;
    let taken = is_idempotent_without(alloc, graph, cuts, marks, covered, node)?;
    if !taken {
        cuts.before[node] = true;
    }
    Ok(taken)
}

/// Tries each boundary that stands by choice, in the order of the nodes: so on straight code those that are left stand as late
/// as they can. Whether any was taken away.
pub(crate) fn take_away(
    alloc: Global,
    graph: &Graph,
    cuts: &mut Cuts,
    marks: &Marks,
    covered: &mut Vec<Vec<bool>>,
) -> Result<bool, OutOfMemory>
    requires kept { AreKept (graph_of graph.now) (boundaries_of cuts.old) }
    requires marks { AreMarks (graph_of graph.now) marks.now }
    requires covered { AreCovered (graph_of graph.now) (boundaries_of cuts.old) covered.old.items }
    ensures pass { IfOk result (λ taken. IsTrialPass (graph_of graph.now) (boundaries_of cuts.old) (boundaries_of cuts.new)
        (length graph.now.nodes.items) taken) }
    ensures covered { IfOk result (λ _. AreCovered (graph_of graph.now) (boundaries_of cuts.new) covered.new.items) }
{
    let mut any = false;
    for (number, node) in graph.nodes.iter().enumerate() {
        if cuts.before[number] && !unlocks(node) {
            if try_without(alloc, graph, cuts, marks, covered, number)? {
                any = true;
            }
        }
    }
    Ok(any)
}
