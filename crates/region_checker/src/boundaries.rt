//! Boundaries that stand, and those that are missing.
ghost use Rattle.std.specs.Prelude.{◌≡◌, ◌↔◌, ◌<◌, length, slice_get, IsTrue, MatchBool, MatchOption, Some, true};
ghost use Rattle.flow_graph.specs.Nodes.{node_of, graph_of};
ghost use Rattle.flow_graph.specs.IdempotentCuts.{boundaries_of, HasBefore, HasBoundaryAfter};
ghost use Rattle.region_checker.specs.Conflicts.{AreThere, LacksAfter, LacksBefore};
ghost use Rattle.region_checker.specs.links.ConflictSearch.{is_lock, is_unlock, IsFirstMissing, Misses};

use crate::error::CheckError;
use flow_graph::cuts::Cuts;
use flow_graph::graph::{Action, Graph, Node};

/// Whether a boundary stands at the node.
fn stands(flags: &[bool], node: usize) -> bool
    ensures { IsTrue result ↔ (slice_get flags.now node ≡ Some true) }
{
    match flags.get(node) {
        Some(stands) => *stands,
        None => false,
    }
}

fn is_lock(node: &Node) -> bool
    ensures { result ≡ is_lock (node_of node.now).action }
{
    match node.action {
        Action::Lock { .. } => true,
        _ => false,
    }
}

fn is_unlock(node: &Node) -> bool
    ensures { result ≡ is_unlock (node_of node.now).action }
{
    match node.action {
        Action::Unlock { .. } => true,
        _ => false,
    }
}

/// Whether a boundary stands before the node.
pub(crate) fn has_before(cuts: &Cuts, node: usize) -> bool
    ensures { IsTrue result ↔ HasBefore (boundaries_of cuts.now) node }
{
    stands(&cuts.before, node)
}

/// Whether the node takes a mutex and a boundary stands after it.
pub(crate) fn has_after(graph: &Graph, cuts: &Cuts, number: usize) -> bool
    ensures { IsTrue result ↔ HasBoundaryAfter (graph_of graph.now) (boundaries_of cuts.now) number }
{
    match graph.nodes.get(number) {
        Some(node) => is_lock(node) && stands(&cuts.after_lock, number),
        None => false,
    }
}

/// Whether the node takes a mutex and no boundary stands after it.
fn lacks_after(graph: &Graph, cuts: &Cuts, number: usize) -> bool
    requires { number < length graph.now.nodes.items }
    ensures { MatchBool result (LacksAfter (graph_of graph.now) (boundaries_of cuts.now) number)
        (¬ (LacksAfter (graph_of graph.now) (boundaries_of cuts.now) number)) }
{
    is_lock(&graph.nodes[number]) && !stands(&cuts.after_lock, number)
}

/// Whether the node gives a mutex back and no boundary stands before it.
fn lacks_before(graph: &Graph, cuts: &Cuts, number: usize) -> bool
    requires { number < length graph.now.nodes.items }
    ensures { MatchBool result (LacksBefore (graph_of graph.now) (boundaries_of cuts.now) number)
        (¬ (LacksBefore (graph_of graph.now) (boundaries_of cuts.now) number)) }
{
    is_unlock(&graph.nodes[number]) && !stands(&cuts.before, number)
}

/// The boundary that the node lacks.
fn missing_at(graph: &Graph, cuts: &Cuts, number: usize) -> Option<CheckError>
    requires { number < length graph.now.nodes.items }
    ensures { Misses (graph_of graph.now) (boundaries_of cuts.now) number result }
{
    if lacks_after(graph, cuts, number) {
        Some(CheckError::MissingAfterAcquire { node: number })
    } else if lacks_before(graph, cuts, number) {
        Some(CheckError::MissingBeforeRelease { node: number })
    } else {
        None
    }
}

/// The first boundary that is missing.
pub(crate) fn missing(graph: &Graph, cuts: &Cuts) -> Option<CheckError>
    ensures { MatchOption result (AreThere (graph_of graph.now) (boundaries_of cuts.now)) (IsFirstMissing (graph_of graph.now) (boundaries_of cuts.now)) }
{
    for number in 0..graph.nodes.len() {
        if let Some(error) = missing_at(graph, cuts, number) {
            return Some(error);
        }
    }
    None
}
