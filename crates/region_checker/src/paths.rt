//! Where regions begin, and how they go on.
ghost use Rattle.std.specs.Prelude.{◌≡◌, ◌↔◌, ◌<◌, ℕ, length, IfOk, Some};
ghost use Rattle.flow_graph.specs.Nodes.{graph_of};
ghost use Rattle.flow_graph.specs.IdempotentCuts.{boundaries_of, HasBefore, HasBoundaryAfter, IsEdge};
ghost use Rattle.region_checker.specs.links.MarkPropagation.{IsMarked, IsOn, ArePaths, IsInnerEdge};
ghost use Rattle.region_checker.specs.links.ConflictSearch.{AreRegions, AreBegun, AreFitting};

use crate::boundaries::{has_after, has_before};
use crate::marks::mark;
use flow_graph::cuts::Cuts;
use flow_graph::graph::Graph;
use ido_base::memory::OutOfMemory;
use std::alloc::Global;

/// The nodes after a node to which no boundary leads.
#[derive(Clone, Copy, Drop)]
pub(crate) struct Path {
    pub(crate) next: Option<usize>,
    pub(crate) other: Option<usize>,
}

/// Where regions begin, and the paths from each node inside them.
#[derive(Drop)]
pub(crate) struct Regions {
    pub(crate) paths: Vec<Path>,
    pub(crate) begins: Vec<bool>,
}

/// The node, if no boundary stands before it.
fn inside(cuts: &Cuts, to: Option<usize>) -> Option<usize>
    ensures { (node : ℕ) → (result ≡ Some node) ↔ ((to ≡ Some node) × ¬ (HasBefore (boundaries_of cuts.now) node)) }
{
    match to {
        Some(number) => {
            if has_before(cuts, number) {
                None
            } else {
                Some(number)
            }
        }
        None => None,
    }
}

/// The paths from a node.
fn paths_of(graph: &Graph, cuts: &Cuts, number: usize) -> Path
    requires { number < length graph.now.nodes.items }
    ensures { (to : ℕ) → IsOn result to ↔ IsInnerEdge (graph_of graph.now) (boundaries_of cuts.now) number to }
{
    let node = &graph.nodes[number];
    if has_after(graph, cuts, number) {
        Path {
            next: None,
            other: None,
        }
    } else {
        Path {
            next: inside(cuts, node.next()),
            other: inside(cuts, node.other()),
        }
    }
}

/// The paths from all nodes.
fn paths(alloc: Global, graph: &Graph, cuts: &Cuts) -> Result<Vec<Path>, OutOfMemory>
    ensures { IfOk result (λ paths. ArePaths (graph_of graph.now) (boundaries_of cuts.now) paths.items) }
{
    let mut paths = Vec::with_capacity(alloc, graph.nodes.len())?;
    for number in 0..graph.nodes.len() {
        paths.push(paths_of(graph, cuts, number))?;
    }
    Ok(paths)
}

/// The node, if a boundary stands before it.
fn begun_before(cuts: &Cuts, number: usize) -> Option<usize>
    ensures { (n : ℕ) → (result ≡ Some n) ↔ ((n ≡ number) × HasBefore (boundaries_of cuts.now) n) }
{
    if has_before(cuts, number) {
        Some(number)
    } else {
        None
    }
}

/// The next node, if a boundary stands between.
fn begun_after(graph: &Graph, cuts: &Cuts, number: usize) -> Option<usize>
    requires { number < length graph.now.nodes.items }
    ensures { (n : ℕ) → (result ≡ Some n) ↔ (HasBoundaryAfter (graph_of graph.now) (boundaries_of cuts.now) number × IsEdge (graph_of graph.now) number n) }
{
    if has_after(graph, cuts, number) {
        graph.nodes[number].next()
    } else {
        None
    }
}

/// Marks the nodes where regions begin.
fn mark_begins(begins: &mut [bool], graph: &Graph, cuts: &Cuts)
    requires none { (n : ℕ) → ¬ (IsMarked begins.old n) }
    requires long { length begins.old ≡ length graph.now.nodes.items }
    ensures { AreBegun (graph_of graph.now) (boundaries_of cuts.now) begins.new }
{
    for number in 0..graph.nodes.len() {
        mark(begins, begun_before(cuts, number));
        mark(begins, begun_after(graph, cuts, number));
    }
}

/// Of each node whether a region begins there.
fn begins(alloc: Global, graph: &Graph, cuts: &Cuts) -> Result<Vec<bool>, OutOfMemory>
    ensures { IfOk result (λ begins. AreBegun (graph_of graph.now) (boundaries_of cuts.now) begins.items) }
{
    let mut begins = vec![in alloc; false; graph.nodes.len()]?;
    mark_begins(&mut begins, graph, cuts);
    Ok(begins)
}

/// The regions of the graph between its boundaries.
pub(crate) fn regions_of(alloc: Global, graph: &Graph, cuts: &Cuts) -> Result<Regions, OutOfMemory>
    ensures are { IfOk result (λ r. AreRegions (graph_of graph.now) (boundaries_of cuts.now) r.paths.items r.begins.items) }
    ensures fit { IfOk result (λ r. AreFitting graph.now.nodes.items r) }
{
    let paths = paths(alloc, graph, cuts)?;
    let begins = begins(alloc, graph, cuts)?;
    Ok(Regions { paths, begins })
}
