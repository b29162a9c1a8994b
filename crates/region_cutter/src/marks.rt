//! What is known of a graph's nodes whatever boundaries stand before them.
ghost use Rattle.std.specs.Prelude.{◌≡◌, ◌↔◌, ◌<◌, [], ℕ, IfOk, OnOk, IsTrue, Some, false, length, replicate, slice_get};
ghost use Rattle.flow_graph.specs.Nodes.{graph_of, next_of, node_of, other_of};
ghost use Rattle.region_cutter.specs.links.NodeMarks.{AddsSource, AreNone, AreMarks, AreBegun, AreSources, IsAfterLock, IsAfterLockBelow};
ghost use Rattle.region_cutter.specs.links.GraphSearch.{IsSearchStep};

use crate::search::Search;
use crate::start::locks;
use flow_graph::graph::{Graph, Node};
use ido_base::memory::OutOfMemory;
use std::alloc::Global;

#[derive(Drop)]
pub(crate) struct Marks {
    /// Of each node those from which edges lead to it.
    pub(crate) sources: Vec<Vec<usize>>,
    /// Of each node whether it stands after one that takes a mutex.
    pub(crate) begun: Vec<bool>,
}

/// Notes an edge from the one node to the other, if there is that one.
fn add_source(
    sources: &mut Vec<Vec<usize>>,
    from: usize,
    to: Option<usize>,
) -> Result<(), OutOfMemory>
    ensures { OnOk result (AddsSource from to sources.old.items sources.new.items) }
{
    if let Some(to) = to {
        if to < sources.len() {
            sources[to].push(from)?;
        }
    }
    Ok(())
}

/// For each of so many nodes none.
fn no_sources(alloc: Global, nodes: usize) -> Result<Vec<Vec<usize>>, OutOfMemory>
    ensures { IfOk result (λ sources. AreNone nodes sources.items) }
{
    let mut sources = Vec::with_capacity(alloc, nodes)?;
    for _ in 0..nodes {
        sources.push(Vec::new(alloc))?;
    }
    Ok(sources)
}

/// Of each node those from which edges lead to it.
fn sources_of(alloc: Global, graph: &Graph) -> Result<Vec<Vec<usize>>, OutOfMemory>
    ensures { IfOk result (λ sources. AreSources (graph_of graph.now) sources.items) }
{
    let mut sources = no_sources(alloc, graph.nodes.len())?;
    for number in 0..graph.nodes.len() {
        let node = &graph.nodes[number];
        add_source(&mut sources, number, node.next())?;
        add_source(&mut sources, number, node.other())?;
    }
    Ok(sources)
}

/// The node, if the one before it takes a mutex.
fn if_taken(takes: bool, to: Option<usize>) -> Option<usize>
    ensures { (node : ℕ) → (result ≡ Some node) ↔ ((to ≡ Some node) × IsTrue takes) }
{
    if takes { to } else { None }
}

/// Comes to the nodes after this one, if it takes a mutex.
fn come_after_lock(
    graph: &Graph,
    search: &mut Search,
    number: usize,
    node: &Node,
) -> Result<(), OutOfMemory>
    requires { slice_get graph.now.nodes.items number ≡ Some node.now }
    ensures { OnOk result (IsSearchStep (IsAfterLock (graph_of graph.now) number) search.old.seen.items search.old.waiting.items search.new.seen.items
        search.new.waiting.items) }
{
    let takes = locks(node);
    search.come_to_any(if_taken(takes, node.next()))?;
    search.come_to_any(if_taken(takes, node.other()))?;
    Ok(())
}

fn begun(alloc: Global, graph: &Graph) -> Result<Vec<bool>, OutOfMemory>
    ensures { IfOk result (λ begun. AreBegun (graph_of graph.now) begun.items) }
{
    let mut search = Search::nowhere(alloc, graph.nodes.len())?;
    for (number, node) in graph.nodes.iter().enumerate() {
        come_after_lock(graph, &mut search, number, node)?;
    }
    let Search { seen, waiting: _ } = search;
    Ok(seen)
}

/// The marks of all nodes.
pub(crate) fn marks_of(alloc: Global, graph: &Graph) -> Result<Marks, OutOfMemory>
    ensures { IfOk result (λ marks. AreMarks (graph_of graph.now) marks) }
{
    let sources = sources_of(alloc, graph)?;
    let begun = begun(alloc, graph)?;
    Ok(Marks { sources, begun })
}
