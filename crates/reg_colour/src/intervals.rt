//! The interval of each local of a thread: from the first node that touches it to the last one.
ghost use Rattle.std.specs.Prelude.{◌≡◌, ◌⊎◌, ◌↔◌, length, IfOk, IsTrue, MatchOption};
ghost use Rattle.flow_graph.specs.Nodes.{graph_of};
ghost use Rattle.flow_graph.specs.Liveness.{IsLive, IsAssigned};
ghost use Rattle.flow_graph.specs.LocalSets.{AreLive};
ghost use Rattle.reg_colour.specs.links.Intervals.{IsUnassigned, IsFirstTouched, IsLastTouched, IsIntervalOf, AreIntervals, IsInInterval, IsBegun, AreHolding};

use flow_graph::graph::{Graph, Part};
use flow_graph::live_sets::LiveSets;
use ido_base::memory::OutOfMemory;
use std::alloc::Global;

/// The nodes from `first` up to `end`, without `end`.
#[derive(Clone, Copy)]
pub(crate) struct Interval {
    pub first: usize,
    pub end: usize,
}

/// Whether the interval, if there is one, holds the node.
fn is_in(interval: Option<Interval>, node: usize) -> bool
    ensures { IsTrue result ↔ IsInInterval interval node }
{
    match interval {
        Some(interval) => interval.first <= node && node < interval.end,
        None => false,
    }
}

/// The end of the interval, if there is one and it begins at the node.
pub(crate) fn end_from(interval: Option<Interval>, node: usize) -> Option<usize>
    ensures { IsBegun interval node result }
{
    match interval {
        Some(interval) => {
            if interval.first == node {
                Some(interval.end)
            } else {
                None
            }
        }
        None => None,
    }
}

/// Whether the node assigns the local.
fn is_assigned(graph: &Graph, node: usize, local: usize) -> bool
    ensures { IsTrue result ↔ IsAssigned (graph_of graph.now) local node }
{
    if node < graph.nodes.len() {
        match graph.nodes[node].assigns {
            Some(assigned) => assigned as usize == local,
            None => false,
        }
    } else {
        false
    }
}

/// Whether the local is live at the node's entry, or the node assigns it.
fn is_touched(graph: &Graph, live: &LiveSets, node: usize, local: usize) -> bool
    requires { AreLive (graph_of graph.now) live.now }
    ensures { IsTrue result ↔ (IsLive (graph_of graph.now) local node ⊎ IsAssigned (graph_of graph.now) local node) }
{
    live.is_live(node, local) || is_assigned(graph, node, local)
}

/// The first node of the thread that touches the local.
fn first_touched(graph: &Graph, live: &LiveSets, part: Part, local: usize) -> Option<usize>
    requires { AreLive (graph_of graph.now) live.now }
    ensures { MatchOption result (IsUnassigned (graph_of graph.now) part local) (IsFirstTouched (graph_of graph.now) part local) }
{
    for node in part.first..part.end {
        if is_touched(graph, live, node, local) {
            return Some(node);
        }
    }
    None
}

/// The last node of the thread that touches the local.
fn last_touched(graph: &Graph, live: &LiveSets, part: Part, local: usize) -> Option<usize>
    requires { AreLive (graph_of graph.now) live.now }
    ensures { MatchOption result (IsUnassigned (graph_of graph.now) part local) (IsLastTouched (graph_of graph.now) part local) }
{
    for node in (part.first..part.end).rev() {
        if is_touched(graph, live, node, local) {
            return Some(node);
        }
    }
    None
}

/// The local's interval. One that no node touches has none.
fn interval_of(graph: &Graph, live: &LiveSets, part: Part, local: usize) -> Option<Interval>
    requires { AreLive (graph_of graph.now) live.now }
    ensures { IsIntervalOf (graph_of graph.now) part local result }
{
    let first = first_touched(graph, live, part, local)?;
    let last = last_touched(graph, live, part, local)?;
    Some(Interval {
        first,
        end: last + 1,
    })
}

/// The intervals of so many locals of the thread.
pub(crate) fn intervals(
    alloc: Global,
    graph: &Graph,
    live: &LiveSets,
    part: Part,
    locals: usize,
) -> Result<Vec<Option<Interval>>, OutOfMemory>
    requires { AreLive (graph_of graph.now) live.now }
    ensures count { IfOk result (λ all. length all.items ≡ locals) }
    ensures each { IfOk result (λ all. AreIntervals (graph_of graph.now) part all.items) }
{
    let mut all = Vec::new(alloc);
    for local in 0..locals {
        all.push(interval_of(graph, live, part, local))?;
    }
    Ok(all)
}

/// How many of the intervals hold the node.
pub(crate) fn holding(intervals: &[Option<Interval>], node: usize) -> usize
    ensures { AreHolding intervals.now node result }
{
    let mut count = 0;
    for interval in intervals {
        if is_in(*interval, node) {
            count += 1;
        }
    }
    count
}
