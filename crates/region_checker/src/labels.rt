//! Labels of straight code that show that there can't be fewer boundaries.
ghost use Rattle.std.specs.Prelude.{◌≡◌, ◌↔◌, ◌<◌, ◌≤◌, ◌-◌, suc, IfOk, IfErr, IsTrue, MatchOption, length};
ghost use Rattle.flow_graph.specs.Nodes.{graph_of};
ghost use Rattle.region_cutter.specs.FewestCuts.{AreLabels, IsStretch, NoneHasFewer};
ghost use Rattle.region_cutter.specs.links.RegionLimits.{AreSteps};
ghost use Rattle.region_checker.specs.Labels.{IsRefusedLabel};
ghost use Rattle.region_checker.specs.links.LabelSearch.{AreAllLevel, AreLevel, IsFirstEdge, IsFirstSteepTo};

use crate::error::{LabelError, Least};
use flow_graph::graph::Graph;
use region_cutter::limits;
use std::alloc::Global;

/// Whether the label is more than one greater than the other.
fn is_steep(label: usize, other: usize) -> bool
    ensures { IsTrue result ↔ (suc other < label) }
{
    label > other && label - other > 1
}

/// The first node after that one, up to its limit, whose label is more than one greater.
fn first_steep(labels: &[usize], first: usize, from: usize, limit: usize) -> Option<usize>
    requires from_first { first ≤ from }
    requires later { from < limit }
    requires labelled { limit - first < length labels.now }
    ensures { MatchOption result (AreLevel first labels.now from limit) (IsFirstSteepTo first labels.now from limit) }
{
    for before in from..limit {
        let to = before + 1;
        if is_steep(labels[to - first], labels[from - first]) {
            return Some(to);
        }
    }
    None
}

/// The least nodes, the first before the second, that may stand at the two ends of a region at whose end the label is more than one
/// greater, where these are the limits of all nodes.
fn first_edge(
    labels: &[usize],
    limits: &[usize],
    first: usize,
    past: usize,
) -> Option<(usize, usize)>
    requires labelled { length labels.now ≡ suc (past - first) }
    requires limits { AreSteps first past limits.now }
    ensures { MatchOption result (AreAllLevel first labels.now limits.now past) (λ edge. IsFirstEdge first past labels.now limits.now edge.0 edge.1) }
{
    for from in first..past {
        if let Some(to) = first_steep(labels, first, from, limits[from - first]) {
            return Some((from, to));
        }
    }
    None
}

/// Whether the labels of straight code's nodes and its end show that no cut set has fewer boundaries in it than these: whether the first
/// is 0, none that a region leads to is more than one greater, and the last is one more than the boundaries are. The first fault is told,
/// of regions the one that begins first, and of these the shortest. It takes a comparison for any two nodes that may be in one region,
/// beside the time that `limits` takes.
pub fn check_labels(
    alloc: Global,
    graph: &Graph,
    first: usize,
    past: usize,
    cuts: &[usize],
    labels: &[usize],
) -> Result<Least, LabelError>
    requires stretch { IsStretch (graph_of graph.now) first past }
    requires labelled { length labels.now ≡ suc (past - first) }
    ensures accepted { IfOk result (λ _. AreLabels (graph_of graph.now) first past (length cuts.now) labels.now) }
    ensures least { IfOk result (λ _. NoneHasFewer (graph_of graph.now) first past (length cuts.now)) }
    ensures refused { IfErr result (IsRefusedLabel (graph_of graph.now) first past (length cuts.now) labels.now) }
{
    if labels[0] != 0 {
        return Err(LabelError::Start);
    }
    let limits = limits(alloc, graph, first, past)?;
    if let Some((from, to)) = first_edge(labels, &limits, first, past) {
        return Err(LabelError::Edge { from, to });
    }
    let label = labels[past - first];
    if label != cuts.len() + 1 {
        return Err(LabelError::End {
            label,
            cuts: cuts.len(),
        });
    }
    Ok(Least)
}
