//! Stores that overwrite what their region has read.
ghost use Rattle.std.specs.Prelude.{◌≡◌, ◌↔◌, ◌<◌, ℕ, length, IfOk, IsTrue, Some};
ghost use Rattle.flow_graph.specs.Nodes.{graph_of};
ghost use Rattle.flow_graph.specs.IdempotentCuts.{Boundaries};
ghost use Rattle.region_checker.specs.links.MarkPropagation.{IsOn};
ghost use Rattle.region_checker.specs.links.ConflictSearch.{AreFitting, ForRegions, WritesOver, IsOver, IsHit, IsHitSome, ExposesOver};
ghost use Rattle.region_checker.specs.links.ConflictSearch.{IsExposedAt, LeadsToStore, HitsAny, IsPastMarked, IsAfterAt, IsLeastOf, lesser};

use crate::exposure::{exposed, none, unwritten};
use crate::locations::{all_read, writes_over};
use crate::marks::{mark, spread};
use crate::paths::{Path, Regions};
use flow_graph::graph::Graph;
use ido_base::location::Location;
use ido_base::memory::OutOfMemory;
use std::alloc::Global;

/// Whether the node may write one of these elements.
fn is_over(graph: &Graph, number: usize, location: Location) -> bool
    ensures { IsTrue result ↔ WritesOver (graph_of graph.now) location number }
{
    match graph.nodes.get(number) {
        Some(node) => writes_over(node, location),
        None => false,
    }
}

/// The node, if there is that one and it may write one of these elements.
fn over(graph: &Graph, node: Option<usize>, location: Location) -> Option<usize>
    ensures { IsLeastOf (IsOver (graph_of graph.now) location (λ k. node ≡ Some k)) result }
{
    match node {
        Some(number) => {
            if is_over(graph, number, location) {
                Some(number)
            } else {
                None
            }
        }
        None => None,
    }
}

/// The lesser one, if any.
fn earlier(one: Option<usize>, other: Option<usize>) -> Option<usize>
    ensures { result ≡ lesser one other }
{
    match (one, other) {
        (Some(x), Some(y)) => Some(if x <= y { x } else { y }),
        (Some(x), None) => Some(x),
        (None, y) => y,
    }
}

/// The first node to which these paths lead that may write one of these elements.
fn first_on(graph: &Graph, path: &Path, location: Location) -> Option<usize>
    ensures { IsLeastOf (IsOver (graph_of graph.now) location (IsOn path.now)) result }
{
    earlier(
        over(graph, path.next, location),
        over(graph, path.other, location),
    )
}

/// The first node after the one of this number, if it is marked, that may write one of these elements.
fn first_from(
    graph: &Graph,
    paths: &[Path],
    marks: &[bool],
    number: usize,
    location: Location,
) -> Option<usize>
    requires exists { number < length paths.now }
    requires long { length marks.now ≡ length paths.now }
    ensures { IsLeastOf (IsOver (graph_of graph.now) location (IsAfterAt paths.now marks.now number)) result }
{
    if marks[number] {
        first_on(graph, &paths[number], location)
    } else {
        None
    }
}

/// The first node after a marked one that may write one of these elements.
fn first_after(graph: &Graph, paths: &[Path], marks: &[bool], location: Location) -> Option<usize>
    requires { length marks.now ≡ length paths.now }
    ensures { IsLeastOf (IsOver (graph_of graph.now) location (IsPastMarked paths.now marks.now)) result }
{
    let mut first = None;
    for number in 0..paths.len() {
        first = earlier(first, first_from(graph, paths, marks, number, location));
    }
    first
}

/// The first store over this location, if it was read before in its region.
fn first_hit(
    alloc: Global,
    graph: &Graph,
    regions: &Regions,
    location: Location,
) -> Result<Option<usize>, OutOfMemory>
    requires { AreFitting graph.now.nodes.items regions.now }
    ensures { IfOk result (λ store. ForRegions (graph_of graph.now) regions.now (λ b. IsLeastOf (IsHit (graph_of graph.now) b location) store)) }
{
    let exposed = exposed(alloc, graph, regions, location)?;
    Ok(first_after(graph, &regions.paths, &exposed, location))
}

/// The first store over anything that was read before in its region.
pub(crate) fn first_store(
    alloc: Global,
    graph: &Graph,
    regions: &Regions,
) -> Result<Option<usize>, OutOfMemory>
    requires { AreFitting graph.now.nodes.items regions.now }
    ensures { IfOk result (λ store. ForRegions (graph_of graph.now) regions.now (λ b. IsLeastOf (IsHitSome (graph_of graph.now) b) store)) }
{
    let locations = all_read(alloc, graph)?;
    let mut first = None;
    for location in &locations {
        first = earlier(first, first_hit(alloc, graph, regions, *location)?);
    }
    Ok(first)
}

/// Whether one of the paths leads to the node.
fn leads_to(path: &Path, node: usize) -> bool
    ensures { IsTrue result ↔ IsOn path.now node }
{
    path.next == Some(node) || path.other == Some(node)
}

/// Whether a path leads from a marked node to the given one.
fn is_after(paths: &[Path], marks: &[bool], node: usize) -> bool
    requires { length marks.now ≡ length paths.now }
    ensures { IsTrue result ↔ IsPastMarked paths.now marks.now node }
{
    for (number, path) in paths.iter().enumerate() {
        if marks[number] && leads_to(path, node) {
            return true;
        }
    }
    false
}

/// Whether a region leads from the one node to the other.
fn follows(
    alloc: Global,
    graph: &Graph,
    regions: &Regions,
    read: usize,
    store: usize,
) -> Result<bool, OutOfMemory>
    requires fit { AreFitting graph.now.nodes.items regions.now }
    requires exists { read < length graph.now.nodes.items }
    ensures { IfOk result (λ yes. ForRegions (graph_of graph.now) regions.now (λ b. IsTrue yes ↔ LeadsToStore (graph_of graph.now) b (λ n. n ≡ read) store)) }
{
    let mut marks = none(alloc, graph)?;
    let stops = none(alloc, graph)?;
    mark(&mut marks, Some(read));
    let followed = spread(marks, &regions.paths, &stops);
    Ok(is_after(&regions.paths, &followed, store))
}

/// Whether a region leads to the one node in which the location wasn't written, and the other node may write over it.
fn exposes_at(
    alloc: Global,
    graph: &Graph,
    regions: &Regions,
    read: usize,
    store: usize,
    location: Location,
) -> Result<bool, OutOfMemory>
    requires fit { AreFitting graph.now.nodes.items regions.now }
    requires exists { read < length graph.now.nodes.items }
    ensures { IfOk result (λ yes. ForRegions (graph_of graph.now) regions.now (λ b. IsTrue yes ↔ IsExposedAt (graph_of graph.now) b read store location)) }
{
    if !is_over(graph, store, location) {
        return Ok(false);
    }
    let marks = unwritten(alloc, graph, regions, location)?;
    Ok(marks[read])
}

/// Whether the one node reads elements that the other may write over, and in a region that leads to it they weren't written before.
fn exposes_over(
    alloc: Global,
    graph: &Graph,
    regions: &Regions,
    read: usize,
    store: usize,
) -> Result<bool, OutOfMemory>
    requires fit { AreFitting graph.now.nodes.items regions.now }
    requires exists { read < length graph.now.nodes.items }
    ensures { IfOk result (λ yes. ForRegions (graph_of graph.now) regions.now (λ b. IsTrue yes ↔ ExposesOver (graph_of graph.now) b read store)) }
{
    for location in &graph.nodes[read].reads {
        if exposes_at(alloc, graph, regions, read, store, *location)? {
            return Ok(true);
        }
    }
    Ok(false)
}

/// Whether the one node reads what the other overwrites in the same region.
fn conflict(
    alloc: Global,
    graph: &Graph,
    regions: &Regions,
    read: usize,
    store: usize,
) -> Result<bool, OutOfMemory>
    requires fit { AreFitting graph.now.nodes.items regions.now }
    requires exists { read < length graph.now.nodes.items }
    ensures { IfOk result (λ yes. ForRegions (graph_of graph.now) regions.now (λ b. IsTrue yes ↔ HitsAny (graph_of graph.now) b read store)) }
{
    Ok(
        exposes_over(alloc, graph, regions, read, store)?
            && follows(alloc, graph, regions, read, store)?,
    )
}

/// The first node that reads what the store overwrites in the same region.
pub(crate) fn first_read(
    alloc: Global,
    graph: &Graph,
    regions: &Regions,
    store: usize,
) -> Result<Option<usize>, OutOfMemory>
    requires { AreFitting graph.now.nodes.items regions.now }
    ensures { IfOk result (λ read. ForRegions (graph_of graph.now) regions.now (λ b. IsLeastOf (λ n. HitsAny (graph_of graph.now) b n store) read)) }
{
    for read in 0..graph.nodes.len() {
        if conflict(alloc, graph, regions, read, store)? {
            return Ok(Some(read));
        }
    }
    Ok(None)
}
