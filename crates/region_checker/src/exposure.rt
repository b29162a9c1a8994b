//! Reads of regions that are exposed: of elements that weren't written before.
ghost use Rattle.std.specs.Prelude.{◌≡◌, ◌↔◌, ◌<◌, length, replicate, slice_get, Contains, IsTrue, IfOk, Some, false};
ghost use Rattle.flow_graph.specs.Nodes.{graph_of};
ghost use Rattle.flow_graph.specs.declared.graph.Node as code;
ghost use Rattle.region_checker.specs.links.MarkPropagation.{IsMarked};
ghost use Rattle.region_checker.specs.links.ConflictSearch.{AreFitting, ForRegions, AreUnwritten, AreExposed, stops_of, AreReadAt};

use crate::locations::{reads, writes_same};
use crate::marks::spread;
use crate::paths::Regions;
use flow_graph::graph::{Graph, Node};
use ido_base::location::Location;
use ido_base::memory::OutOfMemory;
use std::alloc::Global;

/// Of each node whether it writes this very element.
fn stops(alloc: Global, nodes: &[Node], location: Location) -> Result<Vec<bool>, OutOfMemory>
    ensures { IfOk result (λ v. v.items ≡ stops_of location nodes.now) }
{
    Ok(
        nodes
            .iter()
            .map(|node| writes_same(node, location))
            .collect(alloc)?,
    )
}

/// Of each node whether a region leads to it in which the location, if it is a single element, wasn't written before.
pub(crate) fn unwritten(
    alloc: Global,
    graph: &Graph,
    regions: &Regions,
    location: Location,
) -> Result<Vec<bool>, OutOfMemory>
    requires { AreFitting graph.now.nodes.items regions.now }
    ensures unwritten { IfOk result (λ v. ForRegions (graph_of graph.now) regions.now (λ b. AreUnwritten (graph_of graph.now) b location v.items)) }
    ensures long { IfOk result (λ v. length v.items ≡ length graph.now.nodes.items) }
{
    let stops = stops(alloc, &graph.nodes, location)?;
    let begins = Vec::from_slice(alloc, &regions.begins)?;
    Ok(spread(begins, &regions.paths, &stops))
}

/// Whether the node is marked and reads the location.
fn is_read(nodes: &[Node], marks: &[bool], number: usize, location: Location) -> bool
    requires exists { number < length nodes.now }
    requires long { length marks.now ≡ length nodes.now }
    ensures { (x : code.Node) → slice_get nodes.now number ≡ Some x → IsTrue result ↔ (IsMarked marks.now number × Contains x.reads.items location) }
{
    marks[number] && reads(&nodes[number], location)
}

/// Of each node whether it is marked and reads the location.
fn read_at(
    alloc: Global,
    nodes: &[Node],
    marks: &[bool],
    location: Location,
) -> Result<Vec<bool>, OutOfMemory>
    requires { length marks.now ≡ length nodes.now }
    ensures { IfOk result (λ v. AreReadAt nodes.now marks.now location v.items) }
{
    let mut read = Vec::with_capacity(alloc, nodes.len())?;
    for number in 0..nodes.len() {
        read.push(is_read(nodes, marks, number, location))?;
    }
    Ok(read)
}

/// No node is marked.
pub(crate) fn none(alloc: Global, graph: &Graph) -> Result<Vec<bool>, OutOfMemory>
    ensures { IfOk result (λ v. v.items ≡ replicate (length graph.now.nodes.items) false) }
{
    Ok(vec![in alloc; false; graph.nodes.len()]?)
}

/// Of each node whether a region leads from a read of the location to it, before which the location wasn't written. The read may be its own.
pub(crate) fn exposed(
    alloc: Global,
    graph: &Graph,
    regions: &Regions,
    location: Location,
) -> Result<Vec<bool>, OutOfMemory>
    requires { AreFitting graph.now.nodes.items regions.now }
    ensures exposed { IfOk result (λ v. ForRegions (graph_of graph.now) regions.now (λ b. AreExposed (graph_of graph.now) b location v.items)) }
    ensures long { IfOk result (λ v. length v.items ≡ length graph.now.nodes.items) }
{
    let unwritten = unwritten(alloc, graph, regions, location)?;
    let read = read_at(alloc, &graph.nodes, &unwritten, location)?;
    let stops = none(alloc, graph)?;
    Ok(spread(read, &regions.paths, &stops))
}
