//! The elements that nodes read and write.
ghost use Rattle.std.specs.Prelude.{◌≡◌, ◌↔◌, ℕ, length, Contains, IfOk, IsTrue};
ghost use Rattle.flow_graph.specs.Nodes.{graph_of, node_of};
ghost use Rattle.region_checker.specs.links.ConflictSearch.{AreAllRead, IsAdded, writes_same, writes_over};
ghost use Rattle.ido_base.specs.declared.location.Location.{Location};

use flow_graph::graph::{Graph, Node};
use ido_base::location::{Location, overlap, same};
use ido_base::memory::OutOfMemory;
use std::alloc::Global;

/// Whether both are the same elements.
fn equal(a: Location, b: Location) -> bool
    ensures { IsTrue result ↔ (a ≡ b) }
{
    a == b
}

/// Whether the location is among these.
fn is_among(locations: &[Location], location: Location) -> bool
    ensures { IsTrue result ↔ Contains locations.now location }
{
    for other in locations {
        if equal(*other, location) {
            return true;
        }
    }
    false
}

/// Whether the node reads these elements.
pub(crate) fn reads(node: &Node, location: Location) -> bool
    ensures { IsTrue result ↔ Contains node.now.reads.items location }
{
    is_among(&node.reads, location)
}

/// Whether the node may write one of these elements.
pub(crate) fn writes_over(node: &Node, location: Location) -> bool
    ensures { result ≡ writes_over location node.now.writes }
{
    match node.writes {
        Some(written) => overlap(written, location),
        None => false,
    }
}

/// Whether the location is a single element and the node writes it.
pub(crate) fn writes_same(node: &Node, location: Location) -> bool
    ensures { result ≡ writes_same location node.now.writes }
{
    match node.writes {
        Some(written) => same(written, location),
        None => false,
    }
}

/// Adds the location, if it isn't there.
fn add(locations: &mut Vec<Location>, location: Location) -> Result<(), OutOfMemory>
    ensures { IfOk result (λ _. IsAdded locations.old.items locations.new.items location) }
{
    if is_among(locations, location) {
        return Ok(());
    }
    locations.push(location)?;
    Ok(())
}

/// Adds the locations that are read to those that are there.
fn add_read(locations: &mut Vec<Location>, reads: &[Location]) -> Result<(), OutOfMemory>
    ensures keeps { IfOk result (λ _. (x : Location) → Contains locations.old.items x → Contains locations.new.items x) }
    ensures adds { IfOk result (λ _. (x : Location) → Contains reads.now x → Contains locations.new.items x) }
{
    for read in reads {
        add(locations, *read)?;
    }
    Ok(())
}

/// The locations that nodes of the graph read, each once.
pub(crate) fn all_read(alloc: Global, graph: &Graph) -> Result<Vec<Location>, OutOfMemory>
    ensures { IfOk result (λ locations. AreAllRead (graph_of graph.now) locations.items) }
{
    let mut locations = Vec::new(alloc);
    for node in &graph.nodes {
        add_read(&mut locations, &node.reads)?;
    }
    Ok(locations)
}
