//! Single elements that nodes write.
ghost use Rattle.std.specs.Prelude.{◌↔◌, ◌<◌, IsTrue, length};
ghost use Rattle.flow_graph.specs.Nodes.{graph_of, node_of};
ghost use Rattle.memory_layout.specs.Variables.{elements_of};
ghost use Rattle.region_cutter.specs.Places.{WriteElements, WritesAnElement};

use flow_graph::graph::{Graph, Node};
use ido_base::location::Shape;

/// Whether there is that element.
fn has_element(shapes: &[Shape], variable: u32, element: u32) -> bool
    ensures { IsTrue result ↔ ((variable < length shapes.now) × (element < elements_of shapes.now variable)) }
{
    match shapes.get(variable as usize) {
        Some(shape) => element < shape.length,
        None => false,
    }
}

/// Whether there is the element that the node writes, if it writes one alone.
fn writes_an_element(shapes: &[Shape], node: &Node) -> bool
    ensures { IsTrue result ↔ WritesAnElement shapes.now (node_of node.now) }
{
    match node.writes {
        Some(written) => {
            if written.lo == written.hi {
                has_element(shapes, written.variable, written.lo)
            } else {
                true
            }
        }
        None => true,
    }
}

/// Whether each single element that a node writes exists, where these are the shapes of all variables. `cleaned_later` requires it.
pub fn write_elements(graph: &Graph, shapes: &[Shape]) -> bool
    ensures { IsTrue result ↔ WriteElements (graph_of graph.now) shapes.now }
{
    for node in &graph.nodes {
        if !writes_an_element(shapes, node) {
            return false;
        }
    }
    true
}
