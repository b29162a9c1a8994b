//! Reads that are known to be of what their regions have written before. They stay so as boundaries are taken away.
ghost use Rattle.std.specs.Prelude.{◌↔◌, IfOk, IsTrue};
ghost use Rattle.flow_graph.specs.Nodes.{graph_of};
ghost use Rattle.region_cutter.specs.links.CoveredReads.{AreUnflagged, Flags, IsFlagged, Notes};

use crate::cleaning::stands;
use flow_graph::graph::Graph;
use ido_base::memory::OutOfMemory;
use std::alloc::Global;

/// A read of a node, by the numbers of both.
#[derive(Clone, Copy, Drop)]
pub(crate) struct Read {
    pub(crate) node: usize,
    pub(crate) number: usize,
}

/// Of each read that it isn't known.
pub(crate) fn none_covered(alloc: Global, graph: &Graph) -> Result<Vec<Vec<bool>>, OutOfMemory>
    ensures { IfOk result (λ covered. AreUnflagged (graph_of graph.now) covered.items) }
{
    let mut covered = Vec::with_capacity(alloc, graph.nodes.len())?;
    for node in &graph.nodes {
        covered.push(vec![in alloc; false; node.reads.len()]?)?;
    }
    Ok(covered)
}

/// Whether it is known of the read.
pub(crate) fn is_covered(covered: &[Vec<bool>], read: Read) -> bool
    ensures { IsTrue result ↔ IsFlagged covered.now read }
{
    match covered.get(read.node) {
        Some(flags) => stands(flags, read.number),
        None => false,
    }
}

/// Notes it of the read.
fn flag(covered: &mut Vec<Vec<bool>>, read: Read)
    ensures { Flags read covered.old.items covered.new.items }
{
    if read.node >= covered.len() {
        return;
    }
    if read.number >= covered[read.node].len() {
        return;
    }
    covered[read.node][read.number] = true;
}

/// Notes it of those that were found: of all, or of those whose nodes are not among these.
pub(crate) fn note(covered: &mut Vec<Vec<bool>>, found: &[Read], ahead: &[bool], all: bool)
    ensures { Notes found.now ahead.now all covered.old.items covered.new.items }
{
    for read in found {
        if all || !stands(ahead, read.node) {
            flag(covered, *read);
        }
    }
}
