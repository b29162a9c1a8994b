//! What nodes read.
ghost use Rattle.std.specs.Prelude.{◌≡◌, ◌↔◌, ◌≤◌, ◌+◌, ◌/◌, ℕ, length, Contains, IfOk};
ghost use Rattle.flow_graph.specs.LocalSets.{Has};
ghost use Rattle.flow_live.specs.links.Passes.{AreLong, AreUpTo, AreRead};

use flow_graph::graph::Node;
use flow_graph::local_set::LocalSet;
use ido_base::memory::OutOfMemory;
use std::alloc::Global;

/// The greatest of these locals, or another that is no less.
fn greatest(locals: &[u32], least: u32) -> u32
    ensures from { least ≤ result }
    ensures to { (local : ℕ) → Contains locals.now local → local ≤ result }
{
    let mut most = least;
    for local in locals {
        if *local > most {
            most = *local;
        }
    }
    most
}

/// The greatest local that nodes read, or 0.
pub(crate) fn greatest_read(nodes: &[Node]) -> u32
    ensures { AreUpTo nodes.now result }
{
    let mut most = 0;
    for node in nodes {
        most = greatest(&node.uses, most);
    }
    most
}

/// The locals that a node reads.
fn read_by(alloc: Global, node: &Node, most: u32) -> Result<LocalSet, OutOfMemory>
    requires { (local : ℕ) → Contains node.now.uses.items local → local ≤ most }
    ensures has { IfOk result (λ s. (local : ℕ) → Has s local ↔ Contains node.now.uses.items local) }
    ensures long { IfOk result (λ s. length s ≡ most / 64 + 1) }
{
    let mut set = LocalSet::none(alloc, most)?;
    for local in &node.uses {
        set.insert(*local);
    }
    Ok(set)
}

/// Of each node the locals that it reads.
pub(crate) fn read_by_each(
    alloc: Global,
    nodes: &[Node],
    most: u32,
) -> Result<Vec<LocalSet>, OutOfMemory>
    requires { AreUpTo nodes.now most }
    ensures read { IfOk result (λ sets. AreRead nodes.now sets.items) }
    ensures long { IfOk result (λ sets. AreLong sets.items (most / 64 + 1)) }
{
    let mut sets = Vec::new(alloc);
    for node in nodes {
        sets.push(read_by(alloc, node, most)?)?;
    }
    Ok(sets)
}
