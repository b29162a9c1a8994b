//! Boundaries where a section logs each of its writes by itself, also that of a local.
ghost use Rattle.std.specs.Prelude.{◌≡◌, ◌↔◌, ◌<◌, ◌≤◌, IfOk, IsTrue, Some, length, slice_get};
ghost use Rattle.flow_graph.specs.Nodes.{graph_of, node_of};
ghost use Rattle.flow_graph.specs.IdempotentCuts.{AreCuts, boundaries_of};
ghost use Rattle.region_cutter.specs.EachWrite.{AreAtEachWrite, AreSetsOfThreads, AssignsLocked};
ghost use Rattle.c_tree.specs.Exprs.{lvalue_of};
ghost use Rattle.region_cutter.specs.links.AddedBoundaries.{AreAdded, AssignsIn, assigns_local, is_local_target};

use crate::start::everywhere;
use c_tree::expr::Lvalue;
use flow_graph::cuts::Cuts;
use flow_graph::graph::{Action, Graph, Node, Part};
use ido_base::memory::OutOfMemory;
use lock_discipline::Held;
use std::alloc::Global;

/// Whether the target is a local.
fn is_local_target(target: &Lvalue) -> bool
    ensures { result ≡ is_local_target (lvalue_of target.now) }
{
    match target {
        Lvalue::Local { .. } => true,
        Lvalue::Variable { .. } | Lvalue::Element { .. } => false,
    }
}

/// Whether the node assigns a local.
fn assigns_local(node: &Node) -> bool
    ensures { result ≡ assigns_local (node_of node.now).action }
{
    match node.action {
        Action::Eval { target, .. } => is_local_target(target),
        _ => false,
    }
}

/// Whether the thread's node assigns a local, and a lock is held before it.
fn assigns_locked(graph: &Graph, held: &Held, thread: usize, part: Part, number: usize) -> bool
    requires sets { AreSetsOfThreads (graph_of graph.now) held.now }
    requires part { slice_get graph.now.threads.items thread ≡ Some part }
    requires from_first { part.first ≤ number }
    requires below_end { number < part.end }
    ensures { IsTrue result ↔ AssignsIn (graph_of graph.now) held.now thread number }
{
    let step = number - part.first;
    assigns_local(&graph.nodes[number]) && held.count(thread as u32, step as u32) != 0
}

/// Adds a boundary before each of the thread's nodes that assigns a local while a lock is held.
fn add_of_thread(before: &mut Vec<bool>, graph: &Graph, held: &Held, thread: usize, part: Part)
    requires sets { AreSetsOfThreads (graph_of graph.now) held.now }
    requires part { slice_get graph.now.threads.items thread ≡ Some part }
    requires count { length before.old.items ≡ length graph.now.nodes.items }
    ensures { AreAdded (AssignsIn (graph_of graph.now) held.now thread) before.old.items before.new.items }
{
    for number in part.first..part.end {
        if assigns_locked(graph, held, thread, part, number) {
            before[number] = true;
        }
    }
}

/// Adds a boundary before each node that assigns a local while a lock is held.
fn add_assignments(before: &mut Vec<bool>, graph: &Graph, held: &Held)
    requires sets { AreSetsOfThreads (graph_of graph.now) held.now }
    requires count { length before.old.items ≡ length graph.now.nodes.items }
    ensures { AreAdded (AssignsLocked (graph_of graph.now) held.now) before.old.items before.new.items }
{
    for thread in 0..graph.threads.len() {
        add_of_thread(before, graph, held, thread, graph.threads[thread]);
    }
}

/// Boundaries after each lock, before each unlock, before each node that writes, and before each that assigns a local while a lock is
/// held, by these sets: no others. Where locals stand in a log these are the places at which a record has to be made.
pub fn cut_each_write(alloc: Global, graph: &Graph, held: &Held) -> Result<Cuts, OutOfMemory>
    requires { AreSetsOfThreads (graph_of graph.now) held.now }
    ensures places { IfOk result (λ cuts. AreAtEachWrite (graph_of graph.now) held.now (boundaries_of cuts)) }
    ensures cuts { IfOk result (λ cuts. AreCuts (graph_of graph.now) (boundaries_of cuts)) }
{
    let mut cuts = everywhere(alloc, graph)?;
    add_assignments(&mut cuts.before, graph, held);
    Ok(cuts)
}
