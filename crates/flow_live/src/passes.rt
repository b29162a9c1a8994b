//! Passes over the nodes, each of which adds what is live after a node and isn't assigned there.
ghost use Rattle.std.specs.Prelude.{◌≡◌, ◌⊎◌, ◌↔◌, ◌<◌, ℕ, length, map};
ghost use Rattle.flow_graph.specs.Nodes.{node_of};
ghost use Rattle.flow_graph.specs.LocalSets.{Has};
ghost use Rattle.flow_live.specs.links.Passes.{AreLong, HasBoundaryAfter, IsLiveFromSuccessor, Adds, IsLivenessPass};

use flow_graph::graph::Node;
use flow_graph::local_set::LocalSet;

/// Adds the locals of a node's set, if there is that node.
fn add_after(locals: &mut LocalSet, sets: &[LocalSet], after: Option<usize>)
    requires { AreLong sets.now (length locals.old) }
    ensures has { (local : ℕ) → Has locals.new local ↔ (Has locals.old local ⊎ HasBoundaryAfter sets.now after local) }
    ensures long { length locals.new ≡ length locals.old }
{
    match after {
        Some(number) => match sets.get(number) {
            Some(set) => {
                locals.add_all(set);
            }
            None => {}
        },
        None => {}
    }
}

/// The locals that come to a node's entry from its successors.
fn collect(locals: &mut LocalSet, sets: &[LocalSet], node: &Node)
    requires { AreLong sets.now (length locals.old) }
    ensures has { (local : ℕ) → Has locals.new local ↔ IsLiveFromSuccessor (node_of node.now) sets.now local }
    ensures long { length locals.new ≡ length locals.old }
{
    locals.clear();
    add_after(locals, sets, node.next());
    add_after(locals, sets, node.other());
    if let Some(local) = node.assigns {
        locals.remove(local);
    }
}

/// Adds to a node's set the locals that come to its entry. Whether any is new. What `coming` has before doesn't matter.
fn add_coming(sets: &mut [LocalSet], number: usize, node: &Node, coming: &mut LocalSet) -> bool
    requires number { number < length sets.old }
    requires long { AreLong sets.old (length coming.old) }
    ensures adds { Adds (node_of node.now) number sets.old sets.new result }
    ensures long { length coming.new ≡ length coming.old }
{
    collect(coming, sets, node);
    sets[number].add_all(coming)
}

/// Adds to each node's set the locals that come to its entry, from the last node to the first. Whether any is new.
fn add_backwards(sets: &mut [LocalSet], nodes: &[Node], coming: &mut LocalSet) -> bool
    requires count { length sets.old ≡ length nodes.now }
    requires long { AreLong sets.old (length coming.old) }
    ensures passes { IsLivenessPass nodes.now 0 sets.old sets.new result }
    ensures long { length coming.new ≡ length coming.old }
{
    let mut grows = false;
    for number in (0..nodes.len()).rev() {
        if add_coming(sets, number, &nodes[number], coming) {
            grows = true;
        }
    }
    grows
}

/// Adds to each node's set the locals that come to its entry, from the first node to the last. Whether any is new.
fn add_forwards(sets: &mut [LocalSet], nodes: &[Node], coming: &mut LocalSet) -> bool
    requires count { length sets.old ≡ length nodes.now }
    requires long { AreLong sets.old (length coming.old) }
    ensures passes { IsLivenessPass nodes.now (length nodes.now) sets.old sets.new result }
    ensures long { length coming.new ≡ length coming.old }
{
    let mut grows = false;
    for (number, node) in nodes.iter().enumerate() {
        if add_coming(sets, number, node, coming) {
            grows = true;
        }
    }
    grows
}

/// Adds to each node's set the locals that come to its entry, once from the last node to the first and once from the first to
/// the last: so what is live after nested loops comes into all of them at once. Whether any is new. What `coming` has before
/// doesn't matter.
pub(crate) fn add_both_ways(sets: &mut [LocalSet], nodes: &[Node], coming: &mut LocalSet) -> bool
    requires count { length sets.old ≡ length nodes.now }
    requires long { AreLong sets.old (length coming.old) }
    ensures passes { IsLivenessPass nodes.now 0 sets.old sets.new result }
    ensures long { length coming.new ≡ length coming.old }
{
    let backwards = add_backwards(sets, nodes, coming);
    let forwards = add_forwards(sets, nodes, coming);
    backwards || forwards
}
