//! Boundaries before nodes.
ghost use Rattle.std.specs.Prelude.{◌≡◌, ◌↔◌, ◌<◌, ◌+◌, IsTrue, OnOk, length, true};
ghost use Rattle.flow_graph.specs.Nodes.{action_of, graph_of, node_of};
ghost use Rattle.flow_graph.specs.IdempotentCuts.{IsChosen, boundaries_of};
ghost use Rattle.node_code.specs.Pieces.{Appends};
ghost use Rattle.thread_code.specs.NodeCodeEffects.{bytes_written};
ghost use Rattle.rv64_codegen.specs.links.Threads.{IsOwn, Guards, KeepsAt, PreparesAt, choices_of, gives, is_logged};

use crate::evaluations::target_code;
use crate::plan::Plan;
use crate::thread::ThreadPlan;
use boundary_code::Written;
use flow_graph::graph::{Action, Node};
use ido_base::memory::OutOfMemory;
use node_code::{push_boundary, push_unmarked};
use rv64_isa::field::Register;
use rv64_isa::object::CodeItem;
use std::alloc::Global;

/// The registers of a pending write.
const PENDING: [Register; 2] = [Register::X28, Register::X29];

/// Whether the node gives a mutex back.
fn gives(node: &Node) -> bool
    ensures { result ≡ gives (node_of node.now).action }
{
    match node.action {
        Action::Unlock { .. } => true,
        _ => false,
    }
}

/// Whether a boundary stands before the node by choice.
fn is_chosen(plan: &Plan, node: usize) -> bool
    requires node { node < length plan.now.graph.now.nodes.items }
    requires cuts { length plan.now.cuts.now.before.items ≡ length plan.now.graph.now.nodes.items }
    ensures { IsTrue result ↔ IsChosen (graph_of plan.now.graph.now) (boundaries_of plan.now.cuts.now) node }
{
    plan.cuts.before[node] && !gives(&plan.graph.nodes[node])
}

/// How many bytes the write has that the node makes, if it makes one.
fn written_bytes(action: Action) -> Option<u8>
    ensures { result ≡ bytes_written (action_of action.entry) }
{
    match action {
        Action::Eval { .. } => Some(8),
        Action::Store { kind, .. } => Some(kind.bytes() as u8),
        _ => None,
    }
}

/// Appends the boundary before a node, which keeps these registers, and tells of the write that the node makes.
fn push_keeping(
    alloc: Global,
    items: &mut Vec<CodeItem>,
    thread: &ThreadPlan,
    node: usize,
    live: &[Register],
) -> Result<(), OutOfMemory>
    requires own { IsOwn thread.now node }
    requires live { live.now ≡ (choices_of thread.now).kept node }
    ensures { OnOk result (Appends items.old.items items.new.items (KeepsAt thread.now node)) }
{
    let numbers = thread.numbers(alloc, node)?;
    let written = Written {
        bytes: written_bytes(thread.plan.graph.nodes[node].action),
        opens: false,
    };
    let kept = thread.kept(node, &numbers, live, written);
    push_boundary(alloc, items, &kept)
}

/// Appends the code that leaves the address and the number that a logged assignment stores.
fn push_prepared(
    alloc: Global,
    items: &mut Vec<CodeItem>,
    thread: &ThreadPlan,
    node: usize,
) -> Result<(), OutOfMemory>
    requires own { IsOwn thread.now node }
    requires logged { is_logged thread.now node ≡ true }
    ensures { OnOk result (Appends items.old.items items.new.items (PreparesAt thread.now node)) }
{
    match thread.plan.graph.nodes[node].action {
        Action::Eval { target, value, .. } => {
            let code = target_code(alloc, &thread.frame, target, value)?;
            push_unmarked(items, &code)
        }
        Action::Store { .. } => Ok(()),
        Action::Test { .. } => Ok(()),
        Action::Lock { .. } => Ok(()),
        Action::Unlock { .. } => Ok(()),
        Action::End => Ok(()),
    }
}

/// Appends the boundary before a node, where one stands there by choice, and before that what a logged assignment computes.
pub(crate) fn push_guard(
    alloc: Global,
    items: &mut Vec<CodeItem>,
    thread: &ThreadPlan,
    node: usize,
) -> Result<(), OutOfMemory>
    requires { IsOwn thread.now node }
    ensures { OnOk result (Appends items.old.items items.new.items (Guards thread.now node)) }
{
    if !is_chosen(thread.plan, node) {
        return Ok(());
    }
    if thread.is_logged(node) {
        push_prepared(alloc, items, thread, node)?;
        return push_keeping(alloc, items, thread, node, &PENDING);
    }
    push_keeping(alloc, items, thread, node, thread.live_at(node))
}
