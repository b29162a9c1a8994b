//! What nodes do, and how they go on.
ghost use Rattle.std.specs.Prelude.{◌≡◌, ◌==◌, ◌+◌, ◌≤◌, OnOk, length, false};
ghost use Rattle.c_tree.specs.Exprs.{placed_of, lvalue_of, lock_name_of};
ghost use Rattle.flow_graph.specs.Nodes.{Eval, Store, Test, Lock, Unlock, End, action_of};
ghost use Rattle.node_code.specs.BoundaryCode.{IsQuiet};
ghost use Rattle.node_code.specs.Pieces.{Appends, IsLockOf, IsUnlockOf, giving_bytes};
ghost use Rattle.rv64_codegen.specs.links.Threads.{AppendsKept, DoesAction, DoesAt, GoesToNode, HasAction, IsOwn, opens_at};

use crate::evaluations::{push_evaluation, target_code};
use crate::numbers::call_code_of;
use crate::tests_of_conditions::push_test;
use crate::thread::ThreadPlan;
use boundary_code::Written;
use c_tree::expr::{LockName, Lvalue, Placed};
use flow_graph::graph::Action;
use ido_base::memory::OutOfMemory;
use ido_ints::Kind;
use node_code::{push_end, push_jump, push_lock, push_plain_write, push_store, push_unlock};
use rv64_isa::instr::Instr;
use rv64_isa::object::CodeItem;
use std::alloc::Global;

/// Whether the one node follows the other.
fn follows(node: usize, next: usize) -> bool
    ensures { result ≡ (next == node + 1) }
{
    next > node && next - node == 1
}

/// The next node follows, or a jump leads to it.
fn push_fragment(
    items: &mut Vec<CodeItem>,
    thread: &ThreadPlan,
    node: usize,
    next: usize,
) -> Result<(), OutOfMemory>
    requires { IsOwn thread.now next }
    ensures { OnOk result (Appends items.old.items items.new.items (GoesToNode thread.now node next)) }
{
    if follows(node, next) {
        return Ok(());
    }
    push_jump(items, thread.label(next))
}

/// An evaluation. What a logged assignment stores is computed before its boundary; a local of the frame is stored outside sections too.
fn push_eval(
    alloc: Global,
    items: &mut Vec<CodeItem>,
    thread: &ThreadPlan,
    node: usize,
    target: &Lvalue,
    value: &Placed,
    next: usize,
) -> Result<(), OutOfMemory>
    requires { HasAction thread.now node (Eval (lvalue_of target.now) (placed_of value.now) next) }
    ensures { OnOk result
        (Appends items.old.items items.new.items (DoesAction thread.now node (Eval (lvalue_of target.now) (placed_of value.now) next))) }
{
    if thread.is_logged(node) {
        push_store(items, Kind::UnsignedLong, true)?;
        return push_fragment(items, thread, node, next);
    }
    if thread.is_framed(target) {
        let code = target_code(alloc, &thread.frame, target, value)?;
        push_plain_write(items, &code)?;
        return push_fragment(items, thread, node, next);
    }
    push_evaluation(alloc, items, &thread.frame, target, value)?;
    push_fragment(items, thread, node, next)
}

/// A test whose first path is what follows: it is turned round.
fn push_turned(
    alloc: Global,
    items: &mut Vec<CodeItem>,
    thread: &ThreadPlan,
    node: usize,
    condition: &Placed,
    fails: usize,
) -> Result<(), OutOfMemory>
    requires { HasAction thread.now node (Test (placed_of condition.now) (node + 1) fails) }
    ensures { OnOk result
        (Appends items.old.items items.new.items (DoesAction thread.now node (Test (placed_of condition.now) (node + 1) fails))) }
{
    let to = thread.label(fails);
    push_test(alloc, items, &thread.frame, condition, true, to)
}

/// A test that is not turned round.
fn push_straight(
    alloc: Global,
    items: &mut Vec<CodeItem>,
    thread: &ThreadPlan,
    node: usize,
    condition: &Placed,
    holds: usize,
    fails: usize,
) -> Result<(), OutOfMemory>
    requires { HasAction thread.now node (Test (placed_of condition.now) holds fails) }
    ensures { OnOk result
        (Appends items.old.items items.new.items (DoesAction thread.now node (Test (placed_of condition.now) holds fails))) }
{
    let to = thread.label(holds);
    push_test(alloc, items, &thread.frame, condition, false, to)?;
    push_fragment(items, thread, node, fails)
}

/// A test: where the node that it leads to where the condition isn't 0 follows, it is turned round.
fn push_choosing(
    alloc: Global,
    items: &mut Vec<CodeItem>,
    thread: &ThreadPlan,
    node: usize,
    condition: &Placed,
    holds: usize,
    fails: usize,
) -> Result<(), OutOfMemory>
    requires { HasAction thread.now node (Test (placed_of condition.now) holds fails) }
    ensures { OnOk result
        (Appends items.old.items items.new.items (DoesAction thread.now node (Test (placed_of condition.now) holds fails))) }
{
    if follows(node, holds) {
        push_turned(alloc, items, thread, node, condition, fails)
    } else {
        push_straight(alloc, items, thread, node, condition, holds, fails)
    }
}

/// A store. Its line is cleaned at once where no later store of the region cleans it.
fn push_making(
    items: &mut Vec<CodeItem>,
    thread: &ThreadPlan,
    node: usize,
    variable: u32,
    kind: Kind,
    next: usize,
) -> Result<(), OutOfMemory>
    requires { HasAction thread.now node (Store variable kind next) }
    ensures { OnOk result (Appends items.old.items items.new.items (DoesAction thread.now node (Store variable kind next))) }
{
    push_store(items, kind, !thread.later[node])?;
    push_fragment(items, thread, node, next)
}

/// Appends the code that takes the lock whose number the given code leaves in x10, and then the boundary that keeps what lets the thread
/// go on at the next node.
fn push_held_lock(
    alloc: Global,
    items: &mut Vec<CodeItem>,
    thread: &ThreadPlan,
    node: usize,
    next: usize,
    numbering: &[Instr],
) -> Result<(), OutOfMemory>
    requires here { IsOwn thread.now node }
    requires own { IsOwn thread.now next }
    requires some { 1 ≤ length numbering.now }
    requires quiet_number { IsQuiet numbering.now }
    ensures { OnOk result
        (AppendsKept thread.now next (opens_at thread.now node) items.old.items items.new.items (λ k. IsLockOf k numbering.now)) }
{
    let numbers = thread.numbers(alloc, next)?;
    let written = Written {
        bytes: None,
        opens: !thread.holds_some(node),
    };
    let kept = thread.kept(next, &numbers, thread.live_at(next), written);
    push_lock(alloc, items, &kept, numbering)
}

/// A lock is taken.
fn push_taking(
    alloc: Global,
    items: &mut Vec<CodeItem>,
    thread: &ThreadPlan,
    node: usize,
    lock: &LockName,
    next: usize,
) -> Result<(), OutOfMemory>
    requires { HasAction thread.now node (Lock (lock_name_of lock.now) next) }
    ensures { OnOk result (Appends items.old.items items.new.items (DoesAction thread.now node (Lock (lock_name_of lock.now) next))) }
{
    let number = call_code_of(alloc, &thread.frame, lock.as_ref())?;
    push_held_lock(alloc, items, thread, node, next, &number)?;
    push_fragment(items, thread, node, next)
}

/// Appends the boundary that keeps what lets the thread go on at the next node, and then the code that gives back the lock whose number
/// the given code leaves in x10.
fn push_held_unlock(
    alloc: Global,
    items: &mut Vec<CodeItem>,
    thread: &ThreadPlan,
    next: usize,
    numbering: &[Instr],
) -> Result<(), OutOfMemory>
    requires own { IsOwn thread.now next }
    requires some { 1 ≤ length numbering.now }
    requires short { giving_bytes numbering.now ≤ 262144 }
    requires quiet_number { IsQuiet numbering.now }
    ensures { OnOk result (AppendsKept thread.now next false items.old.items items.new.items (λ k. IsUnlockOf k numbering.now)) }
{
    let numbers = thread.numbers(alloc, next)?;
    let kept = thread.kept(next, &numbers, thread.live_at(next), Written::NOTHING);
    push_unlock(alloc, items, &kept, numbering)
}

/// A lock is given back.
fn push_giving(
    alloc: Global,
    items: &mut Vec<CodeItem>,
    thread: &ThreadPlan,
    node: usize,
    lock: &LockName,
    next: usize,
) -> Result<(), OutOfMemory>
    requires { HasAction thread.now node (Unlock (lock_name_of lock.now) next) }
    ensures { OnOk result (Appends items.old.items items.new.items (DoesAction thread.now node (Unlock (lock_name_of lock.now) next))) }
{
    let number = call_code_of(alloc, &thread.frame, lock.as_ref())?;
    push_held_unlock(alloc, items, thread, next, &number)?;
    push_fragment(items, thread, node, next)
}

/// The thread ends.
fn push_ending(
    items: &mut Vec<CodeItem>,
    thread: &ThreadPlan,
    node: usize,
) -> Result<(), OutOfMemory>
    requires { HasAction thread.now node End }
    ensures { OnOk result (Appends items.old.items items.new.items (DoesAction thread.now node End)) }
{
    push_end(items)
}

/// What a node does, and how it goes on.
fn push_doing(
    alloc: Global,
    items: &mut Vec<CodeItem>,
    thread: &ThreadPlan,
    node: usize,
    action: Action,
) -> Result<(), OutOfMemory>
    requires { HasAction thread.now node (action_of action) }
    ensures { OnOk result (Appends items.old.items items.new.items (DoesAction thread.now node (action_of action.entry))) }
{
    match action {
        Action::Eval {
            target,
            value,
            next,
        } => push_eval(alloc, items, thread, node, target, value, next),
        Action::Store {
            variable,
            kind,
            next,
        } => push_making(items, thread, node, variable, kind, next),
        Action::Test {
            condition,
            holds,
            fails,
        } => push_choosing(alloc, items, thread, node, condition, holds, fails),
        Action::Lock { lock, next } => push_taking(alloc, items, thread, node, lock, next),
        Action::Unlock { lock, next } => push_giving(alloc, items, thread, node, lock, next),
        Action::End => push_ending(items, thread, node),
    }
}

/// Appends what a node of the thread does, and how it goes on.
pub(crate) fn push_action(
    alloc: Global,
    items: &mut Vec<CodeItem>,
    thread: &ThreadPlan,
    node: usize,
) -> Result<(), OutOfMemory>
    requires { IsOwn thread.now node }
    ensures { OnOk result (Appends items.old.items items.new.items (DoesAt thread.now node)) }
{
    let action = thread.plan.graph.nodes[node].action;
    push_doing(alloc, items, thread, node, action)
}
