//! Nodes, one at a time.
ghost use Rattle.std.specs.Prelude.{◌≡◌, suc, Some, None, length, IfOk};
ghost use Rattle.c_tree.specs.Exprs.{placed_of, lock_name_of, lvalue_of};
ghost use Rattle.flow_graph.specs.Nodes.{node_of, action_of};
ghost use Rattle.flow_graph.specs.Lowering.{plain_node, lock_node, eval_node, test_node, store_node, assign_nodes};
ghost use Rattle.flow_lower.specs.links.Growth.{Adds};
ghost use Rattle.flow_lower.specs.links.Tables.{table_from};

use crate::counts::sum;
use crate::expressions::{add_locals, add_reads, elements};
use crate::table::Table;
use c_tree::expr::{LockName, Lvalue, Placed, PlacedRef};
use flow_graph::graph::{Action, Node};
use ido_base::location::Location;
use ido_base::memory::OutOfMemory;
use ido_base::place::Place;
use ido_ints::Kind;
use std::alloc::Global;

/// A node that reads and writes nothing.
pub(crate) fn plain<'a>(alloc: Global, place: Place, action: Action<'a>) -> Node<'a>
    ensures { node_of result ≡ plain_node place (action_of action.entry) }
{
    Node {
        place,
        action,
        uses: Vec::new(alloc),
        assigns: None,
        reads: Vec::new(alloc),
        writes: None,
    }
}

/// The node that takes a lock or gives it back: it reads the locals of the name's key.
pub(crate) fn locking<'a>(
    alloc: Global,
    place: Place,
    action: Action<'a>,
    lock: &LockName,
) -> Result<Node<'a>, OutOfMemory>
    ensures { IfOk result (λ node. node_of node ≡ lock_node place (action_of action.entry) (lock_name_of lock.now)) }
{
    let mut uses = Vec::new(alloc);
    if let Some(key) = &lock.key {
        add_locals(&mut uses, &key.expr)?;
    }
    Ok(Node {
        place,
        action,
        uses,
        assigns: None,
        reads: Vec::new(alloc),
        writes: None,
    })
}

/// The node that evaluates a value for a target.
fn eval<'a>(
    alloc: Global,
    table: &Table<'_>,
    place: Place,
    target: &'a Lvalue,
    value: &'a Placed,
    next: usize,
) -> Result<Node<'a>, OutOfMemory>
    ensures { IfOk result (λ node. node_of node ≡ eval_node (table_from table.now) place (lvalue_of target.now) (placed_of value.now) next) }
{
    let mut uses = Vec::new(alloc);
    let mut reads = Vec::new(alloc);
    let mut assigns = None;
    match target {
        Lvalue::Local { local, .. } => assigns = Some(*local),
        Lvalue::Variable { .. } => {}
        Lvalue::Element { index, .. } => {
            add_locals(&mut uses, &index.expr)?;
            add_reads(&mut reads, table, &index.expr)?;
        }
    }
    add_locals(&mut uses, &value.expr)?;
    add_reads(&mut reads, table, &value.expr)?;
    Ok(Node {
        place,
        action: Action::Eval {
            target,
            value,
            next,
        },
        uses,
        assigns,
        reads,
        writes: None,
    })
}

/// The node of a condition.
pub(crate) fn test<'a>(
    alloc: Global,
    table: &Table<'_>,
    place: Place,
    condition: &'a Placed,
    holds: usize,
    fails: usize,
) -> Result<Node<'a>, OutOfMemory>
    ensures { IfOk result (λ node. node_of node ≡ test_node (table_from table.now) place (placed_of condition.now) holds fails) }
{
    let mut uses = Vec::new(alloc);
    let mut reads = Vec::new(alloc);
    add_locals(&mut uses, &condition.expr)?;
    add_reads(&mut reads, table, &condition.expr)?;
    Ok(Node {
        place,
        action: Action::Test {
            condition,
            holds,
            fails,
        },
        uses,
        assigns: None,
        reads,
        writes: None,
    })
}

/// The node of a store.
fn store<'a>(
    alloc: Global,
    place: Place,
    variable: u32,
    kind: Kind,
    location: Location,
    next: usize,
) -> Node<'a>
    ensures { node_of result ≡ store_node place variable kind location next }
{
    let mut node = plain(
        alloc,
        place,
        Action::Store {
            variable,
            kind,
            next,
        },
    );
    node.writes = Some(location);
    node
}

/// Adds the nodes of an assignment: that of its value, and for a variable that of the store.
pub(crate) fn add_assignment<'a>(
    alloc: Global,
    nodes: &mut Vec<Node<'a>>,
    table: &Table<'_>,
    place: Place,
    target: &'a Lvalue,
    value: &'a Placed,
    next: usize,
) -> Result<(), OutOfMemory>
    ensures { IfOk result (λ _. Adds nodes.old.items nodes.new.items
        (assign_nodes (table_from table.now) place (lvalue_of target.now) (placed_of value.now) (length nodes.old.items) next)) }
{
    match target {
        Lvalue::Local { .. } => nodes.push(eval(alloc, table, place, target, value, next)?)?,
        Lvalue::Variable { variable, kind, .. } => {
            let following = sum(nodes.len(), 1)?;
            nodes.push(eval(alloc, table, place, target, value, following)?)?;
            let location = Location {
                variable: *variable,
                lo: 0,
                hi: 0,
                key: None,
            };
            nodes.push(store(alloc, place, *variable, *kind, location, next))?;
        }
        Lvalue::Element {
            variable,
            kind,
            index,
            ..
        } => {
            let following = sum(nodes.len(), 1)?;
            nodes.push(eval(alloc, table, place, target, value, following)?)?;
            let at = PlacedRef {
                place: index.place,
                expr: &index.expr,
            };
            let location = elements(table, *variable, at)?;
            nodes.push(store(alloc, place, *variable, *kind, location, next))?;
        }
    }
    Ok(())
}
