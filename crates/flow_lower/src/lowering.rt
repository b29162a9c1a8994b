//! The nodes of statements, threads and programs.
ghost use Rattle.std.specs.Prelude.{◌≡◌, ℕ, suc, ◌+◌, ◌++◌, length, IfOk};
ghost use Rattle.c_tree.specs.Exprs.{placed_of};
ghost use Rattle.c_tree.specs.Flats.{While, Do, statement_of, statements_of, arms_list_of, thread_of, flat_of};
ghost use Rattle.flow_graph.specs.Nodes.{graph_of};
ghost use Rattle.flow_graph.specs.Lowering.{table_of, entry, statement_nodes, statements_nodes, arms_nodes};
ghost use Rattle.flow_graph.specs.Lowering.{arms_count, statements_count, thread_nodes, part, lowered};
ghost use Rattle.flow_lower.specs.links.Growth.{Adds};
ghost use Rattle.flow_lower.specs.links.Tables.{table_from};

use crate::counts::{count, count_all, count_arms, sum};
use crate::nodes::{add_assignment, locking, plain, test};
use crate::table::Table;
use c_tree::expr::Placed;
use c_tree::flat::{Arm, Flat, Statement, Thread};
use c_tree::lock_names::lock_names;
use flow_graph::graph::{Action, Graph, Node, Part};
use ido_base::memory::OutOfMemory;
use ido_base::place::Place;
use std::alloc::Global;

/// Where a part begins that ends at `end`: one without nodes is passed over.
fn entry(first: usize, end: usize, next: usize) -> usize
    ensures { (count : ℕ) → end ≡ first + count → result ≡ entry count first next }
{
    if first == end { next } else { first }
}

/// Where the last part of an `if` begins.
fn last_part(
    first: usize,
    arms: &[Arm],
    otherwise: &[Statement],
    next: usize,
) -> Result<usize, OutOfMemory>
    ensures { IfOk result (λ last. last ≡ entry (statements_count (statements_of otherwise.now)) (first + arms_count (arms_list_of arms.now)) next) }
{
    let chosen = count_arms(arms)?;
    let rest = count_all(otherwise)?;
    let after = sum(first, chosen)?;
    let end = sum(after, rest)?;
    Ok(entry(after, end, next))
}

/// The nodes of a statement, after which the thread goes on at `next`.
#[cycle(lowering)]
fn lower_statement<'a>(
    alloc: Global,
    nodes: &mut Vec<Node<'a>>,
    table: &Table<'_>,
    statement: &'a Statement,
    next: usize,
) -> Result<(), OutOfMemory>
    ensures { IfOk result (λ _. Adds nodes.old.items nodes.new.items
        (statement_nodes (table_from table.now) (statement_of statement.now) (length nodes.old.items) next)) }
{
    match statement {
        Statement::Assign {
            place,
            target,
            value,
        } => add_assignment(alloc, nodes, table, *place, target, value, next),
        Statement::If {
            place,
            arms,
            otherwise,
        } => {
            let last = last_part(nodes.len(), arms, otherwise, next)?;
            lower_arms(alloc, nodes, table, *place, arms, last, next)?;
            lower_all(alloc, nodes, table, otherwise, next)
        }
        Statement::While {
            place,
            condition,
            body,
        } => lower_while(alloc, nodes, table, *place, condition, body, next),
        Statement::Do {
            place,
            body,
            condition,
        } => lower_do(alloc, nodes, table, *place, condition, body, next),
        Statement::Lock { place, lock } => {
            nodes.push(locking(alloc, *place, Action::Lock { lock, next }, lock)?)?;
            Ok(())
        }
        Statement::Unlock { place, lock } => {
            nodes.push(locking(alloc, *place, Action::Unlock { lock, next }, lock)?)?;
            Ok(())
        }
    }
}

/// The nodes of a `while`: its test, and then its body, which goes back to the test.
#[cycle(lowering)]
fn lower_while<'a>(
    alloc: Global,
    nodes: &mut Vec<Node<'a>>,
    table: &Table<'_>,
    place: Place,
    condition: &'a Placed,
    body: &'a [Statement],
    next: usize,
) -> Result<(), OutOfMemory>
    ensures { IfOk result (λ _. Adds nodes.old.items nodes.new.items
        (statement_nodes (table_from table.now) (While place (placed_of condition.now) (statements_of body.now)) (length nodes.old.items) next)) }
{
    let first = nodes.len();
    let inside = sum(first, 1)?;
    let count = count_all(body)?;
    let end = sum(inside, count)?;
    let holds = entry(inside, end, first);
    nodes.push(test(alloc, table, place, condition, holds, next)?)?;
    lower_all(alloc, nodes, table, body, first)
}

/// The nodes of a `do`: its body, and then its test.
#[cycle(lowering)]
fn lower_do<'a>(
    alloc: Global,
    nodes: &mut Vec<Node<'a>>,
    table: &Table<'_>,
    place: Place,
    condition: &'a Placed,
    body: &'a [Statement],
    next: usize,
) -> Result<(), OutOfMemory>
    ensures { IfOk result (λ _. Adds nodes.old.items nodes.new.items
        (statement_nodes (table_from table.now) (Do place (statements_of body.now) (placed_of condition.now)) (length nodes.old.items) next)) }
{
    let first = nodes.len();
    let count = count_all(body)?;
    let following = sum(first, count)?;
    lower_all(alloc, nodes, table, body, following)?;
    nodes.push(test(alloc, table, place, condition, first, next)?)?;
    Ok(())
}

/// The nodes of statements, each of which goes on at the next one that has any.
#[cycle(lowering)]
fn lower_all<'a>(
    alloc: Global,
    nodes: &mut Vec<Node<'a>>,
    table: &Table<'_>,
    statements: &'a [Statement],
    next: usize,
) -> Result<(), OutOfMemory>
    ensures { IfOk result (λ _. Adds nodes.old.items nodes.new.items
        (statements_nodes (table_from table.now) (statements_of statements.now) (length nodes.old.items) next)) }
{
    let all = count_all(statements)?;
    let end = sum(nodes.len(), all)?;
    for statement in statements {
        let own = count(statement)?;
        let following = sum(nodes.len(), own)?;
        lower_statement(alloc, nodes, table, statement, entry(following, end, next))?;
    }
    Ok(())
}

/// The nodes of the arms of an `if`; where no condition holds the thread goes on at `last`.
#[cycle(lowering)]
fn lower_arms<'a>(
    alloc: Global,
    nodes: &mut Vec<Node<'a>>,
    table: &Table<'_>,
    place: Place,
    arms: &'a [Arm],
    last: usize,
    next: usize,
) -> Result<(), OutOfMemory>
    ensures { IfOk result (λ _. Adds nodes.old.items nodes.new.items
        (arms_nodes (table_from table.now) (arms_list_of arms.now) place last (length nodes.old.items) next)) }
{
    let all = count_arms(arms)?;
    let end = sum(nodes.len(), all)?;
    for arm in arms {
        let inside = sum(nodes.len(), 1)?;
        let count = count_all(&arm.body)?;
        let following = sum(inside, count)?;
        let holds = entry(inside, following, next);
        let fails = entry(following, end, last);
        nodes.push(test(alloc, table, place, &arm.condition, holds, fails)?)?;
        lower_all(alloc, nodes, table, &arm.body, next)?;
    }
    Ok(())
}

/// The nodes of a thread, and which they are.
fn lower_thread<'a>(
    alloc: Global,
    nodes: &mut Vec<Node<'a>>,
    flat: &'a Flat,
    thread: &'a Thread,
) -> Result<Part, OutOfMemory>
    ensures nodes { IfOk result (λ _. Adds nodes.old.items nodes.new.items
        (thread_nodes (table_of (flat_of flat.now) (thread_of thread.now)) (thread_of thread.now) (length nodes.old.items))) }
    ensures part { IfOk result (λ p. p ≡ part (thread_of thread.now) (length nodes.old.items)) }
{
    let names = lock_names(alloc, &flat.mutexes, &thread.body)?;
    let table = Table {
        variables: &flat.variables,
        names: &names,
    };
    let first = nodes.len();
    let count = count_all(&thread.body)?;
    let last = sum(first, count)?;
    lower_all(alloc, nodes, &table, &thread.body, last)?;
    nodes.push(plain(alloc, thread.closing, Action::End))?;
    Ok(Part {
        first,
        end: nodes.len(),
        locals: thread.locals.len(),
    })
}

/// The flow graph of a flat form: one node for each step of the source, numbered from 0 through all threads.
pub fn lower<'a>(alloc: Global, flat: &'a Flat) -> Result<Graph<'a>, OutOfMemory>
    ensures { IfOk result (λ graph. graph_of graph ≡ lowered (flat_of flat.now)) }
{
    let mut nodes = Vec::new(alloc);
    let mut threads = Vec::new(alloc);
    for thread in &flat.threads {
        threads.push(lower_thread(alloc, &mut nodes, flat, thread)?)?;
    }
    Ok(Graph { nodes, threads })
}
