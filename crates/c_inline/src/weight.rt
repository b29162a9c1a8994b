//! What parts of a program weigh in the flat form. Numbers past 2^64 - 1 are answered as that.
ghost use Rattle.std.specs.Prelude.{◌≡◌, ◌+◌, map, min};
ghost use Rattle.std.specs.Option.{option_map};
ghost use Rattle.c_tree.specs.Prices.{nodes_of};
ghost use Rattle.c_tree.specs.Exprs.{lvalue_of, placed_of};
ghost use Rattle.c_inline.specs.links.Weights.{node_weight, assign_weight, arguments_weight, result_weight, known_weight};
ghost use Rattle.c_inline.specs.links.Weights.{called_weight, statement_weight, statements_weight, arms_weight};
ghost use Rattle.c_tree.specs.Programs.{statement_of, statements_of, arms_list_of, function_of, returned_of};

use c_tree::expr::{Lvalue, Placed};
use c_tree::price::{key_nodes, nodes};
use c_tree::program::{Arm, Function, Returned, Statement};

/// What the parts of the flat form weigh.
#[derive(Clone, Copy)]
pub struct Weights {
    /// A node.
    pub node: u64,
    /// A node of an expression.
    pub expression: u64,
    /// An `if`, beside its tests.
    pub branch: u64,
}

/// The price of a thread is the sum of these.
pub const PRICE: Weights = Weights {
    node: 96,
    expression: 16,
    branch: 0,
};

/// Weights by which a part weighs nothing only where it makes no statement.
pub const SIZE: Weights = Weights {
    node: 1,
    expression: 0,
    branch: 1,
};

/// A node with so many nodes of expressions.
fn node_weight(weights: Weights, nodes: u64) -> u64
    ensures { result ≡ min (node_weight weights nodes) u64.MAX }
{
    weights
        .expression
        .saturating_mul(nodes)
        .saturating_add(weights.node)
}

/// An assignment of a value with so many nodes.
fn assign_weight(weights: Weights, target: &Lvalue, value: u64) -> u64
    ensures { result ≡ min (assign_weight weights (lvalue_of target.now) value) u64.MAX }
{
    match target {
        Lvalue::Local { .. } => node_weight(weights, value),
        Lvalue::Variable { .. } => {
            node_weight(weights, value).saturating_add(node_weight(weights, 0))
        }
        Lvalue::Element { index, .. } => {
            let index = nodes(&index.expr);
            node_weight(weights, index.saturating_add(value)).saturating_add(node_weight(
                weights, 0,
            ))
        }
    }
}

/// The assignments of parameters.
fn arguments_weight(weights: Weights, arguments: &[Placed]) -> u64
    ensures { result ≡ min (arguments_weight weights (map placed_of arguments.now)) u64.MAX }
{
    let mut weight: u64 = 0;
    for argument in arguments {
        weight = weight.saturating_add(node_weight(weights, nodes(&argument.expr)));
    }
    weight
}

/// The assignment of a result.
fn result_weight(weights: Weights, returned: &Option<Returned>, target: &Option<Lvalue>) -> u64
    ensures { result ≡ min (result_weight weights (option_map returned_of returned.now) (option_map lvalue_of target.now)) u64.MAX }
{
    match (returned, target) {
        (Some(returned), Some(target)) => {
            assign_weight(weights, target, nodes(&returned.value.expr))
        }
        _ => 0,
    }
}

/// What a function weighs, as far as it is known.
fn known_weight(known: &[Option<u64>], function: u32) -> u64
    ensures { result ≡ known_weight known.now function }
{
    match known.get(function as usize) {
        Some(Some(weight)) => *weight,
        _ => 0,
    }
}

/// A call: the parameters, the body, the result.
pub fn call_weight(
    weights: Weights,
    functions: &[Function],
    known: &[Option<u64>],
    number: u32,
    arguments: &[Placed],
    target: &Option<Lvalue>,
) -> u64
    ensures { result ≡ min (called_weight weights 0 (map function_of functions.now) (known_weight known.now) number (map placed_of arguments.now)
        (option_map lvalue_of target.now)) u64.MAX }
{
    match functions.get(number as usize) {
        Some(function) => arguments_weight(weights, arguments)
            .saturating_add(known_weight(known, number))
            .saturating_add(result_weight(weights, &function.result, target)),
        None => 0,
    }
}

/// A condition and what is done where it holds.
#[cycle(weights)]
fn test_weight(
    weights: Weights,
    functions: &[Function],
    known: &[Option<u64>],
    body: &[Statement],
    condition: &Placed,
) -> u64
    ensures { result ≡ min (node_weight weights (nodes_of (placed_of condition.now).expr)
        + statements_weight weights 0 (map function_of functions.now) (known_weight known.now) (statements_of body.now)) u64.MAX }
{
    node_weight(weights, nodes(&condition.expr)).saturating_add(statements_weight(
        weights, functions, known, body,
    ))
}

/// A statement, where each call weighs what its function is known to.
#[cycle(weights)]
fn statement_weight(
    weights: Weights,
    functions: &[Function],
    known: &[Option<u64>],
    statement: &Statement,
) -> u64
    ensures { result ≡ min (statement_weight weights 0 (map function_of functions.now) (known_weight known.now) (statement_of statement.now)) u64.MAX }
{
    match statement {
        Statement::Assign { target, value, .. } => {
            assign_weight(weights, target, nodes(&value.expr))
        }
        Statement::Call {
            function,
            arguments,
            result: target,
            ..
        } => call_weight(weights, functions, known, *function, arguments, target),
        Statement::If {
            arms,
            otherwise,
            ..
        } => arms_weight(weights, functions, known, arms)
            .saturating_add(statements_weight(weights, functions, known, otherwise))
            .saturating_add(weights.branch),
        Statement::While {
            condition,
            body,
            ..
        } => test_weight(weights, functions, known, body, condition),
        Statement::Do {
            body,
            condition,
            ..
        } => test_weight(weights, functions, known, body, condition),
        Statement::Lock { lock, .. } => node_weight(weights, key_nodes(lock.as_ref())),
        Statement::Unlock { lock, .. } => node_weight(weights, key_nodes(lock.as_ref())),
    }
}

/// Statements, where each call weighs what its function is known to.
#[cycle(weights)]
pub fn statements_weight(
    weights: Weights,
    functions: &[Function],
    known: &[Option<u64>],
    statements: &[Statement],
) -> u64
    ensures { result ≡ min (statements_weight weights 0 (map function_of functions.now) (known_weight known.now) (statements_of statements.now)) u64.MAX }
{
    let mut weight: u64 = 0;
    for statement in statements {
        weight = weight.saturating_add(statement_weight(weights, functions, known, statement));
    }
    weight
}

/// Conditions with what is done where they hold.
#[cycle(weights)]
fn arms_weight(weights: Weights, functions: &[Function], known: &[Option<u64>], arms: &[Arm]) -> u64
    ensures { result ≡ min (arms_weight weights 0 (map function_of functions.now) (known_weight known.now) (arms_list_of arms.now)) u64.MAX }
{
    let mut weight: u64 = 0;
    for arm in arms {
        weight = weight.saturating_add(test_weight(
            weights,
            functions,
            known,
            &arm.body,
            &arm.condition,
        ));
    }
    weight
}
