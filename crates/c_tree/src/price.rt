//! What expressions and threads cost: nodes, temporaries and prices. No call takes memory.
ghost use Rattle.std.specs.Prelude.{◌≡◌, ◌<◌, ◌+◌, ◌*◌, length, min, max, slice_get, IfSome};
ghost use Rattle.c_tree.specs.Prices.{nodes_of, key_nodes, need_of, need_of_both, is_logical, node_price, assign_price};
ghost use Rattle.c_tree.specs.Prices.{thread_price, statement_price, statements_price, arms_price};
ghost use Rattle.c_tree.specs.Exprs.{expr_of, lock_ref_of, lvalue_of};
ghost use Rattle.c_tree.specs.Flats.{statement_of, statements_of, arms_list_of, flat_of};

use crate::expr::{Expr, LockRef, Lvalue};
use crate::flat::{Arm, Flat, Statement};
use ido_ints::Binary;

/// How many numbers, names, elements and their addresses, operators and casts an expression has. Past
/// 2^64 - 1 it is answered as that.
pub fn nodes(expr: &Expr) -> u64
    ensures { result ≡ min (nodes_of (expr_of expr.now)) u64.MAX }
{
    match expr {
        Expr::Constant { .. }
        | Expr::Local { .. }
        | Expr::Variable { .. }
        | Expr::Referent { .. } => 1,
        Expr::Element { index, .. } | Expr::Address { index, .. } => {
            nodes(index).saturating_add(1)
        }
        Expr::Unary { operand, .. } | Expr::Cast { operand, .. } => {
            nodes(operand).saturating_add(1)
        }
        Expr::Converted { operand, .. } => nodes(operand),
        Expr::Binary { left, right, .. } => {
            let left = nodes(left);
            let right = nodes(right);
            left.saturating_add(right).saturating_add(1)
        }
        Expr::Conditional {
            condition,
            then,
            otherwise,
            ..
        } => {
            let condition = nodes(condition);
            let then = nodes(then);
            let otherwise = nodes(otherwise);
            condition
                .saturating_add(then)
                .saturating_add(otherwise)
                .saturating_add(1)
        }
    }
}

/// The right operand is held alone.
fn is_logical(operator: Binary) -> bool
    ensures { result ≡ is_logical operator }
{
    matches!(operator, Binary::LogicalAnd | Binary::LogicalOr)
}

/// The need of two operands that are held at once.
fn need_of_both(left: u32, right: u32) -> u32
    ensures { result ≡ min (need_of_both left right) u32.MAX }
{
    if left == right {
        left.saturating_add(1)
    } else {
        left.max(right)
    }
}

/// How many temporaries an expression needs, from 1. Past 2^32 - 1 it is answered as that.
pub fn need(expr: &Expr) -> u32
    ensures { result ≡ min (need_of (expr_of expr.now)) u32.MAX }
{
    match expr {
        Expr::Constant { .. }
        | Expr::Local { .. }
        | Expr::Variable { .. }
        | Expr::Referent { .. } => 1,
        Expr::Element { index, .. } | Expr::Address { index, .. } => need(index),
        Expr::Unary { operand, .. }
        | Expr::Cast { operand, .. }
        | Expr::Converted { operand, .. } => need(operand),
        Expr::Binary {
            operator,
            left,
            right,
        } => {
            let left = need(left);
            let right = need(right);
            if is_logical(*operator) {
                left.max(right)
            } else {
                need_of_both(left, right)
            }
        }
        Expr::Conditional {
            condition,
            then,
            otherwise,
            ..
        } => {
            let condition = need(condition);
            let then = need(then);
            let otherwise = need(otherwise);
            condition.max(then.max(otherwise))
        }
    }
}

/// The price of a node with so many nodes of expressions.
fn node_price(nodes: u64) -> u64
    ensures { result ≡ min (node_price nodes) u64.MAX }
{
    nodes.saturating_mul(16).saturating_add(96)
}

/// The price of an assignment.
fn assign_price(target: &Lvalue, value: u64) -> u64
    ensures { result ≡ min (assign_price (lvalue_of target.now) value) u64.MAX }
{
    match target {
        Lvalue::Local { .. } => node_price(value),
        Lvalue::Variable { .. } => node_price(value).saturating_add(96),
        Lvalue::Element { index, .. } => {
            let index = nodes(&index.expr);
            node_price(index.saturating_add(value)).saturating_add(96)
        }
    }
}

/// How many nodes the key of a lock's name has; none where there is no key.
pub fn key_nodes(lock: LockRef<'_>) -> u64
    ensures { result ≡ min (key_nodes (lock_ref_of lock.entry)) u64.MAX }
{
    match lock.key {
        Some(key) => nodes(key.expr),
        None => 0,
    }
}

/// The price of a condition and what is done where it holds.
#[cycle(prices)]
fn test_price(body: &[Statement], condition: &Expr) -> u64
    ensures { result ≡ min (node_price (nodes_of (expr_of condition.now)) + statements_price (statements_of body.now)) u64.MAX }
{
    node_price(nodes(condition)).saturating_add(statements_price(body))
}

/// The price of a statement.
#[cycle(prices)]
fn statement_price(statement: &Statement) -> u64
    ensures { result ≡ min (statement_price (statement_of statement.now)) u64.MAX }
{
    match statement {
        Statement::Assign { target, value, .. } => assign_price(target, nodes(&value.expr)),
        Statement::If {
            arms,
            otherwise,
            ..
        } => arms_price(arms).saturating_add(statements_price(otherwise)),
        Statement::While {
            condition,
            body,
            ..
        } => test_price(body, &condition.expr),
        Statement::Do {
            body,
            condition,
            ..
        } => test_price(body, &condition.expr),
        Statement::Lock { lock, .. } => node_price(key_nodes(lock.as_ref())),
        Statement::Unlock { lock, .. } => node_price(key_nodes(lock.as_ref())),
    }
}

/// The price of statements.
#[cycle(prices)]
fn statements_price(statements: &[Statement]) -> u64
    ensures { result ≡ min (statements_price (statements_of statements.now)) u64.MAX }
{
    let mut price: u64 = 0;
    for statement in statements {
        price = price.saturating_add(statement_price(statement));
    }
    price
}

/// The price of conditions with what is done where they hold.
#[cycle(prices)]
fn arms_price(arms: &[Arm]) -> u64
    ensures { result ≡ min (arms_price (arms_list_of arms.now)) u64.MAX }
{
    let mut price: u64 = 0;
    for arm in arms {
        price = price.saturating_add(test_price(&arm.body, &arm.condition.expr));
    }
    price
}

/// The price of a thread: 96 for each of its steps and 16 for each node of their expressions. Past
/// 2^64 - 1 it is answered as that.
pub fn price(flat: &Flat, thread: u32) -> u64
    requires { thread < length flat.now.threads.items }
    ensures { IfSome (slice_get (flat_of flat.now).threads thread) (λ x. result ≡ min (thread_price x) u64.MAX) }
{
    statements_price(&flat.threads[thread as usize].body).saturating_add(96)
}
