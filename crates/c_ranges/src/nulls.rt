//! The places of a program where a reference may be null.
ghost use Rattle.std.specs.Prelude.{◌≡◌, ◌++◌, map, flat_map, true, IfOk, OnOk};
ghost use Rattle.std.specs.Option.{option_map};
ghost use Rattle.c_tree.specs.Exprs.{expr_of, placed_of, lvalue_of, lock_name_of};
ghost use Rattle.c_tree.specs.NullReferences.{unnull, is_among, known_with, known_in};
ghost use Rattle.c_tree.specs.NullReferences.{result_assigned, statement_assigned, statements_assigned, arms_assigned};
ghost use Rattle.c_tree.specs.NullReferences.{expr_nulls, placed_nulls, target_nulls, result_nulls, lock_nulls, statement_nulls, statements_nulls};
ghost use Rattle.c_tree.specs.NullReferences.{arms_nulls, returned_nulls, program_nulls};
ghost use Rattle.c_tree.specs.Programs.{program_of, statement_of, statements_of, arms_list_of, returned_of};
ghost use Rattle.c_ranges.specs.links.FirstNull.{functions_nulls, threads_nulls};

use crate::known::{add_target_assigned, is_among, unnull};
use c_tree::expr::{Expr, LockName, Lvalue, Placed};
use c_tree::program::{Arm, Function, Program, Returned, Statement, Thread};
use ido_base::place::Place;
use std::alloc::{AllocError, Global};

/// All places of the program where a reference may be null.
pub(crate) fn null_places(alloc: Global, program: &Program) -> Result<Vec<Place>, AllocError>
    ensures { IfOk result (λ places. places.items ≡ program_nulls (program_of program.now)) }
{
    let mut places = Vec::new(alloc);
    add_functions(alloc, &mut places, &program.functions)?;
    add_threads(alloc, &mut places, &program.threads)?;
    Ok(places)
}

/// Adds the local that a call's result is assigned to, if there is one.
fn add_result_assigned(locals: &mut Vec<u32>, target: &Option<Lvalue>) -> Result<(), AllocError>
    ensures { OnOk result (locals.new.items ≡ locals.old.items ++ result_assigned (option_map lvalue_of target.now)) }
{
    match target {
        Some(target) => add_target_assigned(locals, target),
        None => Ok(()),
    }
}

/// Adds the locals that a statement assigns.
#[cycle(assigned)]
fn add_assigned(locals: &mut Vec<u32>, statement: &Statement) -> Result<(), AllocError>
    ensures { OnOk result (locals.new.items ≡ locals.old.items ++ statement_assigned (statement_of statement.now)) }
{
    match statement {
        Statement::Assign { target, .. } => add_target_assigned(locals, target),
        Statement::Call { result: target, .. } => add_result_assigned(locals, target),
        Statement::If {
            arms,
            otherwise,
            ..
        } => {
            add_arms_assigned(locals, arms)?;
            add_all_assigned(locals, otherwise)
        }
        Statement::While { body, .. } => add_all_assigned(locals, body),
        Statement::Do { body, .. } => add_all_assigned(locals, body),
        Statement::Lock { .. } | Statement::Unlock { .. } => Ok(()),
    }
}

/// Adds the locals that statements assign.
#[cycle(assigned)]
fn add_all_assigned(locals: &mut Vec<u32>, statements: &[Statement]) -> Result<(), AllocError>
    ensures { OnOk result (locals.new.items ≡ locals.old.items ++ statements_assigned (statements_of statements.now)) }
{
    for statement in statements {
        add_assigned(locals, statement)?;
    }
    Ok(())
}

/// Adds the locals that the blocks of arms assign.
#[cycle(assigned)]
fn add_arms_assigned(locals: &mut Vec<u32>, arms: &[Arm]) -> Result<(), AllocError>
    ensures { OnOk result (locals.new.items ≡ locals.old.items ++ arms_assigned (arms_list_of arms.now)) }
{
    for arm in arms {
        add_all_assigned(locals, &arm.body)?;
    }
    Ok(())
}

/// Whether statements assign the local.
fn is_assigned(alloc: Global, body: &[Statement], local: u32) -> Result<bool, AllocError>
    ensures { IfOk result (λ is. is ≡ is_among (statements_assigned (statements_of body.now)) local) }
{
    let mut assigned = Vec::new(alloc);
    add_all_assigned(&mut assigned, body)?;
    Ok(is_among(&assigned, local))
}

/// The locals that are known not to be null in a block, from those that are known before it and one that isn't null there.
fn known_with(
    alloc: Global,
    known: &[u32],
    body: &[Statement],
    local: Option<u32>,
) -> Result<Vec<u32>, AllocError>
    ensures { IfOk result (λ all. all.items ≡ known_with known.now (statements_of body.now) local) }
{
    let mut all = known.to_vec(alloc)?;
    match local {
        None => Ok(all),
        Some(local) => {
            let assigned = is_assigned(alloc, body, local)?;
            if !assigned {
                all.push(local)?;
            }
            Ok(all)
        }
    }
}

/// The locals that are known not to be null in the block of an arm, from those that are known before its `if`.
fn known_in(
    alloc: Global,
    known: &[u32],
    first: bool,
    condition: &Placed,
    body: &[Statement],
) -> Result<Vec<u32>, AllocError>
    ensures { IfOk result (λ all. all.items ≡ known_in known.now first (placed_of condition.now) (statements_of body.now)) }
{
    if first {
        known_with(alloc, known, body, unnull(&condition.expr))
    } else {
        Ok(known.to_vec(alloc)?)
    }
}

/// Adds the places of an expression.
fn add_expr(places: &mut Vec<Place>, known: &[u32], expr: &Expr) -> Result<(), AllocError>
    ensures { OnOk result (places.new.items ≡ places.old.items ++ expr_nulls known.now (expr_of expr.now)) }
{
    match expr {
        Expr::Constant { .. } | Expr::Local { .. } | Expr::Variable { .. } => {}
        Expr::Referent { place, local, .. } => {
            if !is_among(known, *local) {
                places.push(*place)?;
            }
        }
        Expr::Element { index, .. } | Expr::Address { index, .. } => {
            add_expr(places, known, index)?;
        }
        Expr::Unary { operand, .. }
        | Expr::Cast { operand, .. }
        | Expr::Converted { operand, .. } => add_expr(places, known, operand)?,
        Expr::Binary { left, right, .. } => {
            add_expr(places, known, left)?;
            add_expr(places, known, right)?;
        }
        Expr::Conditional {
            condition,
            then,
            otherwise,
            ..
        } => {
            add_expr(places, known, condition)?;
            add_expr(places, known, then)?;
            add_expr(places, known, otherwise)?;
        }
    }
    Ok(())
}

/// Adds the places of an expression with its place.
fn add_placed(places: &mut Vec<Place>, known: &[u32], placed: &Placed) -> Result<(), AllocError>
    ensures { OnOk result (places.new.items ≡ places.old.items ++ placed_nulls known.now (placed_of placed.now)) }
{
    add_expr(places, known, &placed.expr)
}

/// Adds the places of a target.
fn add_target(places: &mut Vec<Place>, known: &[u32], target: &Lvalue) -> Result<(), AllocError>
    ensures { OnOk result (places.new.items ≡ places.old.items ++ target_nulls known.now (lvalue_of target.now)) }
{
    match target {
        Lvalue::Local { .. } | Lvalue::Variable { .. } => Ok(()),
        Lvalue::Element { index, .. } => add_placed(places, known, index),
    }
}

/// Adds the places of the target of a call's result.
fn add_result(
    places: &mut Vec<Place>,
    known: &[u32],
    target: &Option<Lvalue>,
) -> Result<(), AllocError>
    ensures { OnOk result (places.new.items ≡ places.old.items ++ result_nulls known.now (option_map lvalue_of target.now)) }
{
    match target {
        Some(target) => add_target(places, known, target),
        None => Ok(()),
    }
}

/// Adds the places of a lock's name.
fn add_lock(places: &mut Vec<Place>, known: &[u32], lock: &LockName) -> Result<(), AllocError>
    ensures { OnOk result (places.new.items ≡ places.old.items ++ lock_nulls known.now (lock_name_of lock.now)) }
{
    match &lock.key {
        Some(key) => add_placed(places, known, key),
        None => Ok(()),
    }
}

/// Adds the places of a call's arguments.
fn add_arguments(
    places: &mut Vec<Place>,
    known: &[u32],
    arguments: &[Placed],
) -> Result<(), AllocError>
    ensures { OnOk result (places.new.items ≡ places.old.items ++ flat_map (placed_nulls known.now) (map placed_of arguments.now)) }
{
    for argument in arguments {
        add_placed(places, known, argument)?;
    }
    Ok(())
}

/// Adds the places of a statement.
#[cycle(nulls)]
fn add_statement(
    alloc: Global,
    places: &mut Vec<Place>,
    known: &[u32],
    statement: &Statement,
) -> Result<(), AllocError>
    ensures { OnOk result (places.new.items ≡ places.old.items ++ statement_nulls known.now (statement_of statement.now)) }
{
    match statement {
        Statement::Assign { target, value, .. } => {
            add_target(places, known, target)?;
            add_placed(places, known, value)
        }
        Statement::Call {
            arguments,
            result: target,
            ..
        } => {
            add_arguments(places, known, arguments)?;
            add_result(places, known, target)
        }
        Statement::If {
            arms,
            otherwise,
            ..
        } => {
            add_arms(alloc, places, known, arms)?;
            add_statements(alloc, places, known, otherwise)
        }
        Statement::While {
            condition,
            body,
            ..
        } => {
            add_placed(places, known, condition)?;
            add_statements(alloc, places, known, body)
        }
        Statement::Do {
            body,
            condition,
            ..
        } => {
            add_statements(alloc, places, known, body)?;
            add_placed(places, known, condition)
        }
        Statement::Lock { lock, .. } | Statement::Unlock { lock, .. } => {
            add_lock(places, known, lock)
        }
    }
}

/// Adds the places of statements.
#[cycle(nulls)]
fn add_statements(
    alloc: Global,
    places: &mut Vec<Place>,
    known: &[u32],
    statements: &[Statement],
) -> Result<(), AllocError>
    ensures { OnOk result (places.new.items ≡ places.old.items ++ statements_nulls known.now (statements_of statements.now)) }
{
    for statement in statements {
        add_statement(alloc, places, known, statement)?;
    }
    Ok(())
}

/// Adds the places of the arms of an `if`.
#[cycle(nulls)]
fn add_arms(
    alloc: Global,
    places: &mut Vec<Place>,
    known: &[u32],
    arms: &[Arm],
) -> Result<(), AllocError>
    ensures { OnOk result (places.new.items ≡ places.old.items ++ arms_nulls known.now true (arms_list_of arms.now)) }
{
    let mut first = true;
    for arm in arms {
        add_placed(places, known, &arm.condition)?;
        let inner = known_in(alloc, known, first, &arm.condition, &arm.body)?;
        add_statements(alloc, places, &inner, &arm.body)?;
        first = false;
    }
    Ok(())
}

/// Adds the places of a function's result.
fn add_returned(places: &mut Vec<Place>, returned: &Option<Returned>) -> Result<(), AllocError>
    ensures { OnOk result (places.new.items ≡ places.old.items ++ returned_nulls (option_map returned_of returned.now)) }
{
    match returned {
        Some(returned) => add_placed(places, &[], &returned.value),
        None => Ok(()),
    }
}

/// Adds the places of functions.
fn add_functions(
    alloc: Global,
    places: &mut Vec<Place>,
    functions: &[Function],
) -> Result<(), AllocError>
    ensures { OnOk result (places.new.items ≡ places.old.items ++ functions_nulls functions.now) }
{
    for function in functions {
        add_statements(alloc, places, &[], &function.body)?;
        add_returned(places, &function.result)?;
    }
    Ok(())
}

/// Adds the places of threads.
fn add_threads(alloc: Global, places: &mut Vec<Place>, threads: &[Thread]) -> Result<(), AllocError>
    ensures { OnOk result (places.new.items ≡ places.old.items ++ threads_nulls threads.now) }
{
    for thread in threads {
        add_statements(alloc, places, &[], &thread.body)?;
    }
    Ok(())
}
