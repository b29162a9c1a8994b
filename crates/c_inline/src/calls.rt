//! The calls in functions.
ghost use Rattle.std.specs.Prelude.{◌≡◌, ◌++◌, map, IfOk, OnOk};
ghost use Rattle.c_tree.specs.Inlining.{statement_calls, statements_calls, arms_calls};
ghost use Rattle.c_tree.specs.Programs.{statement_of, statements_of, arms_list_of, function_of};
ghost use Rattle.c_inline.specs.links.Calls.{calls_of, function_calls, lists_of};

use c_tree::program::{Arm, Function, Statement};
use ido_base::place::Place;
use std::alloc::{AllocError, Global};

/// A call: the number of the function that is called, and where its name stands.
#[derive(Clone, Copy)]
pub struct Call {
    pub place: Place,
    pub function: u32,
}

/// Appends the calls in a statement.
#[cycle(calls)]
fn add_statement(statement: &Statement, calls: &mut Vec<Call>) -> Result<(), AllocError>
    ensures { OnOk result (calls_of calls.new.items ≡ calls_of calls.old.items ++ statement_calls (statement_of statement.now)) }
{
    match statement {
        Statement::Call { name, function, .. } => {
            calls.push(Call {
                place: *name,
                function: *function,
            })?;
            Ok(())
        }
        Statement::If {
            arms,
            otherwise,
            ..
        } => {
            add_arms(arms, calls)?;
            add_statements(otherwise, calls)
        }
        Statement::While { body, .. } => add_statements(body, calls),
        Statement::Do { body, .. } => add_statements(body, calls),
        Statement::Assign { .. } | Statement::Lock { .. } | Statement::Unlock { .. } => Ok(()),
    }
}

/// Appends the calls in statements.
#[cycle(calls)]
fn add_statements(statements: &[Statement], calls: &mut Vec<Call>) -> Result<(), AllocError>
    ensures { OnOk result (calls_of calls.new.items ≡ calls_of calls.old.items ++ statements_calls (statements_of statements.now)) }
{
    for statement in statements {
        add_statement(statement, calls)?;
    }
    Ok(())
}

/// Appends the calls in what is done where conditions hold.
#[cycle(calls)]
fn add_arms(arms: &[Arm], calls: &mut Vec<Call>) -> Result<(), AllocError>
    ensures { OnOk result (calls_of calls.new.items ≡ calls_of calls.old.items ++ arms_calls (arms_list_of arms.now)) }
{
    for arm in arms {
        add_statements(&arm.body, calls)?;
    }
    Ok(())
}

/// The calls in statements.
fn statements_calls(alloc: Global, statements: &[Statement]) -> Result<Vec<Call>, AllocError>
    ensures { IfOk result (λ calls. calls_of calls.items ≡ statements_calls (statements_of statements.now)) }
{
    let mut calls = Vec::new(alloc);
    add_statements(statements, &mut calls)?;
    Ok(calls)
}

/// The calls in each function.
pub fn function_calls(alloc: Global, functions: &[Function]) -> Result<Vec<Vec<Call>>, AllocError>
    ensures { IfOk result (λ calls. lists_of calls.items ≡ map function_calls (map function_of functions.now)) }
{
    let mut all = Vec::new(alloc);
    for function in functions {
        let calls = statements_calls(alloc, &function.body)?;
        all.push(calls)?;
    }
    Ok(all)
}
