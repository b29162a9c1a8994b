//! The indexes of a program that may not name elements of their arrays.
ghost use Rattle.std.specs.Prelude.{◌≡◌, map, flat_map};
ghost use Rattle.std.specs.Option.{option_map};
ghost use Rattle.c_tree.specs.Exprs.{expr_of, placed_of, lvalue_of, lock_name_of};
ghost use Rattle.c_tree.specs.Programs.{program_of, statement_of, statements_of, arms_list_of, returned_of};
ghost use Rattle.c_tree.specs.Ranges.{elements_of, mutexes_of, expr_indexes, placed_indexes, target_indexes, lock_indexes};
ghost use Rattle.c_tree.specs.Ranges.{statement_indexes, statements_indexes, arms_indexes, result_indexes, returned_indexes, program_indexes};
ghost use Rattle.c_ranges.specs.links.FirstUnfitIndex.{functions_indexes, threads_indexes, fault_at, earlier, first_fault};

use crate::expression::range;
use crate::interval::Interval;
use c_tree::expr::{Expr, LockName, Lvalue, Placed};
use c_tree::program::{Arm, Function, Program, Returned, Statement, Thread};
use ido_base::place::Place;
use thiserror::Error;

/// An index that may lie outside its array.
#[derive(Clone, Copy, PartialEq, Eq, Debug, Error)]
#[error("an index of an array of {length} elements may be anything from {} to {}", .range.lo, .range.hi)]
pub struct IndexError {
    /// The place of the index's first token.
    pub place: Place,
    /// The range of the index.
    pub range: Interval,
    /// How many elements the array has.
    pub length: u32,
}

/// The first index by place that may not name an element of its array, if there is one.
pub(crate) fn first_unfit(program: &Program) -> Option<IndexError>
    ensures { result ≡ first_fault (program_of program.now) (program_indexes (program_of program.now)) }
{
    let functions = of_functions(program, &program.functions);
    let threads = of_threads(program, &program.threads);
    earlier(functions, threads)
}

/// Of two answers, the one of the lesser place.
fn earlier(first: Option<IndexError>, second: Option<IndexError>) -> Option<IndexError>
    ensures { result ≡ earlier first second }
{
    match (first, second) {
        (None, second) => second,
        (Some(a), None) => Some(a),
        (Some(a), Some(b)) => {
            if a.place.0 <= b.place.0 {
                Some(a)
            } else {
                Some(b)
            }
        }
    }
}

/// The first fault of functions.
fn of_functions(program: &Program, functions: &[Function]) -> Option<IndexError>
    ensures { result ≡ first_fault (program_of program.now) (functions_indexes functions.now) }
{
    let mut first = None;
    for function in functions {
        first = earlier(first, of_statements(program, &function.body));
        first = earlier(first, of_returned(program, &function.result));
    }
    first
}

/// The first fault of a function's result.
fn of_returned(program: &Program, returned: &Option<Returned>) -> Option<IndexError>
    ensures { result ≡ first_fault (program_of program.now) (returned_indexes (option_map returned_of returned.now)) }
{
    match returned {
        Some(returned) => of_placed(program, &returned.value),
        None => None,
    }
}

/// The first fault of threads.
fn of_threads(program: &Program, threads: &[Thread]) -> Option<IndexError>
    ensures { result ≡ first_fault (program_of program.now) (threads_indexes threads.now) }
{
    let mut first = None;
    for thread in threads {
        first = earlier(first, of_statements(program, &thread.body));
    }
    first
}

/// The first fault of statements.
#[cycle(statements)]
fn of_statements(program: &Program, statements: &[Statement]) -> Option<IndexError>
    ensures { result ≡ first_fault (program_of program.now) (statements_indexes (statements_of statements.now)) }
{
    let mut first = None;
    for statement in statements {
        first = earlier(first, of_statement(program, statement));
    }
    first
}

/// The first fault of a statement.
#[cycle(statements)]
fn of_statement(program: &Program, statement: &Statement) -> Option<IndexError>
    ensures { result ≡ first_fault (program_of program.now) (statement_indexes (statement_of statement.now)) }
{
    match statement {
        Statement::Assign { target, value, .. } => {
            earlier(of_target(program, target), of_placed(program, value))
        }
        Statement::Call {
            arguments,
            result: assigned,
            ..
        } => earlier(
            of_arguments(program, arguments),
            of_assigned(program, assigned),
        ),
        Statement::If {
            arms,
            otherwise,
            ..
        } => earlier(of_arms(program, arms), of_statements(program, otherwise)),
        Statement::While {
            condition,
            body,
            ..
        } => earlier(of_placed(program, condition), of_statements(program, body)),
        Statement::Do {
            body,
            condition,
            ..
        } => earlier(of_statements(program, body), of_placed(program, condition)),
        Statement::Lock { lock, .. } | Statement::Unlock { lock, .. } => of_lock(program, lock),
    }
}

/// The first fault of arms.
#[cycle(statements)]
fn of_arms(program: &Program, arms: &[Arm]) -> Option<IndexError>
    ensures { result ≡ first_fault (program_of program.now) (arms_indexes (arms_list_of arms.now)) }
{
    let mut first = None;
    for arm in arms {
        first = earlier(first, of_placed(program, &arm.condition));
        first = earlier(first, of_statements(program, &arm.body));
    }
    first
}

/// The first fault of a call's arguments.
fn of_arguments(program: &Program, arguments: &[Placed]) -> Option<IndexError>
    ensures { result ≡ first_fault (program_of program.now) (flat_map placed_indexes (map placed_of arguments.now)) }
{
    let mut first = None;
    for argument in arguments {
        first = earlier(first, of_placed(program, argument));
    }
    first
}

/// The first fault of the target of a call's result.
fn of_assigned(program: &Program, target: &Option<Lvalue>) -> Option<IndexError>
    ensures { result ≡ first_fault (program_of program.now) (result_indexes (option_map lvalue_of target.now)) }
{
    match target {
        Some(target) => of_target(program, target),
        None => None,
    }
}

/// The first fault of a lock's name.
fn of_lock(program: &Program, lock: &LockName) -> Option<IndexError>
    ensures { result ≡ first_fault (program_of program.now) (lock_indexes (lock_name_of lock.now)) }
{
    match &lock.key {
        None => None,
        Some(key) => {
            let all = mutexes(program, lock.mutex);
            earlier(of_index(all, key.place, &key.expr), of_placed(program, key))
        }
    }
}

/// The first fault of a target.
fn of_target(program: &Program, target: &Lvalue) -> Option<IndexError>
    ensures { result ≡ first_fault (program_of program.now) (target_indexes (lvalue_of target.now)) }
{
    match target {
        Lvalue::Local { .. } | Lvalue::Variable { .. } => None,
        Lvalue::Element {
            variable,
            index,
            ..
        } => earlier(
            of_index(elements(program, *variable), index.place, &index.expr),
            of_placed(program, index),
        ),
    }
}

/// The first fault of an expression with its place.
fn of_placed(program: &Program, placed: &Placed) -> Option<IndexError>
    ensures { result ≡ first_fault (program_of program.now) (placed_indexes (placed_of placed.now)) }
{
    of_expr(program, &placed.expr)
}

/// The first fault of an expression.
fn of_expr(program: &Program, expr: &Expr) -> Option<IndexError>
    ensures { result ≡ first_fault (program_of program.now) (expr_indexes (expr_of expr.now)) }
{
    match expr {
        Expr::Constant { .. }
        | Expr::Local { .. }
        | Expr::Variable { .. }
        | Expr::Referent { .. } => None,
        Expr::Element {
            variable,
            index_place,
            index,
            ..
        } => earlier(
            of_index(elements(program, *variable), *index_place, index),
            of_expr(program, index),
        ),
        Expr::Address {
            variable,
            index_place,
            index,
        } => earlier(
            of_index(elements(program, *variable), *index_place, index),
            of_expr(program, index),
        ),
        Expr::Unary { operand, .. }
        | Expr::Cast { operand, .. }
        | Expr::Converted { operand, .. } => of_expr(program, operand),
        Expr::Binary { left, right, .. } => {
            earlier(of_expr(program, left), of_expr(program, right))
        }
        Expr::Conditional {
            condition,
            then,
            otherwise,
            ..
        } => {
            let first = earlier(of_expr(program, condition), of_expr(program, then));
            earlier(first, of_expr(program, otherwise))
        }
    }
}

/// The fault of an index into so many elements, if it has one.
fn of_index(length: u32, place: Place, index: &Expr) -> Option<IndexError>
    ensures { result ≡ fault_at length place (expr_of index.now) }
{
    let range = range(index);
    let all = Interval {
        lo: 0,
        hi: i128::from(length) - 1,
    };
    if range.lies_in(all) {
        None
    } else {
        Some(IndexError {
            place,
            range,
            length,
        })
    }
}

/// How many elements a variable has for an index.
fn elements(program: &Program, variable: u32) -> u32
    ensures { result ≡ elements_of (program_of program.now).variables variable }
{
    match program.variables.get(variable as usize) {
        Some(variable) => variable.length.unwrap_or(0),
        None => 0,
    }
}

/// How many mutexes the array has that begins with the one of that number.
fn mutexes(program: &Program, first: u32) -> u32
    ensures { result ≡ mutexes_of (program_of program.now).mutexes first }
{
    match program.mutexes.get(first as usize) {
        Some(mutex) => mutex.length.unwrap_or(0),
        None => 0,
    }
}
