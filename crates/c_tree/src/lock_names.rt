//! The names by which a thread takes locks, each with a number, and what guards a variable.
ghost use Rattle.std.specs.Prelude.{◌≡◌, List, [], ◌∷◌, ◌++◌, filter, map, ◌==◌, IfOk};
ghost use Rattle.std.specs.List.{list_any};
ghost use Rattle.std.specs.Option.{option_map};
ghost use Rattle.c_tree.specs.Exprs as e;
ghost use Rattle.c_tree.specs.Exprs.{expr_of, placed_ref_of, lock_ref_of};
ghost use Rattle.c_tree.specs.Flats.{statement_of, statements_of, arms_list_of};
ghost use Rattle.c_tree.specs.Programs as program;
ghost use Rattle.c_tree.specs.Programs.{mutex_of, variable_of};
ghost use Rattle.c_tree.specs.LockDiscipline.{expr_locals, key_locals, variable_guard};
ghost use Rattle.c_tree.specs.LockNames.{same_typed, same_expr, same_key, same_lock};
ghost use Rattle.c_tree.specs.LockNames.{locks_in, locks_in_all, locks_in_arms, once, names_from, number_in};
ghost use Rattle.c_tree.specs.links.KnownNames.{names_of, known_then, names_at};

use crate::expr::{Expr, LockRef, PlacedRef};
use crate::flat::{Arm, Statement};
use crate::program::{Guard, Mutex, Variable};
use ido_ints::Value;
use std::alloc::{AllocError, Global};

fn same_value(one: Value, other: Value) -> bool
    ensures { result ≡ same_typed one other }
{
    one.kind() == other.kind() && one.number() == other.number()
}

/// Two expressions are one typed tree over the same locals; one that reads a variable is none.
fn same_expr(one: &Expr, other: &Expr) -> bool
    ensures { result ≡ same_expr (expr_of one.now) (expr_of other.now) }
{
    match one {
        Expr::Constant { value } => match other {
            Expr::Constant { value: with } => same_value(*value, *with),
            _ => false,
        },
        Expr::Local { local, kind } => match other {
            Expr::Local {
                local: with,
                kind: to,
            } => *local == *with && *kind == *to,
            _ => false,
        },
        Expr::Variable { .. } | Expr::Element { .. } => false,
        Expr::Address {
            variable,
            index,
            ..
        } => match other {
            Expr::Address {
                variable: of,
                index: with,
                ..
            } => *variable == *of && same_expr(index, with),
            _ => false,
        },
        Expr::Referent { last, local, .. } => match other {
            Expr::Referent {
                last: end,
                local: with,
                ..
            } => *last == *end && *local == *with,
            _ => false,
        },
        Expr::Unary { operator, operand } => match other {
            Expr::Unary {
                operator: by,
                operand: with,
            } => *operator == *by && same_expr(operand, with),
            _ => false,
        },
        Expr::Cast { kind, operand } => match other {
            Expr::Cast {
                kind: to,
                operand: with,
            } => *kind == *to && same_expr(operand, with),
            _ => false,
        },
        Expr::Converted { kind, operand } => match other {
            Expr::Converted {
                kind: to,
                operand: with,
            } => *kind == *to && same_expr(operand, with),
            _ => false,
        },
        Expr::Binary {
            operator,
            left,
            right,
        } => match other {
            Expr::Binary {
                operator: by,
                left: first,
                right: last,
            } => { *operator == *by && same_expr(left, first) && same_expr(right, last) }
            _ => false,
        },
        Expr::Conditional {
            kind,
            condition,
            then,
            otherwise,
        } => match other {
            Expr::Conditional {
                kind: to,
                condition: test,
                then: first,
                otherwise: last,
            } => {
                *kind == *to
                    && same_expr(condition, test)
                    && same_expr(then, first)
                    && same_expr(otherwise, last)
            }
            _ => false,
        },
    }
}

fn same_key(one: Option<PlacedRef<'_>>, other: Option<PlacedRef<'_>>) -> bool
    ensures { result ≡ same_key (option_map placed_ref_of one.entry) (option_map placed_ref_of other.entry) }
{
    match (one, other) {
        (None, None) => true,
        (None, Some(_)) | (Some(_), None) => false,
        (Some(one), Some(other)) => same_expr(one.expr, other.expr),
    }
}

/// Two spellings of one name, wherever they stand.
pub fn same_lock(one: LockRef<'_>, other: LockRef<'_>) -> bool
    ensures { result ≡ same_lock (lock_ref_of one.entry) (lock_ref_of other.entry) }
{
    one.mutex == other.mutex && same_key(one.key, other.key)
}

/// The number of a name among those of a thread; past all of them where it isn't there.
pub fn number_in(names: &[LockRef<'_>], lock: LockRef<'_>) -> usize
    ensures { result ≡ number_in (names_of names.now) (lock_ref_of lock.entry) }
{
    for (number, name) in names.iter().enumerate() {
        if same_lock(lock, *name) {
            return number;
        }
    }
    names.len()
}

/// What guards the variable; mutex 0 where there is no such variable.
pub fn variable_guard(variables: &[Variable], variable: u32) -> Guard
    ensures { program.guard_of result ≡ variable_guard (map variable_of variables.now) variable }
{
    match variables.get(variable as usize) {
        Some(found) => found.guard,
        None => Guard::By { mutex: 0 },
    }
}

/// Some of the names is the lock's.
fn has(names: &[LockRef<'_>], lock: LockRef<'_>) -> bool
    ensures { result ≡ list_any (same_lock (lock_ref_of lock.entry)) (names_of names.now) }
{
    for name in names {
        if same_lock(lock, *name) {
            return true;
        }
    }
    false
}

/// Adds a name, where it is new.
fn add<'a>(names: &mut Vec<LockRef<'a>>, lock: LockRef<'a>) -> Result<(), AllocError>
    ensures { IfOk result (λ _. (rest : List e.LockName) →
        known_then (names_of names.new.items) rest ≡ known_then (names_of names.old.items) (lock_ref_of lock.entry ∷ rest)) }
{
    if has(names, lock) {
        return Ok(());
    }
    names.push(lock)?;
    Ok(())
}

/// Adds the names that a statement locks.
#[cycle(names)]
fn add_statement<'a>(
    names: &mut Vec<LockRef<'a>>,
    statement: &'a Statement,
) -> Result<(), AllocError>
    ensures { IfOk result (λ _. (rest : List e.LockName) →
        known_then (names_of names.new.items) rest ≡ known_then (names_of names.old.items) (locks_in (statement_of statement.now) ++ rest)) }
{
    match statement {
        Statement::Assign { .. } | Statement::Unlock { .. } => Ok(()),
        Statement::If {
            arms,
            otherwise,
            ..
        } => {
            add_arms(names, arms)?;
            add_statements(names, otherwise)
        }
        Statement::While { body, .. } => add_statements(names, body),
        Statement::Do { body, .. } => add_statements(names, body),
        Statement::Lock { lock, .. } => add(names, lock.as_ref()),
    }
}

/// Adds the names that statements lock.
#[cycle(names)]
fn add_statements<'a>(
    names: &mut Vec<LockRef<'a>>,
    statements: &'a [Statement],
) -> Result<(), AllocError>
    ensures { IfOk result (λ _. (rest : List e.LockName) →
        known_then (names_of names.new.items) rest ≡ known_then (names_of names.old.items) (locks_in_all (statements_of statements.now) ++ rest)) }
{
    for statement in statements {
        add_statement(names, statement)?;
    }
    Ok(())
}

/// Adds the names that the arms of an `if` lock.
#[cycle(names)]
fn add_arms<'a>(names: &mut Vec<LockRef<'a>>, arms: &'a [Arm]) -> Result<(), AllocError>
    ensures { IfOk result (λ _. (rest : List e.LockName) →
        known_then (names_of names.new.items) rest ≡ known_then (names_of names.old.items) (locks_in_arms (arms_list_of arms.now) ++ rest)) }
{
    for arm in arms {
        add_statements(names, &arm.body)?;
    }
    Ok(())
}

/// Adds those of the known names that are of the mutex of that number.
fn add_elements<'a>(
    names: &mut Vec<LockRef<'a>>,
    number: u32,
    known: &[LockRef<'a>],
) -> Result<(), AllocError>
    ensures { IfOk result (λ _. names_of names.new.items ≡ names_of names.old.items ++ filter (λ (x : e.LockName). x.mutex == number) (names_of known.now)) }
{
    for name in known {
        if name.mutex == number {
            names.push(*name)?;
        }
    }
    Ok(())
}

/// Adds the names of the mutex of that number, where its array has so many elements.
fn add_mutex<'a>(
    names: &mut Vec<LockRef<'a>>,
    number: u32,
    count: Option<u32>,
    known: &[LockRef<'a>],
) -> Result<(), AllocError>
    ensures { IfOk result (λ _. names_of names.new.items ≡ names_of names.old.items ++ names_at number count (names_of known.now)) }
{
    match count {
        None => {
            names.push(LockRef {
                mutex: number,
                key: None,
            })?;
            Ok(())
        }
        Some(_) => add_elements(names, number, known),
    }
}

/// The number, where it is one of a mutex; beyond 2^32 - 1 there is no memory for so many.
fn mutex_number(index: usize) -> Result<u32, AllocError>
    ensures { IfOk result (λ number. number ≡ index) }
{
    u32::try_from(index).map_err(|_| AllocError)
}

/// The names of the locks of a thread with this body, by their numbers.
pub fn lock_names<'a>(
    alloc: Global,
    mutexes: &[Mutex],
    body: &'a [Statement],
) -> Result<Vec<LockRef<'a>>, AllocError>
    ensures { IfOk result (λ names. names_of names.items ≡ names_from 0 (map mutex_of mutexes.now) (once [] (locks_in_all (statements_of body.now)))) }
{
    let mut known = Vec::new(alloc);
    add_statements(&mut known, body)?;
    let mut names = Vec::new(alloc);
    for (index, mutex) in mutexes.iter().enumerate() {
        let number = mutex_number(index)?;
        add_mutex(&mut names, number, mutex.length, &known)?;
    }
    Ok(names)
}

/// An expression reads the local.
fn reads(expr: &Expr, local: u32) -> bool
    ensures { result ≡ list_any (λ other. other == local) (expr_locals (expr_of expr.now)) }
{
    match expr {
        Expr::Constant { .. } | Expr::Variable { .. } => false,
        Expr::Local { local: other, .. } | Expr::Referent { local: other, .. } => *other == local,
        Expr::Element { index, .. } | Expr::Address { index, .. } => reads(index, local),
        Expr::Unary { operand, .. }
        | Expr::Cast { operand, .. }
        | Expr::Converted { operand, .. } => reads(operand, local),
        Expr::Binary { left, right, .. } => reads(left, local) || reads(right, local),
        Expr::Conditional {
            condition,
            then,
            otherwise,
            ..
        } => reads(condition, local) || reads(then, local) || reads(otherwise, local),
    }
}

/// The key of the name reads the local.
pub fn key_reads(lock: LockRef<'_>, local: u32) -> bool
    ensures { result ≡ list_any (λ other. other == local) (key_locals (lock_ref_of lock.entry)) }
{
    match lock.key {
        Some(key) => reads(key.expr, local),
        None => false,
    }
}
