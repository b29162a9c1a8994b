//! Expressions and targets whose locals are those of a function that begin at a number.
ghost use Rattle.std.specs.Prelude.{◌≡◌, ◌+◌, IfOk};
ghost use Rattle.c_tree.specs.Exprs.{expr_of, placed_of, lvalue_of, lock_name_of};
ghost use Rattle.c_tree.specs.Inlining.{shifted, shifted_placed, shifted_target, shifted_lock};

use c_tree::expr::{Expr, LockName, Lvalue, Placed};
use std::alloc::{AllocError, Global};

/// A local's number; beyond 2^32 - 1 there is no memory for so many.
fn shift_local(by: u32, local: u32) -> Result<u32, AllocError>
    ensures { IfOk result (λ number. number ≡ by + local) }
{
    by.checked_add(local).ok_or(AllocError)
}

/// An expression with its locals renumbered.
#[cycle(shifts)]
pub fn shift(alloc: Global, by: u32, expr: &Expr) -> Result<Expr, AllocError>
    ensures { IfOk result (λ x. expr_of x ≡ shifted by (expr_of expr.now)) }
{
    match expr {
        Expr::Constant { value } => Ok(Expr::Constant { value: *value }),
        Expr::Local { local, kind } => {
            let local = shift_local(by, *local)?;
            Ok(Expr::Local { local, kind: *kind })
        }
        Expr::Variable {
            place,
            variable,
            kind,
        } => Ok(Expr::Variable {
            place: *place,
            variable: *variable,
            kind: *kind,
        }),
        Expr::Element {
            place,
            variable,
            kind,
            index_place,
            index,
        } => {
            let index = shift_boxed(alloc, by, index)?;
            Ok(Expr::Element {
                place: *place,
                variable: *variable,
                kind: *kind,
                index_place: *index_place,
                index,
            })
        }
        Expr::Address {
            variable,
            index_place,
            index,
        } => {
            let index = shift_boxed(alloc, by, index)?;
            Ok(Expr::Address {
                variable: *variable,
                index_place: *index_place,
                index,
            })
        }
        Expr::Referent { place, last, local } => {
            let local = shift_local(by, *local)?;
            Ok(Expr::Referent {
                place: *place,
                last: *last,
                local,
            })
        }
        Expr::Unary { operator, operand } => {
            let operand = shift_boxed(alloc, by, operand)?;
            Ok(Expr::Unary {
                operator: *operator,
                operand,
            })
        }
        Expr::Cast { kind, operand } => {
            let operand = shift_boxed(alloc, by, operand)?;
            Ok(Expr::Cast {
                kind: *kind,
                operand,
            })
        }
        Expr::Converted { kind, operand } => {
            let operand = shift_boxed(alloc, by, operand)?;
            Ok(Expr::Converted {
                kind: *kind,
                operand,
            })
        }
        Expr::Binary {
            operator,
            left,
            right,
        } => {
            let left = shift_boxed(alloc, by, left)?;
            let right = shift_boxed(alloc, by, right)?;
            Ok(Expr::Binary {
                operator: *operator,
                left,
                right,
            })
        }
        Expr::Conditional {
            kind,
            condition,
            then,
            otherwise,
        } => {
            let condition = shift_boxed(alloc, by, condition)?;
            let then = shift_boxed(alloc, by, then)?;
            let otherwise = shift_boxed(alloc, by, otherwise)?;
            Ok(Expr::Conditional {
                kind: *kind,
                condition,
                then,
                otherwise,
            })
        }
    }
}

/// The shifted expression, in a box of its own.
#[cycle(shifts)]
fn shift_boxed(alloc: Global, by: u32, expr: &Expr) -> Result<Box<Expr>, AllocError>
    ensures { IfOk result (λ x. expr_of x.value ≡ shifted by (expr_of expr.now)) }
{
    let expr = shift(alloc, by, expr)?;
    Ok(Box::new(alloc, expr)?)
}

/// An expression in its place, with its locals renumbered.
pub fn shift_placed(alloc: Global, by: u32, placed: &Placed) -> Result<Placed, AllocError>
    ensures { IfOk result (λ x. placed_of x ≡ shifted_placed by (placed_of placed.now)) }
{
    let expr = shift(alloc, by, &placed.expr)?;
    Ok(Placed {
        place: placed.place,
        expr,
    })
}

/// The name of a lock with its locals renumbered.
pub fn shift_lock(alloc: Global, by: u32, lock: &LockName) -> Result<LockName, AllocError>
    ensures { IfOk result (λ x. lock_name_of x ≡ shifted_lock by (lock_name_of lock.now)) }
{
    match &lock.key {
        Some(key) => {
            let key = shift_placed(alloc, by, key)?;
            Ok(LockName {
                mutex: lock.mutex,
                key: Some(key),
            })
        }
        None => Ok(LockName {
            mutex: lock.mutex,
            key: None,
        }),
    }
}

/// A target with its locals renumbered.
pub fn shift_target(alloc: Global, by: u32, target: &Lvalue) -> Result<Lvalue, AllocError>
    ensures { IfOk result (λ x. lvalue_of x ≡ shifted_target by (lvalue_of target.now)) }
{
    match target {
        Lvalue::Local { place, local, kind } => {
            let local = shift_local(by, *local)?;
            Ok(Lvalue::Local {
                place: *place,
                local,
                kind: *kind,
            })
        }
        Lvalue::Variable {
            place,
            variable,
            kind,
        } => Ok(Lvalue::Variable {
            place: *place,
            variable: *variable,
            kind: *kind,
        }),
        Lvalue::Element {
            place,
            variable,
            kind,
            index,
        } => {
            let index = shift_placed(alloc, by, index)?;
            Ok(Lvalue::Element {
                place: *place,
                variable: *variable,
                kind: *kind,
                index,
            })
        }
    }
}
