//! The variables that a step uses, each under its lock, and the local that it assigns.
ghost use Rattle.std.specs.Prelude.{◌≡◌, ◌&&◌, ◌==◌, [], ◌∷◌, map, None, MatchResult};
ghost use Rattle.std.specs.List.{list_any};
ghost use Rattle.std.specs.Option.{option_map};
ghost use Rattle.c_tree.specs.Programs as program;
ghost use Rattle.c_tree.specs.Programs.{variable_of};
ghost use Rattle.c_tree.specs.Exprs.{expr_of, lvalue_of, lock_ref_of, placed_ref_of};
ghost use Rattle.c_tree.specs.LockNames.{holds};
ghost use Rattle.c_tree.specs.links.KnownNames.{names_of};
ghost use Rattle.c_tree.specs.LockDiscipline.{After, freezing, key_locals, name_under, walk_target, walk_uses, expr_uses, target_uses};
ghost use Rattle.lock_discipline.specs.links.Refusals.{Refuses};
ghost use Rattle.lock_discipline.specs.links.Uses.{use_of};

use crate::error::LockError;
use crate::set::NameSet;
use c_tree::expr::{Expr, LockRef, Lvalue, PlacedRef};
use c_tree::lock_names::{key_reads, number_in, variable_guard};
use c_tree::program::{Guard, Variable};
use ido_base::place::Place;

/// The name of the lock that guards an access with this index.
fn name_under<'a>(guard: Guard, index: Option<PlacedRef<'a>>) -> LockRef<'a>
    ensures { lock_ref_of result ≡ name_under (program.guard_of guard) (option_map placed_ref_of index.entry) }
{
    match guard {
        Guard::By { mutex } => LockRef { mutex, key: None },
        Guard::Each { first } => LockRef {
            mutex: first,
            key: index,
        },
    }
}

/// The use of a variable whose name stands at the place, with an index or without one.
fn check_use<'a>(
    variables: &[Variable],
    names: &[LockRef<'a>],
    held: &NameSet,
    variable: u32,
    place: Place,
    index: Option<PlacedRef<'a>>,
) -> Result<(), LockError<'a>>
    ensures { let w = walk_uses (map variable_of variables.now) (names_of names.now) held.now
        (use_of variable place (option_map placed_ref_of index.entry) ∷ []) in
        MatchResult result (λ _. w ≡ After held.now) (Refuses w) }
{
    let guard = variable_guard(variables, variable);
    let lock = name_under(guard, index);
    if held.holds(number_in(names, lock)) {
        Ok(())
    } else {
        Err(LockError::Unheld { place, lock })
    }
}

/// The uses in an expression, from left to right.
pub fn check_expr<'a>(
    variables: &[Variable],
    names: &[LockRef<'a>],
    held: &NameSet,
    expr: &'a Expr,
) -> Result<(), LockError<'a>>
    ensures { let w = walk_uses (map variable_of variables.now) (names_of names.now) held.now (expr_uses (expr_of expr.now)) in
        MatchResult result (λ _. w ≡ After held.now) (Refuses w) }
{
    match expr {
        Expr::Constant { .. } | Expr::Local { .. } | Expr::Referent { .. } => Ok(()),
        Expr::Variable {
            place,
            variable,
            ..
        } => check_use(variables, names, held, *variable, *place, None),
        Expr::Element {
            place,
            variable,
            index_place,
            index,
            ..
        } => {
            let key = PlacedRef {
                place: *index_place,
                expr: index,
            };
            check_use(variables, names, held, *variable, *place, Some(key))?;
            check_expr(variables, names, held, index)
        }
        Expr::Address { index, .. } => check_expr(variables, names, held, index),
        Expr::Unary { operand, .. }
        | Expr::Cast { operand, .. }
        | Expr::Converted { operand, .. } => check_expr(variables, names, held, operand),
        Expr::Binary { left, right, .. } => {
            check_expr(variables, names, held, left)?;
            check_expr(variables, names, held, right)
        }
        Expr::Conditional {
            condition,
            then,
            otherwise,
            ..
        } => {
            check_expr(variables, names, held, condition)?;
            check_expr(variables, names, held, then)?;
            check_expr(variables, names, held, otherwise)
        }
    }
}

/// The uses in a target.
pub fn check_target<'a>(
    variables: &[Variable],
    names: &[LockRef<'a>],
    held: &NameSet,
    target: &'a Lvalue,
) -> Result<(), LockError<'a>>
    ensures { let w = walk_uses (map variable_of variables.now) (names_of names.now) held.now (target_uses (lvalue_of target.now)) in
        MatchResult result (λ _. w ≡ After held.now) (Refuses w) }
{
    match target {
        Lvalue::Local { .. } => Ok(()),
        Lvalue::Variable {
            place,
            variable,
            ..
        } => check_use(variables, names, held, *variable, *place, None),
        Lvalue::Element {
            place,
            variable,
            index,
            ..
        } => {
            let key = PlacedRef {
                place: index.place,
                expr: &index.expr,
            };
            check_use(variables, names, held, *variable, *place, Some(key))?;
            check_expr(variables, names, held, &index.expr)
        }
    }
}

/// The lock of this number is held, and its key reads the local.
fn freezes(held: &NameSet, number: usize, lock: LockRef<'_>, local: u32) -> bool
    ensures { result ≡ (holds held.now number && list_any (λ other. other == local) (key_locals (lock_ref_of lock.entry))) }
{
    held.holds(number) && key_reads(lock, local)
}

/// The first held lock whose key reads the local.
fn freezing<'a>(names: &[LockRef<'a>], held: &NameSet, local: u32) -> Option<LockRef<'a>>
    ensures { option_map lock_ref_of result ≡ freezing (names_of names.now) held.now local }
{
    for (number, name) in names.iter().enumerate() {
        if freezes(held, number, *name, local) {
            return Some(*name);
        }
    }
    None
}

/// The local that is assigned, if one is.
pub fn check_free<'a>(
    names: &[LockRef<'a>],
    held: &NameSet,
    target: &Lvalue,
) -> Result<(), LockError<'a>>
    ensures { let w = walk_target [] (names_of names.now) held.now (lvalue_of target.now) in MatchResult result (λ _. w ≡ After held.now) (Refuses w) }
{
    match target {
        Lvalue::Local { place, local, .. } => match freezing(names, held, *local) {
            Some(lock) => Err(LockError::Frozen {
                place: *place,
                lock,
            }),
            None => Ok(()),
        },
        Lvalue::Variable { .. } | Lvalue::Element { .. } => Ok(()),
    }
}
