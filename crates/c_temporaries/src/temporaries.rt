//! The check of what expressions need.
ghost use Rattle.std.specs.Prelude.{◌≡◌, ◌∷◌, [], map, MatchResult, None, Some};
ghost use Rattle.c_tree.specs.Exprs.{placed_of, lvalue_of, lock_name_of};
ghost use Rattle.c_tree.specs.Flats.{flat_of, thread_of, statement_of, statements_of, arms_list_of};
ghost use Rattle.c_tree.specs.Temporaries.{assign_exprs, key_exprs, statement_exprs, statements_exprs, arms_exprs, temporaries_fault};
ghost use Rattle.c_temporaries.specs.links.FirstDeepExpression.{first_deep, threads_exprs};

use c_tree::expr::{LockName, Lvalue, Placed};
use c_tree::flat::{Arm, Flat, Statement, Thread};
use c_tree::price::need;
use ido_base::limits::MOST_TEMPORARIES;
use ido_base::place::Place;
use thiserror::Error;

/// An expression that needs more temporaries than there are.
#[derive(Clone, Copy, PartialEq, Eq, Debug, Error)]
#[error("an expression needs too many temporaries")]
pub struct TemporariesError {
    /// The place of its first token.
    pub place: Place,
}

/// Whether no expression of a thread needs more than four temporaries; else the first one that does, in the order of the
/// steps, where the index of a target comes before the value.
pub fn check(flat: &Flat) -> Result<(), TemporariesError>
    ensures { MatchResult result (λ _. temporaries_fault (flat_of flat.now) ≡ None) (λ e. temporaries_fault (flat_of flat.now) ≡ Some e.place) }
{
    match of_threads(&flat.threads) {
        None => Ok(()),
        Some(place) => Err(TemporariesError { place }),
    }
}

/// An expression that needs too many.
fn of_placed(placed: &Placed) -> Option<Place>
    ensures { result ≡ first_deep (placed_of placed.now ∷ []) }
{
    if need(&placed.expr) > MOST_TEMPORARIES {
        Some(placed.place)
    } else {
        None
    }
}

/// The place of the first expression of an assignment that needs too many temporaries.
fn of_assigned(target: &Lvalue, value: &Placed) -> Option<Place>
    ensures { result ≡ first_deep (assign_exprs (lvalue_of target.now) (placed_of value.now)) }
{
    match target {
        Lvalue::Local { .. } | Lvalue::Variable { .. } => of_placed(value),
        Lvalue::Element { index, .. } => of_placed(index).or(of_placed(value)),
    }
}

/// The place of a lock's key, if it needs too many temporaries.
fn of_lock(lock: &LockName) -> Option<Place>
    ensures { result ≡ first_deep (key_exprs (lock_name_of lock.now)) }
{
    match &lock.key {
        None => None,
        Some(key) => of_placed(key),
    }
}

/// The place of the first expression that needs too many temporaries, of a condition and of what is done where it holds.
#[cycle(statements)]
fn of_tested(condition: &Placed, body: &[Statement]) -> Option<Place>
    ensures { result ≡ first_deep (placed_of condition.now ∷ statements_exprs (statements_of body.now)) }
{
    of_placed(condition).or(of_statements(body))
}

/// The place of the first expression of a statement that needs too many temporaries.
#[cycle(statements)]
fn of_statement(statement: &Statement) -> Option<Place>
    ensures { result ≡ first_deep (statement_exprs (statement_of statement.now)) }
{
    match statement {
        Statement::Assign { target, value, .. } => of_assigned(target, value),
        Statement::If {
            arms,
            otherwise,
            ..
        } => of_arms(arms).or(of_statements(otherwise)),
        Statement::While {
            condition,
            body,
            ..
        } => of_tested(condition, body),
        Statement::Do {
            body,
            condition,
            ..
        } => of_statements(body).or(of_placed(condition)),
        Statement::Lock { lock, .. } | Statement::Unlock { lock, .. } => of_lock(lock),
    }
}

/// The place of the first expression of statements that needs too many temporaries.
#[cycle(statements)]
fn of_statements(statements: &[Statement]) -> Option<Place>
    ensures { result ≡ first_deep (statements_exprs (statements_of statements.now)) }
{
    let mut first = None;
    for statement in statements {
        first = first.or(of_statement(statement));
    }
    first
}

/// The place of the first expression of arms that needs too many temporaries.
#[cycle(statements)]
fn of_arms(arms: &[Arm]) -> Option<Place>
    ensures { result ≡ first_deep (arms_exprs (arms_list_of arms.now)) }
{
    let mut first = None;
    for arm in arms {
        first = first.or(of_tested(&arm.condition, &arm.body));
    }
    first
}

/// The place of the first expression of threads that needs too many temporaries.
fn of_threads(threads: &[Thread]) -> Option<Place>
    ensures { result ≡ first_deep (threads_exprs (map thread_of threads.now)) }
{
    let mut first = None;
    for thread in threads {
        first = first.or(of_statements(&thread.body));
    }
    first
}
