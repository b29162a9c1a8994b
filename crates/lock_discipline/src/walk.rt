//! The walk through a thread, with the locks that are held before each of its steps.
ghost use Rattle.std.specs.Prelude.{◌≡◌, ◌++◌, [], ◌∷◌, None, List, length, map, slice_index_or, MatchResult, IfOk, OnOk};
ghost use Rattle.std.specs.List.{All, list_any};
ghost use Rattle.c_tree.specs.Programs.{variable_of};
ghost use Rattle.c_tree.specs.Flats.{statement_of, statements_of, arms_list_of, thread_of};
ghost use Rattle.c_tree.specs.Exprs.{lock_ref_of};
ghost use Rattle.c_tree.specs.LockNames.{Held, holds};
ghost use Rattle.c_tree.specs.links.KnownNames.{names_of};
ghost use Rattle.c_tree.specs.LockDiscipline.{Walked, After, are_too_many, least_difference, join, walk, walk_all, walk_arms, walk_thread};
ghost use Rattle.lock_discipline.specs.links.Refusals.{Refuses, RefusesAny};
ghost use Rattle.lock_discipline.specs.links.Sets.{differ};
ghost use Rattle.lock_discipline.specs.links.Flow.{sets_in, sets_in_all, sets_in_arms, thread_sets};

use crate::error::LockError;
use crate::set::NameSet;
use crate::uses::{check_expr, check_free, check_target};
use c_tree::expr::{LockRef, Lvalue};
use c_tree::flat::{Arm, Statement, Thread};
use c_tree::language::{Language, MOST_HELD};
use c_tree::lock_names::number_in;
use c_tree::program::Variable;
use ido_base::memory::OutOfMemory;
use ido_base::place::Place;
use std::alloc::Global;

/// Whether of two answers one is yes and the other isn't.
fn differ(one: bool, other: bool) -> bool
    ensures { result ≡ differ one other }
{
    if one { !other } else { other }
}

/// Whether one of the sets holds the name and another doesn't.
fn differ_in(first: &NameSet, others: &[NameSet], name: usize) -> bool
    ensures { result ≡ list_any (λ h. differ (holds first.now name) (holds h name)) others.now }
{
    for other in others {
        if differ(first.holds(name), other.holds(name)) {
            return true;
        }
    }
    false
}

/// The number of the least name that one of the sets holds and another doesn't.
fn least_difference(first: &NameSet, others: &[NameSet]) -> Option<usize>
    ensures { result ≡ least_difference (length first.now) (first.now ∷ others.now) }
{
    for name in 0..first.names().len() {
        if differ_in(first, others, name) {
            return Some(name);
        }
    }
    None
}

/// The name of this number.
fn name_at<'a>(names: &[LockRef<'a>], number: usize) -> LockRef<'a>
    ensures { lock_ref_of result ≡ slice_index_or (names_of names.now) number (record { mutex = 0; key = None }) }
{
    match names.get(number) {
        Some(name) => *name,
        None => LockRef {
            mutex: 0,
            key: None,
        },
    }
}

/// Paths meet at a statement, each with its set.
fn join<'a>(
    names: &[LockRef<'a>],
    place: Place,
    first: &NameSet,
    others: &[NameSet],
) -> Result<(), LockError<'a>>
    requires { length first.now ≡ length (names_of names.now) }
    ensures { let w = join [] (names_of names.now) place first.now others.now in
        MatchResult result (λ _. w ≡ After first.now) (Refuses w) }
{
    match least_difference(first, others) {
        Some(number) => Err(LockError::Join {
            place,
            lock: name_at(names, number),
        }),
        None => Ok(()),
    }
}

/// More are held than may be.
fn are_too_many(language: Language, held: &NameSet) -> bool
    ensures { result ≡ are_too_many language held.now }
{
    match language {
        Language::Plain => false,
        Language::Full => held.count() > MOST_HELD,
    }
}

/// The set goes after the others.
fn push(sets: &mut Vec<NameSet>, held: &NameSet) -> Result<(), OutOfMemory>
    ensures { OnOk result (sets.new.items ≡ sets.old.items ++ held.now ∷ []) }
{
    sets.push(held.again()?)?;
    Ok(())
}

/// A statement: the set after it. Its steps' sets go after the others.
#[cycle(walk)]
fn walk_statement<'a>(
    alloc: Global,
    language: Language,
    variables: &[Variable],
    names: &[LockRef<'a>],
    held: &NameSet,
    statement: &'a Statement,
    sets: &mut Vec<NameSet>,
) -> Result<NameSet, LockError<'a>>
    requires { length held.now ≡ length (names_of names.now) }
    ensures walk { let w = walk language (map variable_of variables.now) (names_of names.now) held.now (statement_of statement.now) in
        MatchResult result (λ after. w ≡ After after) (Refuses w) }
    ensures sets { IfOk result (λ _. sets.new.items ≡ sets.old.items ++ sets_in (names_of names.now) held.now (statement_of statement.now)) }
{
    match statement {
        Statement::Assign { target, value, .. } => {
            push(sets, held)?;
            check_expr(variables, names, held, &value.expr)?;
            check_target(variables, names, held, target)?;
            check_free(names, held, target)?;
            match target {
                Lvalue::Local { .. } => {}
                // the store is a step of its own
                Lvalue::Variable { .. } | Lvalue::Element { .. } => push(sets, held)?,
            }
            let end = held.again()?;
            Ok(end)
        }
        Statement::If {
            place,
            arms,
            otherwise,
        } => {
            let ends = walk_arms(alloc, language, variables, names, held, arms, sets)?;
            let end = walk_statements(alloc, language, variables, names, held, otherwise, sets)?;
            join(names, *place, &end, &ends)?;
            Ok(end)
        }
        Statement::While {
            place,
            condition,
            body,
        } => {
            push(sets, held)?;
            check_expr(variables, names, held, &condition.expr)?;
            let end = walk_statements(alloc, language, variables, names, held, body, sets)?;
            join(names, *place, held, &[end])?;
            let first = held.again()?;
            Ok(first)
        }
        Statement::Do {
            place,
            body,
            condition,
        } => {
            let after = walk_statements(alloc, language, variables, names, held, body, sets)?;
            push(sets, &after)?;
            check_expr(variables, names, &after, &condition.expr)?;
            join(names, *place, held, &[after])?;
            let first = held.again()?;
            Ok(first)
        }
        Statement::Lock { place, lock } => {
            let name = lock.as_ref();
            let number = number_in(names, name);
            if held.holds(number) {
                return Err(LockError::Again {
                    place: *place,
                    lock: name,
                });
            }
            let after = held.with(alloc, number, true)?;
            if are_too_many(language, &after) {
                return Err(LockError::Held {
                    place: *place,
                    lock: name,
                });
            }
            push(sets, held)?;
            Ok(after)
        }
        Statement::Unlock { place, lock } => {
            let name = lock.as_ref();
            let number = number_in(names, name);
            if !held.holds(number) {
                return Err(LockError::NotHeld {
                    place: *place,
                    lock: name,
                });
            }
            push(sets, held)?;
            let after = held.with(alloc, number, false)?;
            Ok(after)
        }
    }
}

/// Statements in order.
#[cycle(walk)]
fn walk_statements<'a>(
    alloc: Global,
    language: Language,
    variables: &[Variable],
    names: &[LockRef<'a>],
    held: &NameSet,
    statements: &'a [Statement],
    sets: &mut Vec<NameSet>,
) -> Result<NameSet, LockError<'a>>
    requires { length held.now ≡ length (names_of names.now) }
    ensures walk { let w = walk_all language (map variable_of variables.now) (names_of names.now) held.now (statements_of statements.now) in
        MatchResult result (λ after. w ≡ After after) (Refuses w) }
    ensures sets { IfOk result (λ _. sets.new.items ≡ sets.old.items ++ sets_in_all (names_of names.now) held.now (statements_of statements.now)) }
{
    let first = held.again()?;
    let mut end = first;
    for statement in statements {
        end = walk_statement(alloc, language, variables, names, &end, statement, sets)?;
    }
    Ok(end)
}

/// The arms of an `if`: the sets after them.
#[cycle(walk)]
fn walk_arms<'a>(
    alloc: Global,
    language: Language,
    variables: &[Variable],
    names: &[LockRef<'a>],
    held: &NameSet,
    arms: &'a [Arm],
    sets: &mut Vec<NameSet>,
) -> Result<Vec<NameSet>, LockError<'a>>
    requires { length held.now ≡ length (names_of names.now) }
    ensures walk { let w = walk_arms language (map variable_of variables.now) (names_of names.now) held.now [] (arms_list_of arms.now) in
        MatchResult result (λ ends. (later : List Held → Walked) → w later ≡ later ends.items) (RefusesAny w) }
    ensures long { IfOk result (λ ends. All (λ h. length h ≡ length (names_of names.now)) ends.items) }
    ensures sets { IfOk result (λ _. sets.new.items ≡ sets.old.items ++ sets_in_arms (names_of names.now) held.now (arms_list_of arms.now)) }
{
    let mut ends = Vec::new(alloc);
    for arm in arms {
        push(sets, held)?;
        check_expr(variables, names, held, &arm.condition.expr)?;
        ends.push(walk_statements(alloc, language, variables, names, held, &arm.body, sets)?)?;
    }
    Ok(ends)
}

/// A thread, which begins and ends with no lock held: the sets before its steps.
pub fn walk_thread<'a>(
    alloc: Global,
    language: Language,
    variables: &[Variable],
    names: &[LockRef<'a>],
    thread: &'a Thread,
) -> Result<Vec<NameSet>, LockError<'a>>
    ensures walk { let w = walk_thread language (map variable_of variables.now) (names_of names.now) (thread_of thread.now) in
        MatchResult result (λ _. (end : Held) × (w ≡ After end)) (Refuses w) }
    ensures sets { IfOk result (λ sets. sets.items ≡ thread_sets (names_of names.now) (thread_of thread.now)) }
{
    let mut sets = Vec::new(alloc);
    let none = NameSet::none(alloc, names.len())?;
    let end = walk_statements(
        alloc,
        language,
        variables,
        names,
        &none,
        &thread.body,
        &mut sets,
    )?;
    if let Some(number) = end.least() {
        return Err(LockError::EndHeld {
            place: thread.closing,
            lock: name_at(names, number),
        });
    }
    sets.push(end)?;
    Ok(sets)
}
