//! What it costs that locks are held over nodes. Prices past 2^64 - 1 are answered as that.
ghost use Rattle.std.specs.Prelude.{◌≡◌, ◌+◌, [], cond, map, min, slice_set, IfOk};
ghost use Rattle.c_tree.specs.Exprs.{lock_ref_of, lvalue_of};
ghost use Rattle.c_tree.specs.Flats.{statement_of, statements_of, arms_list_of, thread_of};
ghost use Rattle.c_tree.specs.HoldPrices.{hold_price, held_price, assign_hold, statement_hold, statements_hold, arms_hold, thread_hold};
ghost use Rattle.c_tree.specs.LockNames.{holds, locks_in_all, names_from, number_in, once};
ghost use Rattle.c_tree.specs.Programs.{mutex_of};
ghost use Rattle.c_tree.specs.links.KnownNames.{names_of};

use crate::expr::{LockRef, Lvalue};
use crate::flat::{Arm, Statement, Thread};
use crate::lock_names::{lock_names, number_in};
use crate::price::key_nodes;
use crate::program::Mutex;
use std::alloc::{AllocError, Global};

/// What the lock costs at a node before or after which it is held.
fn hold_price(lock: LockRef<'_>) -> u64
    ensures { result ≡ min (hold_price (lock_ref_of lock.entry)) u64.MAX }
{
    key_nodes(lock).saturating_mul(16).saturating_add(8)
}

/// A copy of a set.
fn copied(alloc: Global, held: &[bool]) -> Result<Vec<bool>, AllocError>
    ensures { IfOk result (λ copy. copy.items ≡ held.now) }
{
    let mut copy = Vec::new(alloc);
    copy.extend_from_slice(held)?;
    Ok(copy)
}

/// The lock of that number is held.
fn is_held(held: &[bool], number: usize) -> bool
    ensures { result ≡ holds held.now number }
{
    match held.get(number) {
        Some(is_held) => *is_held,
        None => false,
    }
}

/// What the lock costs at a node, where it is held there.
fn price_if(is_held: bool, lock: LockRef<'_>) -> u64
    ensures { result ≡ min (cond is_held (hold_price (lock_ref_of lock.entry)) 0) u64.MAX }
{
    if is_held { hold_price(lock) } else { 0 }
}

/// What the held locks cost at a node.
fn held_price(names: &[LockRef<'_>], held: &[bool]) -> u64
    ensures { result ≡ min (held_price (names_of names.now) held.now) u64.MAX }
{
    let mut price: u64 = 0;
    for number in 0..names.len() {
        price = price.saturating_add(price_if(is_held(held, number), names[number]));
    }
    price
}

/// The lock of the name is held from here on, or it isn't; a name that isn't there changes nothing.
fn mark(names: &[LockRef<'_>], held: &mut Vec<bool>, lock: LockRef<'_>, is_held: bool)
    ensures { held.new.items ≡ slice_set held.old.items (number_in (names_of names.now) (lock_ref_of lock.entry)) is_held }
{
    let number = number_in(names, lock);
    if number < held.len() {
        held[number] = is_held;
    }
}

/// An assignment's nodes: one of a variable has two.
fn assign_hold(names: &[LockRef<'_>], held: &[bool], target: &Lvalue) -> u64
    ensures { result ≡ min (assign_hold (names_of names.now) held.now (lvalue_of target.now)) u64.MAX }
{
    let price = held_price(names, held);
    match target {
        Lvalue::Local { .. } => price,
        Lvalue::Variable { .. } | Lvalue::Element { .. } => price.saturating_add(price),
    }
}

/// A test's node and what is done where it holds, both from the set that is held before it; it becomes the one at the end.
#[cycle(holding)]
fn test_hold(
    alloc: Global,
    names: &[LockRef<'_>],
    held: &mut Vec<bool>,
    body: &[Statement],
) -> Result<u64, AllocError>
    ensures price { IfOk result (λ price.
        price ≡ min (held_price (names_of names.now) held.old.items + (statements_hold (names_of names.now) held.old.items (statements_of body.now)).price)
        u64.MAX) }
    ensures after { IfOk result (λ _. held.new.items ≡ (statements_hold (names_of names.now) held.old.items (statements_of body.now)).after) }
{
    let test = held_price(names, held);
    let inside = statements_hold(alloc, names, held, body)?;
    Ok(test.saturating_add(inside))
}

/// A statement's nodes, from the set that is held before it; it becomes the one after it.
#[cycle(holding)]
fn statement_hold(
    alloc: Global,
    names: &[LockRef<'_>],
    held: &mut Vec<bool>,
    statement: &Statement,
) -> Result<u64, AllocError>
    ensures price { IfOk result (λ price. price ≡ min (statement_hold (names_of names.now) held.old.items (statement_of statement.now)).price u64.MAX) }
    ensures after { IfOk result (λ _. held.new.items ≡ (statement_hold (names_of names.now) held.old.items (statement_of statement.now)).after) }
{
    match statement {
        Statement::Assign { target, .. } => Ok(assign_hold(names, held, target)),
        Statement::If {
            arms,
            otherwise,
            ..
        } => {
            let mut before = copied(alloc, held)?;
            let chosen = arms_hold(alloc, names, held, arms)?;
            let last = statements_hold(alloc, names, &mut before, otherwise)?;
            Ok(chosen.saturating_add(last))
        }
        Statement::While { body, .. } => {
            let mut inner = copied(alloc, held)?;
            let price = test_hold(alloc, names, &mut inner, body)?;
            Ok(price)
        }
        Statement::Do { body, .. } => {
            let mut inner = copied(alloc, held)?;
            let price = test_hold(alloc, names, &mut inner, body)?;
            Ok(price)
        }
        Statement::Lock { lock, .. } => {
            mark(names, held, lock.as_ref(), true);
            Ok(held_price(names, held))
        }
        Statement::Unlock { lock, .. } => {
            let price = held_price(names, held);
            mark(names, held, lock.as_ref(), false);
            Ok(price)
        }
    }
}

/// The nodes of statements.
#[cycle(holding)]
fn statements_hold(
    alloc: Global,
    names: &[LockRef<'_>],
    held: &mut Vec<bool>,
    statements: &[Statement],
) -> Result<u64, AllocError>
    ensures price { IfOk result (λ price. price ≡ min (statements_hold (names_of names.now) held.old.items (statements_of statements.now)).price u64.MAX) }
    ensures after { IfOk result (λ _. held.new.items ≡ (statements_hold (names_of names.now) held.old.items (statements_of statements.now)).after) }
{
    let mut price: u64 = 0;
    for statement in statements {
        price = price.saturating_add(statement_hold(alloc, names, held, statement)?);
    }
    Ok(price)
}

/// The nodes of the arms of an `if`: the set becomes that at the end of the first one.
#[cycle(holding)]
fn arms_hold(
    alloc: Global,
    names: &[LockRef<'_>],
    held: &mut Vec<bool>,
    arms: &[Arm],
) -> Result<u64, AllocError>
    ensures price { IfOk result (λ price. price ≡ min (arms_hold (names_of names.now) held.old.items (arms_list_of arms.now)).price u64.MAX) }
    ensures after { IfOk result (λ _. held.new.items ≡ (arms_hold (names_of names.now) held.old.items (arms_list_of arms.now)).after) }
{
    let before = copied(alloc, held)?;
    let mut price: u64 = 0;
    let mut is_first = true;
    for arm in arms {
        let mut inner = copied(alloc, &before)?;
        price = price.saturating_add(test_hold(alloc, names, &mut inner, &arm.body)?);
        if is_first {
            *held = inner;
            is_first = false;
        }
    }
    Ok(price)
}

/// What it costs that a thread holds locks.
pub fn thread_hold(alloc: Global, mutexes: &[Mutex], thread: &Thread) -> Result<u64, AllocError>
    ensures { let t = thread_of thread.now in
        let names = names_from 0 (map mutex_of mutexes.now) (once [] (locks_in_all t.body)) in
        IfOk result (λ price. price ≡ min (thread_hold names t) u64.MAX) }
{
    let names = lock_names(alloc, mutexes, &thread.body)?;
    let mut held = vec![in alloc; false; names.len()]?;
    let price = statements_hold(alloc, &names, &mut held, &thread.body)?;
    Ok(price.saturating_add(held_price(&names, &held)))
}
