//! The locks and the elements that names give, where locals have these numbers. Keys read locals alone.
ghost use Rattle.std.specs.Option.{option_to_list};
ghost use Rattle.std.specs.Prelude.{◌≡◌, ◌≤◌, ◌++◌, ◌^◌, [], Some, map, slice_get, IfOk, OnOk, true};
ghost use Rattle.c_tree.specs.Exprs.{lock_ref_of, placed_ref_of};
ghost use Rattle.c_tree.specs.Programs as program;
ghost use Rattle.c_tree.specs.Programs.{variable_of};
ghost use Rattle.c_tree.specs.Values.{key_element, lock_number};
ghost use Rattle.c_tree.specs.links.KnownNames.{names_of};
ghost use Rattle.flow_graph.specs.HeldKeys.{is_key_of, named_by, names_in};
ghost use Rattle.image_checks.specs.Logs.{names_at};

use c_tree::expr::{LockRef, PlacedRef};
use c_tree::lock_names::variable_guard;
use c_tree::program::{Guard, Variable};
use ido_base::memory::OutOfMemory;
use source_machine::evaluation::evaluate;
use source_machine::variables::Variables;
use std::alloc::Global;

/// The element of an array of mutexes that a key names.
fn key_element(key: PlacedRef<'_>, locals: &[i128], none: &Variables) -> u128
    requires { none.now ≡ [] }
    ensures is { result ≡ key_element locals.now (placed_ref_of key.entry) }
    ensures few { result ≤ 2 ^ 127 }
{
    evaluate(key.expr, locals, none).number().unsigned_abs()
}

// ---- Locks

/// The number of the lock of a name.
fn lock_number(lock: LockRef<'_>, locals: &[i128], none: &Variables) -> u128
    requires { none.now ≡ [] }
    ensures { result ≡ lock_number locals.now (lock_ref_of lock.entry) }
{
    match lock.key {
        Some(key) => u128::from(lock.mutex) + key_element(key, locals, none),
        None => u128::from(lock.mutex),
    }
}

/// Adds the number of the lock of the name of that number, if there is one.
fn push_lock(
    locks: &mut Vec<u128>,
    names: &[LockRef<'_>],
    locals: &[i128],
    none: &Variables,
    number: u32,
) -> Result<(), OutOfMemory>
    requires { none.now ≡ [] }
    ensures { OnOk result (locks.new.items ≡
        locks.old.items ++ map (lock_number locals.now) (option_to_list (slice_get (names_of names.now) number))) }
{
    if let Some(name) = names.get(number as usize) {
        locks.push(lock_number(*name, locals, none))?;
    }
    Ok(())
}

/// The numbers of the locks of the names of these numbers.
pub fn locks_of(
    alloc: Global,
    names: &[LockRef<'_>],
    locals: &[i128],
    held: &[u32],
) -> Result<Vec<u128>, OutOfMemory>
    ensures { IfOk result (λ locks. locks.items ≡ map (lock_number locals.now) (names_at (names_of names.now) held.now)) }
{
    let none = Variables::none(alloc);
    let mut locks = Vec::new(alloc);
    for number in held {
        push_lock(&mut locks, names, locals, &none, *number)?;
    }
    Ok(locks)
}

// ---- Elements

/// Whether the name is one of the array that guards so.
fn is_key_of(guard: Guard, name: LockRef<'_>) -> bool
    ensures { result ≡ is_key_of (program.guard_of guard) (lock_ref_of name.entry) }
{
    match guard {
        Guard::By { .. } => false,
        Guard::Each { first } => first == name.mutex,
    }
}

/// The element that the name names, if it is one of the array that guards so.
fn named_by(guard: Guard, name: LockRef<'_>, locals: &[i128], none: &Variables) -> Option<u128>
    requires { none.now ≡ [] }
    ensures { result ≡ named_by (program.guard_of guard) true locals.now (Some (lock_ref_of name.entry)) }
{
    if !is_key_of(guard, name) {
        return None;
    }
    match name.key {
        Some(key) => Some(key_element(key, locals, none)),
        None => None,
    }
}

/// The element of a variable that the name of that number names, if it names one.
pub fn named_element(
    variables: &[Variable],
    names: &[LockRef<'_>],
    locals: &[i128],
    none: &Variables,
    variable: u32,
    number: u32,
) -> Option<u128>
    requires { none.now ≡ [] }
    ensures { result ≡ names_in (map variable_of variables.now) (names_of names.now) locals.now variable number }
{
    let guard = variable_guard(variables, variable);
    match names.get(number as usize) {
        Some(name) => named_by(guard, *name, locals, none),
        None => None,
    }
}
