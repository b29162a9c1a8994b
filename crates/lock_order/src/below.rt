//! Which locks are below which.
ghost use Rattle.std.specs.Prelude.{◌≡◌, map};
ghost use Rattle.c_tree.specs.Exprs.{expr_of, lock_ref_of};
ghost use Rattle.c_tree.specs.Programs.{mutex_of};
ghost use Rattle.c_tree.specs.Ranges.{mutexes_of};
ghost use Rattle.lock_order.specs.LockOrder.{is_in_way, lock_from, lock_to, plain_number};

use c_tree::expr::{Expr, LockRef};
use c_tree::program::Mutex;

/// The number that an expression is, where it is a plain one.
fn plain_number(expr: &Expr) -> Option<u64>
    ensures { result ≡ plain_number (expr_of expr.now) }
{
    match expr {
        Expr::Constant { value } => Some(value.number().unsigned_abs() as u64),
        _ => None,
    }
}

/// How many mutexes there are in the array from that one on.
fn mutexes_of(mutexes: &[Mutex], first: u32) -> u32
    ensures { result ≡ mutexes_of (map mutex_of mutexes.now) first }
{
    match mutexes.get(first as usize) {
        Some(mutex) => match mutex.length {
            Some(count) => count,
            None => 0,
        },
        None => 0,
    }
}

/// The least number that the lock of the name may have.
fn lock_from(lock: LockRef<'_>) -> u128
    ensures { result ≡ lock_from (lock_ref_of lock.entry) }
{
    match lock.key {
        None => lock.mutex as u128,
        Some(key) => match plain_number(key.expr) {
            Some(element) => lock.mutex as u128 + element as u128,
            None => lock.mutex as u128,
        },
    }
}

/// The number after all those that it may have.
fn lock_to(mutexes: &[Mutex], lock: LockRef<'_>) -> u128
    ensures { result ≡ lock_to (map mutex_of mutexes.now) (lock_ref_of lock.entry) }
{
    match lock.key {
        None => lock.mutex as u128 + 1,
        Some(key) => match plain_number(key.expr) {
            Some(element) => lock.mutex as u128 + element as u128 + 1,
            None => lock.mutex as u128 + mutexes_of(mutexes, lock.mutex) as u128,
        },
    }
}

/// The one that is held isn't below the wanted one.
pub fn is_in_way(mutexes: &[Mutex], wanted: LockRef<'_>, own: LockRef<'_>) -> bool
    ensures { result ≡ is_in_way (map mutex_of mutexes.now) (lock_ref_of wanted.entry) (lock_ref_of own.entry) }
{
    lock_from(wanted) < lock_to(mutexes, own)
}
