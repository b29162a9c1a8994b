//! The check of a flat form.
ghost use Rattle.std.specs.Prelude.{◌≡◌, None, Some, IfOk, IfErr, IfSome};
ghost use Rattle.c_tree.specs.Flats.{flat_of};
ghost use Rattle.lock_order.specs.Faults.{fault_of};
ghost use Rattle.lock_order.specs.LockOrder.{order_fault};

use crate::error::OrderError;
use crate::walk::walk_thread;
use c_tree::flat::Flat;
use std::alloc::Global;

/// Whether each thread takes a lock only while all that it holds are below it: of an earlier declaration, or of one array of mutexes, both by plain numbers,
/// the lesser. Else the first `lock` of the first thread where one is held that isn't below it, and the last `lock` before it in the text of such a one.
pub fn ordered(alloc: Global, flat: &Flat) -> Result<(), OrderError>
    ensures accepts { IfOk result (λ _. order_fault (flat_of flat.now) ≡ None) }
    ensures refuses { IfErr result (λ error. IfSome (fault_of error) (λ fault. order_fault (flat_of flat.now) ≡ Some fault)) }
{
    for thread in &flat.threads {
        walk_thread(alloc, &flat.mutexes, thread)?;
    }
    Ok(())
}
