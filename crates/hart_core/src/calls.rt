//! ECALL: locks, and the end of a hart.
ghost use Rattle.std.specs.Prelude.{◌≡◌, ◌⊎◌, ℕ, List, Option, length, slice_get};
ghost use Rattle.ido_base.specs.Locks.{is_held_by, least_held};
ghost use Rattle.line_memory.specs.declared.memory.LineMemory.{LineMemory};
ghost use Rattle.machine_model.specs.declared.phase.Phase.{Phase};
ghost use Rattle.machine_model.specs.declared.phase.Phase.TheVariants.{Ended};
ghost use Rattle.rv64_isa.specs.Rows.{Effect, Calls, read};
ghost use Rattle.machine_model.specs.Machine.{acquired, released, ended, applied};
ghost use Rattle.hart_core.specs.StepsOnParts.{Parts, IsStep};
ghost use Rattle.hart_core.specs.links.Waits.{asks_held};

use crate::hart::Hart;
use lock_table::LockTable;
use machine_events::event::{Cause, Reply};
use machine_model::phase::Phase;

/// The register that says what an ECALL asks for.
const ASKED: usize = 17;
/// The register that says of which lock.
const LOCK: usize = 10;

/// Takes a lock, or waits for its holder.
fn acquire(number: u32, lock: u64, hart: &mut Hart, locks: &mut LockTable) -> Reply
    ensures step { (phase : Phase) (memory : LineMemory) → IsStep (λ w model. acquired w number model lock (slice_get w.holders lock)) number
        (record { phase = phase; hart = hart.old; memory = memory; locks = locks.old })
        (record { phase = phase; hart = hart.new; memory = memory; locks = locks.new }) result }
    ensures locks { length locks.new ≡ length locks.old }
{
    if lock >= u64::from(locks.locks()) {
        return Reply::Stuck(Cause::NoLock { lock });
    }
    let lock = lock as u32;
    if let Some(holder) = locks.held_by(lock) {
        return Reply::Waits { lock, holder };
    }
    let _ = locks.try_take(number, lock);
    hart.go_on();
    Reply::Moved
}

/// Releases a lock that the hart holds.
fn release(number: u32, lock: u64, hart: &mut Hart, locks: &mut LockTable) -> Reply
    ensures step { (phase : Phase) (memory : LineMemory) → IsStep (λ w model. released w number model lock (slice_get w.holders lock)) number
        (record { phase = phase; hart = hart.old; memory = memory; locks = locks.old })
        (record { phase = phase; hart = hart.new; memory = memory; locks = locks.new }) result }
    ensures locks { length locks.new ≡ length locks.old }
{
    if lock >= u64::from(locks.locks()) {
        return Reply::Stuck(Cause::NoLock { lock });
    }
    if locks.held_by(lock as u32) != Some(number) {
        return Reply::Stuck(Cause::NotHeld { lock });
    }
    locks.give(lock as u32);
    hart.go_on();
    Reply::Moved
}

/// Ends the hart, unless it holds a lock.
fn end(number: u32, phase: &mut Phase, hart: &mut Hart, locks: &LockTable) -> Reply
    ensures step { (memory : LineMemory) → IsStep (λ w model. ended w number model (least_held w.holders number)) number
        (record { phase = phase.old; hart = hart.old; memory = memory; locks = locks.now })
        (record { phase = phase.new; hart = hart.new; memory = memory; locks = locks.now }) result }
    ensures phase { (phase.new ≡ phase.old) ⊎ (phase.new ≡ Ended) }
{
    if let Some(lock) = locks.least_held(number) {
        return Reply::Stuck(Cause::EndHolding {
            lock: u64::from(lock),
        });
    }
    *phase = Phase::Ended;
    hart.go_on();
    Reply::Moved
}

/// An ECALL would wait: it asks for a lock that has a holder.
pub(crate) fn would_wait(hart: &Hart, locks: &LockTable) -> bool
    ensures { result ≡ asks_held locks.now (read hart.now.registers 17) (read hart.now.registers 10) }
{
    let lock = hart.registers[LOCK];
    if hart.registers[ASKED] != 1 || lock >= u64::from(locks.locks()) {
        return false;
    }
    locks.held_by(lock as u32).is_some()
}

/// What an ECALL asks for: x17 says what, x10 of which lock.
pub(crate) fn call(number: u32, phase: &mut Phase, hart: &mut Hart, locks: &mut LockTable) -> Reply
    ensures step { (memory : LineMemory) → IsStep (λ w model. applied w number model Calls) number
        (record { phase = phase.old; hart = hart.old; memory = memory; locks = locks.old })
        (record { phase = phase.new; hart = hart.new; memory = memory; locks = locks.new }) result }
    ensures phase { (phase.new ≡ phase.old) ⊎ (phase.new ≡ Ended) }
    ensures locks { length locks.new ≡ length locks.old }
{
    let lock = hart.registers[LOCK];
    match hart.registers[ASKED] {
        1 => acquire(number, lock, hart, locks),
        2 => release(number, lock, hart, locks),
        3 => end(number, phase, hart, locks),
        asked => Reply::Stuck(Cause::NoCall { number: asked }),
    }
}
