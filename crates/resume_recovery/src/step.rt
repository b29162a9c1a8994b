//! The step of a hart in recovery.
ghost use Rattle.std.specs.Prelude.{◌≡◌, ◌<◌, ◌^◌, ℕ, List, Option, length, slice_set};
ghost use Rattle.machine_events.specs.Cores.{is_idle};
ghost use Rattle.ido_base.specs.Locks.{least_missing};
ghost use Rattle.line_memory.specs.declared.memory.LineMemory.{LineMemory};
ghost use Rattle.line_memory.specs.links.MemoryRepresentation.{Represents, log_in, threads_of};
ghost use Rattle.rv64_isa.specs.declared.object.Slot.{Slot};
ghost use Rattle.machine_model.specs.declared.phase.Phase.TheVariants.{Take, Wait, Resume, Run};
ghost use Rattle.machine_model.specs.Machine.{Hart as HartModel, World, record_of, taken, waited, taking_from, resumed, phase_step};
ghost use Rattle.hart_core.specs.declared.hart.Hart.{Hart};
ghost use Rattle.hart_core.specs.StepsOnParts.{Parts, PartsStand, PartsEnd, IsStep};
ghost use Rattle.resume_recovery.specs.RecoverySteps.{phase_at, phases_of, IsRecoveryStep};

use crate::barrier::least_taking;
use crate::record::{missing_lock, resume_address, resumed_registers};
use hart_core::hart::Hart;
use line_memory::memory::LineMemory;
use lock_table::LockTable;
use machine_events::event::Reply;
use machine_model::phase::Phase;

/// Takes the least lock of the hart's record that it lacks, or waits for its holder; where it lacks none, it goes
/// on to wait for the others. The phase that it comes to, and the reply.
fn take(hart: u32, memory: &LineMemory, locks: &mut LockTable) -> (Phase, Reply)
    requires { hart < threads_of memory.now }
    ensures step { (it : Hart) → IsStep (λ w model. taken w hart model (least_missing w.holders (record_of w.log w.words hart) hart)) hart
        (record { phase = Take; hart = it; memory = memory.now; locks = locks.old })
        (record { phase = result.0; hart = it; memory = memory.now; locks = locks.new }) result.1 }
    ensures locks { length locks.new ≡ length locks.old }
{
    let Some(lock) = missing_lock(hart, memory, locks) else {
        return (Phase::Wait, Reply::Moved);
    };
    if let Some(holder) = locks.held_by(lock) {
        return (Phase::Take, Reply::Waits { lock, holder });
    }
    let _ = locks.try_take(hart, lock);
    (Phase::Take, Reply::Moved)
}

/// Goes on where no hart takes locks, else waits for the least that does.
fn wait(phases: &[Phase]) -> (Phase, Reply)
    requires { length phases.now < 2 ^ 32 }
    ensures { (number : ℕ) (hart : Hart) (memory : LineMemory) (locks : List (Option ℕ)) (w : World) (model : HartModel) → PartsStand
        (record { phase = Wait; hart = hart; memory = memory; locks = locks }) number w model → phases_of w ≡ phases.now → PartsEnd
        (record { phase = result.0; hart = hart; memory = memory; locks = locks }) result.1 number w (waited w number model (taking_from 0 w.harts)) }
{
    match least_taking(phases) {
        None => (Phase::Resume, Reply::Moved),
        Some(hart) => (Phase::Wait, Reply::Barrier { hart }),
    }
}

/// Sets the registers and the pc from the durable point and its bank.
fn resume(number: u32, hart: &mut Hart, memory: &LineMemory) -> (Phase, Reply)
    requires { number < threads_of memory.now }
    ensures { (locks : List (Option ℕ)) → IsStep (λ w model. resumed w number model) number
        (record { phase = Resume; hart = hart.old; memory = memory.now; locks = locks })
        (record { phase = result.0; hart = hart.new; memory = memory.now; locks = locks }) result.1 }
{
    hart.registers = resumed_registers(number, memory);
    hart.pc = resume_address(number, memory);
    (Phase::Run, Reply::Moved)
}

/// The hart's next step, in which it takes locks, would wait for one.
fn take_waits(hart: u32, memory: &LineMemory, locks: &LockTable) -> bool
    requires { hart < threads_of memory.now }
    ensures { (w : World) (model : HartModel) → Represents memory.now w.words → w.log ≡ log_in memory.now → w.holders ≡ locks.now →
        result ≡ is_idle (taken w hart model (least_missing w.holders (record_of w.log w.words hart) hart)).1 }
{
    match missing_lock(hart, memory, locks) {
        None => false,
        Some(lock) => locks.held_by(lock).is_some(),
    }
}

/// The next step of a hart, in which it waits for the others, would still wait.
fn wait_waits(phases: &[Phase]) -> bool
    requires { length phases.now < 2 ^ 32 }
    ensures { (w : World) (number : ℕ) (model : HartModel) → phases_of w ≡ phases.now →
        result ≡ is_idle (waited w number model (taking_from 0 w.harts)).1 }
{
    least_taking(phases).is_some()
}

/// The next step of the hart of this number, which doesn't execute instructions, would wait, or would find that the hart is done
/// or has ended.
pub fn would_wait(number: u32, phases: &[Phase], memory: &LineMemory, locks: &LockTable) -> bool
    requires exists { number < length phases.now }
    requires few { length phases.now < 2 ^ 32 }
    requires logged { number < threads_of memory.now }
    requires recovering { phase_at phases.now number ≡ Run → ⊥ }
    ensures { (program : List (List Slot)) (w : World) (model : HartModel) → Represents memory.now w.words → w.log ≡ log_in memory.now → w.holders ≡ locks.now →
        phases_of w ≡ phases.now → result ≡ is_idle (phase_step program w number model (phase_at phases.now number)).1 }
{
    match phases[number as usize] {
        Phase::Take => take_waits(number, memory, locks),
        Phase::Wait => wait_waits(phases),
        Phase::Resume => false,
        _ => true,
    }
}

/// A step of the hart of this number, which doesn't execute instructions: it takes a lock of its record, waits for
/// a holder or for the others, or resumes. One that is done or has ended changes nothing. Only its own phase
/// changes.
pub fn phase_step(
    number: u32,
    phases: &mut [Phase],
    hart: &mut Hart,
    memory: &LineMemory,
    locks: &mut LockTable,
) -> Reply
    requires exists { number < length phases.old }
    requires few { length phases.old < 2 ^ 32 }
    requires logged { number < threads_of memory.now }
    requires recovering { phase_at phases.old number ≡ Run → ⊥ }
    ensures step { IsRecoveryStep number (record { phase = phase_at phases.old number; hart = hart.old; memory = memory.now; locks = locks.old })
        (record { phase = phase_at phases.new number; hart = hart.new; memory = memory.now; locks = locks.new }) phases.old result }
    ensures phases { phases.new ≡ slice_set phases.old number (phase_at phases.new number) }
    ensures locks { length locks.new ≡ length locks.old }
{
    let (phase, reply) = match phases[number as usize] {
        Phase::Take => take(number, memory, locks),
        Phase::Wait => wait(phases),
        Phase::Resume => resume(number, hart, memory),
        still => (still, Reply::Still),
    };
    phases[number as usize] = phase;
    reply
}
