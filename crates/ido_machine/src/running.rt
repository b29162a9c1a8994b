//! The step of a hart: of one that executes instructions, or in recovery.
ghost use Rattle.std.specs.Prelude.{List, ◌≡◌, ◌&&◌, ◌+◌, ◌^◌, ◌<◌, ◌≤◌, ℕ, not, length, slice_get, Some};
ghost use Rattle.machine_events.specs.declared.event.Event.TheVariants.{Step};
ghost use Rattle.machine_events.specs.Cores.{is_idle};
ghost use Rattle.ido_base.specs.Locks.{holds_none};
ghost use Rattle.line_memory.specs.links.MemoryRepresentation.{Represents, log_in, threads_of, logs_of, stores_of};
ghost use Rattle.rv64_isa.specs.declared.object.Slot.{Slot};
ghost use Rattle.rv64_isa.specs.Programs.{fetched};
ghost use Rattle.machine_model.specs.Machine.{Hart as HartModel, World, happens, reply_to, run_step};
ghost use Rattle.resume_recovery.specs.RecoverySteps.{phases_of};
ghost use Rattle.hart_core.specs.StepsOnParts.{Parts, PartsStand, PartsEnd};
ghost use Rattle.ido_machine.specs.Machines.{MachineState, RepresentsMachineState, StateEnds};

use hart_core::hart::Hart;
use hart_core::program::Program;
use hart_core::step::execute;
use line_memory::memory::LineMemory;
use lock_table::LockTable;
use machine_events::event::Reply;
use machine_model::phase::Phase;
use resume_recovery::phase_step;
use rv64_isa::object::Slot;

/// The machine is in recovery, and the hart holds a lock.
fn may_end(recovering: bool, number: u32, locks: &LockTable) -> bool
    ensures { result ≡ (recovering && not (holds_none locks.now number)) }
{
    recovering && !locks.holds_none(number)
}

/// The recovery of a hart that held a lock is over, as it holds none.
fn is_over(held: bool, number: u32, locks: &LockTable) -> bool
    ensures { result ≡ (held && holds_none locks.now number) }
{
    held && locks.holds_none(number)
}

/// The next step of the hart of this number would wait, or would find that the hart is done or has ended.
pub(crate) fn is_idle(
    number: u32,
    program: &Program,
    phases: &[Phase],
    hart: &Hart,
    memory: &LineMemory,
    locks: &LockTable,
) -> bool
    requires exists { number < length program.now }
    requires few { length program.now ≤ 8 }
    requires phased { length phases.now ≡ length program.now }
    requires threads { threads_of memory.now ≡ length program.now }
    ensures { (w : World) (model : HartModel) → Represents memory.now w.words → w.log ≡ log_in memory.now → w.holders ≡ locks.now → phases_of w ≡ phases.now →
        slice_get w.harts number ≡ Some model → model.registers ≡ hart.now.registers → model.pc ≡ hart.now.pc →
        result ≡ is_idle (reply_to program.now w (Step number)) }
{
    match phases[number as usize] {
        Phase::Run => hart_core::step::would_wait(number, program, hart, locks),
        _ => resume_recovery::would_wait(number, phases, memory, locks),
    }
}

/// Makes the step of a hart that has this at its pc; in recovery, a hart whose release leaves it with nothing is done.
#[inline(always)]
fn run(
    number: u32,
    next: Option<Slot>,
    recovering: bool,
    phase: &mut Phase,
    hart: &mut Hart,
    memory: &mut LineMemory,
    locks: &mut LockTable,
) -> Reply
    requires { stores_of memory.old < 2 ^ 63 }
    ensures step { (program : List (List Slot)) (w : World) (model : HartModel) → next ≡ fetched program number hart.old.pc → w.recovering ≡ recovering
        → PartsStand
        (record { phase = phase.old; hart = hart.old; memory = memory.old; locks = locks.old }) number w model → PartsEnd
        (record { phase = phase.new; hart = hart.new; memory = memory.new; locks = locks.new }) result number w (run_step program w number model) }
    ensures logs { logs_of memory.new ≡ logs_of memory.old }
    ensures stores { stores_of memory.new ≤ stores_of memory.old + 1 }
    ensures locks { length locks.new ≡ length locks.old }
{
    let held = may_end(recovering, number, locks);
    let reply = execute(number, next, phase, hart, memory, locks);
    if is_over(held, number, locks) {
        *phase = Phase::Done;
    }
    reply
}

/// A step of the hart of this number, which has this at its pc where it executes instructions.
#[inline(always)]
pub(crate) fn step_one(
    number: u32,
    next: Option<Slot>,
    recovering: bool,
    phases: &mut [Phase],
    harts: &mut [Hart],
    memory: &mut LineMemory,
    locks: &mut LockTable,
) -> Reply
    requires exists { number < length harts.old }
    requires few { length harts.old ≤ 8 }
    requires phased { length phases.old ≡ length harts.old }
    requires threads { threads_of memory.old ≡ length harts.old }
    requires room { stores_of memory.old < 2 ^ 63 }
    ensures step { (program : List (List Slot)) (w : World) → RepresentsMachineState
        (record { phases = phases.old; harts = harts.old; memory = memory.old; locks = locks.old; recovering = recovering }) w →
        ((model : HartModel) → slice_get w.harts number ≡ Some model → next ≡ fetched program number model.pc) →
        StateEnds (record { phases = phases.new; harts = harts.new; memory = memory.new; locks = locks.new; recovering = recovering }) result
        (happens program w (Step number)) }
    ensures logs { logs_of memory.new ≡ logs_of memory.old }
    ensures stores { stores_of memory.new ≤ stores_of memory.old + 1 }
{
    let at = number as usize;
    match phases[at] {
        Phase::Run => run(
            number,
            next,
            recovering,
            &mut phases[at],
            &mut harts[at],
            memory,
            locks,
        ),
        _ => phase_step(number, phases, &mut harts[at], memory, locks),
    }
}
