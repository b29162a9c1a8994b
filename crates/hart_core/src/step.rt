//! The step of a hart.
ghost use Rattle.std.specs.Prelude.{◌≡◌, ◌⊎◌, ℕ, ◌+◌, ◌^◌, ◌<◌, ◌≤◌, List, Option, length};
ghost use Rattle.line_memory.specs.declared.memory.LineMemory.{LineMemory};
ghost use Rattle.line_memory.specs.links.MemoryRepresentation.{logs_of, stores_of};
ghost use Rattle.machine_model.specs.declared.phase.Phase.{Phase};
ghost use Rattle.machine_model.specs.declared.phase.Phase.TheVariants.{Ended};
ghost use Rattle.rv64_isa.specs.declared.object.Slot.{Slot};
ghost use Rattle.rv64_isa.specs.Programs.{fetched};
ghost use Rattle.rv64_isa.specs.Rows.{Effect as Meaning, Continues, written};
ghost use Rattle.machine_model.specs.Machine.{applied, hart_step};
ghost use Rattle.hart_core.specs.Effects.{effect_in};
ghost use Rattle.hart_core.specs.StepsOnParts.{Parts, IsStep};
ghost use Rattle.hart_core.specs.links.Waits.{would_wait};

use crate::access::{clean, fence, load, store};
use crate::effects::Effect;
use crate::hart::Hart;
use crate::program::Program;
use crate::{calls, rows};
use line_memory::memory::LineMemory;
use lock_table::LockTable;
use machine_events::event::{Cause, Reply};
use machine_model::phase::Phase;
use rv64_isa::field::Register;
use rv64_isa::instr::Instr;
use rv64_isa::object::Slot;

/// Writes a register, and goes on at the pc.
fn write_and_go(register: Register, value: u64, pc: u64, hart: &mut Hart) -> Reply
    ensures { (number : ℕ) (phase : Phase) (memory : LineMemory) (locks : List (Option ℕ))
        → IsStep (λ w model. applied w number model (Continues (written hart.old.registers register value) pc)) number
        (record { phase = phase; hart = hart.old; memory = memory; locks = locks })
        (record { phase = phase; hart = hart.new; memory = memory; locks = locks }) result }
{
    hart.write(register, value);
    hart.pc = pc;
    Reply::Moved
}

/// Goes on at the pc.
fn go(pc: u64, hart: &mut Hart) -> Reply
    ensures { (number : ℕ) (phase : Phase) (memory : LineMemory) (locks : List (Option ℕ))
        → IsStep (λ w model. applied w number model (Continues hart.old.registers pc)) number
        (record { phase = phase; hart = hart.old; memory = memory; locks = locks })
        (record { phase = phase; hart = hart.new; memory = memory; locks = locks }) result }
{
    hart.pc = pc;
    Reply::Moved
}

/// What an effect does.
#[inline(always)]
fn apply(
    number: u32,
    effect: Effect,
    phase: &mut Phase,
    hart: &mut Hart,
    memory: &mut LineMemory,
    locks: &mut LockTable,
) -> Reply
    requires { stores_of memory.old < 2 ^ 63 }
    ensures step { IsStep (λ w model. applied w number model (effect_in effect hart.old.registers)) number
        (record { phase = phase.old; hart = hart.old; memory = memory.old; locks = locks.old })
        (record { phase = phase.new; hart = hart.new; memory = memory.new; locks = locks.new }) result }
    ensures phase { (phase.new ≡ phase.old) ⊎ (phase.new ≡ Ended) }
    ensures logs { logs_of memory.new ≡ logs_of memory.old }
    ensures stores { stores_of memory.new ≤ stores_of memory.old + 1 }
    ensures locks { length locks.new ≡ length locks.old }
{
    match effect {
        Effect::Writes {
            register,
            value,
            pc,
        } => write_and_go(register, value, pc, hart),
        Effect::Goes { pc } => go(pc, hart),
        Effect::Loads {
            kind,
            address,
            register,
        } => load(kind, address, register, hart, memory),
        Effect::Stores {
            kind,
            address,
            value,
        } => store(kind, address, value, hart, memory),
        Effect::Cleans { address } => clean(address, hart, memory),
        Effect::Fences => fence(hart, memory),
        Effect::Calls => calls::call(number, phase, hart, locks),
    }
}

/// The next step of the hart of this number, which executes instructions, would wait for a lock.
pub fn would_wait(number: u32, program: &Program, hart: &Hart, locks: &LockTable) -> bool
    ensures { result ≡ would_wait program.now number hart.now.registers hart.now.pc locks.now }
{
    match program.fetch(number, hart.pc) {
        Some(Slot::Row(Instr::Ecall)) => calls::would_wait(hart, locks),
        _ => false,
    }
}

/// A step of the hart of this number, which executes instructions and has this at its pc: an instruction, or one write-back of the
/// oldest entry of its queue where a clean meets a full queue or a fence one that isn't empty. A hart that
/// waits or is stuck changes nothing.
///
/// It speaks of every world that hart, memory and holders represent. The phase stays, or becomes `Ended`; recovery's phases aren't
/// stepped here.
#[inline(always)]
pub fn execute(
    number: u32,
    next: Option<Slot>,
    phase: &mut Phase,
    hart: &mut Hart,
    memory: &mut LineMemory,
    locks: &mut LockTable,
) -> Reply
    requires { stores_of memory.old < 2 ^ 63 }
    ensures step { (program : List (List Slot)) → next ≡ fetched program number hart.old.pc → IsStep (λ w model. hart_step program w number model) number
        (record { phase = phase.old; hart = hart.old; memory = memory.old; locks = locks.old })
        (record { phase = phase.new; hart = hart.new; memory = memory.new; locks = locks.new }) result }
    ensures phase { (phase.new ≡ phase.old) ⊎ (phase.new ≡ Ended) }
    ensures logs { logs_of memory.new ≡ logs_of memory.old }
    ensures stores { stores_of memory.new ≤ stores_of memory.old + 1 }
    ensures locks { length locks.new ≡ length locks.old }
{
    match next {
        None => Reply::Stuck(Cause::NoCode { pc: hart.pc }),
        Some(Slot::NoRow(word)) => Reply::Stuck(Cause::Illegal { word }),
        Some(Slot::Row(instr)) => {
            let effect = rows::effect(instr, &hart.registers, hart.pc);
            apply(number, effect, phase, hart, memory, locks)
        }
    }
}
