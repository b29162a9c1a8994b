//! Steps of a hart that touch nothing but its registers and its pc, apart from any machine.
ghost use Rattle.std.specs.Prelude.{◌≡◌, ℕ, List, None, Some, IfSome, IfNone, MatchBool};
ghost use Rattle.rv64_isa.specs.Rows.{row, written};
ghost use Rattle.hart_core.specs.Effects.{effect_in};
ghost use Rattle.hart_core.specs.LocalSteps.{continued, after_write};

use crate::effects::Effect;
use crate::hart::Hart;
use crate::rows;
use rv64_isa::field::Register;
use rv64_isa::instr::Instr;

/// What local steps change of a hart.
#[derive(Clone, Copy, Drop)]
pub struct LocalState {
    /// x0 to x31.
    pub registers: [u64; 32],
    /// The address of the instruction that it executes next.
    pub pc: u64,
}

/// What a local step does: it writes a register, x0 where it writes none, and goes on at the pc.
#[derive(Clone, Copy, Drop)]
pub struct LocalWrite {
    pub register: Register,
    pub value: u64,
    pub pc: u64,
}

/// Writes a register; x0 stays as it is.
#[inline(always)]
fn write(registers: &mut [u64; 32], register: Register, value: u64)
    ensures { registers.new ≡ written registers.old register value }
{
    let number = register.number();
    if number != 0 {
        registers[number as usize] = value;
    }
}

/// Goes on by an effect, where that is local: true exactly there, else nothing changes.
#[inline(always)]
fn go_on(effect: Effect, state: &mut LocalState) -> bool
    ensures { MatchBool result
        (continued (effect_in effect state.old.registers) ≡ Some state.new)
        ((continued (effect_in effect state.old.registers) ≡ None) × (state.new ≡ state.old)) }
{
    match effect {
        Effect::Writes {
            register,
            value,
            pc,
        } => {
            write(&mut state.registers, register, value);
            state.pc = pc;
            true
        }
        Effect::Goes { pc } => {
            state.pc = pc;
            true
        }
        Effect::Loads { .. } => false,
        Effect::Stores { .. } => false,
        Effect::Cleans { .. } => false,
        Effect::Fences => false,
        Effect::Calls => false,
    }
}

/// Executes an instruction, where it is local: true exactly there, else nothing changes.
#[inline(always)]
pub fn step(instr: Instr, state: &mut LocalState) -> bool
    ensures { MatchBool result
        (continued (row instr state.old.registers state.old.pc) ≡ Some state.new)
        ((continued (row instr state.old.registers state.old.pc) ≡ None) × (state.new ≡ state.old)) }
{
    go_on(rows::effect(instr, &state.registers, state.pc), state)
}

/// What an effect writes, where it is local.
#[inline(always)]
fn write_of(effect: Effect) -> Option<LocalWrite>
    ensures some { IfSome result (λ write. (registers : List ℕ) → continued (effect_in effect registers) ≡ Some (after_write write registers)) }
    ensures none { IfNone result ((registers : List ℕ) → continued (effect_in effect registers) ≡ None) }
{
    match effect {
        Effect::Writes {
            register,
            value,
            pc,
        } => Some(LocalWrite {
            register,
            value,
            pc,
        }),
        Effect::Goes { pc } => Some(LocalWrite {
            register: Register::X0,
            value: 0,
            pc,
        }),
        Effect::Loads { .. } => None,
        Effect::Stores { .. } => None,
        Effect::Cleans { .. } => None,
        Effect::Fences => None,
        Effect::Calls => None,
    }
}

/// What an instruction writes where a hart executes it, if it is local.
#[inline(always)]
pub fn local_write(instr: Instr, hart: &Hart) -> Option<LocalWrite>
    ensures some { IfSome result (λ write. continued (row instr hart.now.registers hart.now.pc) ≡ Some (after_write write hart.now.registers)) }
    ensures none { IfNone result (continued (row instr hart.now.registers hart.now.pc) ≡ None) }
{
    write_of(rows::effect(instr, &hart.registers, hart.pc))
}
