//! The effect of each instruction (RISC-V unprivileged ISA, "RV64I Base Integer Instruction Set", "M"
//! Extension; Zicbom).
ghost use Rattle.std.specs.Prelude.{◌≡◌};
ghost use Rattle.rv64_isa.specs.Arithmetic.{operation_of, shift_of, word_shift_of};
ghost use Rattle.rv64_isa.specs.Rows.{row, read, next, displaced};
ghost use Rattle.hart_core.specs.Effects.{effect_in};

use crate::effects::Effect;
use crate::signs;
use rv64_alu::{alu, taken};
use rv64_isa::field::{Immediate, Register};
use rv64_isa::instr::{ImmediateOperation, Instr, Operation, ShiftOperation};

/// What the register holds.
pub(crate) fn read(registers: &[u64; 32], register: Register) -> u64
    ensures { result ≡ read registers.now register }
{
    registers[register.number() as usize]
}

/// The address of the next instruction.
pub(crate) fn next(pc: u64) -> u64
    ensures { result ≡ next pc }
{
    pc.wrapping_add(4)
}

fn displaced(base: u64, offset: Immediate) -> u64
    ensures { result ≡ displaced base 12 offset }
{
    base.wrapping_add(signs::of_immediate(offset))
}

fn operation_of(operation: ImmediateOperation) -> Operation
    ensures { result ≡ operation_of operation }
{
    match operation {
        ImmediateOperation::Addi => Operation::Add,
        ImmediateOperation::Slti => Operation::Slt,
        ImmediateOperation::Sltiu => Operation::Sltu,
        ImmediateOperation::Xori => Operation::Xor,
        ImmediateOperation::Ori => Operation::Or,
        ImmediateOperation::Andi => Operation::And,
        ImmediateOperation::Addiw => Operation::Addw,
    }
}

fn shift_of(operation: ShiftOperation) -> Operation
    ensures { result ≡ shift_of operation }
{
    match operation {
        ShiftOperation::Slli => Operation::Sll,
        ShiftOperation::Srli => Operation::Srl,
        ShiftOperation::Srai => Operation::Sra,
    }
}

fn word_shift_of(operation: ShiftOperation) -> Operation
    ensures { result ≡ word_shift_of operation }
{
    match operation {
        ShiftOperation::Slli => Operation::Sllw,
        ShiftOperation::Srli => Operation::Srlw,
        ShiftOperation::Srai => Operation::Sraw,
    }
}

/// What the instruction does at this pc, with these registers.
#[inline(always)]
#[tactic(auto, unfolding(rv64_isa::specs::Rows::row))]
pub fn effect(instr: Instr, registers: &[u64; 32], pc: u64) -> Effect
    ensures { effect_in result registers.now ≡ row instr registers.now pc }
{
    match instr {
        Instr::Lui { rd, immediate } => Effect::Writes {
            register: rd,
            value: signs::of_upper(immediate),
            pc: next(pc),
        },
        Instr::Auipc { rd, immediate } => Effect::Writes {
            register: rd,
            value: pc.wrapping_add(signs::of_upper(immediate)),
            pc: next(pc),
        },
        Instr::Jal { rd, offset } => Effect::Writes {
            register: rd,
            value: next(pc),
            pc: pc.wrapping_add(signs::of_jump(offset)),
        },
        Instr::Jalr { rd, rs1, offset } => Effect::Writes {
            register: rd,
            value: next(pc),
            pc: displaced(read(registers, rs1), offset) / 2 * 2,
        },
        Instr::Branch {
            condition,
            rs1,
            rs2,
            offset,
        } => {
            if taken(condition, read(registers, rs1), read(registers, rs2)) {
                Effect::Goes {
                    pc: pc.wrapping_add(signs::of_branch(offset)),
                }
            } else {
                Effect::Goes { pc: next(pc) }
            }
        }
        Instr::Load {
            kind,
            rd,
            rs1,
            offset,
        } => Effect::Loads {
            kind,
            address: displaced(read(registers, rs1), offset),
            register: rd,
        },
        Instr::Store {
            kind,
            rs2,
            rs1,
            offset,
        } => Effect::Stores {
            kind,
            address: displaced(read(registers, rs1), offset),
            value: read(registers, rs2),
        },
        Instr::OpImmediate {
            operation,
            rd,
            rs1,
            immediate,
        } => Effect::Writes {
            register: rd,
            value: alu(
                operation_of(operation),
                read(registers, rs1),
                signs::of_immediate(immediate),
            ),
            pc: next(pc),
        },
        Instr::ShiftImmediate {
            operation,
            rd,
            rs1,
            count,
        } => Effect::Writes {
            register: rd,
            value: alu(
                shift_of(operation),
                read(registers, rs1),
                u64::from(count.bits()),
            ),
            pc: next(pc),
        },
        Instr::ShiftImmediateWord {
            operation,
            rd,
            rs1,
            count,
        } => Effect::Writes {
            register: rd,
            value: alu(
                word_shift_of(operation),
                read(registers, rs1),
                u64::from(count.bits()),
            ),
            pc: next(pc),
        },
        Instr::Op {
            operation,
            rd,
            rs1,
            rs2,
        } => Effect::Writes {
            register: rd,
            value: alu(operation, read(registers, rs1), read(registers, rs2)),
            pc: next(pc),
        },
        Instr::CboClean { rs1 } => Effect::Cleans {
            address: read(registers, rs1),
        },
        Instr::Fence => Effect::Fences,
        Instr::Ecall => Effect::Calls,
    }
}
