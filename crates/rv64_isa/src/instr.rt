//! Instructions of the RISC-V unprivileged ISA: RV64I, the extension M, CBO.CLEAN of Zicbom, and of FENCE
//! and the system instructions `fence rw, rw` and ECALL alone.
use crate::field::{
    BranchOffset, Immediate, JumpOffset, Register, ShiftCount, UpperImmediate, WordShiftCount,
};

/// What a branch asks of two registers.
#[derive(Clone, Copy, Debug, PartialEq, Eq, Drop)]
pub enum Condition {
    Beq,
    Bne,
    Blt,
    Bge,
    Bltu,
    Bgeu,
}

/// Loads, by what they read.
#[derive(Clone, Copy, Debug, PartialEq, Eq, Drop)]
pub enum LoadKind {
    Lb,
    Lh,
    Lw,
    Ld,
    Lbu,
    Lhu,
    Lwu,
}

/// Stores, by what they write.
#[derive(Clone, Copy, Debug, PartialEq, Eq, Drop)]
pub enum StoreKind {
    Sb,
    Sh,
    Sw,
    Sd,
}

/// Operations on two registers.
#[derive(Clone, Copy, Debug, PartialEq, Eq, Drop)]
pub enum Operation {
    Add,
    Sub,
    Sll,
    Slt,
    Sltu,
    Xor,
    Srl,
    Sra,
    Or,
    And,
    Mul,
    Mulh,
    Mulhsu,
    Mulhu,
    Div,
    Divu,
    Rem,
    Remu,
    Addw,
    Subw,
    Sllw,
    Srlw,
    Sraw,
    Mulw,
    Divw,
    Divuw,
    Remw,
    Remuw,
}

/// Operations on a register and a 12-bit immediate.
#[derive(Clone, Copy, Debug, PartialEq, Eq, Drop)]
pub enum ImmediateOperation {
    Addi,
    Slti,
    Sltiu,
    Xori,
    Ori,
    Andi,
    Addiw,
}

/// Shifts by a count, and their W forms.
#[derive(Clone, Copy, Debug, PartialEq, Eq, Drop)]
pub enum ShiftOperation {
    Slli,
    Srli,
    Srai,
}

/// An instruction.
#[derive(Clone, Copy, Drop)]
pub enum Instr {
    Lui {
        rd: Register,
        immediate: UpperImmediate,
    },
    Auipc {
        rd: Register,
        immediate: UpperImmediate,
    },
    Jal {
        rd: Register,
        offset: JumpOffset,
    },
    Jalr {
        rd: Register,
        rs1: Register,
        offset: Immediate,
    },
    Branch {
        condition: Condition,
        rs1: Register,
        rs2: Register,
        offset: BranchOffset,
    },
    Load {
        kind: LoadKind,
        rd: Register,
        rs1: Register,
        offset: Immediate,
    },
    Store {
        kind: StoreKind,
        rs2: Register,
        rs1: Register,
        offset: Immediate,
    },
    OpImmediate {
        operation: ImmediateOperation,
        rd: Register,
        rs1: Register,
        immediate: Immediate,
    },
    ShiftImmediate {
        operation: ShiftOperation,
        rd: Register,
        rs1: Register,
        count: ShiftCount,
    },
    ShiftImmediateWord {
        operation: ShiftOperation,
        rd: Register,
        rs1: Register,
        count: WordShiftCount,
    },
    Op {
        operation: Operation,
        rd: Register,
        rs1: Register,
        rs2: Register,
    },
    CboClean {
        rs1: Register,
    },
    Fence,
    Ecall,
}
