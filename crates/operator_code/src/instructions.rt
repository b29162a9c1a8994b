//! Instructions, by their registers and the bits of their immediates.
ghost use Rattle.std.specs.Prelude.{◌≡◌, ◌<◌, ◌^◌};

use rv64_isa::field::{Immediate, Register, ShiftCount, UpperImmediate};
use rv64_isa::instr::{ImmediateOperation, Instr, Operation, ShiftOperation, StoreKind};

/// `lui rd, bits`.
pub fn lui(rd: Register, bits: u32) -> Instr
    requires { bits < 2 ^ 20 }
    ensures { result ≡ Instr.Lui rd bits }
{
    Instr::Lui {
        rd,
        immediate: UpperImmediate::new(bits).unwrap(),
    }
}

/// `auipc rd, bits`.
pub fn auipc(rd: Register, bits: u32) -> Instr
    requires { bits < 2 ^ 20 }
    ensures { result ≡ Instr.Auipc rd bits }
{
    Instr::Auipc {
        rd,
        immediate: UpperImmediate::new(bits).unwrap(),
    }
}

/// An operation on `rs1` and an immediate of these bits.
pub fn immediate(operation: ImmediateOperation, rd: Register, rs1: Register, bits: u16) -> Instr
    requires { bits < 2 ^ 12 }
    ensures { result ≡ Instr.OpImmediate operation rd rs1 bits }
{
    Instr::OpImmediate {
        operation,
        rd,
        rs1,
        immediate: Immediate::new(bits).unwrap(),
    }
}

/// A shift of `rs1` by a count.
pub fn shift(operation: ShiftOperation, rd: Register, rs1: Register, count: u8) -> Instr
    requires { count < 2 ^ 6 }
    ensures { result ≡ Instr.ShiftImmediate operation rd rs1 count }
{
    Instr::ShiftImmediate {
        operation,
        rd,
        rs1,
        count: ShiftCount::new(count).unwrap(),
    }
}

/// An operation on `rs1` and `rs2`.
pub fn op(operation: Operation, rd: Register, rs1: Register, rs2: Register) -> Instr
    ensures { result ≡ Instr.Op operation rd rs1 rs2 }
{
    Instr::Op {
        operation,
        rd,
        rs1,
        rs2,
    }
}

/// `add rd, rs1, rs2`.
pub fn add(rd: Register, rs1: Register, rs2: Register) -> Instr
    ensures { result ≡ Instr.Op Operation.Add rd rs1 rs2 }
{
    Instr::Op {
        operation: Operation::Add,
        rd,
        rs1,
        rs2,
    }
}

/// `sd rs2, bits(rs1)`.
pub fn sd(rs2: Register, bits: u16, rs1: Register) -> Instr
    requires { bits < 2 ^ 12 }
    ensures { result ≡ Instr.Store StoreKind.Sd rs2 rs1 bits }
{
    Instr::Store {
        kind: StoreKind::Sd,
        rs2,
        rs1,
        offset: Immediate::new(bits).unwrap(),
    }
}
