//! Texts of instructions in a listing.
ghost use Rattle.std.specs.Prelude.{◌≡◌, ◌<◌, ◌++◌, OnOk, decimal};
ghost use Rattle.std.specs.Fmt.{signed_decimal};
ghost use Rattle.object_listing.specs.Instructions.{hex_digit, hex_word, signed, target, of_three, of_base, of_upper, of_jump, of_clean, register, instruction_text};

use crate::mnemonic::{
    condition_name, immediate_name, load_name, operation_name, shift_name, store_name,
    word_shift_name,
};
use ido_base::memory::OutOfMemory;
use run_scripts::report::put;
use rv64_isa::field::{BranchOffset, Immediate, JumpOffset, Register, UpperImmediate};
use rv64_isa::instr::Instr;
use std::alloc::Global;

/// A hexadecimal digit, in lower case.
fn hex_digit(n: u32) -> u8
    requires { n < 16 }
    ensures { result ≡ hex_digit n }
{
    if n < 10 {
        b'0' + n as u8
    } else {
        b'a' + (n as u8 - 10)
    }
}

/// Eight hexadecimal digits.
#[tactic(auto, unfolding(crate::specs::Instructions::hex_word))]
pub fn hex_word(n: u32) -> [u8; 8]
    ensures { result ≡ hex_word n }
{
    [
        hex_digit(n / 0x1000_0000 % 16),
        hex_digit(n / 0x100_0000 % 16),
        hex_digit(n / 0x10_0000 % 16),
        hex_digit(n / 0x1_0000 % 16),
        hex_digit(n / 0x1000 % 16),
        hex_digit(n / 0x100 % 16),
        hex_digit(n / 0x10 % 16),
        hex_digit(n % 16),
    ]
}

/// The number that an immediate stands for.
fn signed(immediate: Immediate) -> i32
    ensures { result ≡ signed 12 immediate }
{
    let bits = i32::from(immediate.bits());
    if bits < 0x800 { bits } else { bits - 0x1000 }
}

/// The target of a branch, its low 32 bits.
fn branch_target(address: u32, offset: BranchOffset) -> u32
    ensures { result ≡ target address 13 offset }
{
    let bits = u32::from(offset.bits());
    let displaced = address.wrapping_add(bits);
    if bits < 0x1000 {
        displaced
    } else {
        displaced.wrapping_sub(0x2000)
    }
}

/// The target of a jump, its low 32 bits.
fn jump_target(address: u32, offset: JumpOffset) -> u32
    ensures { result ≡ target address 21 offset }
{
    let bits = offset.bits();
    let displaced = address.wrapping_add(bits);
    if bits < 0x10_0000 {
        displaced
    } else {
        displaced.wrapping_sub(0x20_0000)
    }
}

/// Adds `addi x5, x0, 1`: a name, two registers and a third operand.
#[tactic(auto, unfolding(crate::specs::Instructions::of_three))]
fn put_three(
    alloc: Global,
    out: &mut Vec<u8>,
    name: &str,
    registers: (Register, Register),
    third: &[u8],
) -> Result<(), OutOfMemory>
    ensures { OnOk result (out.new.items ≡ out.old.items ++ of_three name.now registers.0 registers.1 third.now) }
{
    let first = registers.0.number();
    let second = registers.1.number();
    let text = format!(in alloc; "{name} x{first}, x{second}, ")?;
    put(out, text.as_bytes())?;
    put(out, third)
}

/// Adds an instruction of two registers and an immediate.
fn put_immediate(
    alloc: Global,
    out: &mut Vec<u8>,
    name: &str,
    registers: (Register, Register),
    immediate: Immediate,
) -> Result<(), OutOfMemory>
    ensures { OnOk result (out.new.items ≡ out.old.items ++ of_three name.now registers.0 registers.1 (signed_decimal (signed 12 immediate))) }
{
    let number = signed(immediate);
    let text = format!(in alloc; "{number}")?;
    put_three(alloc, out, name, registers, text.as_bytes())
}

/// Adds an instruction of two registers and a count.
fn put_count(
    alloc: Global,
    out: &mut Vec<u8>,
    name: &str,
    registers: (Register, Register),
    count: u8,
) -> Result<(), OutOfMemory>
    ensures { OnOk result (out.new.items ≡ out.old.items ++ of_three name.now registers.0 registers.1 (decimal count)) }
{
    let text = format!(in alloc; "{count}")?;
    put_three(alloc, out, name, registers, text.as_bytes())
}

/// Adds an instruction of three registers.
fn put_registers(
    alloc: Global,
    out: &mut Vec<u8>,
    name: &str,
    registers: (Register, Register),
    third: Register,
) -> Result<(), OutOfMemory>
    ensures { OnOk result (out.new.items ≡ out.old.items ++ of_three name.now registers.0 registers.1 (register third)) }
{
    let number = third.number();
    let text = format!(in alloc; "x{number}")?;
    put_three(alloc, out, name, registers, text.as_bytes())
}

/// Adds `ld x5, 0(x28)`: a name, a register, and a base with its offset.
#[tactic(auto, unfolding(crate::specs::Instructions::of_base))]
fn put_base(
    alloc: Global,
    out: &mut Vec<u8>,
    name: &str,
    registers: (Register, Register),
    offset: Immediate,
) -> Result<(), OutOfMemory>
    ensures { OnOk result (out.new.items ≡ out.old.items ++ of_base name.now registers.0 registers.1 offset) }
{
    let first = registers.0.number();
    let base = registers.1.number();
    let offset = signed(offset);
    let text = format!(in alloc; "{name} x{first}, {offset}(x{base})")?;
    put(out, text.as_bytes())
}

/// Adds `lui x5, 0x20000`.
#[tactic(auto, unfolding(crate::specs::Instructions::of_upper))]
fn put_upper(
    alloc: Global,
    out: &mut Vec<u8>,
    name: &str,
    rd: Register,
    immediate: UpperImmediate,
) -> Result<(), OutOfMemory>
    ensures { OnOk result (out.new.items ≡ out.old.items ++ of_upper name.now rd immediate) }
{
    let rd = rd.number();
    let bits = immediate.bits();
    let text = format!(in alloc; "{name} x{rd}, 0x{bits:x}")?;
    put(out, text.as_bytes())
}

/// Adds `jal x0, 00010010`.
#[tactic(auto, unfolding(crate::specs::Instructions::of_jump))]
fn put_jump(
    alloc: Global,
    out: &mut Vec<u8>,
    address: u32,
    rd: Register,
    offset: JumpOffset,
) -> Result<(), OutOfMemory>
    ensures { OnOk result (out.new.items ≡ out.old.items ++ of_jump address rd offset) }
{
    let rd = rd.number();
    let text = format!(in alloc; "jal x{rd}, ")?;
    put(out, text.as_bytes())?;
    put(out, &hex_word(jump_target(address, offset)))
}

/// Adds `cbo.clean (x31)`.
#[tactic(auto, unfolding(crate::specs::Instructions::of_clean))]
fn put_clean(alloc: Global, out: &mut Vec<u8>, rs1: Register) -> Result<(), OutOfMemory>
    ensures { OnOk result (out.new.items ≡ out.old.items ++ of_clean rs1) }
{
    let rs1 = rs1.number();
    let text = format!(in alloc; "cbo.clean (x{rs1})")?;
    put(out, text.as_bytes())
}

/// Adds the text of an instruction that stands at the address.
pub fn put_instruction(
    alloc: Global,
    out: &mut Vec<u8>,
    address: u32,
    instr: Instr,
) -> Result<(), OutOfMemory>
    ensures { OnOk result (out.new.items ≡ out.old.items ++ instruction_text address instr) }
{
    match instr {
        Instr::Lui { rd, immediate } => put_upper(alloc, out, "lui", rd, immediate),
        Instr::Auipc { rd, immediate } => put_upper(alloc, out, "auipc", rd, immediate),
        Instr::Jal { rd, offset } => put_jump(alloc, out, address, rd, offset),
        Instr::Jalr { rd, rs1, offset } => put_base(alloc, out, "jalr", (rd, rs1), offset),
        Instr::Branch {
            condition,
            rs1,
            rs2,
            offset,
        } => {
            let target = hex_word(branch_target(address, offset));
            put_three(alloc, out, condition_name(condition), (rs1, rs2), &target)
        }
        Instr::Load {
            kind,
            rd,
            rs1,
            offset,
        } => put_base(alloc, out, load_name(kind), (rd, rs1), offset),
        Instr::Store {
            kind,
            rs2,
            rs1,
            offset,
        } => put_base(alloc, out, store_name(kind), (rs2, rs1), offset),
        Instr::OpImmediate {
            operation,
            rd,
            rs1,
            immediate,
        } => put_immediate(alloc, out, immediate_name(operation), (rd, rs1), immediate),
        Instr::ShiftImmediate {
            operation,
            rd,
            rs1,
            count,
        } => put_count(alloc, out, shift_name(operation), (rd, rs1), count.bits()),
        Instr::ShiftImmediateWord {
            operation,
            rd,
            rs1,
            count,
        } => {
            let name = word_shift_name(operation);
            put_count(alloc, out, name, (rd, rs1), count.bits())
        }
        Instr::Op {
            operation,
            rd,
            rs1,
            rs2,
        } => put_registers(alloc, out, operation_name(operation), (rd, rs1), rs2),
        Instr::CboClean { rs1 } => put_clean(alloc, out, rs1),
        Instr::Fence => put(out, b"fence rw, rw"),
        Instr::Ecall => put(out, b"ecall"),
    }
}
