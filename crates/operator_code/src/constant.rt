//! Constants of 64 bits in a register.
ghost use Rattle.std.specs.Prelude.{◌≡◌, ◌<◌, ◌≤◌, ◌+◌, ◌-◌, ◌*◌, ◌/◌, ◌^◌, ◌||◌, nat_lt, length, IfOk, OnOk};
ghost use Rattle.operator_code.specs.StraightLineCode.{IsConstant};
ghost use Rattle.operator_code.specs.links.Digits.{IsConstantOfBits};
ghost use Rattle.operator_code.specs.links.InstructionLists.{word_code, with_digit};

use crate::instructions::{immediate, lui, shift};
use ido_base::memory::OutOfMemory;
use rv64_isa::field::Register;
use rv64_isa::instr::{ImmediateOperation, Instr, ShiftOperation};
use std::alloc::Global;

/// Half of the numbers that a 12-bit immediate holds.
pub(crate) const HALF_IMMEDIATE: u64 = 1 << 11;

/// Half of the numbers that LUI and ADDIW make.
const HALF_WORD: u64 = 1 << 31;

/// Numbers of 32 bits.
const WORDS: u64 = 1 << 32;

/// Numbers that an immediate holds.
pub(crate) const IMMEDIATES: u64 = 1 << 12;

/// Whether a number, in two's complement of so many bits, lies from `-half` to `half - 1`.
pub(crate) fn is_near(number: u64, bits: u32, half: u64) -> bool
    requires some { 0 < bits }
    requires bits { bits ≤ 64 }
    requires number { number < 2 ^ bits }
    ensures { result ≡ (nat_lt number half || nat_lt (2 ^ bits - 1 - number) half) }
{
    number < half || (u64::MAX >> (64 - bits)) - number < half
}

/// A number of 32 bits, sign-extended, into a register: by LUI alone where its low 12 bits are 0.
fn word(alloc: Global, rd: Register, number: u32) -> Result<Vec<Instr>, OutOfMemory>
    ensures code { IfOk result (λ code. code.items ≡ word_code rd number) }
    ensures short { IfOk result (λ code. length code.items ≤ 2) }
{
    let low = (number % 4096) as u16;
    let upper = number.wrapping_add(0x800) / 4096;
    let mut code = vec![in alloc; lui(rd, upper)]?;
    if low != 0 {
        code.push(immediate(ImmediateOperation::Addiw, rd, rd, low))?;
    }
    Ok(code)
}

/// The register's number is shifted up and gets a low digit.
fn push_digit(code: &mut Vec<Instr>, rd: Register, count: u8, low: u16) -> Result<(), OutOfMemory>
    requires count { count < 2 ^ 6 }
    requires low { low < 2 ^ 12 }
    ensures code { OnOk result (code.new.items ≡ with_digit rd count low code.old.items) }
    ensures short { OnOk result (length code.new.items ≤ length code.old.items + 2) }
{
    code.push(shift(ShiftOperation::Slli, rd, rd, count))?;
    if low != 0 {
        code.push(immediate(ImmediateOperation::Addi, rd, rd, low))?;
    }
    Ok(())
}

/// A register gets a number whose low so many bits are these.
fn digits(alloc: Global, rd: Register, bits: u32, number: u64) -> Result<Vec<Instr>, OutOfMemory>
    requires rd { 0 < rd }
    requires some { 0 < bits }
    requires bits { bits ≤ 64 }
    requires number { number < 2 ^ bits }
    ensures code { IfOk result (λ code. IsConstantOfBits rd bits number code.items) }
    ensures short { IfOk result (λ code. 12 * ((length code.items + 1) / 2) ≤ 12 + (bits - 20)) }
    ensures small { number < 2 ^ 11 → IfOk result (λ code. length code.items ≡ 1) }
    ensures two { number < 2 ^ 31 → IfOk result (λ code. length code.items ≤ 2) }
{
    let low = (number % IMMEDIATES) as u16;
    if is_near(number, bits, HALF_IMMEDIATE) {
        let addi = immediate(ImmediateOperation::Addi, rd, Register::X0, low);
        return Ok(vec![in alloc; addi]?);
    }
    if is_near(number, bits, HALF_WORD) {
        let below = (number % WORDS) as u32;
        return word(alloc, rd, below);
    }
    let upper = (number + HALF_IMMEDIATE) / IMMEDIATES;
    let zeros = upper.trailing_zeros();
    let mut code = digits(alloc, rd, bits - 12 - zeros, upper >> zeros)?;
    push_digit(&mut code, rd, (12 + zeros) as u8, low)?;
    Ok(code)
}

/// Code that computes a number into a register, other than x0, from nothing: an ADDI, a LUI and an ADDIW, or those
/// of the number's upper part, a shift and an ADDI of its low 12 bits. It changes no other register. At most 8 words; two for
/// a number below 2^31, and one for one below 2^11.
pub fn constant(alloc: Global, rd: Register, number: u64) -> Result<Vec<Instr>, OutOfMemory>
    requires { 0 < rd }
    ensures code { IfOk result (λ code. IsConstant rd number code.items) }
    ensures short { IfOk result (λ code. length code.items ≤ 8) }
    ensures small { number < 2 ^ 11 → IfOk result (λ code. length code.items ≡ 1) }
    ensures two { number < 2 ^ 31 → IfOk result (λ code. length code.items ≤ 2) }
{
    digits(alloc, rd, 64, number)
}
