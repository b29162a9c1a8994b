//! Operations on two registers.
ghost use Rattle.std.specs.Prelude.{◌≡◌};
ghost use Rattle.rv64_isa.specs.Arithmetic.{result_of};

use crate::products::{upper_mixed, upper_signed, upper_unsigned};
use crate::quotients::{
    divided, divided_unsigned, divided_unsigned_word, divided_word, remaining, remaining_unsigned,
    remaining_unsigned_word, remaining_word,
};
use crate::shifts::{left, left_word, right, right_arithmetic, right_arithmetic_word, right_word};
use crate::signs::{extended, flag_of, less, word, word_of};
use rv64_isa::instr::Operation;

/// What the operation leaves, of what its two source registers hold (RISC-V unprivileged ISA, "RV64I Base Integer
/// Instruction Set" and "M" Extension).
#[inline(always)]
#[tactic(auto, unfolding(rv64_isa::specs::Arithmetic::result_of))]
pub fn alu(operation: Operation, a: u64, b: u64) -> u64
    ensures { result ≡ result_of operation a b }
{
    match operation {
        Operation::Add => a.wrapping_add(b),
        Operation::Sub => a.wrapping_sub(b),
        Operation::Sll => left(a, b),
        Operation::Slt => flag_of(less(a, b)),
        Operation::Sltu => flag_of(a < b),
        Operation::Xor => a ^ b,
        Operation::Srl => right(a, b),
        Operation::Sra => right_arithmetic(a, b),
        Operation::Or => a | b,
        Operation::And => a & b,
        Operation::Mul => a.wrapping_mul(b),
        Operation::Mulh => upper_signed(a, b),
        Operation::Mulhsu => upper_mixed(a, b),
        Operation::Mulhu => upper_unsigned(a, b),
        Operation::Div => divided(a, b),
        Operation::Divu => divided_unsigned(a, b),
        Operation::Rem => remaining(a, b),
        Operation::Remu => remaining_unsigned(a, b),
        Operation::Addw => word_of(a.wrapping_add(b)),
        Operation::Subw => word_of(a.wrapping_sub(b)),
        Operation::Sllw => left_word(a, b),
        Operation::Srlw => right_word(a, b),
        Operation::Sraw => right_arithmetic_word(a, b),
        Operation::Mulw => word_of(a.wrapping_mul(b)),
        Operation::Divw => extended(divided_word(word(a), word(b))),
        Operation::Divuw => extended(divided_unsigned_word(word(a), word(b))),
        Operation::Remw => extended(remaining_word(word(a), word(b))),
        Operation::Remuw => extended(remaining_unsigned_word(word(a), word(b))),
    }
}
