//! Binary operators whose second operand is a constant.
ghost use Rattle.std.specs.Prelude.{◌≡◌, ◌↔◌, ◌<◌, ◌≤◌, ◌-◌, ◌%◌, ◌^◌, true, IsSome, IfSome};
ghost use Rattle.rv64_isa.specs.Arithmetic.{operation_of, shift_of, word_shift_of};
ghost use Rattle.operator_code.specs.Constants.{IsWithConstant, has_immediate, is_immediate, instruction_in};
ghost use Rattle.operator_code.specs.links.Immediates.{HasForm, takes};

use crate::binary_operators::arithmetic;
use crate::constant::{HALF_IMMEDIATE, IMMEDIATES, is_near};
use crate::operation::BinaryOperation;
use rv64_isa::field::{Immediate, Register, ShiftCount, WordShiftCount};
use rv64_isa::instr::{ImmediateOperation, Instr, Operation, ShiftOperation};

/// An instruction that has a constant in place of its second register, but for its registers.
#[derive(Clone, Copy)]
pub enum ImmediateForm {
    Number {
        operation: ImmediateOperation,
        immediate: Immediate,
    },
    Shift {
        operation: ShiftOperation,
        count: ShiftCount,
    },
    ShiftWord {
        operation: ShiftOperation,
        count: WordShiftCount,
    },
}

impl ImmediateForm {
    /// The instruction that reads `rs1` and writes `rd`.
    pub fn instruction(self, rd: Register, rs1: Register) -> Instr
        ensures { result ≡ instruction_in self rd rs1 }
    {
        match self {
            ImmediateForm::Number {
                operation,
                immediate,
            } => Instr::OpImmediate {
                operation,
                rd,
                rs1,
                immediate,
            },
            ImmediateForm::Shift { operation, count } => Instr::ShiftImmediate {
                operation,
                rd,
                rs1,
                count,
            },
            ImmediateForm::ShiftWord { operation, count } => Instr::ShiftImmediateWord {
                operation,
                rd,
                rs1,
                count,
            },
        }
    }
}

/// The one instruction that gives what the operator gives for an operand and a constant, both converted already. The
/// constant is in its register form. None where no instruction of the operator has an immediate, or none that holds it.
pub fn with_constant(operation: BinaryOperation, constant: u64) -> Option<ImmediateForm>
    ensures some { IsSome result ↔ (has_immediate operation.operator constant ≡ true) }
    ensures code { IfSome result (λ form. IsWithConstant operation constant form) }
{
    let code = arithmetic(operation.operator, operation.left_kind())?;
    form_of(code, constant)
}

fn form_of(operation: Operation, constant: u64) -> Option<ImmediateForm>
    ensures some { IsSome result ↔ (takes operation constant ≡ true) }
    ensures form { IfSome result (λ form. HasForm operation constant form) }
{
    match operation {
        Operation::Add => number(ImmediateOperation::Addi, constant),
        Operation::Addw => number(ImmediateOperation::Addiw, constant),
        Operation::Sub => number(ImmediateOperation::Addi, negative(constant)),
        Operation::Subw => number(ImmediateOperation::Addiw, negative(constant)),
        Operation::And => number(ImmediateOperation::Andi, constant),
        Operation::Or => number(ImmediateOperation::Ori, constant),
        Operation::Xor => number(ImmediateOperation::Xori, constant),
        Operation::Sll => Some(shift(ShiftOperation::Slli, constant)),
        Operation::Srl => Some(shift(ShiftOperation::Srli, constant)),
        Operation::Sra => Some(shift(ShiftOperation::Srai, constant)),
        Operation::Sllw => Some(shift_word(ShiftOperation::Slli, constant)),
        Operation::Srlw => Some(shift_word(ShiftOperation::Srli, constant)),
        Operation::Sraw => Some(shift_word(ShiftOperation::Srai, constant)),
        _ => None,
    }
}

/// What is added in place of a subtraction.
fn negative(number: u64) -> u64
    ensures { result ≡ (2 ^ 64 - number) % 2 ^ 64 }
{
    0_u64.wrapping_sub(number)
}

fn number(operation: ImmediateOperation, constant: u64) -> Option<ImmediateForm>
    ensures some { IsSome result ↔ (is_immediate constant ≡ true) }
    ensures form { IfSome result (λ form. HasForm (operation_of operation) constant form) }
{
    if is_near(constant, 64, HALF_IMMEDIATE) {
        let low = Immediate::new((constant % IMMEDIATES) as u16).unwrap();
        Some(ImmediateForm::Number {
            operation,
            immediate: low,
        })
    } else {
        None
    }
}

fn shift(operation: ShiftOperation, constant: u64) -> ImmediateForm
    ensures { HasForm (shift_of operation) constant result }
{
    ImmediateForm::Shift {
        operation,
        count: ShiftCount::new((constant % 64) as u8).unwrap(),
    }
}

fn shift_word(operation: ShiftOperation, constant: u64) -> ImmediateForm
    ensures { HasForm (word_shift_of operation) constant result }
{
    ImmediateForm::ShiftWord {
        operation,
        count: WordShiftCount::new((constant % 32) as u8).unwrap(),
    }
}
