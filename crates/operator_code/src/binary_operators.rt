//! Binary operators.
ghost use Rattle.std.specs.Prelude.{◌≡◌, ◌<◌, ◌↔◌, true, IsSome, IfSome};
ghost use Rattle.operator_code.specs.ComputingCode.{is_strict, IsBinary, IsFlag};
ghost use Rattle.operator_code.specs.Sequences.{listed};
ghost use Rattle.operator_code.specs.links.InstructionLists.{flag_code};
ghost use Rattle.operator_code.specs.links.OperatorInstructions.{by_sign, instruction_of};

use crate::branches::{Test, order};
use crate::instructions::{immediate, op};
use crate::operation::{BinaryOperation, by_width};
use crate::sequences::Sequence;
use ido_ints::{Binary, Kind};
use rv64_isa::field::Register;
use rv64_isa::instr::{Condition, ImmediateOperation, Operation};

/// What the operator gives for the operands in `rs1` and `rs2`, which are converted already, into `rd`. None for `&&`
/// and `||`, which don't always evaluate both.
/// Nothing is observed of the code, not even a load or a jump, and `rd` alone changes.
pub fn binary(
    operation: BinaryOperation,
    rd: Register,
    rs1: Register,
    rs2: Register,
) -> Option<Sequence>
    requires { 0 < rd }
    ensures some { IsSome result ↔ (is_strict operation.operator ≡ true) }
    ensures code { IfSome result (λ s. IsBinary operation rd rs1 rs2 (listed s)) }
{
    let kind = operation.left_kind();
    if let Some(test) = order(operation.operator, kind, rs1, rs2) {
        return Some(flag(test, rd));
    }
    match arithmetic(operation.operator, kind) {
        Some(code) => Some(Sequence::One(op(code, rd, rs1, rs2))),
        None => None,
    }
}

/// 1 where the test is passed, else 0, into `rd`.
pub fn flag(test: Test, rd: Register) -> Sequence
    requires { 0 < rd }
    ensures { IsFlag test rd (listed result) }
{
    flag_of(test.condition, rd, test.rs1, test.rs2)
}

fn flag_of(condition: Condition, rd: Register, rs1: Register, rs2: Register) -> Sequence
    ensures { listed result ≡ flag_code condition rd rs1 rs2 }
{
    let inverted = immediate(ImmediateOperation::Xori, rd, rd, 1);
    match condition {
        Condition::Beq => Sequence::Two {
            first: op(Operation::Sub, rd, rs1, rs2),
            second: immediate(ImmediateOperation::Sltiu, rd, rd, 1),
        },
        Condition::Bne => Sequence::Two {
            first: op(Operation::Sub, rd, rs1, rs2),
            second: op(Operation::Sltu, rd, Register::X0, rd),
        },
        Condition::Blt => Sequence::One(op(Operation::Slt, rd, rs1, rs2)),
        Condition::Bge => Sequence::Two {
            first: op(Operation::Slt, rd, rs1, rs2),
            second: inverted,
        },
        Condition::Bltu => Sequence::One(op(Operation::Sltu, rd, rs1, rs2)),
        Condition::Bgeu => Sequence::Two {
            first: op(Operation::Sltu, rd, rs1, rs2),
            second: inverted,
        },
    }
}

/// The one instruction that gives what the operator gives in this kind; none for comparisons, `&&` and `||`.
pub(crate) fn arithmetic(operator: Binary, kind: Kind) -> Option<Operation>
    ensures { result ≡ instruction_of operator kind }
{
    match operator {
        Binary::Add => Some(by_width(kind, Operation::Add, Operation::Addw)),
        Binary::Sub => Some(by_width(kind, Operation::Sub, Operation::Subw)),
        Binary::Mul => Some(by_width(kind, Operation::Mul, Operation::Mulw)),
        Binary::Div => Some(by_width(
            kind,
            by_sign(kind, Operation::Div, Operation::Divu),
            by_sign(kind, Operation::Divw, Operation::Divuw),
        )),
        Binary::Rem => Some(by_width(
            kind,
            by_sign(kind, Operation::Rem, Operation::Remu),
            by_sign(kind, Operation::Remw, Operation::Remuw),
        )),
        Binary::ShiftLeft => Some(by_width(kind, Operation::Sll, Operation::Sllw)),
        Binary::ShiftRight => Some(by_width(
            kind,
            by_sign(kind, Operation::Sra, Operation::Srl),
            by_sign(kind, Operation::Sraw, Operation::Srlw),
        )),
        Binary::And => Some(Operation::And),
        Binary::Xor => Some(Operation::Xor),
        Binary::Or => Some(Operation::Or),
        _ => None,
    }
}

fn by_sign(kind: Kind, signed: Operation, unsigned: Operation) -> Operation
    ensures { result ≡ by_sign kind signed unsigned }
{
    if kind.is_signed() { signed } else { unsigned }
}
