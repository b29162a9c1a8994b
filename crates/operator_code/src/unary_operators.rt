//! Unary operators.
ghost use Rattle.std.specs.Prelude.{◌≡◌, ◌<◌};
ghost use Rattle.operator_code.specs.ComputingCode.{IsUnary, IsTruth};
ghost use Rattle.operator_code.specs.Sequences.{listed};

use crate::conversions::copy;
use crate::instructions::{immediate, op};
use crate::operation::by_width;
use crate::sequences::Sequence;
use ido_ints::{Kind, Unary, promote};
use rv64_isa::field::Register;
use rv64_isa::instr::{ImmediateOperation, Operation};

/// What the operator gives for the value of this kind in `rs`, into `rd`. The value needs no promotion: it changes no
/// register form.
pub fn unary(operator: Unary, kind: Kind, rd: Register, rs: Register) -> Sequence
    requires { 0 < rd }
    ensures { IsUnary operator kind rd rs (listed result) }
{
    match operator {
        Unary::Plus => copy(rd, rs),
        Unary::Minus => {
            let difference = by_width(promote(kind), Operation::Sub, Operation::Subw);
            Sequence::One(op(difference, rd, Register::X0, rs))
        }
        Unary::Complement => Sequence::One(immediate(ImmediateOperation::Xori, rd, rs, 0xFFF)),
        Unary::Not => Sequence::One(immediate(ImmediateOperation::Sltiu, rd, rs, 1)),
    }
}

/// 1 where the value of this kind in `rs` isn't 0, else 0, into `rd`.
pub fn truth(rd: Register, rs: Register) -> Sequence
    requires { 0 < rd }
    ensures { (kind : Kind) → IsTruth kind rd rs (listed result) }
{
    Sequence::One(op(Operation::Sltu, rd, Register::X0, rs))
}
