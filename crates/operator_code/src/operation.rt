//! Binary operators with the kinds of their operands.
ghost use Rattle.std.specs.Prelude.{◌≡◌};
ghost use Rattle.operator_code.specs.ComputingCode.{is_shift, left_kind, right_kind};
ghost use Rattle.operator_code.specs.links.OperatorInstructions.{by_width};

use ido_ints::{Binary, Kind, common, promote};
use rv64_isa::instr::Operation;

/// A binary operator with the kinds of its operands.
#[derive(Clone, Copy, Debug, PartialEq, Eq)]
pub struct BinaryOperation {
    pub operator: Binary,
    pub left: Kind,
    pub right: Kind,
}

impl BinaryOperation {
    /// The kind to which the left operand is converted: the promoted one for a shift, else the common one. The
    /// operator is computed in it.
    pub fn left_kind(self) -> Kind
        ensures { result ≡ left_kind self }
    {
        if is_shift(self.operator) {
            promote(self.left)
        } else {
            common(self.left, self.right)
        }
    }

    /// The kind to which the right operand is converted.
    pub fn right_kind(self) -> Kind
        ensures { result ≡ right_kind self }
    {
        if is_shift(self.operator) {
            promote(self.right)
        } else {
            common(self.left, self.right)
        }
    }
}

fn is_shift(operator: Binary) -> bool
    ensures { result ≡ is_shift operator }
{
    match operator {
        Binary::ShiftLeft | Binary::ShiftRight => true,
        _ => false,
    }
}

/// The instruction of 64 bits or its W form.
pub(crate) fn by_width(kind: Kind, double: Operation, word: Operation) -> Operation
    ensures { result ≡ by_width kind double word }
{
    if kind.bits() == 64 { double } else { word }
}
