//! Numbers with kinds, and the operators on them.
ghost use Rattle.std.specs.Prelude.{◌≡◌};
ghost use Rattle.ido_ints.specs.Operators.{is_zero, unary_of, binary_of};
ghost use Rattle.ido_ints.specs.TypedNumbers.{typed, converted};

use ido_ints::{Binary, Kind, Unary, Value, binary_of_numbers, unary_of_number};
use std::marker::Model;

/// A number with the kind that it is computed in. A local or a variable that is read by another kind than it was
/// written by may lie outside the kind's range.
#[derive(Clone, Copy)]
pub struct Number {
    number: i128,
    kind: Kind,
}

impl Model for Number {
    ghost use Rattle.ido_ints.specs.TypedNumbers.{Typed};

    ghost Value = { Typed };

    ghost view = { λ v. record { kind = v.kind; number = v.number } };

    ghost inverse = { λ t. record { kind = t.kind; number = t.number } };
}

impl Number {
    pub fn new(kind: Kind, number: i128) -> Number
        ensures { result ≡ typed kind number }
    {
        Number { kind, number }
    }

    /// A number that its kind holds.
    pub fn of(value: Value) -> Number
        ensures { result ≡ value }
    {
        Number {
            kind: value.kind(),
            number: value.number(),
        }
    }

    pub fn kind(self) -> Kind
        ensures { result ≡ self.kind }
    {
        self.kind
    }

    pub fn number(self) -> i128
        ensures { result ≡ self.number }
    {
        self.number
    }

    pub fn is_zero(self) -> bool
        ensures { result ≡ is_zero self.number }
    {
        self.number == 0
    }

    /// The value converted to a kind.
    pub fn convert(self, to: Kind) -> Number
        ensures { result ≡ converted self to }
    {
        Number::of(Value::reduce(to, self.number))
    }
}

/// What the operator gives for its operand.
pub fn unary(operator: Unary, operand: Number) -> Number
    ensures { result ≡ unary_of operator operand }
{
    Number::of(unary_of_number(operator, operand.kind, operand.number))
}

/// What the operator gives for its operands.
pub fn binary(operator: Binary, left: Number, right: Number) -> Number
    ensures { result ≡ binary_of operator left right }
{
    Number::of(binary_of_numbers(operator, left.kind, left.number, right.kind, right.number))
}
