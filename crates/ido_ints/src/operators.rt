//! The operators on values, and the kinds of their results.
ghost use Rattle.std.specs.Prelude.{◌≡◌};
ghost use Rattle.ido_ints.specs.Operators.{unary_kind, binary_kind};

use crate::kinds::{Kind, common, promote};

/// An operator with one operand (C11 6.5.3.3).
#[derive(Clone, Copy, PartialEq, Eq, Debug)]
pub enum Unary {
    /// `+`: the promoted operand.
    Plus,
    /// `-`: the negative of the promoted operand. It wraps.
    Minus,
    /// `~`: the bitwise complement of the promoted operand.
    Complement,
    /// `!`: `int` 1 where the operand is 0, else 0.
    Not,
}

/// An operator with two operands (C11 6.5.5 to 6.5.14).
#[derive(Clone, Copy, PartialEq, Eq, Debug)]
pub enum Binary {
    /// `*`. It wraps.
    Mul,
    /// `/`, truncated towards 0. By 0 it has all ones: -1, or the greatest number. The least
    /// number by -1 has the least.
    Div,
    /// `%`, with the dividend's sign. By 0 it has the dividend.
    Rem,
    /// `+`. It wraps.
    Add,
    /// `-`. It wraps.
    Sub,
    /// `<<` by the right operand modulo the width of the promoted left one.
    ShiftLeft,
    /// `>>` by the right operand modulo the width of the promoted left one, rounded down:
    /// arithmetic for a signed kind.
    ShiftRight,
    /// `<`, as `int` 0 or 1. All comparisons are made in the common kind.
    Less,
    /// `>`, as `int` 0 or 1.
    Greater,
    /// `<=`, as `int` 0 or 1.
    LessEqual,
    /// `>=`, as `int` 0 or 1.
    GreaterEqual,
    /// `==`, as `int` 0 or 1.
    Equal,
    /// `!=`, as `int` 0 or 1.
    NotEqual,
    /// `&`, bit by bit.
    And,
    /// `^`, bit by bit.
    Xor,
    /// `|`, bit by bit.
    Or,
    /// `&&`: `int` 1 where neither operand is 0, else 0. Whether the right operand is evaluated
    /// at all is for the caller: where the left one is 0, the value is 0 whatever the right one is.
    LogicalAnd,
    /// `||`: `int` 1 where an operand is not 0, else 0. Where the left operand is not 0, the value
    /// is 1 whatever the right one is.
    LogicalOr,
}

impl Unary {
    /// The kind of the result, by the operand's.
    pub fn kind(self, operand: Kind) -> Kind
        ensures { result ≡ unary_kind self operand }
    {
        match self {
            Unary::Plus | Unary::Minus | Unary::Complement => promote(operand),
            Unary::Not => Kind::Int,
        }
    }
}

impl Binary {
    /// The kind of the result, by the operands'.
    pub fn kind(self, left: Kind, right: Kind) -> Kind
        ensures { result ≡ binary_kind self left right }
    {
        match self {
            Binary::Mul
            | Binary::Div
            | Binary::Rem
            | Binary::Add
            | Binary::Sub
            | Binary::And
            | Binary::Xor
            | Binary::Or => common(left, right),
            Binary::ShiftLeft | Binary::ShiftRight => promote(left),
            Binary::Less
            | Binary::Greater
            | Binary::LessEqual
            | Binary::GreaterEqual
            | Binary::Equal
            | Binary::NotEqual
            | Binary::LogicalAnd
            | Binary::LogicalOr => Kind::Int,
        }
    }
}
