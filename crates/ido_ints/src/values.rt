//! Values: a number with the kind that holds it, and conversion.
ghost use Rattle.std.specs.Prelude.{◌≡◌, ◌-◌, ◌^◌, pos, neg_ℤ, ◌≤ℤ◌, ◌<ℤ◌};
ghost use Rattle.ido_ints.specs.Kinds.{Holds, least_of, modulus_of};
ghost use Rattle.ido_ints.specs.Reduction.{reduced, residue};
ghost use Rattle.ido_ints.specs.TypedNumbers.{typed, typed_reduced, converted, register_form_of};

use crate::kinds::Kind;
use std::marker::Model;

/// A number that its kind holds.
#[derive(Clone, Copy, PartialEq, Eq, Debug)]
pub struct Value {
    number: i128,
    kind: Kind,
}

impl Model for Value {
    ghost use Rattle.ido_ints.specs.Kinds.{Holds};
    ghost use Rattle.ido_ints.specs.TypedNumbers.{Typed};

    ghost Value = { Typed };

    ghost view = { λ v. record { kind = v.kind; number = v.number } };

    ghost invariant = { λ v. Holds v.kind v.number };

    ghost inverse = { λ t. record { kind = t.kind; number = t.number } };
}

impl Value {
    /// The value of a number that the kind holds.
    pub fn new(kind: Kind, number: i128) -> Value
        requires { Holds kind number }
        ensures { result ≡ typed kind number }
    {
        Value { kind, number }
    }

    /// The value of any number: the number of the kind's range that differs from it by a multiple of
    /// 2 to the width (C11 6.3.1.3).
    pub fn reduce(kind: Kind, number: i128) -> Value
        ensures { result ≡ typed_reduced kind number }
    {
        Value {
            kind,
            number: reduce(kind, number),
        }
    }

    /// The value's kind.
    pub fn kind(self) -> Kind
        ensures { result ≡ self.kind }
    {
        self.kind
    }

    /// The value's number, which lies in the range of its kind, and so from -2^63 to 2^64 - 1.
    pub fn number(self) -> i128
        ensures value { result ≡ self.number }
        ensures held { Holds self.kind self.number }
        ensures at_least { neg_ℤ (pos (2 ^ 63)) ≤ℤ result }
        ensures below { result <ℤ pos (2 ^ 64) }
    {
        self.number
    }
}

/// The number of the range of `kind` that differs from `number` by a multiple of 2 to the width.
fn reduce(kind: Kind, number: i128) -> i128
    ensures value { result ≡ reduced kind number }
    ensures held { Holds kind result }
{
    Range::of(kind).narrow(residue(number))
}

/// The numbers of a kind: the least one, and a one in each place of the width.
#[derive(Clone, Copy)]
pub(crate) struct Range {
    kind: Kind,
    least: i64,
    mask: u64,
    ghost begins: { least ≡ least_of kind },
    ghost places: { mask ≡ modulus_of kind - 1 },
}

impl Range {
    pub(crate) fn of(kind: Kind) -> Range
        ensures { result.kind ≡ kind }
    {
        let (least, mask) = bounds(kind);
        Range { kind, least, mask }
    }

    pub(crate) fn kind(self) -> Kind
        ensures { result ≡ self.kind }
    {
        self.kind
    }

    /// The value of a number of 64 bits.
    pub(crate) fn value(self, number: u64) -> Value
        ensures { result ≡ typed_reduced self.kind (pos number) }
    {
        Value {
            number: self.narrow(number),
            kind: self.kind,
        }
    }

    /// The narrowed value's number: it is above the least one by the low bits of what a number of 64 bits is above that.
    fn narrow(self, number: u64) -> i128
        ensures value { result ≡ reduced self.kind (pos number) }
        ensures held { Holds self.kind result }
    {
        let above = number.wrapping_sub(self.least.cast_unsigned()) & self.mask;
        self.least as i128 + above as i128
    }
}

/// The least number of a kind, and a one in each place of its width.
fn bounds(kind: Kind) -> (i64, u64)
    ensures least { result.0 ≡ least_of kind }
    ensures mask { result.1 ≡ modulus_of kind - 1 }
{
    match kind {
        Kind::Char | Kind::UnsignedChar => (0, 0xff),
        Kind::SignedChar => (-0x80, 0xff),
        Kind::Short => (-0x8000, 0xffff),
        Kind::UnsignedShort => (0, 0xffff),
        Kind::Int => (-0x8000_0000, 0xffff_ffff),
        Kind::UnsignedInt => (0, 0xffff_ffff),
        Kind::Long => (i64::MIN, u64::MAX),
        Kind::UnsignedLong => (0, u64::MAX),
    }
}

/// The value converted to another kind, as `Value::reduce` of its number (C11 6.3.1.3). A number that
/// the kind holds is kept.
pub fn convert(value: Value, to: Kind) -> Value
    ensures { result ≡ converted value to }
{
    Value::reduce(to, value.number)
}

/// The 64 bits of a register that holds the value: its number modulo 2^64, but an `unsigned int`
/// is sign-extended from bit 31.
pub fn register_form(value: Value) -> u64
    ensures { result ≡ register_form_of value }
{
    match value.kind {
        Kind::UnsignedInt => residue(reduce(Kind::Int, value.number)),
        _ => residue(value.number),
    }
}

/// The number modulo 2^64.
pub fn residue(number: i128) -> u64
    ensures { result ≡ residue 64 number }
{
    (number.cast_unsigned() % (1 << 64)) as u64
}
