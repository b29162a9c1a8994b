//! The kind of a literal, by its spelling.
ghost use Rattle.std.specs.Prelude.{◌≡◌, pos};
ghost use Rattle.ido_ints.specs.Kinds.{holds};
ghost use Rattle.ido_ints.specs.Literals.{kinds_of, literal_kind_of, literal_of};

use crate::kinds::Kind;
use crate::values::Value;

/// The base that a literal is written in.
#[derive(Clone, Copy, PartialEq, Eq, Debug)]
pub enum Base {
    Decimal,
    Octal,
    Hexadecimal,
}

/// What stands after a literal's digits, in any case and order.
#[derive(Clone, Copy, PartialEq, Eq, Debug)]
pub enum Suffix {
    /// Nothing.
    Absent,
    /// `u`.
    U,
    /// `l`.
    L,
    /// `ul` or `lu`.
    Ul,
}

/// The kind of a literal: the first of its base's and suffix's kinds that holds the number
/// (C11 6.4.4.1, paragraph 5), or `None` exactly where none of them does.
pub fn literal_kind(base: Base, suffix: Suffix, number: u128) -> Option<Kind>
    ensures { result ≡ literal_kind_of base suffix number }
{
    candidates(base, suffix)
        .iter()
        .copied()
        .find(|kind| reaches(*kind, number))
}

/// The value of a literal, of the kind that `literal_kind` gives, or `None` where it gives none.
pub fn literal(base: Base, suffix: Suffix, number: u128) -> Option<Value>
    ensures { result ≡ literal_of base suffix number }
{
    match literal_kind(base, suffix, number) {
        Some(kind) => Some(Value::new(kind, number as i128)),
        None => None,
    }
}

/// The kinds that a literal may have, in order.
fn candidates(base: Base, suffix: Suffix) -> &'static [Kind]
    ensures { result.now ≡ kinds_of base suffix }
{
    match (base, suffix) {
        (Base::Decimal, Suffix::Absent) => &[Kind::Int, Kind::Long],
        (_, Suffix::Absent) => &[Kind::Int, Kind::UnsignedInt, Kind::Long, Kind::UnsignedLong],
        (_, Suffix::U) => &[Kind::UnsignedInt, Kind::UnsignedLong],
        (Base::Decimal, Suffix::L) => &[Kind::Long],
        (_, Suffix::L) => &[Kind::Long, Kind::UnsignedLong],
        (_, Suffix::Ul) => &[Kind::UnsignedLong],
    }
}

/// Whether the kind holds the number.
fn reaches(kind: Kind, number: u128) -> bool
    ensures { result ≡ holds kind (pos number) }
{
    number <= kind.greatest() as u128
}
