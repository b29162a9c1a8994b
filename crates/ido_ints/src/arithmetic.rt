//! What the operators give.
ghost use Rattle.std.specs.Prelude.{◌≡◌, not, ◌&&◌, ◌||◌, ◌<◌, ◌-◌, ◌%◌, ◌^◌, if◌then◌else◌, pos, negsuc, ◌+ℤ◌};
ghost use Rattle.std.specs.Prelude.{◌-ℤ◌, ◌*ℤ◌, neg_ℤ, int_lt, int_le, unsigned_abs, bit_and, bit_or, bit_xor};
ghost use Rattle.std.specs.Ordering.{int_eq};
ghost use Rattle.ido_ints.specs.declared.kinds.Kind.TheVariants.{Int};
ghost use Rattle.ido_ints.specs.Operators.{truth, is_zero, quotient, remainder, bitwise, places, shifted_left, shifted_right, unary_of, binary_of};
ghost use Rattle.ido_ints.specs.Reduction.{reduced};
ghost use Rattle.ido_ints.specs.TypedNumbers.{typed, typed_reduced};

use crate::kinds::{Kind, common, promote};
use crate::operators::{Binary, Unary};
use crate::values::{Range, Value, residue};

/// What the operator gives for its operand (C11 6.5.3.3).
pub fn unary(op: Unary, operand: Value) -> Value
    ensures { result ≡ unary_of op operand }
{
    unary_of_number(op, operand.kind(), operand.number())
}

/// What the operator gives for a number that the kind need not hold (C11 6.5.3.3).
pub fn unary_of_number(op: Unary, kind: Kind, number: i128) -> Value
    ensures { result ≡ unary_of op (typed kind number) }
{
    let range = Range::of(promote(kind));
    match op {
        Unary::Plus => converted(range, number),
        Unary::Minus => negative(range, number),
        Unary::Complement => complement(range, number),
        Unary::Not => of_truth(is_zero(number)),
    }
}

/// What the operator gives for its operands (C11 6.5.5 to 6.5.14).
pub fn binary(op: Binary, left: Value, right: Value) -> Value
    ensures { result ≡ binary_of op left right }
{
    binary_of_numbers(op, left.kind(), left.number(), right.kind(), right.number())
}

/// What the operator gives for numbers that their kinds need not hold (C11 6.5.5 to 6.5.14).
pub fn binary_of_numbers(
    op: Binary,
    left_kind: Kind,
    left: i128,
    right_kind: Kind,
    right: i128,
) -> Value
    ensures { result ≡ binary_of op (typed left_kind left) (typed right_kind right) }
{
    let range = Range::of(common(left_kind, right_kind));
    match op {
        Binary::Mul => product(range, left, right),
        Binary::Div => quotient(range, left, right),
        Binary::Rem => remainder(range, left, right),
        Binary::Add => sum(range, left, right),
        Binary::Sub => difference(range, left, right),
        Binary::ShiftLeft => shift_left(Range::of(promote(left_kind)), left, right),
        Binary::ShiftRight => shift_right(Range::of(promote(left_kind)), left, right),
        Binary::Less => of_truth(is_less(range, left, right)),
        Binary::Greater => of_truth(is_less(range, right, left)),
        Binary::LessEqual => of_truth(is_at_most(range, left, right)),
        Binary::GreaterEqual => of_truth(is_at_most(range, right, left)),
        Binary::Equal => of_truth(is_same(range, left, right)),
        Binary::NotEqual => of_truth(!is_same(range, left, right)),
        Binary::And => bit_and(range, left, right),
        Binary::Xor => bit_xor(range, left, right),
        Binary::Or => bit_or(range, left, right),
        Binary::LogicalAnd => of_truth(!is_zero(left) && !is_zero(right)),
        Binary::LogicalOr => of_truth(!is_zero(left) || !is_zero(right)),
    }
}

/// `int` 1 or 0.
fn of_truth(holds: bool) -> Value
    ensures { result ≡ typed Int (truth holds) }
{
    Value::new(Kind::Int, if holds { 1 } else { 0 })
}

fn is_zero(number: i128) -> bool
    ensures { result ≡ is_zero number }
{
    is_equal(number, 0)
}

fn is_equal(x: i128, y: i128) -> bool
    ensures { result ≡ int_eq x y }
{
    x == y
}

/// A number in the kind.
fn converted(range: Range, number: i128) -> Value
    ensures { result ≡ typed_reduced range.kind number }
{
    range.value(residue(number))
}

/// `<` in the kind.
fn is_less(range: Range, x: i128, y: i128) -> bool
    ensures { result ≡ int_lt (reduced range.kind x) (reduced range.kind y) }
{
    converted(range, x).number() < converted(range, y).number()
}

/// `<=` in the kind.
fn is_at_most(range: Range, x: i128, y: i128) -> bool
    ensures { result ≡ int_le (reduced range.kind x) (reduced range.kind y) }
{
    converted(range, x).number() <= converted(range, y).number()
}

/// `==` in the kind.
fn is_same(range: Range, x: i128, y: i128) -> bool
    ensures { result ≡ int_eq (reduced range.kind x) (reduced range.kind y) }
{
    is_equal(converted(range, x).number(), converted(range, y).number())
}

/// The negative, in the kind.
fn negative(range: Range, number: i128) -> Value
    ensures { result ≡ typed_reduced range.kind (neg_ℤ number) }
{
    range.value(0u64.wrapping_sub(residue(number)))
}

/// The bitwise complement, in the kind.
fn complement(range: Range, number: i128) -> Value
    ensures { result ≡ typed_reduced range.kind (negsuc 0 -ℤ number) }
{
    range.value(!residue(number))
}

/// The sum, in the kind.
fn sum(range: Range, x: i128, y: i128) -> Value
    ensures { result ≡ typed_reduced range.kind (reduced range.kind x +ℤ reduced range.kind y) }
{
    range.value(residue(x).wrapping_add(residue(y)))
}

/// The difference, in the kind.
fn difference(range: Range, x: i128, y: i128) -> Value
    ensures { result ≡ typed_reduced range.kind (reduced range.kind x -ℤ reduced range.kind y) }
{
    range.value(residue(x).wrapping_sub(residue(y)))
}

/// The product, in the kind.
fn product(range: Range, x: i128, y: i128) -> Value
    ensures { result ≡ typed_reduced range.kind (reduced range.kind x *ℤ reduced range.kind y) }
{
    range.value(residue(x).wrapping_mul(residue(y)))
}

/// The quotient, in the kind.
fn quotient(range: Range, x: i128, y: i128) -> Value
    ensures { result ≡ typed_reduced range.kind (quotient (reduced range.kind x) (reduced range.kind y)) }
{
    let (x, y) = (converted(range, x), converted(range, y));
    if is_zero(y.number()) {
        return range.value(u64::MAX);
    }
    let is_negative = is_negative(x) != is_negative(y);
    range.value(with_sign(is_negative, amount(x) / amount(y)))
}

/// The remainder, in the kind.
fn remainder(range: Range, x: i128, y: i128) -> Value
    ensures { result ≡ typed_reduced range.kind (remainder (reduced range.kind x) (reduced range.kind y)) }
{
    let (x, y) = (converted(range, x), converted(range, y));
    if is_zero(y.number()) {
        return x;
    }
    range.value(with_sign(is_negative(x), amount(x) % amount(y)))
}

fn is_negative(value: Value) -> bool
    ensures { result ≡ int_lt value.number (pos 0) }
{
    value.number() < 0
}

/// The number without its sign.
fn amount(value: Value) -> u64
    ensures { result ≡ unsigned_abs value.number }
{
    value.number().unsigned_abs() as u64
}

/// The number of this amount, negative or not, modulo 2^64.
fn with_sign(is_negative: bool, amount: u64) -> u64
    ensures { result ≡ (if is_negative then (2 ^ 64 - amount) % 2 ^ 64 else amount) }
{
    if is_negative {
        0u64.wrapping_sub(amount)
    } else {
        amount
    }
}

/// `x` shifted left, in the kind.
fn shift_left(range: Range, x: i128, count: i128) -> Value
    ensures { result ≡ typed_reduced range.kind (shifted_left range.kind (reduced range.kind x) count) }
{
    range.value(residue(x) << places(range.kind(), count))
}

/// `x` shifted right, in the kind.
fn shift_right(range: Range, x: i128, count: i128) -> Value
    ensures { result ≡ typed_reduced range.kind (shifted_right range.kind (reduced range.kind x) count) }
{
    let shifted = converted(range, x).number() >> places(range.kind(), count);
    converted(range, shifted)
}

/// The count modulo the width of the kind.
fn places(kind: Kind, count: i128) -> u32
    ensures value { result ≡ places kind count }
    ensures below { result < 64 }
{
    (residue(count) & (kind.bits() as u64 - 1)) as u32
}

/// `&` bit by bit, in the kind.
fn bit_and(range: Range, x: i128, y: i128) -> Value
    ensures { result ≡ typed_reduced range.kind (bitwise bit_and range.kind (reduced range.kind x) (reduced range.kind y)) }
{
    range.value(residue(x) & residue(y))
}

/// `^` bit by bit, in the kind.
fn bit_xor(range: Range, x: i128, y: i128) -> Value
    ensures { result ≡ typed_reduced range.kind (bitwise bit_xor range.kind (reduced range.kind x) (reduced range.kind y)) }
{
    range.value(residue(x) ^ residue(y))
}

/// `|` bit by bit, in the kind.
fn bit_or(range: Range, x: i128, y: i128) -> Value
    ensures { result ≡ typed_reduced range.kind (bitwise bit_or range.kind (reduced range.kind x) (reduced range.kind y)) }
{
    range.value(residue(x) | residue(y))
}
