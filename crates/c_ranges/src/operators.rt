//! The ranges of what operators give. Operands are ranges of the kind in which the operator works.
ghost use Rattle.std.specs.Prelude.{◌≡◌, ◌<◌, ◌⊎◌, neg_ℤ, ◌*ℤ◌, MatchOption};
ghost use Rattle.ido_ints.specs.declared.kinds.Kind.TheVariants.{Int};
ghost use Rattle.ido_ints.specs.Kinds.{promoted, common_of};
ghost use Rattle.ido_ints.specs.Operators.{places, unary_kind, binary_kind};
ghost use Rattle.c_tree.specs.Ranges.{interval, only, full, hull, lesser, truth_range, fitted, sum, difference, product};
ghost use Rattle.c_tree.specs.Ranges.{and_range, quotient_range, remainder_range, shifted_range, unary_range, binary_range};
ghost use Rattle.c_ranges.specs.Bounds.{interval_of, HeldBy};
ghost use Rattle.c_ranges.specs.links.Corners.{IsWide, HasWideCorner};

use crate::interval::Interval;
use ido_ints::{Binary, Kind, Unary, common, promote};

/// The kind of an expression, and its range.
#[derive(Clone, Copy)]
pub(crate) struct Found {
    pub(crate) kind: Kind,
    pub(crate) range: Interval,
}

/// What an operator gives for one operand.
pub(crate) fn unary(operator: Unary, operand: Found) -> Found
    requires { HeldBy operand.kind operand.range }
    ensures kind { result.kind ≡ unary_kind operator operand.kind }
    ensures range { interval_of result.range ≡ unary_range operator operand.kind (interval_of operand.range) }
    ensures held { HeldBy result.kind result.range }
{
    let kind = promote(operand.kind);
    match operator {
        Unary::Plus => Found {
            kind,
            range: operand.range.fitted(kind),
        },
        Unary::Minus => Found {
            kind,
            range: negative(kind, operand.range.fitted(kind)),
        },
        Unary::Complement => Found {
            kind,
            range: Interval::full(kind),
        },
        Unary::Not => truth(),
    }
}

/// What an operator gives for two operands.
pub(crate) fn binary(operator: Binary, left: Found, right: Found) -> Found
    requires left { HeldBy left.kind left.range }
    requires right { HeldBy right.kind right.range }
    ensures kind { result.kind ≡ binary_kind operator left.kind right.kind }
    ensures range { interval_of result.range ≡ binary_range operator left.kind (interval_of left.range) right.kind (interval_of right.range) }
    ensures held { HeldBy result.kind result.range }
{
    let kind = common(left.kind, right.kind);
    let x = left.range.fitted(kind);
    let y = right.range.fitted(kind);
    match operator {
        Binary::Mul => Found {
            kind,
            range: product(kind, x, y),
        },
        Binary::Div => Found {
            kind,
            range: quotient(kind, x, y),
        },
        Binary::Rem => Found {
            kind,
            range: remainder(kind, x, y),
        },
        Binary::Add => Found {
            kind,
            range: sum(kind, x, y),
        },
        Binary::Sub => Found {
            kind,
            range: difference(kind, x, y),
        },
        Binary::And => Found {
            kind,
            range: bit_and(kind, x, y),
        },
        Binary::Xor | Binary::Or => Found {
            kind,
            range: Interval::full(kind),
        },
        Binary::ShiftLeft => shifted_left(left),
        Binary::ShiftRight => shifted_right(left, right.range),
        Binary::Less
        | Binary::Greater
        | Binary::LessEqual
        | Binary::GreaterEqual
        | Binary::Equal
        | Binary::NotEqual
        | Binary::LogicalAnd
        | Binary::LogicalOr => truth(),
    }
}

/// What a comparison gives.
fn truth() -> Found
    ensures kind { result.kind ≡ Int }
    ensures range { interval_of result.range ≡ truth_range }
    ensures held { HeldBy result.kind result.range }
{
    Found {
        kind: Kind::Int,
        range: Interval::truth(),
    }
}

/// The negatives.
fn negative(kind: Kind, x: Interval) -> Interval
    requires { HeldBy kind x }
    ensures value { interval_of result ≡ fitted kind (interval (neg_ℤ x.hi) (neg_ℤ x.lo)) }
    ensures held { HeldBy kind result }
{
    let exact = Interval {
        lo: -x.hi,
        hi: -x.lo,
    };
    exact.fitted(kind)
}

/// The sums.
fn sum(kind: Kind, x: Interval, y: Interval) -> Interval
    requires x { HeldBy kind x }
    requires y { HeldBy kind y }
    ensures value { interval_of result ≡ fitted kind (sum (interval_of x) (interval_of y)) }
    ensures held { HeldBy kind result }
{
    let exact = Interval {
        lo: x.lo + y.lo,
        hi: x.hi + y.hi,
    };
    exact.fitted(kind)
}

/// The differences.
fn difference(kind: Kind, x: Interval, y: Interval) -> Interval
    requires x { HeldBy kind x }
    requires y { HeldBy kind y }
    ensures value { interval_of result ≡ fitted kind (difference (interval_of x) (interval_of y)) }
    ensures held { HeldBy kind result }
{
    let exact = Interval {
        lo: x.lo - y.hi,
        hi: x.hi - y.lo,
    };
    exact.fitted(kind)
}

/// The products. Where 128 bits don't hold one, no kind does.
fn product(kind: Kind, x: Interval, y: Interval) -> Interval
    requires x { HeldBy kind x }
    requires y { HeldBy kind y }
    ensures value { interval_of result ≡ fitted kind (product (interval_of x) (interval_of y)) }
    ensures held { HeldBy kind result }
{
    match exact_product(x, y) {
        Some(exact) => exact.fitted(kind),
        None => Interval::full(kind),
    }
}

/// The least range that holds all products, where 128 bits hold its ends.
fn exact_product(x: Interval, y: Interval) -> Option<Interval>
    ensures { MatchOption result (HasWideCorner (interval_of x) (interval_of y)) (λ r. interval_of r ≡ product (interval_of x) (interval_of y)) }
{
    let low = corners(x.lo, y)?;
    let high = corners(x.hi, y)?;
    Some(low.hull(high))
}

/// The least range that holds the products of a number and the ends of a range.
fn corners(factor: i128, y: Interval) -> Option<Interval>
    ensures { MatchOption result (IsWide (factor *ℤ y.lo) ⊎ IsWide (factor *ℤ y.hi))
        (λ r. interval_of r ≡ hull (only (factor *ℤ y.lo)) (only (factor *ℤ y.hi))) }
{
    let low = factor.checked_mul(y.lo)?;
    let high = factor.checked_mul(y.hi)?;
    Some(Interval::only(low).hull(Interval::only(high)))
}

/// The quotients.
fn quotient(kind: Kind, x: Interval, y: Interval) -> Interval
    requires x { HeldBy kind x }
    requires y { HeldBy kind y }
    ensures value { interval_of result ≡ quotient_range kind (interval_of x) (interval_of y) }
    ensures held { HeldBy kind result }
{
    if y.is_positive_value() && x.is_from_zero_up() {
        Interval {
            lo: x.lo / y.lo,
            hi: x.hi / y.lo,
        }
    } else {
        Interval::full(kind)
    }
}

/// The remainders.
fn remainder(kind: Kind, x: Interval, y: Interval) -> Interval
    requires x { HeldBy kind x }
    requires y { HeldBy kind y }
    ensures value { interval_of result ≡ remainder_range kind (interval_of x) (interval_of y) }
    ensures held { HeldBy kind result }
{
    if !y.is_positive_value() {
        return Interval::full(kind);
    }
    let most = y.lo - 1;
    if x.is_from_zero_up() {
        Interval {
            lo: 0,
            hi: lesser(x.hi, most),
        }
    } else {
        Interval {
            lo: -most,
            hi: most,
        }
    }
}

/// What `&` gives.
fn bit_and(kind: Kind, x: Interval, y: Interval) -> Interval
    requires x { HeldBy kind x }
    requires y { HeldBy kind y }
    ensures value { interval_of result ≡ and_range kind (interval_of x) (interval_of y) }
    ensures held { HeldBy kind result }
{
    match (x.is_from_zero_up(), y.is_from_zero_up()) {
        (true, true) => Interval {
            lo: 0,
            hi: lesser(x.hi, y.hi),
        },
        (true, false) => Interval { lo: 0, hi: x.hi },
        (false, true) => Interval { lo: 0, hi: y.hi },
        (false, false) => Interval::full(kind),
    }
}

/// The lesser of two numbers.
fn lesser(x: i128, y: i128) -> i128
    ensures { result ≡ lesser x y }
{
    if x <= y { x } else { y }
}

/// What `<<` gives.
fn shifted_left(left: Found) -> Found
    ensures kind { result.kind ≡ promoted left.kind }
    ensures range { interval_of result.range ≡ full (promoted left.kind) }
    ensures held { HeldBy result.kind result.range }
{
    let kind = promote(left.kind);
    Found {
        kind,
        range: Interval::full(kind),
    }
}

/// What `>>` gives.
fn shifted_right(left: Found, count: Interval) -> Found
    requires { HeldBy left.kind left.range }
    ensures kind { result.kind ≡ promoted left.kind }
    ensures range { interval_of result.range ≡ shifted_range (promoted left.kind) (fitted (promoted left.kind) (interval_of left.range)) (interval_of count) }
    ensures held { HeldBy result.kind result.range }
{
    let kind = promote(left.kind);
    let x = left.range.fitted(kind);
    if count.is_value() && x.is_from_zero_up() {
        let places = places(kind, count.lo);
        Found {
            kind,
            range: Interval {
                lo: x.lo >> places,
                hi: x.hi >> places,
            },
        }
    } else {
        Found {
            kind,
            range: Interval::full(kind),
        }
    }
}

/// By how many places a count shifts a number of the kind.
fn places(kind: Kind, count: i128) -> u32
    ensures value { result ≡ places kind count }
    ensures below { result < 64 }
{
    count.rem_euclid(i128::from(kind.bits())) as u32
}
