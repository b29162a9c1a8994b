//! The ranges of expressions.
ghost use Rattle.std.specs.Prelude.{◌≡◌, ◌^◌, pos, neg_ℤ, ◌≤ℤ◌, ◌<ℤ◌};
ghost use Rattle.ido_ints.specs.declared.kinds.Kind.TheVariants.{UnsignedLong};
ghost use Rattle.c_tree.specs.Exprs.{expr_of};
ghost use Rattle.c_tree.specs.Ranges.{interval, full, fitted, hull, range_of};
ghost use Rattle.c_tree.specs.Elaboration.{kind_of};
ghost use Rattle.c_ranges.specs.Bounds.{interval_of, HeldBy};

use crate::interval::Interval;
use crate::operators::{Found, binary, unary};
use c_tree::expr::Expr;
use ido_ints::Kind;

/// An interval that holds every value of the expression.
pub fn range(expr: &Expr) -> Interval
    ensures value { interval_of result ≡ range_of (expr_of expr.now) }
    ensures held { HeldBy (kind_of (expr_of expr.now)) result }
    ensures at_least { neg_ℤ (pos (2 ^ 63)) ≤ℤ result.lo }
    ensures below { result.hi <ℤ pos (2 ^ 64) }
{
    found(expr).range
}

/// The kind of the expression, and its range.
fn found(expr: &Expr) -> Found
    ensures kind { result.kind ≡ kind_of (expr_of expr.now) }
    ensures range { interval_of result.range ≡ range_of (expr_of expr.now) }
    ensures held { HeldBy result.kind result.range }
{
    match expr {
        Expr::Constant { value } => Found {
            kind: value.kind(),
            range: Interval::only(value.number()),
        },
        Expr::Local { kind, .. } | Expr::Variable { kind, .. } | Expr::Element { kind, .. } => {
            full(*kind)
        }
        Expr::Address { .. } => full(Kind::UnsignedLong),
        Expr::Referent { last, .. } => up_to(*last),
        Expr::Unary { operator, operand } => unary(*operator, found(operand)),
        Expr::Cast { kind, operand } | Expr::Converted { kind, operand } => {
            converted(*kind, found(operand).range)
        }
        Expr::Binary {
            operator,
            left,
            right,
        } => binary(*operator, found(left), found(right)),
        Expr::Conditional {
            kind,
            then,
            otherwise,
            ..
        } => either(*kind, found(then).range, found(otherwise).range),
    }
}

/// All values of a kind.
fn full(kind: Kind) -> Found
    ensures kind { result.kind ≡ kind }
    ensures range { interval_of result.range ≡ full kind }
    ensures held { HeldBy kind result.range }
{
    Found {
        kind,
        range: Interval::full(kind),
    }
}

/// The numbers of the elements of an array, up to that one.
fn up_to(last: u32) -> Found
    ensures kind { result.kind ≡ UnsignedLong }
    ensures range { interval_of result.range ≡ interval (pos 0) (pos last) }
    ensures held { HeldBy UnsignedLong result.range }
{
    Found {
        kind: Kind::UnsignedLong,
        range: Interval {
            lo: 0,
            hi: i128::from(last),
        },
    }
}

/// A conversion to a kind.
fn converted(kind: Kind, range: Interval) -> Found
    requires { range.lo ≤ℤ range.hi }
    ensures kind { result.kind ≡ kind }
    ensures range { interval_of result.range ≡ fitted kind (interval_of range) }
    ensures held { HeldBy kind result.range }
{
    Found {
        kind,
        range: range.fitted(kind),
    }
}

/// A choice of two, converted to a kind.
fn either(kind: Kind, then: Interval, otherwise: Interval) -> Found
    requires then { then.lo ≤ℤ then.hi }
    requires otherwise { otherwise.lo ≤ℤ otherwise.hi }
    ensures kind { result.kind ≡ kind }
    ensures range { interval_of result.range ≡ hull (fitted kind (interval_of then)) (fitted kind (interval_of otherwise)) }
    ensures held { HeldBy kind result.range }
{
    Found {
        kind,
        range: then.fitted(kind).hull(otherwise.fitted(kind)),
    }
}
