//! The value of an expression.
ghost use Rattle.std.specs.Prelude.{◌≡◌, [], slice_index_or, if◌then◌else◌, pos};
ghost use Rattle.c_tree.specs.Exprs.{expr_of, lock_name_of};
ghost use Rattle.c_tree.specs.Values.{value, reference_to, referent, element_at, element_number, lock_number};
ghost use Rattle.ido_ints.specs.declared.kinds.Kind.TheVariants.{Int, UnsignedLong};
ghost use Rattle.ido_ints.specs.Operators.{truth, is_zero, unary_of, binary_of};
ghost use Rattle.ido_ints.specs.Reduction.{residue};
ghost use Rattle.ido_ints.specs.TypedNumbers.{typed, typed_reduced, converted};

use crate::number::{self, Number};
use crate::variables::Variables;
use c_tree::expr::{Expr, LockName};
use ido_ints::{Binary, Kind, Unary, residue};

/// The value of an expression. A local that isn't there is 0, as is an element that isn't.
#[cycle(evaluation)]
#[inline(always)]
pub fn evaluate(expr: &Expr, locals: &[i128], variables: &Variables) -> Number
    ensures { result ≡ value locals.now variables.now (expr_of expr.now) }
{
    match expr {
        Expr::Constant { value } => Number::of(*value),
        Expr::Local { local, kind } => Number::new(*kind, local_number(*local, locals)),
        Expr::Variable { variable, kind, .. } => Number::new(*kind, variables.get(*variable, 0)),
        Expr::Element {
            variable,
            kind,
            index,
            ..
        } => element(*variable, *kind, index, locals, variables),
        Expr::Address { index, .. } => address(index, locals, variables).value(),
        Expr::Referent { local, .. } => referent(*local, locals).value(),
        Expr::Unary { operator, operand } => unary(*operator, operand, locals, variables).value(),
        Expr::Cast { kind, operand } | Expr::Converted { kind, operand } => {
            converted(*kind, operand, locals, variables).value()
        }
        Expr::Binary {
            operator,
            left,
            right,
        } => binary(*operator, left, right, locals, variables).value(),
        Expr::Conditional {
            kind,
            condition,
            then,
            otherwise,
        } => conditional(*kind, condition, then, otherwise, locals, variables).value(),
    }
}

/// The low 64 bits of a number, and the kind that it is computed in. An operator needs no more of its operands, but where
/// it asks whether they are 0.
#[derive(Clone, Copy)]
struct LowBits {
    kind: Kind,
    bits: u64,
}

impl LowBits {
    fn of(number: Number) -> LowBits
        ensures kind { result.kind ≡ number.kind }
        ensures bits { result.bits ≡ residue 64 number.number }
    {
        LowBits {
            kind: number.kind(),
            bits: residue(number.number()),
        }
    }

    /// `int` 1 or 0.
    fn of_truth(holds: bool) -> LowBits
        ensures kind { result.kind ≡ Int }
        ensures bits { result.bits ≡ residue 64 (truth holds) }
    {
        LowBits {
            kind: Kind::Int,
            bits: if holds { 1 } else { 0 },
        }
    }

    /// The number that is at least 0.
    fn number(self) -> Number
        ensures { result ≡ typed self.kind (pos self.bits) }
    {
        Number::new(self.kind, self.bits as i128)
    }

    /// The number that the kind holds.
    fn value(self) -> Number
        ensures { result ≡ typed_reduced self.kind (pos self.bits) }
    {
        self.number().convert(self.kind)
    }
}

/// The low bits of the value of an expression.
#[cycle(evaluation)]
#[inline(always)]
fn low_bits(expr: &Expr, locals: &[i128], variables: &Variables) -> LowBits
    ensures kind { result.kind ≡ (value locals.now variables.now (expr_of expr.now)).kind }
    ensures bits { result.bits ≡ residue 64 (value locals.now variables.now (expr_of expr.now)).number }
{
    match expr {
        Expr::Constant { .. } | Expr::Local { .. } | Expr::Variable { .. } | Expr::Element { .. } =>
            { LowBits::of(evaluate(expr, locals, variables)) }
        Expr::Address { index, .. } => address(index, locals, variables),
        Expr::Referent { local, .. } => referent(*local, locals),
        Expr::Unary { operator, operand } => unary(*operator, operand, locals, variables),
        Expr::Cast { kind, operand } | Expr::Converted { kind, operand } => {
            converted(*kind, operand, locals, variables)
        }
        Expr::Binary {
            operator,
            left,
            right,
        } => binary(*operator, left, right, locals, variables),
        Expr::Conditional {
            kind,
            condition,
            then,
            otherwise,
        } => conditional(*kind, condition, then, otherwise, locals, variables),
    }
}

/// The number of a local, 0 where there is no such local.
fn local_number(local: u32, locals: &[i128]) -> i128
    ensures { result ≡ slice_index_or locals.now local (pos 0) }
{
    locals.get(local as usize).copied().unwrap_or(0)
}

/// The element that the index names.
#[cycle(evaluation)]
fn element(
    variable: u32,
    kind: Kind,
    index: &Expr,
    locals: &[i128],
    variables: &Variables,
) -> Number
    ensures { result ≡ typed kind (element_number variables.now variable (element_at (value locals.now variables.now (expr_of index.now)))) }
{
    let index = evaluate(index, locals, variables);
    Number::new(kind, variables.get(variable, element_at(index)))
}

/// The reference to the element that the index names.
#[cycle(evaluation)]
fn address(index: &Expr, locals: &[i128], variables: &Variables) -> LowBits
    ensures kind { result.kind ≡ UnsignedLong }
    ensures bits { result.bits ≡ residue 64 (reference_to (value locals.now variables.now (expr_of index.now))).number }
{
    let index = converted(Kind::UnsignedLong, index, locals, variables);
    let one = Number::new(Kind::UnsignedLong, 1);
    LowBits::of(number::binary(Binary::Add, index.number(), one))
}

/// The number of the element to which the local refers.
fn referent(local: u32, locals: &[i128]) -> LowBits
    ensures kind { result.kind ≡ UnsignedLong }
    ensures bits { result.bits ≡ residue 64 (referent (slice_index_or locals.now local (pos 0))).number }
{
    let reference = Number::new(Kind::UnsignedLong, local_number(local, locals));
    let one = Number::new(Kind::UnsignedLong, 1);
    LowBits::of(number::binary(Binary::Sub, reference, one))
}

/// What the operator gives for its operand.
#[cycle(evaluation)]
fn unary(operator: Unary, operand: &Expr, locals: &[i128], variables: &Variables) -> LowBits
    ensures kind { result.kind ≡ (unary_of operator (value locals.now variables.now (expr_of operand.now))).kind }
    ensures bits { result.bits ≡ residue 64 (unary_of operator (value locals.now variables.now (expr_of operand.now))).number }
{
    match operator {
        Unary::Not => LowBits::of_truth(evaluate(operand, locals, variables).is_zero()),
        _ => {
            let operand = low_bits(operand, locals, variables);
            LowBits::of(number::unary(operator, operand.number()))
        }
    }
}

/// The operand, converted to the kind.
#[cycle(evaluation)]
fn converted(kind: Kind, operand: &Expr, locals: &[i128], variables: &Variables) -> LowBits
    ensures kind { result.kind ≡ kind }
    ensures bits { result.bits ≡ residue 64 (converted (value locals.now variables.now (expr_of operand.now)) kind).number }
{
    let operand = low_bits(operand, locals, variables);
    LowBits::of(operand.number().convert(kind))
}

/// What the operator gives for its operands.
#[cycle(evaluation)]
fn binary(
    operator: Binary,
    left: &Expr,
    right: &Expr,
    locals: &[i128],
    variables: &Variables,
) -> LowBits
    ensures kind { result.kind
        ≡ (binary_of operator (value locals.now variables.now (expr_of left.now)) (value locals.now variables.now (expr_of right.now))).kind }
    ensures bits { result.bits ≡ residue 64
        (binary_of operator (value locals.now variables.now (expr_of left.now)) (value locals.now variables.now (expr_of right.now))).number }
{
    match operator {
        Binary::LogicalAnd => {
            if evaluate(left, locals, variables).is_zero() {
                return LowBits::of_truth(false);
            }
            LowBits::of_truth(!evaluate(right, locals, variables).is_zero())
        }
        Binary::LogicalOr => {
            if evaluate(left, locals, variables).is_zero() {
                return LowBits::of_truth(!evaluate(right, locals, variables).is_zero());
            }
            LowBits::of_truth(true)
        }
        _ => {
            let left = low_bits(left, locals, variables);
            let right = low_bits(right, locals, variables);
            LowBits::of(number::binary(operator, left.number(), right.number()))
        }
    }
}

/// The one of two that the condition chooses, converted to the kind.
#[cycle(evaluation)]
fn conditional(
    kind: Kind,
    condition: &Expr,
    chosen: &Expr,
    otherwise: &Expr,
    locals: &[i128],
    variables: &Variables,
) -> LowBits
    ensures kind { result.kind ≡ kind }
    ensures bits { result.bits ≡ residue 64 (converted (if is_zero (value locals.now variables.now (expr_of condition.now)).number
        then value locals.now variables.now (expr_of otherwise.now) else value locals.now variables.now (expr_of chosen.now)) kind).number }
{
    if evaluate(condition, locals, variables).is_zero() {
        converted(kind, otherwise, locals, variables)
    } else {
        converted(kind, chosen, locals, variables)
    }
}

/// The number of the lock of a name: its key reads locals alone, and is evaluated without variables.
pub fn lock_number(lock: &LockName, locals: &[i128], none: &Variables) -> u128
    requires { none.now ≡ [] }
    ensures { result ≡ lock_number locals.now (lock_name_of lock.now) }
{
    match &lock.key {
        None => lock.mutex as u128,
        Some(key) => {
            let element = element_at(evaluate(&key.expr, locals, none));
            lock.mutex as u128 + element
        }
    }
}

/// The element that an index names.
pub fn element_at(index: Number) -> u128
    ensures { result ≡ element_at index }
{
    index.number().unsigned_abs()
}
