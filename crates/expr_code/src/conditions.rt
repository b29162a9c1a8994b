//! Tests, and values that are chosen by them.
ghost use Rattle.std.specs.Prelude.{◌≡◌, ◌<◌, ◌≤◌, ◌+◌, ◌^◌, ℕ, true, length, IfOk};
ghost use Rattle.ido_ints.specs.declared.kinds.Kind.{Kind};
ghost use Rattle.ido_ints.specs.declared.operators.Unary.TheVariants.{Not};
ghost use Rattle.ido_ints.specs.declared.operators.Binary.TheVariants.{LogicalAnd, LogicalOr};
ghost use Rattle.c_tree.specs.Exprs as e;
ghost use Rattle.c_tree.specs.Elaboration.{kind_of};
ghost use Rattle.operator_code.specs.ComputingCode.{left_kind, right_kind, is_comparison};
ghost use Rattle.expr_code.specs.EvaluationCode.{Homes, impure_among};
ghost use Rattle.expr_code.specs.links.OperandCode.{IsEvaluation, IsOperand, IsPair, IsTest, IsMade, truth_of};

use crate::branches::choose;
use crate::operand::{Operand, Pair, TestCode};
use crate::operators::constant_code;
use ido_base::memory::OutOfMemory;
use ido_ints::{Kind, Value};
use operator_code::{BinaryOperation, comparison, nonzero};
use rv64_isa::field::Register;
use rv64_isa::instr::Instr;
use std::alloc::Global;

/// `&&`, by a test of its left operand and the truth of the right one.
pub(crate) fn conjunction(
    alloc: Global,
    left: TestCode,
    right: Vec<Instr>,
    rd: Register,
) -> Result<Vec<Instr>, OutOfMemory>
    requires some { 0 < rd }
    requires right { length right.items + 2 < 2 ^ 18 }
    ensures short { IfOk result (λ code. length code.items ≤ length left.code.items + length right.items + 4) }
    ensures pure { IfOk result (λ code. impure_among code.items ≡ impure_among left.code.items + impure_among right.items) }
    ensures code { IfOk result (λ code. (h : Homes) (x y : e.Expr) (held : ℕ) → IsTest h x held left.test left.code.items →
        IsMade h y truth_of held rd right.items → IsEvaluation h (e.Binary LogicalAnd x y) held rd code.items) }
{
    let zero = constant_code(alloc, Value::new(Kind::Int, 0), rd)?;
    let code = choose(alloc, left.code, left.test, &right, &zero)?;
    Ok(code)
}

/// `||`, by a test of its left operand and the truth of the right one.
pub(crate) fn disjunction(
    alloc: Global,
    left: TestCode,
    right: Vec<Instr>,
    rd: Register,
) -> Result<Vec<Instr>, OutOfMemory>
    requires some { 0 < rd }
    requires right { length right.items + 2 < 2 ^ 18 }
    ensures short { IfOk result (λ code. length code.items ≤ length left.code.items + length right.items + 4) }
    ensures pure { IfOk result (λ code. impure_among code.items ≡ impure_among left.code.items + impure_among right.items) }
    ensures code { IfOk result (λ code. (h : Homes) (x y : e.Expr) (held : ℕ) → IsTest h x held left.test left.code.items →
        IsMade h y truth_of held rd right.items → IsEvaluation h (e.Binary LogicalOr x y) held rd code.items) }
{
    let one = constant_code(alloc, Value::new(Kind::Int, 1), rd)?;
    let code = choose(alloc, left.code, left.test, &one, &right)?;
    Ok(code)
}

/// `?:`, by a test of its condition and the two values, converted.
pub(crate) fn conditional(
    alloc: Global,
    condition: TestCode,
    chosen: Vec<Instr>,
    otherwise: Vec<Instr>,
) -> Result<Vec<Instr>, OutOfMemory>
    requires chosen { length chosen.items + 2 < 2 ^ 18 }
    requires otherwise { length otherwise.items + 1 < 2 ^ 18 }
    ensures short { IfOk result (λ code. length code.items ≤ length condition.code.items + length chosen.items + length otherwise.items + 3) }
    ensures pure { IfOk result (λ code.
        impure_among code.items ≡ impure_among condition.code.items + impure_among chosen.items + impure_among otherwise.items) }
    ensures code { IfOk result (λ code. (h : Homes) (k : Kind) (c x y : e.Expr) (held rd : ℕ) → IsTest h c held condition.test condition.code.items →
        IsEvaluation h (e.Converted k x) held rd chosen.items → IsEvaluation h (e.Converted k y) held rd otherwise.items →
        IsEvaluation h (e.Conditional k c x y) held rd code.items) }
{
    let code = choose(alloc, condition.code, condition.test, &chosen, &otherwise)?;
    Ok(code)
}

/// A comparison of two operands, as a test.
pub(crate) fn compared(pair: Pair, operation: BinaryOperation) -> TestCode
    requires { is_comparison operation.operator ≡ true }
    ensures short { result.code.items ≡ pair.code.items }
    ensures test { (h : Homes) (x y : e.Expr) (held : ℕ) → kind_of x ≡ operation.left → kind_of y ≡ operation.right →
        IsPair h (e.Converted (left_kind operation) x) (e.Converted (right_kind operation) y) held pair →
        IsTest h (e.Binary operation.operator x y) held result.test result.code.items }
{
    let test = comparison(operation, pair.left, pair.right).unwrap();
    TestCode {
        code: pair.code,
        test,
    }
}

/// `!`, as a test.
pub(crate) fn negated(inner: TestCode) -> TestCode
    ensures short { result.code.items ≡ inner.code.items }
    ensures test { (h : Homes) (x : e.Expr) (held : ℕ) → IsTest h x held inner.test inner.code.items →
        IsTest h (e.Unary Not x) held result.test result.code.items }
{
    TestCode {
        code: inner.code,
        test: inner.test.negated(),
    }
}

/// Whether an operand isn't 0, as a test.
pub(crate) fn tested(operand: Operand) -> TestCode
    ensures short { result.code.items ≡ operand.code.items }
    ensures test { (h : Homes) (x : e.Expr) (held : ℕ) → IsOperand h x held operand.register operand.code.items →
        IsTest h x held result.test result.code.items }
{
    TestCode {
        code: operand.code,
        test: nonzero(operand.register),
    }
}
