//! The code of expressions, by recursion.
ghost use Rattle.std.specs.Prelude.{◌≡◌, ◌<◌, ◌≤◌, ◌+◌, ◌*◌, true, false, length, IfOk};
ghost use Rattle.ido_base.specs.declared.limits.TheConstants.{MOST_TEMPORARIES, MOST_PRICE};
ghost use Rattle.ido_ints.specs.Kinds.{rank_of};
ghost use Rattle.c_tree.specs.Exprs as e;
ghost use Rattle.c_tree.specs.Exprs.{expr_of};
ghost use Rattle.c_tree.specs.Prices.{need_of, need_of_both, nodes_of, node_price};
ghost use Rattle.c_tree.specs.Elaboration.{kind_of};
ghost use Rattle.operator_code.specs.ComputingCode.{is_comparison};
ghost use Rattle.expr_code.specs.EvaluationCode.{AreAtHome, homes_of, impure_among};
ghost use Rattle.expr_code.specs.links.OperandCode.{IsEvaluation, IsOperand, IsTest, IsMade, truth_of, conversion_words};

use crate::conditions::{compared, conditional, conjunction, disjunction, negated, tested};
use crate::elements::{element_code, variable_code};
use crate::frame::Frame;
use crate::operand::{Operand, TestCode};
use crate::operators::{
    constant_code, constant_form, converted, held_operand, left_first, local_code, local_operand,
    one_less, one_more, right_first, with_binary, with_conversion, with_immediate, with_truth,
    with_unary,
};
use crate::temporaries::temporary;
use c_tree::expr::Expr;
use c_tree::price::need;
use ido_base::memory::OutOfMemory;
use ido_ints::{Binary, Kind, Unary};
use operator_code::{BinaryOperation, keeps_form};
use rv64_isa::field::Register;
use rv64_isa::instr::Instr;
use std::alloc::Global;

/// The code of a value, into `rd`, where so many temporaries are held.
#[cycle(evaluation)]
pub(crate) fn evaluate(
    alloc: Global,
    expr: &Expr,
    frame: &Frame,
    rd: Register,
    held: u32,
) -> Result<Vec<Instr>, OutOfMemory>
    requires home { AreAtHome (homes_of frame.now) (expr_of expr.now) }
    requires need { need_of (expr_of expr.now) + held ≤ MOST_TEMPORARIES }
    requires price { node_price (nodes_of (expr_of expr.now)) ≤ MOST_PRICE }
    requires some { 0 < rd }
    ensures short { IfOk result (λ code. length code.items + 8 ≤ 16 * nodes_of (expr_of expr.now) + conversion_words (expr_of expr.now)) }
    ensures pure { IfOk result (λ code. impure_among code.items ≡ 0) }
    ensures code { IfOk result (λ code. IsEvaluation (homes_of frame.now) (expr_of expr.now) held rd code.items) }
{
    match expr {
        Expr::Constant { value } => Ok(constant_code(alloc, *value, rd)?),
        Expr::Local { local, .. } => { Ok(local_code(alloc, frame.locals[*local as usize], rd)?) }
        Expr::Variable { variable, kind, .. } => {
            Ok(variable_code(alloc, frame.addresses[*variable as usize], *kind, rd)?)
        }
        Expr::Element {
            variable,
            kind,
            index,
            ..
        } => {
            let index = operand(alloc, index, frame, held)?;
            Ok(element_code(index, frame.addresses[*variable as usize], *kind, rd, held)?)
        }
        Expr::Address { index, .. } => {
            let index = operand_in(alloc, index, Kind::UnsignedLong, frame, held)?;
            Ok(with_immediate(index, one_more(), rd)?)
        }
        Expr::Referent { local, .. } => {
            let local = local_operand(alloc, frame.locals[*local as usize], held)?;
            Ok(with_immediate(local, one_less(), rd)?)
        }
        Expr::Unary {
            operator,
            operand: inner,
        } => {
            let kind = inner.kind();
            let inner = operand(alloc, inner, frame, held)?;
            Ok(with_unary(inner, *operator, kind, rd)?)
        }
        Expr::Cast {
            kind,
            operand: inner,
        }
        | Expr::Converted {
            kind,
            operand: inner,
        } => evaluate_converted(alloc, inner, *kind, frame, rd, held),
        Expr::Binary {
            operator,
            left,
            right,
        } => match operator {
            Binary::LogicalAnd => {
                let left = test(alloc, left, frame, held)?;
                let right = evaluate_truth(alloc, right, frame, rd, held)?;
                conjunction(alloc, left, right, rd)
            }
            Binary::LogicalOr => {
                let left = test(alloc, left, frame, held)?;
                let right = evaluate_truth(alloc, right, frame, rd, held)?;
                disjunction(alloc, left, right, rd)
            }
            _ => {
                let operation = BinaryOperation {
                    operator: *operator,
                    left: left.kind(),
                    right: right.kind(),
                };
                if let Some(form) = constant_form(operation, right) {
                    let left = operand_in(alloc, left, operation.left_kind(), frame, held)?;
                    Ok(with_immediate(left, form, rd)?)
                } else if is_right_first(left, right, held) {
                    let right = operand_in(alloc, right, operation.right_kind(), frame, held)?;
                    let left = operand_in(alloc, left, operation.left_kind(), frame, held + 1)?;
                    let pair = right_first(left, right)?;
                    Ok(with_binary(pair, operation, rd)?)
                } else {
                    let left = operand_in(alloc, left, operation.left_kind(), frame, held)?;
                    let right = operand_in(alloc, right, operation.right_kind(), frame, held + 1)?;
                    let pair = left_first(left, right)?;
                    Ok(with_binary(pair, operation, rd)?)
                }
            }
        },
        Expr::Conditional {
            kind,
            condition,
            then,
            otherwise,
        } => {
            let condition = test(alloc, condition, frame, held)?;
            let chosen = evaluate_converted(alloc, then, *kind, frame, rd, held)?;
            let otherwise = evaluate_converted(alloc, otherwise, *kind, frame, rd, held)?;
            conditional(alloc, condition, chosen, otherwise)
        }
    }
}

/// The code of a value, converted to a kind, into `rd`. A conversion on the way to a kind that isn't narrower is left out;
/// nothing is added where the form is kept.
#[cycle(evaluation)]
pub(crate) fn evaluate_converted(
    alloc: Global,
    expr: &Expr,
    kind: Kind,
    frame: &Frame,
    rd: Register,
    held: u32,
) -> Result<Vec<Instr>, OutOfMemory>
    requires home { AreAtHome (homes_of frame.now) (expr_of expr.now) }
    requires need { need_of (expr_of expr.now) + held ≤ MOST_TEMPORARIES }
    requires price { node_price (nodes_of (expr_of expr.now)) ≤ MOST_PRICE }
    requires some { 0 < rd }
    ensures short { IfOk result (λ code. length code.items + 8 ≤ 16 * nodes_of (expr_of expr.now) + 2 * rank_of kind) }
    ensures pure { IfOk result (λ code. impure_among code.items ≡ 0) }
    ensures code { IfOk result (λ code. IsEvaluation (homes_of frame.now) (e.Converted kind (expr_of expr.now)) held rd code.items) }
{
    match expr {
        Expr::Converted {
            kind: between,
            operand: inner,
        } if kind.bits() <= between.bits() => {
            let code = evaluate_converted(alloc, inner, kind, frame, rd, held)?;
            Ok(code)
        }
        _ => {
            let from = expr.kind();
            if keeps_form(from, kind) {
                let code = evaluate(alloc, expr, frame, rd, held)?;
                Ok(code)
            } else {
                let inner = operand(alloc, expr, frame, held)?;
                Ok(with_conversion(inner, from, kind, rd)?)
            }
        }
    }
}

/// The code of a value's truth, 1 or 0, into `rd`.
#[cycle(evaluation)]
fn evaluate_truth(
    alloc: Global,
    expr: &Expr,
    frame: &Frame,
    rd: Register,
    held: u32,
) -> Result<Vec<Instr>, OutOfMemory>
    requires home { AreAtHome (homes_of frame.now) (expr_of expr.now) }
    requires need { need_of (expr_of expr.now) + held ≤ MOST_TEMPORARIES }
    requires price { node_price (nodes_of (expr_of expr.now)) ≤ MOST_PRICE }
    requires some { 0 < rd }
    ensures short { IfOk result (λ code. length code.items ≤ 16 * nodes_of (expr_of expr.now) + 2) }
    ensures pure { IfOk result (λ code. impure_among code.items ≡ 0) }
    ensures code { IfOk result (λ code. IsMade (homes_of frame.now) (expr_of expr.now) truth_of held rd code.items) }
{
    match expr {
        Expr::Binary { operator, .. } if is_comparison(*operator) => {
            let code = evaluate(alloc, expr, frame, rd, held)?;
            Ok(code)
        }
        _ => {
            let inner = operand(alloc, expr, frame, held)?;
            Ok(with_truth(inner, rd)?)
        }
    }
}

/// The code of an operand: a local is used where it stands, any other value gets the next temporary.
#[cycle(evaluation)]
pub(crate) fn operand(
    alloc: Global,
    expr: &Expr,
    frame: &Frame,
    held: u32,
) -> Result<Operand, OutOfMemory>
    requires home { AreAtHome (homes_of frame.now) (expr_of expr.now) }
    requires need { need_of (expr_of expr.now) + held ≤ MOST_TEMPORARIES }
    requires price { node_price (nodes_of (expr_of expr.now)) ≤ MOST_PRICE }
    ensures short { IfOk result (λ x. length x.code.items + 8 ≤ 16 * nodes_of (expr_of expr.now) + conversion_words (expr_of expr.now)) }
    ensures pure { IfOk result (λ x. impure_among x.code.items ≡ 0) }
    ensures operand { IfOk result (λ x. IsOperand (homes_of frame.now) (expr_of expr.now) held x.register x.code.items) }
{
    match expr {
        Expr::Local { local, .. } => {
            let local = local_operand(alloc, frame.locals[*local as usize], held)?;
            Ok(local)
        }
        _ => {
            let code = evaluate(alloc, expr, frame, temporary(held), held)?;
            Ok(held_operand(code, held))
        }
    }
}

/// The code of an operand that is converted to a kind.
#[cycle(evaluation)]
fn operand_in(
    alloc: Global,
    expr: &Expr,
    kind: Kind,
    frame: &Frame,
    held: u32,
) -> Result<Operand, OutOfMemory>
    requires home { AreAtHome (homes_of frame.now) (expr_of expr.now) }
    requires need { need_of (expr_of expr.now) + held ≤ MOST_TEMPORARIES }
    requires price { node_price (nodes_of (expr_of expr.now)) ≤ MOST_PRICE }
    ensures short { IfOk result (λ x. length x.code.items ≤ 16 * nodes_of (expr_of expr.now) + 2) }
    ensures pure { IfOk result (λ x. impure_among x.code.items ≡ 0) }
    ensures operand { IfOk result (λ x. IsOperand (homes_of frame.now) (e.Converted kind (expr_of expr.now)) held x.register x.code.items) }
{
    let inner = operand(alloc, expr, frame, held)?;
    Ok(converted(inner, expr.kind(), kind, held)?)
}

/// Whether the right operand needs more temporaries than the left one, and so is evaluated first: the other one is
/// then evaluated while one more is held.
fn is_right_first(left: &Expr, right: &Expr, held: u32) -> bool
    requires { need_of_both (need_of (expr_of left.now)) (need_of (expr_of right.now)) + held ≤ MOST_TEMPORARIES }
    ensures right_first { result ≡ true → need_of (expr_of right.now) + held ≤ MOST_TEMPORARIES }
    ensures left_then { result ≡ true → need_of (expr_of left.now) + (held + 1) ≤ MOST_TEMPORARIES }
    ensures left_first { result ≡ false → need_of (expr_of left.now) + held ≤ MOST_TEMPORARIES }
    ensures right_then { result ≡ false → need_of (expr_of right.now) + (held + 1) ≤ MOST_TEMPORARIES }
{
    need(right) > need(left)
}

/// The code of a condition: a comparison is tested as it is, any other value against 0.
#[cycle(evaluation)]
pub(crate) fn test(
    alloc: Global,
    expr: &Expr,
    frame: &Frame,
    held: u32,
) -> Result<TestCode, OutOfMemory>
    requires home { AreAtHome (homes_of frame.now) (expr_of expr.now) }
    requires need { need_of (expr_of expr.now) + held ≤ MOST_TEMPORARIES }
    requires price { node_price (nodes_of (expr_of expr.now)) ≤ MOST_PRICE }
    ensures short { IfOk result (λ x. length x.code.items ≤ 16 * nodes_of (expr_of expr.now)) }
    ensures pure { IfOk result (λ x. impure_among x.code.items ≡ 0) }
    ensures test { IfOk result (λ x. IsTest (homes_of frame.now) (expr_of expr.now) held x.test x.code.items) }
{
    match expr {
        Expr::Binary {
            operator,
            left,
            right,
        } if is_comparison(*operator) => {
            let operation = BinaryOperation {
                operator: *operator,
                left: left.kind(),
                right: right.kind(),
            };
            if is_right_first(left, right, held) {
                let right = operand_in(alloc, right, operation.right_kind(), frame, held)?;
                let left = operand_in(alloc, left, operation.left_kind(), frame, held + 1)?;
                let pair = right_first(left, right)?;
                Ok(compared(pair, operation))
            } else {
                let left = operand_in(alloc, left, operation.left_kind(), frame, held)?;
                let right = operand_in(alloc, right, operation.right_kind(), frame, held + 1)?;
                let pair = left_first(left, right)?;
                Ok(compared(pair, operation))
            }
        }
        Expr::Unary {
            operator: Unary::Not,
            operand: inner,
        } => {
            let inner = test(alloc, inner, frame, held)?;
            Ok(negated(inner))
        }
        _ => {
            let inner = operand(alloc, expr, frame, held)?;
            Ok(tested(inner))
        }
    }
}

fn is_comparison(operator: Binary) -> bool
    ensures { result ≡ is_comparison operator }
{
    match operator {
        Binary::Less
        | Binary::Greater
        | Binary::LessEqual
        | Binary::GreaterEqual
        | Binary::Equal
        | Binary::NotEqual => true,
        _ => false,
    }
}
