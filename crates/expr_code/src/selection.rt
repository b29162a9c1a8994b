//! The code of an expression, of a condition, and of the address of what is assigned.
ghost use Rattle.std.specs.Prelude.{◌≡◌, ◌<◌, ◌≤◌, ◌+◌, ◌*◌, length, IfOk};
ghost use Rattle.ido_base.specs.declared.limits.TheConstants.{MOST_PRICE, MOST_TEMPORARIES};
ghost use Rattle.c_tree.specs.Exprs.{expr_of, placed_of};
ghost use Rattle.c_tree.specs.Prices.{need_of, nodes_of, node_price};
ghost use Rattle.expr_code.specs.EvaluationCode.{AreAtHome, IsValueCode, IsConvertedCode, IsTestCode};
ghost use Rattle.expr_code.specs.EvaluationCode.{IsElementAddressCode, IsVariableAddressCode, homes_of, impure_among};

use crate::elements::{element_address, variable_address};
use crate::evaluation::{evaluate, evaluate_converted, operand, test};
use crate::frame::Frame;
use crate::operand::TestCode;
use c_tree::expr::{Expr, Placed};
use ido_base::memory::OutOfMemory;
use ido_ints::Kind;
use rv64_isa::field::Register;
use rv64_isa::instr::Instr;
use std::alloc::Global;

/// The code of an expression's value, into `destination`.
///
/// Whatever the locals and variables hold, whatever stands around the code and wherever it begins, its steps lead to its end. Since
/// the clause holds for every such environment, the code never leaves itself; since it holds for all loads that answer for the
/// elements that the expression reads, it loads nothing else. Of locals only those that are read have to stand in their registers.
pub fn select(
    alloc: Global,
    expr: &Expr,
    frame: &Frame,
    destination: Register,
) -> Result<Vec<Instr>, OutOfMemory>
    requires home { AreAtHome (homes_of frame.now) (expr_of expr.now) }
    requires need { need_of (expr_of expr.now) ≤ MOST_TEMPORARIES }
    requires price { node_price (nodes_of (expr_of expr.now)) ≤ MOST_PRICE }
    requires destination { 0 < destination }
    ensures short { IfOk result (λ code. length code.items ≤ 16 * nodes_of (expr_of expr.now)) }
    ensures pure { IfOk result (λ code. impure_among code.items ≡ 0) }
    ensures code { IfOk result (λ code. IsValueCode (homes_of frame.now) (expr_of expr.now) destination code.items) }
{
    let code = evaluate(alloc, expr, frame, destination, 0)?;
    Ok(code)
}

/// The code of an expression's value, converted to a kind, into `destination`. Nothing is added where the conversion keeps
/// the register form.
pub fn select_converted(
    alloc: Global,
    expr: &Expr,
    kind: Kind,
    frame: &Frame,
    destination: Register,
) -> Result<Vec<Instr>, OutOfMemory>
    requires home { AreAtHome (homes_of frame.now) (expr_of expr.now) }
    requires need { need_of (expr_of expr.now) ≤ MOST_TEMPORARIES }
    requires price { node_price (nodes_of (expr_of expr.now)) ≤ MOST_PRICE }
    requires destination { 0 < destination }
    ensures short { IfOk result (λ code. length code.items ≤ 16 * nodes_of (expr_of expr.now) + 8) }
    ensures pure { IfOk result (λ code. impure_among code.items ≡ 0) }
    ensures code { IfOk result (λ code. IsConvertedCode (homes_of frame.now) (expr_of expr.now) kind destination code.items) }
{
    let code = evaluate_converted(alloc, expr, kind, frame, destination, 0)?;
    Ok(code)
}

/// The code of a condition, and a test for the branch after it.
pub fn select_test(alloc: Global, condition: &Expr, frame: &Frame) -> Result<TestCode, OutOfMemory>
    requires home { AreAtHome (homes_of frame.now) (expr_of condition.now) }
    requires need { need_of (expr_of condition.now) ≤ MOST_TEMPORARIES }
    requires price { node_price (nodes_of (expr_of condition.now)) ≤ MOST_PRICE }
    ensures short { IfOk result (λ x. length x.code.items ≤ 16 * nodes_of (expr_of condition.now) + 8) }
    ensures pure { IfOk result (λ x. impure_among x.code.items ≡ 0) }
    ensures code { IfOk result (λ x. IsTestCode (homes_of frame.now) (expr_of condition.now) x.test x.code.items) }
{
    let code = test(alloc, condition, frame, 0)?;
    Ok(code)
}

/// The code of the address of a variable that is no array, into `destination`.
pub fn select_variable_address(
    alloc: Global,
    variable: u32,
    frame: &Frame,
    destination: Register,
) -> Result<Vec<Instr>, OutOfMemory>
    requires home { variable < length frame.now.addresses.now }
    requires destination { 0 < destination }
    ensures short { IfOk result (λ code. length code.items ≤ 8) }
    ensures pure { IfOk result (λ code. impure_among code.items ≡ 0) }
    ensures code { IfOk result (λ code. IsVariableAddressCode (homes_of frame.now) variable destination code.items) }
{
    variable_address(alloc, frame.addresses[variable as usize], destination)
}

/// The code of the address of an element of an array whose elements are of this kind, into `destination`.
pub fn select_element_address(
    alloc: Global,
    variable: u32,
    kind: Kind,
    index: &Placed,
    frame: &Frame,
    destination: Register,
) -> Result<Vec<Instr>, OutOfMemory>
    requires variable { variable < length frame.now.addresses.now }
    requires index { AreAtHome (homes_of frame.now) (expr_of index.now.expr) }
    requires need { need_of (expr_of index.now.expr) ≤ MOST_TEMPORARIES }
    requires price { node_price (nodes_of (expr_of index.now.expr)) ≤ MOST_PRICE }
    requires destination { 0 < destination }
    ensures short { IfOk result (λ code. length code.items ≤ 16 * nodes_of (expr_of index.now.expr) + 8) }
    ensures pure { IfOk result (λ code. impure_among code.items ≡ 0) }
    ensures code { IfOk result (λ code. IsElementAddressCode (homes_of frame.now) variable kind (placed_of index.now) destination code.items) }
{
    let address = frame.addresses[variable as usize];
    let index = operand(alloc, &index.expr, frame, 0)?;
    let code = element_address(index, address, kind, destination)?;
    Ok(code)
}
