//! Constants, locals, conversions and operators on values that stand in registers.
ghost use Rattle.std.specs.Prelude.{◌≡◌, ◌++◌, ◌<◌, ◌≤◌, ◌+◌, ◌^◌, ℕ, [], true, length, IfOk, IfSome, OnOk};
ghost use Rattle.ido_base.specs.declared.limits.TheConstants.{MOST_TEMPORARIES};
ghost use Rattle.ido_ints.specs.declared.kinds.Kind.{Kind};
ghost use Rattle.ido_ints.specs.TypedNumbers.{register_form_of};
ghost use Rattle.c_tree.specs.Exprs as e;
ghost use Rattle.c_tree.specs.Exprs.{expr_of};
ghost use Rattle.c_tree.specs.Elaboration.{kind_of};
ghost use Rattle.operator_code.specs.declared.operation.BinaryOperation.{BinaryOperation};
ghost use Rattle.rv64_isa.specs.declared.instr.Instr.{Instr};
ghost use Rattle.operator_code.specs.ComputingCode.{is_strict, left_kind, right_kind};
ghost use Rattle.memory_layout.specs.Roles.{is_local};
ghost use Rattle.expr_code.specs.declared.home.Home.TheVariants.{InRegister};
ghost use Rattle.expr_code.specs.EvaluationCode.{Homes, EvaluatesTo, home_of, is_home, impure_among};
ghost use Rattle.expr_code.specs.links.OperandCode.{IsEvaluation, IsOperand, IsPair, IsMade, IsConstantForm, one, reference_operation, temporary, truth_of};

use crate::elements::framed_code;
use crate::home::Home;
use crate::operand::{Operand, Pair};
use crate::temporaries::temporary;
use c_tree::expr::Expr;
use ido_base::memory::OutOfMemory;
use ido_ints::{Binary, Kind, Unary, Value, convert as convert_value, register_form};
use operator_code::constant::constant;
use operator_code::{
    BinaryOperation, ImmediateForm, binary, convert, copy, keeps_form, truth, unary, with_constant,
};
use rv64_isa::field::Register;
use rv64_isa::instr::Instr;
use std::alloc::Global;

/// Code after code.
pub(crate) fn append(code: &mut Vec<Instr>, more: &[Instr]) -> Result<(), OutOfMemory>
    ensures { OnOk result (code.new.items ≡ code.old.items ++ more.now) }
{
    code.extend_from_slice(more)?;
    Ok(())
}

/// A constant into `rd`.
pub(crate) fn constant_code(
    alloc: Global,
    value: Value,
    rd: Register,
) -> Result<Vec<Instr>, OutOfMemory>
    requires { 0 < rd }
    ensures short { IfOk result (λ code. length code.items ≤ 8) }
    ensures small { register_form_of value < 2 ^ 11 → IfOk result (λ code. length code.items ≡ 1) }
    ensures pure { IfOk result (λ code. impure_among code.items ≡ 0) }
    ensures code { IfOk result (λ code. (h : Homes) (held : ℕ) → IsEvaluation h (e.Constant value) held rd code.items) }
{
    let code = constant(alloc, rd, register_form(value))?;
    Ok(code)
}

/// What the operand has, into `rd`.
pub(crate) fn copied(operand: Operand, rd: Register) -> Result<Vec<Instr>, OutOfMemory>
    requires { 0 < rd }
    ensures short { IfOk result (λ code. length code.items ≤ length operand.code.items + 2) }
    ensures pure { IfOk result (λ code. impure_among code.items ≡ impure_among operand.code.items) }
    ensures code { IfOk result (λ code. (h : Homes) (x : e.Expr) (held : ℕ) →
        IsOperand h x held operand.register operand.code.items → IsEvaluation h x held rd code.items) }
{
    let mut code = operand.code;
    copy(rd, operand.register).push_to(&mut code)?;
    Ok(code)
}

/// What the operator gives for the operand, of this kind, into `rd`.
pub(crate) fn with_unary(
    operand: Operand,
    operator: Unary,
    kind: Kind,
    rd: Register,
) -> Result<Vec<Instr>, OutOfMemory>
    requires { 0 < rd }
    ensures short { IfOk result (λ code. length code.items ≤ length operand.code.items + 2) }
    ensures pure { IfOk result (λ code. impure_among code.items ≡ impure_among operand.code.items) }
    ensures code { IfOk result (λ code. (h : Homes) (x : e.Expr) (held : ℕ) → kind_of x ≡ kind →
        IsOperand h x held operand.register operand.code.items → IsEvaluation h (e.Unary operator x) held rd code.items) }
{
    let mut code = operand.code;
    unary(operator, kind, rd, operand.register).push_to(&mut code)?;
    Ok(code)
}

/// The operand, of the kind `from`, converted to the kind `to`, into `rd`.
pub(crate) fn with_conversion(
    operand: Operand,
    from: Kind,
    to: Kind,
    rd: Register,
) -> Result<Vec<Instr>, OutOfMemory>
    requires { 0 < rd }
    ensures short { IfOk result (λ code. length code.items ≤ length operand.code.items + 2) }
    ensures pure { IfOk result (λ code. impure_among code.items ≡ impure_among operand.code.items) }
    ensures code { IfOk result (λ code. (h : Homes) (x : e.Expr) (held : ℕ) → kind_of x ≡ from →
        IsOperand h x held operand.register operand.code.items → IsEvaluation h (e.Converted to x) held rd code.items) }
{
    let mut code = operand.code;
    convert(from, to, rd, operand.register).push_to(&mut code)?;
    Ok(code)
}

/// The operand, of the kind `from`, converted to the kind `to`, as an operand: where its form is kept, in its own register.
pub(crate) fn converted(
    operand: Operand,
    from: Kind,
    to: Kind,
    held: u32,
) -> Result<Operand, OutOfMemory>
    requires { held < MOST_TEMPORARIES }
    ensures short { IfOk result (λ y. length y.code.items ≤ length operand.code.items + 2) }
    ensures pure { IfOk result (λ y. impure_among y.code.items ≡ impure_among operand.code.items) }
    ensures operand { IfOk result (λ y. (h : Homes) (x : e.Expr) → kind_of x ≡ from →
        IsOperand h x held operand.register operand.code.items → IsOperand h (e.Converted to x) held y.register y.code.items) }
{
    if keeps_form(from, to) {
        return Ok(operand);
    }
    let register = temporary(held);
    let code = with_conversion(operand, from, to, register)?;
    Ok(Operand { code, register })
}

/// A local in its register.
fn standing(alloc: Global, register: Register) -> Operand
    ensures short { result.code.items ≡ [] }
    ensures register { result.register ≡ register }
    ensures operand { (h : Homes) (local : ℕ) (kind : Kind) (held : ℕ) → home_of h.locals local ≡ InRegister register → is_local register ≡ true →
        IsOperand h (e.Local local kind) held result.register result.code.items }
{
    Operand {
        code: Vec::new(alloc),
        register,
    }
}

/// A local where it stands, or in the next temporary where that is memory.
pub(crate) fn local_operand(alloc: Global, home: Home, held: u32) -> Result<Operand, OutOfMemory>
    requires { held < MOST_TEMPORARIES }
    ensures short { IfOk result (λ x. length x.code.items ≤ 2) }
    ensures pure { IfOk result (λ x. impure_among x.code.items ≡ 0) }
    ensures operand { IfOk result (λ x. (h : Homes) (local : ℕ) (kind : Kind) → home_of h.locals local ≡ home → is_home home ≡ true →
        IsOperand h (e.Local local kind) held x.register x.code.items) }
{
    match home {
        Home::InRegister { register } => Ok(standing(alloc, register)),
        Home::InFrame { address } => {
            let code = framed_code(alloc, address, temporary(held))?;
            Ok(held_operand(code, held))
        }
    }
}

/// A local into `rd`.
pub(crate) fn local_code(alloc: Global, home: Home, rd: Register) -> Result<Vec<Instr>, OutOfMemory>
    requires { 0 < rd }
    ensures short { IfOk result (λ code. length code.items ≤ 2) }
    ensures pure { IfOk result (λ code. impure_among code.items ≡ 0) }
    ensures code { IfOk result (λ code. (h : Homes) (local : ℕ) (kind : Kind) (held : ℕ) → home_of h.locals local ≡ home → is_home home ≡ true →
        IsEvaluation h (e.Local local kind) held rd code.items) }
{
    match home {
        Home::InRegister { register } => Ok(copied(standing(alloc, register), rd)?),
        Home::InFrame { address } => Ok(framed_code(alloc, address, rd)?),
    }
}

/// Code of a value in the next temporary, as an operand.
pub(crate) fn held_operand(code: Vec<Instr>, held: u32) -> Operand
    requires { held < MOST_TEMPORARIES }
    ensures short { result.code.items ≡ code.items }
    ensures operand { (h : Homes) (x : e.Expr) → IsEvaluation h x held (temporary held) code.items → IsOperand h x held result.register result.code.items }
{
    Operand {
        code,
        register: temporary(held),
    }
}

/// Two operands, the right one evaluated while the left one is held.
pub(crate) fn left_first(left: Operand, right: Operand) -> Result<Pair, OutOfMemory>
    ensures short { IfOk result (λ p. length p.code.items ≡ length left.code.items + length right.code.items) }
    ensures pure { IfOk result (λ p. impure_among p.code.items ≡ impure_among left.code.items + impure_among right.code.items) }
    ensures pair { IfOk result (λ p. (h : Homes) (x y : e.Expr) (held : ℕ) →
        IsOperand h x held left.register left.code.items → IsOperand h y (held + 1) right.register right.code.items → IsPair h x y held p) }
{
    let mut code = left.code;
    append(&mut code, &right.code)?;
    Ok(Pair {
        code,
        left: left.register,
        right: right.register,
    })
}

/// Two operands, the left one evaluated while the right one is held.
pub(crate) fn right_first(left: Operand, right: Operand) -> Result<Pair, OutOfMemory>
    ensures short { IfOk result (λ p. length p.code.items ≡ length left.code.items + length right.code.items) }
    ensures pure { IfOk result (λ p. impure_among p.code.items ≡ impure_among left.code.items + impure_among right.code.items) }
    ensures pair { IfOk result (λ p. (h : Homes) (x y : e.Expr) (held : ℕ) →
        IsOperand h x (held + 1) left.register left.code.items → IsOperand h y held right.register right.code.items → IsPair h x y held p) }
{
    let mut code = right.code;
    append(&mut code, &left.code)?;
    Ok(Pair {
        code,
        left: left.register,
        right: right.register,
    })
}

/// What the operator gives for operands that are converted to its kinds, into `rd`; nothing for `&&` and `||`.
pub(crate) fn with_binary(
    pair: Pair,
    operation: BinaryOperation,
    rd: Register,
) -> Result<Vec<Instr>, OutOfMemory>
    requires some { 0 < rd }
    requires strict { is_strict operation.operator ≡ true }
    ensures short { IfOk result (λ code. length code.items ≤ length pair.code.items + 2) }
    ensures pure { IfOk result (λ code. impure_among code.items ≡ impure_among pair.code.items) }
    ensures code { IfOk result (λ code. (h : Homes) (x y : e.Expr) (held : ℕ) → kind_of x ≡ operation.left → kind_of y ≡ operation.right →
        IsPair h (e.Converted (left_kind operation) x) (e.Converted (right_kind operation) y) held pair →
        IsEvaluation h (e.Binary operation.operator x y) held rd code.items) }
{
    let mut code = pair.code;
    let last = binary(operation, rd, pair.left, pair.right).unwrap();
    last.push_to(&mut code)?;
    Ok(code)
}

/// The instruction that gives what the operator gives for its left operand, converted, and its right one, where that is a
/// constant.
pub(crate) fn constant_form(operation: BinaryOperation, right: &Expr) -> Option<ImmediateForm>
    ensures { IfSome result (λ form. IsConstantForm operation (expr_of right.now) form) }
{
    match right {
        Expr::Constant { value } => {
            let constant = convert_value(*value, operation.right_kind());
            with_constant(operation, register_form(constant))
        }
        _ => None,
    }
}

/// The instruction that adds 1: to an element's number, which gives the reference to it.
pub(crate) fn one_more() -> ImmediateForm
    ensures { IsConstantForm (reference_operation Binary.Add) one result }
{
    let sum = BinaryOperation {
        operator: Binary::Add,
        left: Kind::UnsignedLong,
        right: Kind::UnsignedLong,
    };
    with_constant(sum, 1).unwrap()
}

/// The instruction that takes 1 away: from a reference, which gives its element's number.
pub(crate) fn one_less() -> ImmediateForm
    ensures { IsConstantForm (reference_operation Binary.Sub) one result }
{
    let difference = BinaryOperation {
        operator: Binary::Sub,
        left: Kind::UnsignedLong,
        right: Kind::UnsignedLong,
    };
    with_constant(difference, 1).unwrap()
}

/// What the operator gives for its left operand, converted, and a constant, into `rd`.
pub(crate) fn with_immediate(
    operand: Operand,
    form: ImmediateForm,
    rd: Register,
) -> Result<Vec<Instr>, OutOfMemory>
    requires { 0 < rd }
    ensures short { IfOk result (λ code. length code.items ≤ length operand.code.items + 1) }
    ensures pure { IfOk result (λ code. impure_among code.items ≡ impure_among operand.code.items) }
    ensures code { IfOk result (λ code. (o : BinaryOperation) (h : Homes) (x y : e.Expr) (held : ℕ) → kind_of x ≡ o.left → kind_of y ≡ o.right →
        IsConstantForm o y form → IsOperand h (e.Converted (left_kind o) x) held operand.register operand.code.items →
        IsEvaluation h (e.Binary o.operator x y) held rd code.items) }
{
    let mut code = operand.code;
    code.push(form.instruction(rd, operand.register))?;
    Ok(code)
}

/// 1 into `rd` where the operand isn't 0, else 0.
pub(crate) fn with_truth(operand: Operand, rd: Register) -> Result<Vec<Instr>, OutOfMemory>
    requires { 0 < rd }
    ensures short { IfOk result (λ code. length code.items ≤ length operand.code.items + 2) }
    ensures pure { IfOk result (λ code. impure_among code.items ≡ impure_among operand.code.items) }
    ensures code { IfOk result (λ code. (h : Homes) (x : e.Expr) (held : ℕ) →
        IsOperand h x held operand.register operand.code.items → IsMade h x truth_of held rd code.items) }
{
    let mut code = operand.code;
    truth(rd, operand.register).push_to(&mut code)?;
    Ok(code)
}
