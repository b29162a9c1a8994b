//! Tests: the conditions of branches.
ghost use Rattle.std.specs.Prelude.{◌≡◌, ◌↔◌, true, not, ℕ, IsSome, IfSome};
ghost use Rattle.rv64_isa.specs.Arithmetic.{is_taken};
ghost use Rattle.operator_code.specs.links.OperatorInstructions.{below, not_below, made, test_of};
ghost use Rattle.operator_code.specs.ComputingCode.{is_comparison, IsComparison, IsNonzero, IsOpposite};

use crate::operation::BinaryOperation;
use ido_ints::{Binary, Kind};
use rv64_isa::field::Register;
use rv64_isa::instr::Condition;

/// What a branch asks of two registers.
#[derive(Clone, Copy, Debug, PartialEq, Eq)]
pub struct Test {
    pub condition: Condition,
    pub rs1: Register,
    pub rs2: Register,
}

impl Test {
    /// The test that is passed exactly where this one isn't.
    pub fn negated(self) -> Test
        ensures { IsOpposite self result }
    {
        Test {
            condition: opposite(self.condition),
            rs1: self.rs1,
            rs2: self.rs2,
        }
    }
}

#[tactic(auto, unfolding(rv64_isa::specs::Arithmetic::is_taken))]
fn opposite(condition: Condition) -> Condition
    ensures { (a b : ℕ) → is_taken result a b ≡ not (is_taken condition a b) }
{
    match condition {
        Condition::Beq => Condition::Bne,
        Condition::Bne => Condition::Beq,
        Condition::Blt => Condition::Bge,
        Condition::Bge => Condition::Blt,
        Condition::Bltu => Condition::Bgeu,
        Condition::Bgeu => Condition::Bltu,
    }
}

/// The test that is passed where the value in `rs`, of any kind, isn't 0.
pub fn nonzero(rs: Register) -> Test
    ensures { (kind : Kind) → IsNonzero kind rs result }
{
    Test {
        condition: Condition::Bne,
        rs1: rs,
        rs2: Register::X0,
    }
}

/// The test that is passed where a comparison holds of the operands in `rs1` and `rs2`, which are converted already.
/// None for an operator that compares nothing.
pub fn comparison(operation: BinaryOperation, rs1: Register, rs2: Register) -> Option<Test>
    ensures some { IsSome result ↔ (is_comparison operation.operator ≡ true) }
    ensures test { IfSome result (λ t. IsComparison operation rs1 rs2 t) }
{
    order(operation.operator, operation.left_kind(), rs1, rs2)
}

/// The test of a comparison in this kind.
pub(crate) fn order(operator: Binary, kind: Kind, rs1: Register, rs2: Register) -> Option<Test>
    ensures { result ≡ test_of operator kind rs1 rs2 }
{
    match operator {
        Binary::Less => Some(make_test(below(kind), rs1, rs2)),
        Binary::Greater => Some(make_test(below(kind), rs2, rs1)),
        Binary::LessEqual => Some(make_test(not_below(kind), rs2, rs1)),
        Binary::GreaterEqual => Some(make_test(not_below(kind), rs1, rs2)),
        Binary::Equal => Some(make_test(Condition::Beq, rs1, rs2)),
        Binary::NotEqual => Some(make_test(Condition::Bne, rs1, rs2)),
        _ => None,
    }
}

fn make_test(condition: Condition, rs1: Register, rs2: Register) -> Test
    ensures { result ≡ made condition rs1 rs2 }
{
    Test {
        condition,
        rs1,
        rs2,
    }
}

/// The order of the kind's register forms.
fn below(kind: Kind) -> Condition
    ensures { result ≡ below kind }
{
    if kind.is_signed() {
        Condition::Blt
    } else {
        Condition::Bltu
    }
}

/// The opposite of the order of the kind's register forms.
fn not_below(kind: Kind) -> Condition
    ensures { result ≡ not_below kind }
{
    if kind.is_signed() {
        Condition::Bge
    } else {
        Condition::Bgeu
    }
}
