//! Conditions of branches.
ghost use Rattle.std.specs.Prelude.{◌≡◌};
ghost use Rattle.rv64_isa.specs.Arithmetic.{is_taken};

use crate::signs::less;
use rv64_isa::instr::Condition;

/// The branch is taken, by what its two source registers hold (RISC-V unprivileged ISA, "Conditional Branches").
#[tactic(auto, unfolding(rv64_isa::specs::Arithmetic::is_taken))]
pub fn taken(condition: Condition, a: u64, b: u64) -> bool
    ensures { result ≡ is_taken condition a b }
{
    match condition {
        Condition::Beq => a == b,
        Condition::Bne => a != b,
        Condition::Blt => less(a, b),
        Condition::Bge => !less(a, b),
        Condition::Bltu => a < b,
        Condition::Bgeu => a >= b,
    }
}
