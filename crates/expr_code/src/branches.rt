//! Forward branches.
ghost use Rattle.std.specs.Prelude.{◌≡◌, ◌<◌, ◌≤◌, ◌+◌, ◌*◌, ◌^◌, ℕ, List, length, ◌↔◌, IsSome, IfSome, IfOk};
ghost use Rattle.ido_ints.specs.TypedNumbers.{Typed};
ghost use Rattle.c_tree.specs.Exprs as e;
ghost use Rattle.expr_code.specs.EvaluationCode.{Homes, EvaluatesTo, impure_among};
ghost use Rattle.expr_code.specs.links.OperandCode.{IsTest, IsMade, IsChoice, Choice};
ghost use Rattle.expr_code.specs.links.ForwardJumps.{Skips, SkipsWhere, IsGuard};

use crate::operators::append;
use ido_base::memory::OutOfMemory;
use operator_code::Test;
use rv64_isa::field::{BranchOffset, JumpOffset, Register};
use rv64_isa::instr::Instr;
use std::alloc::Global;

/// The most words that a branch can skip, besides itself.
const MOST_BRANCHED: usize = (1 << 10) - 1;

/// Skips so many words after it.
fn jump(words: usize) -> Instr
    requires { words + 1 < 2 ^ 18 }
    ensures { Skips words result }
{
    Instr::Jal {
        rd: Register::X0,
        offset: JumpOffset::new((4 * (words + 1)) as u32).unwrap(),
    }
}

/// Skips so many words after it where the test is passed.
fn branch(test: Test, words: usize) -> Option<Instr>
    ensures some { IsSome result ↔ (words + 1 < 2 ^ 10) }
    ensures skips { IfSome result (λ i. SkipsWhere words test i) }
{
    if words >= MOST_BRANCHED {
        return None;
    }
    Some(Instr::Branch {
        condition: test.condition,
        rs1: test.rs1,
        rs2: test.rs2,
        offset: BranchOffset::new((4 * (words + 1)) as u16).unwrap(),
    })
}

/// Goes on after itself where the test is passed, else skips so many words: a branch, or one over a jump where it
/// doesn't reach.
fn guard(alloc: Global, test: Test, words: usize) -> Result<Vec<Instr>, OutOfMemory>
    requires { words + 1 < 2 ^ 18 }
    ensures pure { IfOk result (λ code. impure_among code.items ≡ 0) }
    ensures code { IfOk result (λ code. IsGuard words test code.items) }
    ensures short { IfOk result (λ code. length code.items ≤ 2) }
{
    if let Some(near) = branch(test.negated(), words) {
        return Ok(vec![in alloc; near]?);
    }
    Ok(vec![in alloc; branch(test, 1).unwrap(), jump(words)]?)
}

/// What is chosen where the test is passed after the code, else what is chosen otherwise.
pub(crate) fn choose(
    alloc: Global,
    code: Vec<Instr>,
    test: Test,
    chosen: &[Instr],
    otherwise: &[Instr],
) -> Result<Vec<Instr>, OutOfMemory>
    requires chosen { length chosen.now + 2 < 2 ^ 18 }
    requires otherwise { length otherwise.now + 1 < 2 ^ 18 }
    ensures short { IfOk result (λ whole. length whole.items ≤ length code.items + length chosen.now + length otherwise.now + 3) }
    ensures pure { IfOk result (λ whole. impure_among whole.items ≡ impure_among code.items + impure_among chosen.now + impure_among otherwise.now) }
    ensures code { IfOk result (λ whole. (h : Homes) (c : Choice) (held rd : ℕ) → IsTest h c.condition held test code.items →
        IsMade h c.chosen c.from_chosen held rd chosen.now → IsMade h c.otherwise c.from_otherwise held rd otherwise.now →
        IsChoice h c held rd whole.items) }
{
    let guard = guard(alloc, test, chosen.len() + 1)?;
    let past = jump(otherwise.len());
    let mut code = code;
    append(&mut code, &guard)?;
    append(&mut code, chosen)?;
    code.push(past)?;
    append(&mut code, otherwise)?;
    Ok(code)
}
