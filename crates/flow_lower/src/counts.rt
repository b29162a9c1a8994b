//! How many nodes a part has. A count that 64 bits don't hold is answered as want of memory.
ghost use Rattle.std.specs.Prelude.{◌≡◌, suc, ◌+◌, IfOk};
ghost use Rattle.c_tree.specs.Exprs.{lvalue_of};
ghost use Rattle.c_tree.specs.Flats.{statement_of, statements_of, arms_list_of};
ghost use Rattle.flow_graph.specs.Lowering.{assign_count, count, statements_count, arms_count};

use c_tree::expr::Lvalue;
use c_tree::flat::{Arm, Statement};
use ido_base::memory::OutOfMemory;

/// The number that is so much greater.
pub(crate) fn sum(number: usize, more: usize) -> Result<usize, OutOfMemory>
    ensures { IfOk result (λ n. n ≡ number + more) }
{
    number.checked_add(more).ok_or(OutOfMemory)
}

/// An assignment of a variable has two nodes.
fn count_assignment(target: &Lvalue) -> usize
    ensures { result ≡ assign_count (lvalue_of target.now) }
{
    match target {
        Lvalue::Local { .. } => 1,
        Lvalue::Variable { .. } | Lvalue::Element { .. } => 2,
    }
}

/// The nodes of a statement.
#[cycle(counts)]
pub(crate) fn count(statement: &Statement) -> Result<usize, OutOfMemory>
    ensures { IfOk result (λ n. n ≡ count (statement_of statement.now)) }
{
    match statement {
        Statement::Assign { target, .. } => Ok(count_assignment(target)),
        Statement::If {
            arms,
            otherwise,
            ..
        } => {
            let chosen = count_arms(arms)?;
            let otherwise = count_all(otherwise)?;
            sum(chosen, otherwise)
        }
        Statement::While { body, .. } => count_loop(body),
        Statement::Do { body, .. } => count_loop(body),
        Statement::Lock { .. } | Statement::Unlock { .. } => Ok(1),
    }
}

/// The nodes of a loop: its test and its body.
#[cycle(counts)]
fn count_loop(body: &[Statement]) -> Result<usize, OutOfMemory>
    ensures { IfOk result (λ n. n ≡ suc (statements_count (statements_of body.now))) }
{
    let body = count_all(body)?;
    sum(body, 1)
}

/// The nodes of statements.
#[cycle(counts)]
pub(crate) fn count_all(statements: &[Statement]) -> Result<usize, OutOfMemory>
    ensures { IfOk result (λ n. n ≡ statements_count (statements_of statements.now)) }
{
    let mut total = 0;
    for statement in statements {
        let own = count(statement)?;
        total = sum(total, own)?;
    }
    Ok(total)
}

/// The nodes of the arms of an `if`.
#[cycle(counts)]
pub(crate) fn count_arms(arms: &[Arm]) -> Result<usize, OutOfMemory>
    ensures { IfOk result (λ n. n ≡ arms_count (arms_list_of arms.now)) }
{
    let mut total = 0;
    for arm in arms {
        let own = count_loop(&arm.body)?;
        total = sum(total, own)?;
    }
    Ok(total)
}
