//! The locals that are known not to be null before each step of a thread.
ghost use Rattle.std.specs.Prelude.{◌≡◌, ◌++◌, [], ◌∷◌, true, slice_index_or, IfOk, OnOk};
ghost use Rattle.c_tree.specs.Exprs.{placed_of, lvalue_of};
ghost use Rattle.c_tree.specs.Flats.{statement_of, statements_of, arms_list_of, thread_of};
ghost use Rattle.c_tree.specs.NullReferences.{unnull, is_among};
ghost use Rattle.c_tree.specs.NullReferences.{flat_statement_assigned, flat_statements_assigned, flat_arms_assigned, flat_known_with, flat_known_in};
ghost use Rattle.c_ranges.specs.KnownAtSteps.{assign_knowns, knowns, knowns_in_all, knowns_in_arms, thread_knowns};
ghost use Rattle.flat_compile.specs.links.KnownLists.{known_lists};

use c_ranges::known::{add_target_assigned, is_among, unnull};
use c_tree::expr::{Lvalue, Placed};
use c_tree::flat::{Arm, Statement, Thread};
use std::alloc::{AllocError, Global};

// ---- What a block assigns

/// Adds the locals that a statement assigns.
#[cycle(assigned)]
fn add_assigned(locals: &mut Vec<u32>, statement: &Statement) -> Result<(), AllocError>
    ensures { OnOk result (locals.new.items ≡ locals.old.items ++ flat_statement_assigned (statement_of statement.now)) }
{
    match statement {
        Statement::Assign { target, .. } => add_target_assigned(locals, target),
        Statement::If {
            arms,
            otherwise,
            ..
        } => {
            add_arms_assigned(locals, arms)?;
            add_all_assigned(locals, otherwise)
        }
        Statement::While { body, .. } => add_all_assigned(locals, body),
        Statement::Do { body, .. } => add_all_assigned(locals, body),
        Statement::Lock { .. } | Statement::Unlock { .. } => Ok(()),
    }
}

/// Adds the locals that statements assign.
#[cycle(assigned)]
fn add_all_assigned(locals: &mut Vec<u32>, statements: &[Statement]) -> Result<(), AllocError>
    ensures { OnOk result (locals.new.items ≡ locals.old.items ++ flat_statements_assigned (statements_of statements.now)) }
{
    for statement in statements {
        add_assigned(locals, statement)?;
    }
    Ok(())
}

/// Adds the locals that the blocks of arms assign.
#[cycle(assigned)]
fn add_arms_assigned(locals: &mut Vec<u32>, arms: &[Arm]) -> Result<(), AllocError>
    ensures { OnOk result (locals.new.items ≡ locals.old.items ++ flat_arms_assigned (arms_list_of arms.now)) }
{
    for arm in arms {
        add_all_assigned(locals, &arm.body)?;
    }
    Ok(())
}

/// Whether statements assign the local.
fn is_assigned(alloc: Global, body: &[Statement], local: u32) -> Result<bool, AllocError>
    ensures { IfOk result (λ is. is ≡ is_among (flat_statements_assigned (statements_of body.now)) local) }
{
    let mut assigned = Vec::new(alloc);
    add_all_assigned(&mut assigned, body)?;
    Ok(is_among(&assigned, local))
}

// ---- What is known

/// The locals that are known not to be null in a block, from those that are known before it and one that isn't null there.
fn known_with(
    alloc: Global,
    known: &[u32],
    body: &[Statement],
    local: Option<u32>,
) -> Result<Vec<u32>, AllocError>
    ensures { IfOk result (λ all. all.items ≡ flat_known_with known.now (statements_of body.now) local) }
{
    let mut all = known.to_vec(alloc)?;
    match local {
        None => Ok(all),
        Some(local) => {
            let assigned = is_assigned(alloc, body, local)?;
            if !assigned {
                all.push(local)?;
            }
            Ok(all)
        }
    }
}

/// The locals that are known not to be null in the block of an arm, from those that are known before its `if`.
fn known_in(
    alloc: Global,
    known: &[u32],
    first: bool,
    condition: &Placed,
    body: &[Statement],
) -> Result<Vec<u32>, AllocError>
    ensures { IfOk result (λ all. all.items ≡ flat_known_in known.now first (placed_of condition.now) (statements_of body.now)) }
{
    if first {
        known_with(alloc, known, body, unnull(&condition.expr))
    } else {
        Ok(known.to_vec(alloc)?)
    }
}

/// Adds a step, before which these are known.
fn add_step(alloc: Global, steps: &mut Vec<Vec<u32>>, known: &[u32]) -> Result<(), AllocError>
    ensures { OnOk result (known_lists steps.new.items ≡ known_lists steps.old.items ++ known.now ∷ []) }
{
    steps.push(known.to_vec(alloc)?)?;
    Ok(())
}

/// Adds the steps of an assignment to the target.
fn add_assignment(
    alloc: Global,
    steps: &mut Vec<Vec<u32>>,
    known: &[u32],
    target: &Lvalue,
) -> Result<(), AllocError>
    ensures { OnOk result (known_lists steps.new.items ≡ known_lists steps.old.items ++ assign_knowns known.now (lvalue_of target.now)) }
{
    match target {
        Lvalue::Local { .. } => add_step(alloc, steps, known),
        // the store is a step of its own
        Lvalue::Variable { .. } | Lvalue::Element { .. } => {
            add_step(alloc, steps, known)?;
            add_step(alloc, steps, known)
        }
    }
}

/// Adds the steps of a statement.
#[cycle(walk)]
fn add_statement(
    alloc: Global,
    steps: &mut Vec<Vec<u32>>,
    known: &[u32],
    statement: &Statement,
) -> Result<(), AllocError>
    ensures { OnOk result (known_lists steps.new.items ≡ known_lists steps.old.items ++ knowns known.now (statement_of statement.now)) }
{
    match statement {
        Statement::Assign { target, .. } => add_assignment(alloc, steps, known, target),
        Statement::If {
            arms,
            otherwise,
            ..
        } => {
            add_arms(alloc, steps, known, arms)?;
            add_statements(alloc, steps, known, otherwise)
        }
        Statement::While { body, .. } => {
            add_step(alloc, steps, known)?;
            add_statements(alloc, steps, known, body)
        }
        Statement::Do { body, .. } => {
            add_statements(alloc, steps, known, body)?;
            add_step(alloc, steps, known)
        }
        Statement::Lock { .. } | Statement::Unlock { .. } => add_step(alloc, steps, known),
    }
}

/// Adds the steps of statements.
#[cycle(walk)]
fn add_statements(
    alloc: Global,
    steps: &mut Vec<Vec<u32>>,
    known: &[u32],
    statements: &[Statement],
) -> Result<(), AllocError>
    ensures { OnOk result (known_lists steps.new.items ≡ known_lists steps.old.items ++ knowns_in_all known.now (statements_of statements.now)) }
{
    for statement in statements {
        add_statement(alloc, steps, known, statement)?;
    }
    Ok(())
}

/// Adds the steps of the arms of an `if`.
#[cycle(walk)]
fn add_arms(
    alloc: Global,
    steps: &mut Vec<Vec<u32>>,
    known: &[u32],
    arms: &[Arm],
) -> Result<(), AllocError>
    ensures { OnOk result (known_lists steps.new.items ≡ known_lists steps.old.items ++ knowns_in_arms known.now true (arms_list_of arms.now)) }
{
    let mut first = true;
    for arm in arms {
        add_step(alloc, steps, known)?;
        let inner = known_in(alloc, known, first, &arm.condition, &arm.body)?;
        add_statements(alloc, steps, &inner, &arm.body)?;
        first = false;
    }
    Ok(())
}

/// Of each step of the thread the locals that are known not to be null before it.
pub(crate) fn known_steps(alloc: Global, thread: &Thread) -> Result<Vec<Vec<u32>>, AllocError>
    ensures { IfOk result (λ steps. known_lists steps.items ≡ thread_knowns (thread_of thread.now)) }
{
    let mut steps = Vec::new(alloc);
    add_statements(alloc, &mut steps, &[], &thread.body)?;
    add_step(alloc, &mut steps, &[])?;
    Ok(steps)
}

/// Whether the local is one of those that are known.
fn knows(known: &[u32], local: usize) -> bool
    ensures { result ≡ is_among known.now local }
{
    known.iter().any(|it| *it as usize == local)
}

/// Whether the local is known not to be null before the step.
pub(crate) fn is_known_before(steps: &[Vec<u32>], step: usize, local: usize) -> bool
    ensures { result ≡ is_among (slice_index_or (known_lists steps.now) step []) local }
{
    match steps.get(step) {
        Some(known) => knows(known, local),
        None => false,
    }
}
