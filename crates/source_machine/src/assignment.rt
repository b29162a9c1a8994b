//! Assignments (C11 6.5.16).
ghost use Rattle.c_tree.specs.Exprs.{expr_of, lvalue_of};
ghost use Rattle.source_machine.specs.Assignments.{Evaluates, assigning};

use crate::evaluation::{element_at, evaluate};
use crate::variables::Variables;
use c_tree::expr::{Expr, Lvalue};

/// A store that is still to be made.
#[derive(Clone, Copy)]
pub struct Pending {
    /// The number of the variable.
    pub variable: u32,
    /// Which of the variable's elements.
    pub element: u128,
    pub number: i128,
}

/// Evaluates a value for a target: a local has it, the store of a variable is pending.
pub fn assign(
    target: &Lvalue,
    value: &Expr,
    locals: &mut [i128],
    pending: &mut Option<Pending>,
    variables: &Variables,
)
    ensures { Evaluates (lvalue_of target.now) (expr_of value.now) variables.now (assigning locals.old pending.old) (assigning locals.new pending.new) }
{
    let value = evaluate(value, locals, variables);
    match target {
        Lvalue::Local { local, kind, .. } => {
            let local = *local as usize;
            let number = value.convert(*kind).number();
            if local < locals.len() {
                locals[local] = number;
            }
        }
        Lvalue::Variable { variable, kind, .. } => {
            let number = value.convert(*kind).number();
            *pending = Some(Pending {
                variable: *variable,
                element: 0,
                number,
            });
        }
        Lvalue::Element {
            variable,
            kind,
            index,
            ..
        } => {
            let number = value.convert(*kind).number();
            let element = element_at(evaluate(&index.expr, locals, variables));
            *pending = Some(Pending {
                variable: *variable,
                element,
                number,
            });
        }
    }
}
