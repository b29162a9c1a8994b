//! Evaluations.
ghost use Rattle.std.specs.Prelude.{◌≡◌, ◌≤◌, ◌+◌, IfOk, OnOk};
ghost use Rattle.ido_base.specs.declared.limits.TheConstants.{MOST_PRICE};
ghost use Rattle.c_tree.specs.Exprs.{expr_of, placed_of, lvalue_of};
ghost use Rattle.c_tree.specs.Prices.{nodes_of, node_price};
ghost use Rattle.c_tree.specs.Temporaries.{assign_exprs};
ghost use Rattle.expr_code.specs.EvaluationCode.{AreAtHome, homes_of};
ghost use Rattle.node_code.specs.Pieces.{Appends};
ghost use Rattle.rv64_codegen.specs.Evaluations.{NeedFew, IsAtHome, IsEvaluation, target_nodes};
ghost use Rattle.rv64_codegen.specs.links.Targets.{IsSelected};

use crate::targets::{Assigned, element_code, local_code, variable_code};
use c_tree::expr::{Lvalue, Placed};
use expr_code::Frame;
use ido_base::memory::OutOfMemory;
use node_code::push_computing;
use rv64_isa::instr::Instr;
use rv64_isa::object::CodeItem;
use std::alloc::Global;

/// The code of an evaluation. It may be empty where a local takes what its register has.
pub(crate) fn target_code(
    alloc: Global,
    frame: &Frame,
    target: &Lvalue,
    value: &Placed,
) -> Result<Vec<Instr>, OutOfMemory>
    requires target { IsAtHome (homes_of frame.now) (lvalue_of target.now) }
    requires home { AreAtHome (homes_of frame.now) (expr_of value.now.expr) }
    requires few { NeedFew (assign_exprs (lvalue_of target.now) (placed_of value.now)) }
    requires price { node_price (target_nodes (lvalue_of target.now) + nodes_of (expr_of value.now.expr)) ≤ MOST_PRICE }
    ensures { IfOk result (λ code. IsSelected (homes_of frame.now) (lvalue_of target.now) (expr_of value.now.expr) code.items) }
{
    match target {
        Lvalue::Local { place, local, kind } => local_code(
            alloc, frame, *place, *local, *kind, value,
        ),
        Lvalue::Variable {
            place,
            variable,
            kind,
        } => {
            let assigned = Assigned {
                place: *place,
                variable: *variable,
                kind: *kind,
            };
            variable_code(alloc, frame, assigned, value)
        }
        Lvalue::Element {
            place,
            variable,
            kind,
            index,
        } => {
            let assigned = Assigned {
                place: *place,
                variable: *variable,
                kind: *kind,
            };
            element_code(alloc, frame, assigned, index, value)
        }
    }
}

/// Appends the code of a node that evaluates: a local takes the value, or x28 and x29 take the address and the value of a
/// store. The first instruction is the mark.
pub fn push_evaluation(
    alloc: Global,
    items: &mut Vec<CodeItem>,
    frame: &Frame,
    target: &Lvalue,
    value: &Placed,
) -> Result<(), OutOfMemory>
    requires target { IsAtHome (homes_of frame.now) (lvalue_of target.now) }
    requires home { AreAtHome (homes_of frame.now) (expr_of value.now.expr) }
    requires few { NeedFew (assign_exprs (lvalue_of target.now) (placed_of value.now)) }
    requires price { node_price (target_nodes (lvalue_of target.now) + nodes_of (expr_of value.now.expr)) ≤ MOST_PRICE }
    ensures { OnOk result
        (Appends items.old.items items.new.items (IsEvaluation (homes_of frame.now) (lvalue_of target.now) (expr_of value.now.expr))) }
{
    let code = target_code(alloc, frame, target, value)?;
    push_computing(items, &code)
}
