//! Tests.
ghost use Rattle.std.specs.Prelude.{◌≡◌, ◌≤◌, OnOk};
ghost use Rattle.ido_base.specs.declared.limits.TheConstants.{MOST_PRICE, MOST_TEMPORARIES};
ghost use Rattle.c_tree.specs.Exprs.{expr_of};
ghost use Rattle.c_tree.specs.Prices.{need_of, nodes_of, node_price};
ghost use Rattle.expr_code.specs.EvaluationCode.{AreAtHome, homes_of};
ghost use Rattle.node_code.specs.Pieces.{Appends};
ghost use Rattle.rv64_codegen.specs.Evaluations.{IsTest};
ghost use Rattle.rv64_codegen.specs.links.Targets.{IsTurned};

use c_tree::expr::Placed;
use expr_code::{Frame, select_test};
use ido_base::memory::OutOfMemory;
use node_code::push_choice;
use operator_code::Test;
use rv64_isa::object::{CodeItem, Label};
use std::alloc::Global;

/// The test, turned round or not.
fn turned(test: Test, is_turned: bool) -> Test
    ensures { IsTurned test result is_turned }
{
    if is_turned { test.negated() } else { test }
}

/// Appends the code of a node that tests a condition, and a branch to the label, which is taken where the condition isn't 0, or,
/// turned round, where it is. The first instruction is the mark.
pub fn push_test(
    alloc: Global,
    items: &mut Vec<CodeItem>,
    frame: &Frame,
    condition: &Placed,
    is_turned: bool,
    to: Label,
) -> Result<(), OutOfMemory>
    requires home { AreAtHome (homes_of frame.now) (expr_of condition.now.expr) }
    requires need { need_of (expr_of condition.now.expr) ≤ MOST_TEMPORARIES }
    requires price { node_price (nodes_of (expr_of condition.now.expr)) ≤ MOST_PRICE }
    ensures { OnOk result
        (Appends items.old.items items.new.items (IsTest (homes_of frame.now) (expr_of condition.now.expr) is_turned to.0)) }
{
    let selected = select_test(alloc, &condition.expr, frame)?;
    let test = turned(selected.test, is_turned);
    push_choice(items, &selected.code, test, to)
}
