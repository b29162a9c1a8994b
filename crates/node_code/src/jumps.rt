//! Jumps and branches.
ghost use Rattle.std.specs.Prelude.{OnOk};
ghost use Rattle.node_code.specs.Pieces.{Appends, IsJump, IsBranch};

use crate::items::push_item;
use ido_base::memory::OutOfMemory;
use operator_code::Test;
use rv64_isa::field::Register;
use rv64_isa::object::{CodeItem, Label};

/// Appends a jump to the label.
pub fn push_jump(items: &mut Vec<CodeItem>, to: Label) -> Result<(), OutOfMemory>
    ensures { OnOk result (Appends items.old.items items.new.items (IsJump to.0)) }
{
    push_item(
        items,
        CodeItem::JumpTo {
            rd: Register::X0,
            to,
        },
    )
}

/// Appends a branch to the label, which is taken where the test is passed.
pub fn push_branch(items: &mut Vec<CodeItem>, test: Test, to: Label) -> Result<(), OutOfMemory>
    ensures { OnOk result (Appends items.old.items items.new.items (IsBranch test to.0)) }
{
    push_item(
        items,
        CodeItem::BranchTo {
            condition: test.condition,
            rs1: test.rs1,
            rs2: test.rs2,
            to,
        },
    )
}
