//! Code that only computes.
ghost use Rattle.std.specs.Prelude.{◌≡◌, ◌++◌, OnOk};
ghost use Rattle.node_code.specs.Pieces.{Appends, IsComputing, IsChoice, IsPlainWrite, IsUnmarked};
ghost use Rattle.node_code.specs.links.ItemLists.{computing_items, choice_items, write_items};

use crate::items::{load_small, push_item, push_plain};
use ido_base::memory::OutOfMemory;
use operator_code::Test;
use rv64_isa::field::{Immediate, Register};
use rv64_isa::instr::{Instr, StoreKind};
use rv64_isa::object::{CodeItem, Label};

/// The mark, and code; where there is none, an instruction that leaves all registers as they are.
fn append_computing(items: &mut Vec<CodeItem>, code: &[Instr]) -> Result<(), OutOfMemory>
    ensures { OnOk result (items.new.items ≡ items.old.items ++ computing_items code.now) }
{
    items.push(CodeItem::MarkNext)?;
    if code.is_empty() {
        items.push(CodeItem::Instruction(load_small(Register::X0, 0)))?;
    }
    push_plain(items, code)
}

/// The mark, code, and a branch.
fn append_choice(
    items: &mut Vec<CodeItem>,
    code: &[Instr],
    test: Test,
    to: Label,
) -> Result<(), OutOfMemory>
    ensures { OnOk result (items.new.items ≡ items.old.items ++ choice_items code.now test to) }
{
    items.push(CodeItem::MarkNext)?;
    push_plain(items, code)?;
    push_item(
        items,
        CodeItem::BranchTo {
            condition: test.condition,
            rs1: test.rs1,
            rs2: test.rs2,
            to,
        },
    )
}

/// Appends code that only computes; its first instruction is the mark. Where there is none, an instruction stands there
/// that leaves all registers as they are.
pub fn push_computing(items: &mut Vec<CodeItem>, code: &[Instr]) -> Result<(), OutOfMemory>
    ensures { OnOk result (Appends items.old.items items.new.items (IsComputing code.now)) }
{
    append_computing(items, code)
}

/// Appends code that only computes, and a branch to the label, which is taken where the test is passed after the code. The
/// first instruction is the mark.
pub fn push_choice(
    items: &mut Vec<CodeItem>,
    code: &[Instr],
    test: Test,
    to: Label,
) -> Result<(), OutOfMemory>
    ensures { OnOk result (Appends items.old.items items.new.items (IsChoice code.now test to.0)) }
{
    append_choice(items, code, test, to)
}

/// The mark, code, and the store of eight bytes.
fn append_write(items: &mut Vec<CodeItem>, code: &[Instr]) -> Result<(), OutOfMemory>
    ensures { OnOk result (items.new.items ≡ items.old.items ++ write_items code.now) }
{
    append_computing(items, code)?;
    items.push(CodeItem::Instruction(Instr::Store {
        kind: StoreKind::Sd,
        rs2: Register::X29,
        rs1: Register::X28,
        offset: Immediate::ZERO,
    }))?;
    Ok(())
}

/// Appends code that only computes, without a mark.
pub fn push_unmarked(items: &mut Vec<CodeItem>, code: &[Instr]) -> Result<(), OutOfMemory>
    ensures { OnOk result (Appends items.old.items items.new.items (IsUnmarked code.now)) }
{
    push_plain(items, code)
}

/// Appends code that only computes and leaves an address in x28 and a value in x29, and the store of the value's eight bytes there, whose line isn't
/// cleaned. The first instruction is the mark.
pub fn push_plain_write(items: &mut Vec<CodeItem>, code: &[Instr]) -> Result<(), OutOfMemory>
    ensures { OnOk result (Appends items.old.items items.new.items (IsPlainWrite code.now)) }
{
    append_write(items, code)
}
