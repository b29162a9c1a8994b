//! Code with labels, put together.
ghost use Rattle.std.specs.Prelude.{◌≡◌, ◌<◌, ◌^◌, ◌++◌, ◌∷◌, [], OnOk};
ghost use Rattle.node_code.specs.links.ItemLists.{plain};

use ido_base::memory::OutOfMemory;
use operator_code::instructions::immediate;
use rv64_isa::field::Register;
use rv64_isa::instr::{ImmediateOperation, Instr};
use rv64_isa::object::CodeItem;

/// Appends an item.
pub(crate) fn push_item(items: &mut Vec<CodeItem>, item: CodeItem) -> Result<(), OutOfMemory>
    ensures { OnOk result (items.new.items ≡ items.old.items ++ item ∷ []) }
{
    match item {
        CodeItem::Instruction(instr) => push_plain(items, &[instr]),
        _ => {
            items.push(item)?;
            Ok(())
        }
    }
}

/// Appends code without labels.
pub(crate) fn push_plain(items: &mut Vec<CodeItem>, code: &[Instr]) -> Result<(), OutOfMemory>
    ensures { OnOk result (items.new.items ≡ items.old.items ++ plain code.now) }
{
    for instr in code {
        items.push(CodeItem::Instruction(*instr))?;
    }
    Ok(())
}

/// The register gets a number.
pub(crate) fn load_small(rd: Register, number: u16) -> Instr
    requires { number < 2048 }
    ensures { result ≡ Instr.OpImmediate ImmediateOperation.Addi rd 0 number }
{
    immediate(ImmediateOperation::Addi, rd, Register::X0, number)
}
