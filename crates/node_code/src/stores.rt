//! Stores.
ghost use Rattle.std.specs.Prelude.{◌≡◌, ◌++◌, OnOk};
ghost use Rattle.ido_ints.specs.Kinds.{bytes_of};
ghost use Rattle.rv64_isa.specs.Rows.{store_bytes};
ghost use Rattle.node_code.specs.Pieces.{Appends, IsStorePiece};
ghost use Rattle.node_code.specs.links.ItemLists.{store_items};

use crate::items::push_plain;
use ido_base::memory::OutOfMemory;
use ido_ints::Kind;
use rv64_isa::field::{Immediate, Register};
use rv64_isa::instr::{Instr, StoreKind};
use rv64_isa::object::CodeItem;

/// The store of as many bytes as the kind has.
fn store_kind(kind: Kind) -> StoreKind
    ensures { store_bytes result ≡ bytes_of kind }
{
    match kind.bytes() {
        1 => StoreKind::Sb,
        2 => StoreKind::Sh,
        4 => StoreKind::Sw,
        _ => StoreKind::Sd,
    }
}

/// The store of x29 at the address in x28, and the clean of its line, or none.
fn append_store(items: &mut Vec<CodeItem>, kind: StoreKind, cleans: bool) -> Result<(), OutOfMemory>
    ensures { OnOk result (items.new.items ≡ items.old.items ++ store_items kind cleans) }
{
    items.push(CodeItem::MarkNext)?;
    items.push(CodeItem::Instruction(Instr::Store {
        kind,
        rs2: Register::X29,
        rs1: Register::X28,
        offset: Immediate::ZERO,
    }))?;
    if cleans {
        items.push(CodeItem::Instruction(Instr::CboClean { rs1: Register::X28 }))?;
    }
    Ok(())
}

/// Appends the code that makes the pending store of a variable of this kind, and cleans its line at once or not.
pub fn push_store(items: &mut Vec<CodeItem>, kind: Kind, cleans: bool) -> Result<(), OutOfMemory>
    ensures { OnOk result (Appends items.old.items items.new.items (IsStorePiece kind cleans)) }
{
    append_store(items, store_kind(kind), cleans)
}
