//! Calls: a lock is taken or given back, a thread ends.
ghost use Rattle.std.specs.Prelude.{ℕ, Some, ◌≡◌, ◌<◌, ◌≤◌, ◌++◌, IsTrue, OnOk, length};
ghost use Rattle.std.specs.List.{list_all, AllByRecursion};
ghost use Rattle.ido_base.specs.declared.limits.TheConstants.{MOST_THREADS};
ghost use Rattle.log_schemes.specs.Schemes.{keeping_of};
ghost use Rattle.log_schemes.specs.Schemes.{may_keep};
ghost use Rattle.node_code.specs.BoundaryCode.{IsQuiet};
ghost use Rattle.node_code.specs.Pieces.{Appends, IsLockOf, IsUnlockOf, IsEnd, codes_of, giving_bytes, keeping_for};
ghost use Rattle.node_code.specs.links.ItemLists.{asking_items, lock_items, unlock_items, end_items};

use crate::boundaries::{append_boundary, boundary_code};
use crate::items::{load_small, push_plain};
use crate::kept::Kept;
use ido_base::memory::OutOfMemory;
use rv64_isa::field::Register;
use rv64_isa::instr::Instr;
use rv64_isa::object::CodeItem;
use std::alloc::Global;

/// The register of a call's number.
const CALL: Register = Register::X17;

/// The number of the call that takes a lock.
const TAKES: u16 = 1;

/// The number of the call that gives a lock back.
const GIVES: u16 = 2;

/// The number of the call that ends the thread.
const ENDS: u16 = 3;

/// The registers of a call of one lock are set, by code that leaves the lock's number in the first.
fn append_asking(
    items: &mut Vec<CodeItem>,
    numbering: &[Instr],
    call: u16,
) -> Result<(), OutOfMemory>
    requires { call < 2048 }
    ensures { OnOk result (items.new.items ≡ items.old.items ++ asking_items numbering.now call) }
{
    push_plain(items, numbering)?;
    items.push(CodeItem::Instruction(load_small(CALL, call)))?;
    Ok(())
}

/// A lock is taken; then comes the boundary.
fn append_lock(
    items: &mut Vec<CodeItem>,
    numbering: &[Instr],
    boundary: &[Instr],
) -> Result<(), OutOfMemory>
    ensures { OnOk result (items.new.items ≡ items.old.items ++ lock_items numbering.now boundary.now) }
{
    append_asking(items, numbering, TAKES)?;
    items.push(CodeItem::MarkNext)?;
    items.push(CodeItem::Instruction(Instr::Ecall))?;
    append_boundary(items, boundary)
}

/// The boundary, after which a lock is given back; it may end a section.
fn append_unlock(
    items: &mut Vec<CodeItem>,
    numbering: &[Instr],
    ends: bool,
    boundary: &[Instr],
) -> Result<(), OutOfMemory>
    ensures { OnOk result (items.new.items ≡ items.old.items ++ unlock_items numbering.now ends boundary.now) }
{
    items.push(CodeItem::MarkNext)?;
    push_plain(items, boundary)?;
    append_asking(items, numbering, GIVES)?;
    items.push(CodeItem::Instruction(Instr::Ecall))?;
    if !ends {
        items.push(CodeItem::ResumeNext)?;
    }
    Ok(())
}

/// A thread ends.
fn append_end(items: &mut Vec<CodeItem>) -> Result<(), OutOfMemory>
    ensures { OnOk result (items.new.items ≡ items.old.items ++ end_items) }
{
    items.push(CodeItem::MarkNext)?;
    items.push(CodeItem::Instruction(load_small(CALL, ENDS)))?;
    items.push(CodeItem::Instruction(Instr::Ecall))?;
    Ok(())
}

/// Appends the code that takes the lock whose number the given code leaves in x10. After the call, which is the mark, stands a
/// boundary that keeps these.
pub fn push_lock(
    alloc: Global,
    items: &mut Vec<CodeItem>,
    kept: &Kept,
    numbering: &[Instr],
) -> Result<(), OutOfMemory>
    requires keeping { keeping_of kept.now.log ≡ keeping_for kept.now.locks }
    requires thread { kept.now.thread < MOST_THREADS }
    requires live { IsTrue (list_all (may_keep kept.now.log) kept.now.live.now) }
    requires bytes { (bytes : ℕ) → kept.now.written.bytes ≡ Some bytes → bytes ≤ 8 }
    requires room { length (codes_of kept.now.locks) ≤ 16 }
    requires quiet { AllByRecursion IsQuiet (codes_of kept.now.locks) }
    requires some { 1 ≤ length numbering.now }
    requires quiet_number { IsQuiet numbering.now }
    ensures { OnOk result (Appends items.old.items items.new.items (IsLockOf kept.now numbering.now)) }
{
    let boundary = boundary_code(alloc, kept, 0)?;
    append_lock(items, numbering, &boundary)
}

/// Bytes from the end of an unlock's boundary to the instruction after its call.
fn giving_bytes(numbering: &[Instr]) -> u32
    requires { giving_bytes numbering.now ≤ 262144 }
    ensures { result ≡ giving_bytes numbering.now }
{
    4 * numbering.len() as u32 + 8
}

/// Appends the code that gives back the lock whose number the given code leaves in x10. Before the call stands a boundary that keeps
/// these, and resumes after the call; its first instruction is the mark. A boundary that leaves the thread with no lock is resumed
/// nowhere.
pub fn push_unlock(
    alloc: Global,
    items: &mut Vec<CodeItem>,
    kept: &Kept,
    numbering: &[Instr],
) -> Result<(), OutOfMemory>
    requires keeping { keeping_of kept.now.log ≡ keeping_for kept.now.locks }
    requires thread { kept.now.thread < MOST_THREADS }
    requires live { IsTrue (list_all (may_keep kept.now.log) kept.now.live.now) }
    requires bytes { (bytes : ℕ) → kept.now.written.bytes ≡ Some bytes → bytes ≤ 8 }
    requires room { length (codes_of kept.now.locks) ≤ 16 }
    requires quiet { AllByRecursion IsQuiet (codes_of kept.now.locks) }
    requires some { 1 ≤ length numbering.now }
    requires short { giving_bytes numbering.now ≤ 262144 }
    requires quiet_number { IsQuiet numbering.now }
    ensures { OnOk result (Appends items.old.items items.new.items (IsUnlockOf kept.now numbering.now)) }
{
    let bytes = giving_bytes(numbering);
    let boundary = boundary_code(alloc, kept, bytes)?;
    append_unlock(items, numbering, kept.locks.is_none(), &boundary)
}

/// Appends the code that ends the thread; its first instruction is the mark.
pub fn push_end(items: &mut Vec<CodeItem>) -> Result<(), OutOfMemory>
    ensures { OnOk result (Appends items.old.items items.new.items IsEnd) }
{
    append_end(items)
}
