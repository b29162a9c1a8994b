//! Boundaries.
ghost use Rattle.std.specs.Prelude.{ℕ, Some, ◌≡◌, ◌<◌, ◌≤◌, ◌++◌, IsTrue, IfOk, OnOk, pos, length};
ghost use Rattle.std.specs.List.{list_all, AllByRecursion};
ghost use Rattle.ido_base.specs.declared.limits.TheConstants.{MOST_THREADS};
ghost use Rattle.log_schemes.specs.Schemes.{keeping_of, may_keep};
ghost use Rattle.node_code.specs.BoundaryCode.{IsQuiet};
ghost use Rattle.node_code.specs.declared.kept.KeptLocks.TheVariants.{Mask, Numbers};
ghost use Rattle.node_code.specs.Pieces.{Appends, IsBoundaryOf, codes_of, keeping_for};
ghost use Rattle.node_code.specs.links.ItemLists.{boundary_items};
ghost use Rattle.node_code.specs.links.BoundaryCode.{IsCodeFor};

use crate::items::push_plain;
use crate::kept::{Kept, KeptLocks};
use boundary_code::{boundary, boundary_list};
use ido_base::memory::OutOfMemory;
use rv64_isa::instr::Instr;
use rv64_isa::object::CodeItem;
use std::alloc::Global;

/// So many bytes, as a distance.
fn distance(bytes: u32) -> i32
    requires { bytes ≤ 262144 }
    ensures { result ≡ pos bytes }
{
    bytes as i32
}

/// The code of a boundary that keeps the locks of a mask.
fn mask_code(alloc: Global, kept: &Kept, mask: u64, resume: u32) -> Result<Vec<Instr>, OutOfMemory>
    requires locks { kept.now.locks ≡ Mask mask }
    requires keeping { keeping_of kept.now.log ≡ keeping_for kept.now.locks }
    requires thread { kept.now.thread < MOST_THREADS }
    requires live { IsTrue (list_all (may_keep kept.now.log) kept.now.live.now) }
    requires bytes { (bytes : ℕ) → kept.now.written.bytes ≡ Some bytes → bytes ≤ 8 }
    requires near { resume ≤ 262144 }
    ensures { IfOk result (λ code. IsCodeFor kept.now resume code.items) }
{
    let code = boundary(
        alloc,
        kept.log,
        kept.thread,
        mask,
        kept.live,
        kept.written,
        distance(resume),
    )?;
    Ok(code)
}

/// The code of a boundary that keeps the locks whose numbers these codes leave.
fn list_code(
    alloc: Global,
    kept: &Kept,
    numbers: &[Vec<Instr>],
    resume: u32,
) -> Result<Vec<Instr>, OutOfMemory>
    requires locks { kept.now.locks ≡ Numbers numbers }
    requires keeping { keeping_of kept.now.log ≡ keeping_for kept.now.locks }
    requires thread { kept.now.thread < MOST_THREADS }
    requires live { IsTrue (list_all (may_keep kept.now.log) kept.now.live.now) }
    requires bytes { (bytes : ℕ) → kept.now.written.bytes ≡ Some bytes → bytes ≤ 8 }
    requires room { length (codes_of kept.now.locks) ≤ 16 }
    requires quiet { AllByRecursion IsQuiet (codes_of kept.now.locks) }
    requires near { resume ≤ 262144 }
    ensures { IfOk result (λ code. IsCodeFor kept.now resume code.items) }
{
    let code = boundary_list(
        alloc,
        kept.log,
        kept.thread,
        numbers,
        kept.live,
        kept.written,
        distance(resume),
    )?;
    Ok(code)
}

/// The code of a boundary that resumes so many bytes after its end.
pub(crate) fn boundary_code(
    alloc: Global,
    kept: &Kept,
    resume: u32,
) -> Result<Vec<Instr>, OutOfMemory>
    requires keeping { keeping_of kept.now.log ≡ keeping_for kept.now.locks }
    requires thread { kept.now.thread < MOST_THREADS }
    requires live { IsTrue (list_all (may_keep kept.now.log) kept.now.live.now) }
    requires bytes { (bytes : ℕ) → kept.now.written.bytes ≡ Some bytes → bytes ≤ 8 }
    requires room { length (codes_of kept.now.locks) ≤ 16 }
    requires quiet { AllByRecursion IsQuiet (codes_of kept.now.locks) }
    requires near { resume ≤ 262144 }
    ensures { IfOk result (λ code. IsCodeFor kept.now resume code.items) }
{
    match kept.locks {
        KeptLocks::Mask(mask) => mask_code(alloc, kept, mask, resume),
        KeptLocks::Numbers(numbers) => list_code(alloc, kept, numbers, resume),
    }
}

/// Appends a boundary's code, after which recovery may resume.
pub(crate) fn append_boundary(items: &mut Vec<CodeItem>, code: &[Instr]) -> Result<(), OutOfMemory>
    ensures { OnOk result (items.new.items ≡ items.old.items ++ boundary_items code.now) }
{
    push_plain(items, code)?;
    items.push(CodeItem::ResumeNext)?;
    Ok(())
}

/// Appends a boundary that keeps these, after which the thread may be resumed.
pub fn push_boundary(
    alloc: Global,
    items: &mut Vec<CodeItem>,
    kept: &Kept,
) -> Result<(), OutOfMemory>
    requires keeping { keeping_of kept.now.log ≡ keeping_for kept.now.locks }
    requires thread { kept.now.thread < MOST_THREADS }
    requires live { IsTrue (list_all (may_keep kept.now.log) kept.now.live.now) }
    requires bytes { (bytes : ℕ) → kept.now.written.bytes ≡ Some bytes → bytes ≤ 8 }
    requires room { length (codes_of kept.now.locks) ≤ 16 }
    requires quiet { AllByRecursion IsQuiet (codes_of kept.now.locks) }
    ensures { OnOk result (Appends items.old.items items.new.items (IsBoundaryOf kept.now)) }
{
    let code = boundary_code(alloc, kept, 0)?;
    append_boundary(items, &code)
}
