//! The words of one item.
ghost use Rattle.std.specs.Prelude.{◌≡◌, ◌≤◌, ◌++◌, ◌∷◌, [], List, OnOk, map, true, false};
ghost use Rattle.rv64_isa.specs.Programs.{slot_of};
ghost use Rattle.rv64_isa.specs.declared.object.CodeItem.{CodeItem as Item};
ghost use Rattle.rv64_isa.specs.declared.object.Slot.TheVariants.{Row};
ghost use Rattle.rv64_link.specs.LabelledCode.{most_words_of};
ghost use Rattle.rv64_link.specs.links.Layout.{branch_slots, inverse, is_near, number_at, offset, size, slots_of};
ghost use Rattle.rv64_link.specs.links.LabelRepresentation.{LabelsStand};

use crate::labels::Labels;
use ido_base::memory::OutOfMemory;
use rv64_isa::field::{BranchOffset, JumpOffset, Register};
use rv64_isa::instr::{Condition, Instr};
use rv64_isa::object::CodeItem;
use rv64_isa::word::encode;

/// Items that a near branch passes at most. An item is at most two words, and a branch reaches 1,023.
const NEAR: usize = 511;

/// Added to the number of a word, so that a lesser one can be told from it.
const TURN: u64 = 1 << 30;

/// A branch from a position to another is one word.
fn is_near(from: usize, to: usize) -> bool
    ensures { result ≡ is_near from to }
{
    to.saturating_sub(from) <= NEAR && from.saturating_sub(to) <= NEAR
}

/// The condition that holds where this one doesn't.
fn inverse(condition: Condition) -> Condition
    ensures { result ≡ inverse condition }
{
    match condition {
        Condition::Beq => Condition::Bne,
        Condition::Bne => Condition::Beq,
        Condition::Blt => Condition::Bge,
        Condition::Bge => Condition::Blt,
        Condition::Bltu => Condition::Bgeu,
        Condition::Bgeu => Condition::Bltu,
    }
}

/// The offset of a branch between words.
fn branch_offset(from: u32, to: u32) -> BranchOffset
    ensures { result ≡ offset 13 from to }
{
    let bits = 4 * (u64::from(to) + TURN).saturating_sub(u64::from(from)) % (1 << 13);
    match BranchOffset::new(bits as u16) {
        Some(offset) => offset,
        None => unreachable!(),
    }
}

/// The offset of a jump between words.
fn jump_offset(from: u64, to: u32) -> JumpOffset
    ensures { result ≡ offset 21 from to }
{
    let bits = 4 * (u64::from(to) + TURN).saturating_sub(from) % (1 << 21);
    match JumpOffset::new(bits as u32) {
        Some(offset) => offset,
        None => unreachable!(),
    }
}

/// The number of the first word of an item.
pub fn number_at(numbers: &[u32], position: usize) -> u32
    ensures { result ≡ number_at numbers.now position }
{
    match numbers.get(position) {
        Some(number) => *number,
        None => 0,
    }
}

/// How many words an item is.
pub fn size(labels: &Labels, position: usize, item: CodeItem) -> u32
    ensures size { (all : List Item) → LabelsStand labels.now all → result ≡ size all position item }
    ensures few { result ≤ most_words_of item }
{
    match item {
        CodeItem::Instruction(_) | CodeItem::JumpTo { .. } => 1,
        CodeItem::BranchTo { to, .. } => {
            if is_near(position, labels.position(to)) {
                1
            } else {
                2
            }
        }
        CodeItem::Here(_) | CodeItem::MarkNext | CodeItem::ResumeNext => 0,
    }
}

/// Adds the word of an instruction.
#[tactic(auto, using(crate::proofs::Words::one_more))]
fn push(words: &mut Vec<u32>, instr: Instr) -> Result<(), OutOfMemory>
    ensures { OnOk result (map slot_of words.new.items ≡ map slot_of words.old.items ++ Row instr ∷ []) }
{
    words.push(encode(instr))?;
    Ok(())
}

/// A branch between words.
#[derive(Clone, Copy, Drop)]
struct BranchBetween {
    condition: Condition,
    rs1: Register,
    rs2: Register,
    from: u32,
    to: u32,
}

/// Adds a near branch.
fn push_near(words: &mut Vec<u32>, b: BranchBetween) -> Result<(), OutOfMemory>
    ensures { OnOk result (map slot_of words.new.items ≡ map slot_of words.old.items ++ branch_slots b.condition b.rs1 b.rs2 true b.from b.to) }
{
    let instr = Instr::Branch {
        condition: b.condition,
        rs1: b.rs1,
        rs2: b.rs2,
        offset: branch_offset(b.from, b.to),
    };
    push(words, instr)
}

/// Adds a far branch: one over a jump, by the inverse condition.
fn push_far(words: &mut Vec<u32>, b: BranchBetween) -> Result<(), OutOfMemory>
    ensures { OnOk result (map slot_of words.new.items ≡ map slot_of words.old.items ++ branch_slots b.condition b.rs1 b.rs2 false b.from b.to) }
{
    let over = Instr::Branch {
        condition: inverse(b.condition),
        rs1: b.rs1,
        rs2: b.rs2,
        offset: over_jump(),
    };
    let away = Instr::Jal {
        rd: zero(),
        offset: jump_offset(u64::from(b.from) + 1, b.to),
    };
    push(words, over)?;
    push(words, away)
}

/// The register that is always 0.
fn zero() -> Register
    ensures { result ≡ 0 }
{
    match Register::new(0) {
        Some(register) => register,
        None => unreachable!(),
    }
}

/// The offset of a branch over one word.
fn over_jump() -> BranchOffset
    ensures { result ≡ 8 }
{
    match BranchOffset::new(8) {
        Some(offset) => offset,
        None => unreachable!(),
    }
}

/// Adds the words of an item.
pub fn push_item(
    words: &mut Vec<u32>,
    labels: &Labels,
    numbers: &[u32],
    position: usize,
    item: CodeItem,
) -> Result<(), OutOfMemory>
    ensures { OnOk result ((all : List Item) → LabelsStand labels.now all →
        map slot_of words.new.items ≡ map slot_of words.old.items ++ slots_of all numbers.now position item) }
{
    let from = number_at(numbers, position);
    match item {
        CodeItem::Instruction(instr) => push(words, instr),
        CodeItem::BranchTo {
            condition,
            rs1,
            rs2,
            to,
        } => {
            let there = labels.position(to);
            let to = number_at(numbers, there);
            let branch = BranchBetween {
                condition,
                rs1,
                rs2,
                from,
                to,
            };
            if is_near(position, there) {
                push_near(words, branch)
            } else {
                push_far(words, branch)
            }
        }
        CodeItem::JumpTo { rd, to } => {
            let to = number_at(numbers, labels.position(to));
            let offset = jump_offset(u64::from(from), to);
            push(words, Instr::Jal { rd, offset })
        }
        CodeItem::Here(_) | CodeItem::MarkNext | CodeItem::ResumeNext => Ok(()),
    }
}
