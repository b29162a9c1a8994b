//! Code words as a machine keeps them, and code with labels.
ghost use Rattle.std.specs.Prelude.{◌≡◌};
ghost use Rattle.rv64_isa.specs.Programs.{slot_of, slot_word};

use crate::field::Register;
use crate::instr::{Condition, Instr};
use crate::word::{decode, encode};

/// What a machine keeps of a code word: its instruction, or the word where it has none.
#[derive(Clone, Copy, Drop)]
pub enum Slot {
    Row(Instr),
    NoRow(u32),
}

impl Slot {
    /// What a machine keeps of this word.
    pub fn of_word(word: u32) -> Self
        ensures slot { result ≡ slot_of word }
        ensures word { slot_word result ≡ word }
    {
        match decode(word) {
            Some(instr) => Slot::Row(instr),
            None => Slot::NoRow(word),
        }
    }

    /// The word that this is kept of.
    pub fn word(self) -> u32
        ensures { result ≡ slot_word self }
    {
        match self {
            Slot::Row(instr) => encode(instr),
            Slot::NoRow(word) => word,
        }
    }
}

/// Addresses in the code of one thread.
#[derive(Drop)]
pub struct ThreadMarks {
    /// Of each node in its order, the instruction that begins its step when it is executed.
    pub nodes: Vec<u64>,
    /// Where recovery may resume, ascending.
    pub resumes: Vec<u64>,
}

/// Addresses in the code of each thread.
#[derive(Drop)]
pub struct Marks {
    pub threads: Vec<ThreadMarks>,
}

/// A place in the code of one thread, before it has an address.
#[derive(Clone, Copy, Debug, PartialEq, Eq, Drop)]
pub struct Label(pub u32);

/// A part of a thread's code, before it is linked.
#[derive(Clone, Copy, Drop)]
pub enum CodeItem {
    /// An instruction that stands as it is.
    Instruction(Instr),
    /// A branch to a label, near or far.
    BranchTo {
        condition: Condition,
        rs1: Register,
        rs2: Register,
        to: Label,
    },
    /// A jump to a label, near or far; `rd` gets the address after it.
    JumpTo {
        rd: Register,
        to: Label,
    },
    /// The label stands before the next instruction.
    Here(Label),
    /// The next instruction is the mark of the next node.
    MarkNext,
    /// Recovery may resume at the next instruction.
    ResumeNext,
}
