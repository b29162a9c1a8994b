//! The code words of threads, decoded once, with their signs: which of them are marks, which are fences, and which store.
ghost use Rattle.std.specs.Prelude.{◌≡◌, ◌-◌, ◌/◌, ◌<◌, ◌≤◌, ◌^◌, ◌||◌, ℕ, None, Some, length, map, IfOk, IfSome, IfNone};
ghost use Rattle.rv64_isa.specs.Programs.{slot_of};
ghost use Rattle.machine_model.specs.Objects.{program_of};
ghost use Rattle.hart_core.specs.LocalSteps.{local_step};
ghost use Rattle.hart_core.specs.Objects.{IsWithinLimits};
ghost use Rattle.ido_machine.specs.links.SignTables.{is_fence_slot, is_plain, is_store_slot, is_word_at};
ghost use Rattle.ido_machine.specs.links.LocalRuns.{GoesBy, HasRun, state_in};
ghost use Rattle.ido_machine.specs.links.SignTables.{plain_entry, placed_in, sign_in, slot_at, slot_in, sign_at, sign_of, entry_at, IsTableOf, AreTables};

use hart_core::hart::Hart;
use hart_core::local::{self, LocalState, LocalWrite, local_write};
use hart_core::program::Program;
use ido_base::memory::OutOfMemory;
use machine_model::object::Object;
use rv64_isa::instr::Instr;
use rv64_isa::object::{Marks, Slot};
use std::alloc::Global;

/// What is told of a code word.
#[derive(Clone, Copy, Drop)]
pub struct Sign {
    /// The code word is a mark.
    pub mark: bool,
    /// The code word is a fence.
    pub fence: bool,
    /// The code word stores.
    pub store: bool,
    /// It is none of these: there is nothing to account for. This alone is looked at after most steps.
    pub plain: bool,
}

/// What is told of no code word.
const NO_SIGN: Sign = Sign {
    mark: false,
    fence: false,
    store: false,
    plain: true,
};

/// A code word, decoded, and what is told of it: all that a step of its hart looks up.
#[derive(Clone, Copy, Drop)]
pub struct Entry {
    pub slot: Slot,
    pub sign: Sign,
}

/// The local instruction that a hart executes next: what it writes, and whether it is a mark.
#[derive(Clone, Copy, Drop)]
pub struct NextLocal {
    pub write: LocalWrite,
    pub mark: bool,
}

/// How many local instructions a hart has executed one after another, and how many of them were marks.
#[derive(Clone, Copy, Drop)]
pub struct Ran {
    pub made: u32,
    pub passed: u32,
}

/// A thread's code words.
#[derive(Drop)]
pub struct SignTable {
    /// The address of the first one.
    pub start: u64,
    pub entries: Vec<Entry>,
}

/// What is told of a code word, where there is one.
#[inline(always)]
pub fn sign_of(entry: &Option<Entry>) -> Sign
    ensures { result ≡ sign_of entry.now }
{
    match entry {
        Some(entry) => entry.sign,
        None => NO_SIGN,
    }
}

/// What a code word is decoded to, where there is one.
#[inline(always)]
pub fn slot_at(entry: &Option<Entry>) -> Option<Slot>
    ensures { result ≡ slot_at entry.now }
{
    match entry {
        Some(entry) => Some(entry.slot),
        None => None,
    }
}

/// What stands there is a fence.
fn is_fence(slot: &Slot) -> bool
    ensures { result ≡ is_fence_slot slot.now }
{
    matches!(slot, Slot::Row(Instr::Fence))
}

/// What stands there stores.
fn is_store(slot: &Slot) -> bool
    ensures { result ≡ is_store_slot slot.now }
{
    matches!(slot, Slot::Row(Instr::Store { .. }))
}

/// A word that isn't a mark.
fn plain_entry(word: u32) -> Entry
    ensures { result ≡ plain_entry word }
{
    let slot = Slot::of_word(word);
    let fence = is_fence(&slot);
    let store = is_store(&slot);
    let sign = Sign {
        mark: false,
        fence,
        store,
        plain: !(fence || store),
    };
    Entry { slot, sign }
}

/// Words of which none is a mark.
fn plain_entries(alloc: Global, words: &[u32]) -> Result<Vec<Entry>, OutOfMemory>
    ensures { IfOk result (λ entries. entries.items ≡ map plain_entry words.now) }
{
    let entries: Vec<Entry> = words.iter().map(|word| plain_entry(*word)).collect(alloc)?;
    Ok(entries)
}

/// Makes the word of this address a mark, where it is one.
fn mark_word(entries: &mut [Entry], start: u64, address: u64)
    ensures size { length entries.new ≡ length entries.old }
    ensures slots { (k : ℕ) → slot_in entries.new k ≡ slot_in entries.old k }
    ensures marks { (k : ℕ) → k < length entries.old → (sign_in entries.new k).mark ≡ ((sign_in entries.old k).mark || is_word_at start k address) }
    ensures fences { (k : ℕ) → (sign_in entries.new k).fence ≡ (sign_in entries.old k).fence }
    ensures stores { (k : ℕ) → (sign_in entries.new k).store ≡ (sign_in entries.old k).store }
    ensures plains { ((k : ℕ) → (sign_in entries.old k).plain ≡ is_plain (sign_in entries.old k)) → (k : ℕ)
        → (sign_in entries.new k).plain ≡ is_plain (sign_in entries.new k) }
{
    if address < start || address % 4 != 0 {
        return;
    }
    let word = (address - start) / 4;
    if word < entries.len() as u64 {
        entries[word as usize].sign.mark = true;
        entries[word as usize].sign.plain = false;
    }
}

impl SignTable {
    /// The table of these code words, of which those at these addresses are marks.
    fn of(
        alloc: Global,
        start: u64,
        words: &[u32],
        addresses: &[u64],
    ) -> Result<SignTable, OutOfMemory>
        ensures { IfOk result (λ table. IsTableOf table start (map slot_of words.now) addresses.now) }
    {
        let mut entries = plain_entries(alloc, words)?;
        for address in addresses {
            mark_word(&mut entries, start, *address);
        }
        Ok(SignTable { start, entries })
    }

    /// Another table of the same code words.
    pub fn copy(&self, alloc: Global) -> Result<SignTable, OutOfMemory>
        ensures { IfOk result (λ table. (table.start ≡ self.now.start) × (table.entries.items ≡ self.now.entries.items)) }
    {
        Ok(SignTable {
            start: self.start,
            entries: self.entries.to_vec(alloc)?,
        })
    }

    /// What stands at a pc; none where it has no word.
    #[inline(always)]
    pub fn entry_at(&self, pc: u64) -> Option<Entry>
        ensures { result ≡ entry_at self.now pc }
    {
        if pc < self.start || pc % 4 != 0 {
            return None;
        }
        self.entries.get(((pc - self.start) / 4) as usize).copied()
    }

    /// What a hart with this code executes next, where that is local.
    #[inline(always)]
    fn next_local(&self, hart: &Hart) -> Option<NextLocal>
        ensures some { IfSome result (λ next. GoesBy self.now hart.now next) }
        ensures none { IfNone result (local_step (placed_in self.now) (state_in hart.now) ≡ None) }
    {
        match self.entry_at(hart.pc) {
            None => None,
            Some(Entry { slot, sign }) => match slot {
                Slot::NoRow(_) => None,
                Slot::Row(instr) => match local_write(instr, hart) {
                    None => None,
                    Some(write) => Some(NextLocal {
                        write,
                        mark: sign.mark,
                    }),
                },
            },
        }
    }

    /// Executes instructions of a hart with this code as long as they are local, at most so many.
    #[inline(always)]
    pub fn run(&self, hart: &mut Hart, most: u32) -> Ran
        ensures ran { HasRun self.now hart.old hart.new result }
        ensures most { result.made ≤ most }
    {
        let mut passed = 0;
        for made in 0..most {
            match self.next_local(hart) {
                None => return Ran { made, passed },
                Some(next) => {
                    hart.step_locally(next.write);
                    passed += u32::from(next.mark);
                }
            }
        }
        Ran { made: most, passed }
    }

    /// Executes the instruction that stands at the pc, where it is local: its sign; none where it isn't, and nothing changes.
    #[inline(always)]
    pub fn step(&self, state: &mut LocalState) -> Option<Sign>
        ensures some { IfSome result (λ sign. (sign ≡ sign_at self.now state.old.pc) × (local_step (placed_in self.now) state.old ≡ Some state.new)) }
        ensures none { IfNone result ((local_step (placed_in self.now) state.old ≡ None) × (state.new ≡ state.old)) }
    {
        match self.entry_at(state.pc) {
            None => None,
            Some(Entry { slot, sign }) => match slot {
                Slot::NoRow(_) => None,
                Slot::Row(instr) => {
                    if local::step(instr, state) {
                        Some(sign)
                    } else {
                        None
                    }
                }
            },
        }
    }
}

/// The tables of an object's threads.
pub fn tables_of(
    alloc: Global,
    object: &Object,
    program: &Program,
    marks: &Marks,
) -> Result<Vec<SignTable>, OutOfMemory>
    requires limits { IsWithinLimits object.now }
    requires program { program.now ≡ program_of object.now }
    requires threads { length marks.now.threads.items ≡ length object.now.code.items }
    ensures { IfOk result (λ tables. AreTables tables.items (program_of object.now) (map (λ t. t.nodes.items) marks.now.threads.items)) }
{
    let mut tables = Vec::with_capacity(alloc, object.code.len())?;
    for thread in 0..object.code.len() {
        let start = program.start_of(thread as u32);
        let words = &object.code[thread];
        let nodes = &marks.threads[thread].nodes;
        tables.push(SignTable::of(alloc, start, words, nodes)?)?;
    }
    Ok(tables)
}
