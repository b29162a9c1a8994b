//! Code as a machine runs it: decoded once.
ghost use Rattle.std.specs.Prelude.{◌≡◌, ℕ, ◌+◌, ◌*◌, ◌<◌, ◌≤◌, List, map, length, IfOk, sum_by};
ghost use Rattle.ido_base.specs.declared.limits.TheConstants.{MOST_THREADS};
ghost use Rattle.rv64_isa.specs.Programs.{slot_of, code_start, fetched};
ghost use Rattle.machine_model.specs.Objects.{program_of};
ghost use Rattle.hart_core.specs.Objects.{IsWithinLimits};
ghost use Rattle.hart_core.specs.links.Starts.{AreStarts};

use ido_base::limits::CODE_BASE;
use ido_base::memory::OutOfMemory;
use machine_model::object::Object;
use rv64_isa::object::Slot;
use std::alloc::Global;
use std::marker::Model;

/// What a machine runs: each thread's instructions, and the words that are none.
#[derive(Drop)]
pub struct Program {
    code: Vec<Vec<Slot>>,
    starts: Vec<u64>,
}

impl Model for Program {
    ghost use Rattle.ido_base.specs.declared.limits.TheConstants.{MOST_THREADS};
    ghost use Rattle.std.specs.Prelude.{List, map, length, ◌≤◌};
    ghost use Rattle.rv64_isa.specs.declared.object.Slot.{Slot};
    ghost use Rattle.hart_core.specs.links.Starts.{AreStarts};

    ghost Value = { List (List Slot) };

    ghost view = { λ p. map (λ c. c.items) p.code.items };

    ghost invariant = { λ p. AreStarts p.starts.items (map (λ c. c.items) p.code.items) × (length p.code.items ≤ MOST_THREADS) };
}

/// What a machine keeps of code words.
fn slots_of(alloc: Global, words: &[u32]) -> Result<Vec<Slot>, OutOfMemory>
    ensures { IfOk result (λ slots. slots.items ≡ map slot_of words.now) }
{
    let slots: Vec<Slot> = words
        .iter()
        .map(|word| Slot::of_word(*word))
        .collect(alloc)?;
    Ok(slots)
}

impl Program {
    /// The code of an object.
    pub fn of(alloc: Global, object: &Object) -> Result<Program, OutOfMemory>
        requires { IsWithinLimits object.now }
        ensures { IfOk result (λ program. program ≡ program_of object.now) }
    {
        let mut code = Vec::with_capacity(alloc, object.code.len())?;
        let mut starts = Vec::with_capacity(alloc, object.code.len())?;
        let mut start = CODE_BASE;
        for words in &object.code {
            code.push(slots_of(alloc, words)?)?;
            starts.push(start)?;
            start += 4 * words.len() as u64;
        }
        Ok(Program { code, starts })
    }

    /// The number of threads.
    pub fn threads(&self) -> u32
        ensures count { result ≡ length self.now }
        ensures few { result ≤ MOST_THREADS }
    {
        self.code.len() as u32
    }

    /// The address of a thread's first word.
    pub fn start_of(&self, thread: u32) -> u64
        requires { thread < length self.now }
        ensures { result ≡ code_start self.now thread }
    {
        self.starts[thread as usize]
    }

    /// What stands at a pc in a thread's own code; none where that has no word there, or there is no such
    /// thread.
    #[inline(always)]
    pub fn fetch(&self, thread: u32, pc: u64) -> Option<Slot>
        ensures { result ≡ fetched self.now thread pc }
    {
        if thread as usize >= self.code.len() {
            return None;
        }
        let start = self.starts[thread as usize];
        if pc < start || pc % 4 != 0 {
            return None;
        }
        self.code[thread as usize]
            .get(((pc - start) / 4) as usize)
            .copied()
    }
}
