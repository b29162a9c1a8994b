//! Sets of a thread's locals.
ghost use Rattle.std.specs.Prelude.{◌≡◌, ◌≢◌, ◌⊎◌, ◌↔◌, ◌+◌, ◌/◌, ◌<◌, ℕ, length, Contains, IfOk, IsTrue, MatchBool};
ghost use Rattle.std.specs.List.Sorted.{IsStrictlyIncreasing};
ghost use Rattle.flow_graph.specs.LocalSets.{Has};
ghost use Rattle.flow_graph.specs.links.SetCapacity.{room};

use ido_base::memory::OutOfMemory;
use std::alloc::Global;
use std::marker::Model;

/// Locals of a thread, by their numbers.
#[derive(Drop)]
pub struct LocalSet {
    /// Bit b of word w is set where local 64 w + b is in the set.
    words: Vec<u64>,
}

impl Model for LocalSet {
    ghost use Rattle.std.specs.Prelude.{ℕ, ◌≤◌, ◌^◌, List, length};

    ghost Value = { List ℕ };

    ghost view = { λ s. s.words.items };

    ghost invariant = { λ s. length s.words.items ≤ 2 ^ 26 };
}

/// The word of a local.
fn word_of(local: usize) -> usize
    ensures { result ≡ local / 64 }
{
    local / 64
}

impl LocalSet {
    /// No local, with room for those up to this one.
    pub fn none(alloc: Global, most: u32) -> Result<LocalSet, OutOfMemory>
        ensures none { IfOk result (λ s. (local : ℕ) → ¬ (Has s local)) }
        ensures long { IfOk result (λ s. length s ≡ most / 64 + 1) }
    {
        let words: Vec<u64> = vec![in alloc; 0; word_of(most as usize) + 1]?;
        Ok(LocalSet { words })
    }

    /// The local is in the set.
    pub fn contains(&self, local: usize) -> bool
        ensures { IsTrue result ↔ Has self.now local }
    {
        match self.words.get(word_of(local)) {
            Some(word) => *word >> (local % 64) & 1 == 1,
            None => false,
        }
    }

    /// Adds a local for which there is room.
    pub fn insert(&mut self, local: u32)
        requires { local / 64 < length self.old }
        ensures has { (other : ℕ) → Has self.new other ↔ (Has self.old other ⊎ (other ≡ local)) }
        ensures long { length self.new ≡ length self.old }
    {
        self.words[word_of(local as usize)] |= 1 << (local % 64);
    }

    /// Takes a local out, if it is in the set.
    pub fn remove(&mut self, local: u32)
        ensures has { (other : ℕ) → Has self.new other ↔ (Has self.old other × (other ≢ local)) }
        ensures long { length self.new ≡ length self.old }
    {
        if word_of(local as usize) < self.words.len() {
            self.words[word_of(local as usize)] &= !(1 << (local % 64));
        }
    }

    /// Takes all locals out.
    pub fn clear(&mut self)
        ensures none { (local : ℕ) → ¬ (Has self.new local) }
        ensures long { length self.new ≡ length self.old }
    {
        self.words.fill(0);
    }

    /// Adds all locals of a set with as much room. Whether any is new.
    pub fn add_all(&mut self, other: &LocalSet) -> bool
        requires { length other.now ≡ length self.old }
        ensures has { (local : ℕ) → Has self.new local ↔ (Has self.old local ⊎ Has other.now local) }
        ensures long { length self.new ≡ length self.old }
        ensures new { MatchBool result (room self.new < room self.old) (self.new ≡ self.old) }
    {
        let mut grows = false;
        for (i, added) in other.words.iter().enumerate() {
            let word = self.words[i];
            let joined = word | *added;
            if joined != word {
                self.words[i] = joined;
                grows = true;
            }
        }
        grows
    }

    /// The locals in the set, in ascending order.
    pub fn locals(&self, alloc: Global) -> Result<Vec<u32>, OutOfMemory>
        ensures ascending { IfOk result (λ v. IsStrictlyIncreasing v.items) }
        ensures each { IfOk result (λ v. (local : ℕ) → Contains v.items local ↔ Has self.now local) }
    {
        let mut locals = Vec::new(alloc);
        for number in 0..64 * self.words.len() {
            if self.contains(number) {
                locals.push(number as u32)?;
            }
        }
        Ok(locals)
    }
}
