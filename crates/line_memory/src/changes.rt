//! Which words have changed since the last crash.
ghost use Rattle.std.specs.Prelude.{◌≡◌};

use ido_base::memory::OutOfMemory;
use std::alloc::Global;

/// How many numbers of words are kept. Where more words change, a crash goes over all of them.
const ROOM: usize = 1024;

/// The numbers of the words that were stored to, in room that is made once. Where that is full, every word
/// counts as stored to.
#[derive(Drop)]
pub struct Changes {
    numbers: Vec<u32>,
    is_all: bool,
}

impl Changes {
    ghost use Rattle.std.specs.Prelude.{◌≡◌, ℕ, List, [], true, false};
    ghost use Rattle.line_memory.specs.ChangedWords.{HasChanged};

    /// No word has changed.
    pub fn new(alloc: Global) -> Result<Changes, OutOfMemory> {
        Ok(Changes {
            numbers: Vec::with_capacity(alloc, ROOM)?,
            is_all: false,
        })
    }

    /// The word of this number is stored to, here for the first time or not.
    pub fn add_if(&mut self, is_first: bool, number: u32)
        ensures added { is_first ≡ true → HasChanged self.new number }
        ensures kept { (i : ℕ) → HasChanged self.old i → HasChanged self.new i }
    {
        if is_first && (self.numbers.len() >= ROOM || self.numbers.push(number).is_err()) {
            self.is_all = true;
        }
    }

    /// Every word counts as changed.
    pub fn is_all(&self) -> bool
        ensures { result ≡ self.now.is_all }
    {
        self.is_all
    }

    /// The numbers of the words that have changed, unless every word counts.
    pub fn numbers(&self) -> &[u32]
        ensures { result.now ≡ self.now.numbers.items }
    {
        &self.numbers
    }

    /// No word has changed.
    pub fn clear(&mut self) {
        self.numbers.clear();
        self.is_all = false;
    }
}
