//! When the crashes of a run come.
ghost use Rattle.std.specs.Prelude.{◌≡◌, ℕ, List};

use std::marker::Model;

/// The crash words of a run, which say when each of its crashes comes: of `seeded` after how many draws, of `live` after how many
/// events of a leg at the latest.
#[derive(Drop)]
pub struct Crashes {
    words: Vec<u64>,
}

impl Model for Crashes {
    ghost Value = { List ℕ };

    ghost view = { λ c. c.words.items };
}

impl Crashes {
    /// Those of these words.
    pub fn new(words: Vec<u64>) -> Self
        ensures { result ≡ words.items }
    {
        Crashes { words }
    }

    /// The words, as numbers.
    pub fn words(&self) -> &[u64]
        ensures { result.now ≡ self.now }
    {
        &self.words
    }
}
