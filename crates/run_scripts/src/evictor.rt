//! The evictions of a seed.
ghost use Rattle.std.specs.Prelude.{◌<◌, ◌≤◌};
ghost use Rattle.ido_base.specs.declared.limits.TheConstants.{MOST_THREADS, VARIABLE_LINES};

use crate::draw::{drawn_line, drawn_mask};
use log_schemes::log::Log;
use machine_events::evictions::Evictions;
use rand_core::SeedableRng;
use rand_core::utils::NextWord;
use rand_xoshiro::SplitMix64;

/// The evictions of a seed, in a machine of so many threads, which log so, and so many lines of variables: each word of SplitMix64 draws one.
#[derive(Debug, PartialEq, Eq, Drop)]
pub struct Evictor {
    /// The word that draws the next one.
    word: u64,
    /// The words after it.
    words: SplitMix64,
    log: Log,
    threads: u32,
    lines: u32,
    ghost some: { 0 < threads },
    ghost few: { threads ≤ MOST_THREADS },
    ghost within: { lines ≤ VARIABLE_LINES },
}

impl Evictor {
    ghost use Rattle.std.specs.Prelude.{◌≡◌, ℕ};
    ghost use Rattle.run_scripts.specs.Draws.{drawn_evictions};
    ghost use Rattle.run_scripts.specs.Scripts.{IsEviction};
    ghost use Rattle.run_scripts.specs.links.Evictors.{evictions_of};

    /// The evictions of a seed, from the first on.
    pub fn new(seed: u64, log: Log, threads: u32, lines: u32) -> Self
        requires some { 0 < threads }
        requires threads { threads ≤ MOST_THREADS }
        requires lines { lines ≤ VARIABLE_LINES }
        ensures drawn { (n : ℕ) → evictions_of result n ≡ drawn_evictions seed log threads lines n }
        // each is one of a machine of so many threads
        ensures valid { (n : ℕ) → IsEviction log threads (evictions_of result n).0 (evictions_of result n).1 }
    {
        let mut words = SplitMix64::seed_from_u64(seed);
        let word = words.next_word();
        Evictor {
            word,
            words,
            log,
            threads,
            lines,
        }
    }
}

impl Evictions for Evictor {
    ghost use Rattle.run_scripts.specs.links.Evictors.{evictions_of};

    ghost coming = { evictions_of };

    fn now(&self) -> (u32, u32) {
        (
            drawn_line(self.word, self.log, self.threads, self.lines),
            drawn_mask(self.word),
        )
    }

    fn advance(&mut self) {
        self.word = self.words.next_word();
    }
}
