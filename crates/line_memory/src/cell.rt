//! What is kept of a word.
use crate::queue::Saved;

/// The newest value of a word and its durable one, with their version numbers: version n is the n-th value
/// since the start or the last crash.
#[derive(Clone, Copy, PartialEq, Eq, Drop)]
pub struct Cell {
    pub live: u64,
    pub version: u64,
    pub durable: u64,
    pub durable_version: u64,
}

impl Cell {
    ghost use Rattle.std.specs.Prelude.{◌≡◌, ℕ, ◌+◌, ◌^◌, ◌<◌, length, slice_index};
    ghost use Rattle.ido_base.specs.Words.{Word, with_value, written_back, after_crash, last_position};
    ghost use Rattle.line_memory.specs.links.Cells.{cell_of, newest_of, RepresentsCell};

    /// A word that has this value, durably.
    pub fn of(value: u64) -> Cell
        ensures { result ≡ cell_of value }
    {
        Cell {
            live: value,
            version: 0,
            durable: value,
            durable_version: 0,
        }
    }

    /// Stores a whole word. Versions count the stores, so none wraps.
    pub fn store(&mut self, value: u64)
        ensures { (word : Word) (stores : ℕ) → stores < 2 ^ 63 → RepresentsCell self.old word stores
            → RepresentsCell self.new (with_value word value) (stores + 1) }
    {
        self.live = value;
        self.version = self.version.wrapping_add(1);
    }

    /// Writes an earlier value back: it becomes durable where the durable version is older.
    pub fn write_back(&mut self, saved: Saved)
        ensures { (word : Word) (stores : ℕ) → RepresentsCell self.old word stores
            → saved.version < length word.values → saved.value ≡ slice_index word.values saved.version
            → RepresentsCell self.new (written_back word saved.version) stores }
    {
        if self.durable_version < saved.version {
            self.durable = saved.value;
            self.durable_version = saved.version;
        }
    }

    /// The cell's newest value.
    pub fn newest(&self) -> Saved
        ensures { result ≡ newest_of self.now }
    {
        Saved {
            value: self.live,
            version: self.version,
        }
    }

    /// Writes its newest value back.
    pub fn evict(&mut self)
        ensures { (word : Word) (stores : ℕ) → RepresentsCell self.old word stores
            → RepresentsCell self.new (written_back word (last_position word)) stores }
    {
        let newest = self.newest();
        self.write_back(newest);
    }

    /// The cell after a crash.
    pub fn crashed(self) -> Cell
        ensures { result ≡ cell_of self.durable }
    {
        Cell::of(self.durable)
    }
}
