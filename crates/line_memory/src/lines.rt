//! Lines among the cells of a memory.
ghost use Rattle.std.specs.Prelude.{◌≡◌, ℕ, ◌+◌, ◌*◌, ◌<◌, ◌≤◌, List, length, map};
ghost use Rattle.ido_base.specs.Words.{Word, Entry, word_at, entry_of, drained, persisted, evicted_from, after_crash};
ghost use Rattle.line_memory.specs.links.Cells.{CellsStand, Remembers, versions_in};
ghost use Rattle.line_memory.specs.ChangedWords.{IsListed, HasChanged};
ghost use Rattle.line_memory.specs.links.Queues.{RepresentsSnapshot};

use crate::cell::Cell;
use crate::changes::Changes;
use crate::queue::{Saved, Snapshot};

/// A line as it is now.
pub fn snapshot_of(cells: &[Cell], line: u32) -> Snapshot
    requires { 8 * line + 8 ≤ length cells.now }
    ensures { (words : List Word) (stores : ℕ) → CellsStand cells.now words stores
        → RepresentsSnapshot result (entry_of words line) words }
{
    let base = 8 * line as usize;
    let nothing = Saved {
        value: 0,
        version: 0,
    };
    let mut words = [nothing; 8];
    for k in 0..8 {
        words[k] = cells[base + k].newest();
    }
    Snapshot { line, words }
}

/// What is saved of the eight words from the base on is written back.
fn write_words_back(cells: &mut [Cell], base: usize, saved: &[Saved; 8])
    requires { base + 8 ≤ length cells.old }
    ensures { (words : List Word) (stores : ℕ) → CellsStand cells.old words stores
        → Remembers saved.now base words
        → CellsStand cells.new (persisted words base (versions_in saved.now)) stores }
{
    for k in 0..8 {
        cells[base + k].write_back(saved[k]);
    }
}

/// A snapshot is written back, word by word, where the durable version is older. One of a line that isn't
/// among the cells changes nothing.
pub fn write_back(cells: &mut [Cell], snapshot: &Snapshot)
    ensures { (words : List Word) (stores : ℕ) (entry : Entry) → CellsStand cells.old words stores
        → RepresentsSnapshot snapshot.now entry words
        → CellsStand cells.new (drained words entry) stores }
{
    let base = 8 * snapshot.line as usize;
    if base + 8 <= cells.len() {
        write_words_back(cells, base, &snapshot.words);
    }
}

/// Of the eight words from the base on, those that the mask chooses are written back.
pub fn evict_words(cells: &mut [Cell], base: usize, mask: u32)
    requires { base + 8 ≤ length cells.old }
    ensures { (words : List Word) (stores count : ℕ) → count ≡ 8
        → CellsStand cells.old words stores
        → CellsStand cells.new (evicted_from words base mask count) stores }
{
    for k in 0..8 {
        if (mask >> k) % 2 == 1 {
            cells[base + k].evict();
        }
    }
}

/// Every word keeps its durable value alone.
fn crash_all(cells: &mut [Cell])
    ensures { (words : List Word) (stores : ℕ) → CellsStand cells.old words stores
        → CellsStand cells.new (map after_crash words) 0 }
{
    for cell in cells.iter_mut() {
        *cell = cell.crashed();
    }
}

/// Each of the words of these numbers keeps its durable value alone, and all words that have changed are
/// among them.
fn crash_some(cells: &mut [Cell], numbers: &[u32])
    ensures { (words : List Word) (stores : ℕ) → CellsStand cells.old words stores
        → ((i : ℕ) → 1 < length (word_at words i).values → IsListed numbers.now i)
        → CellsStand cells.new (map after_crash words) 0 }
{
    for number in numbers {
        let at = *number as usize;
        if at < cells.len() {
            cells[at] = cells[at].crashed();
        }
    }
}

/// Every word keeps its durable value alone. Only those that may have changed are gone over.
pub fn crash(cells: &mut [Cell], changes: &Changes)
    ensures { (words : List Word) (stores : ℕ) → CellsStand cells.old words stores
        → ((i : ℕ) → 1 < length (word_at words i).values → HasChanged changes.now i)
        → CellsStand cells.new (map after_crash words) 0 }
{
    if changes.is_all() {
        crash_all(cells);
    } else {
        crash_some(cells, changes.numbers());
    }
}
