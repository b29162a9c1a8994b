//! The cells of a new memory.
ghost use Rattle.std.specs.Prelude.{◌≡◌, ◌+◌, ◌*◌, ◌^◌, ◌<◌, ◌≤◌, ◌++◌, length, map, take, drop, replicate, vec_len, OnOk};
ghost use Rattle.std.specs.Int.{w64, from_le_bytes};
ghost use Rattle.ido_base.specs.Layout.{words_of_bytes};
ghost use Rattle.line_memory.specs.links.Cells.{cell_of};

use crate::cell::Cell;
use ido_base::memory::OutOfMemory;

/// The eight bytes from the given one on as a little-endian word, with zeros after the last byte.
fn word_from(bytes: &[u8], at: usize) -> u64
    requires { at < 2 ^ 32 }
    ensures { result ≡ from_le_bytes w64 (take 8 (drop at bytes.now)) }
{
    let mut word = [0; 8];
    for k in 0..8 {
        if at + k < bytes.len() {
            word[k] = bytes[at + k];
        }
    }
    u64::from_le_bytes(word)
}

/// Adds the first `count` words of the bytes, with zeros after the last byte.
pub fn push_bytes(cells: &mut Vec<Cell>, bytes: &[u8], count: usize) -> Result<(), OutOfMemory>
    requires { count < 2 ^ 16 }
    ensures items { OnOk result (cells.new.items ≡ cells.old.items ++ map cell_of (words_of_bytes bytes.now count)) }
    ensures len { OnOk result (vec_len cells.new ≡ vec_len cells.old + count) }
{
    for i in 0..count {
        cells.push(Cell::of(word_from(bytes, 8 * i)))?;
    }
    Ok(())
}

/// Adds cells that have these words.
pub fn push_words(cells: &mut Vec<Cell>, words: &[u64]) -> Result<(), OutOfMemory>
    ensures items { OnOk result (cells.new.items ≡ cells.old.items ++ map cell_of words.now) }
    ensures len { OnOk result (vec_len cells.new ≡ vec_len cells.old + length words.now) }
{
    for word in words {
        cells.push(Cell::of(*word))?;
    }
    Ok(())
}

/// Adds `count` cells of 0.
pub fn push_zeros(cells: &mut Vec<Cell>, count: usize) -> Result<(), OutOfMemory>
    requires { vec_len cells.old + count < 2 ^ 32 }
    ensures items { OnOk result (cells.new.items ≡ cells.old.items ++ map cell_of (replicate count 0)) }
    ensures len { OnOk result (vec_len cells.new ≡ vec_len cells.old + count) }
{
    cells.resize(cells.len() + count, Cell::of(0))?;
    Ok(())
}
