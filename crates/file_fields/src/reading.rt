//! Fields read. Each reader answers what it has read and the bytes after it; `total` is how many bytes there are in all.
ghost use Rattle.std.specs.Prelude.{◌≡◌, ◌∷◌, ◌++◌, [], ◌-◌, ℕ, List, length, map, OnOk};
ghost use Rattle.file_fields.specs.Fields.{bytes_at, number_at, number_within, word_at, magic_at, version_at, Reads, repeated};
ghost use Rattle.file_fields.specs.links.ReaderResults.{ViewsFault, Gives};

use crate::error::ReadError;
use ido_base::memory::OutOfMemory;
use ido_base::place::Place;
use std::alloc::Global;

/// Where the rest of so many bytes begins.
pub fn place_of(total: u32, rest: &[u8]) -> Place
    ensures { result.0 ≡ total - length rest.now }
{
    Place(u64::from(total).saturating_sub(rest.len() as u64) as u32)
}

/// The first `count` bytes, and those after them.
pub fn bytes_at(total: u32, count: usize, bytes: &[u8]) -> Result<(&[u8], &[u8]), ReadError>
    ensures { ViewsFault (λ x. (x.0.now, x.1.now)) result (bytes_at total count bytes.now) }
{
    if bytes.len() < count {
        return Err(ReadError::Cut(Place(total)));
    }
    Ok(bytes.split_at(count))
}

/// A number.
#[tactic(auto, unfolding(crate::specs::Fields::number_at))]
pub fn number_at(total: u32, bytes: &[u8]) -> Result<(u32, &[u8]), ReadError>
    ensures { ViewsFault (λ x. (x.0, x.1.now)) result (number_at total bytes.now) }
{
    let (field, rest) = bytes_at(total, 4, bytes)?;
    let number = u32::from_le_bytes([field[0], field[1], field[2], field[3]]);
    Ok((number, rest))
}

/// A number between limits.
#[tactic(auto, unfolding(crate::specs::Fields::number_within))]
pub fn number_within(
    total: u32,
    least: u32,
    most: u32,
    bytes: &[u8],
) -> Result<(u32, &[u8]), ReadError>
    ensures { ViewsFault (λ x. (x.0, x.1.now)) result (number_within total least most bytes.now) }
{
    let (number, rest) = number_at(total, bytes)?;
    if least <= number && number <= most {
        Ok((number, rest))
    } else {
        Err(ReadError::Field(place_of(total, bytes)))
    }
}

/// A word.
#[tactic(auto, unfolding(crate::specs::Fields::word_at))]
pub fn word_at(total: u32, bytes: &[u8]) -> Result<(u64, &[u8]), ReadError>
    ensures { ViewsFault (λ x. (x.0, x.1.now)) result (word_at total bytes.now) }
{
    let (field, rest) = bytes_at(total, 8, bytes)?;
    let word = u64::from_le_bytes([
        field[0], field[1], field[2], field[3], field[4], field[5], field[6], field[7],
    ]);
    Ok((word, rest))
}

/// What stands first.
#[tactic(auto, unfolding(crate::specs::Fields::magic_at))]
pub fn magic_at<'a>(total: u32, magic: &[u8], bytes: &'a [u8]) -> Result<&'a [u8], ReadError>
    ensures { ViewsFault (λ x. x.now) result (magic_at total magic.now bytes.now) }
{
    let (field, rest) = bytes_at(total, magic.len(), bytes)?;
    if field == magic {
        Ok(rest)
    } else {
        Err(ReadError::Magic)
    }
}

/// The version.
#[tactic(auto, unfolding(crate::specs::Fields::version_at))]
pub fn version_at(total: u32, version: u32, bytes: &[u8]) -> Result<&[u8], ReadError>
    ensures { ViewsFault (λ x. x.now) result (version_at total version bytes.now) }
{
    let (found, rest) = number_at(total, bytes)?;
    if found == version {
        Ok(rest)
    } else {
        Err(ReadError::Version)
    }
}

/// Adds an element.
pub fn push<T: Drop>(items: &mut Vec<T>, item: T) -> Result<(), OutOfMemory>
    ensures { OnOk result (items.new.items ≡ items.old.items ++ item ∷ []) }
{
    items.push(item)?;
    Ok(())
}

/// What reads one of those that stand one after another.
pub trait Reader {
    /// What it answers.
    type Item: Drop;

    /// What that stands for.
    ghost Value: { Type 0 };

    ghost view: { Self.Item → Value };

    /// How one is read.
    ghost reading: { Self → List ℕ → Reads Value };

    /// The one with which the bytes begin.
    fn read<'a>(&self, bytes: &'a [u8]) -> Result<(Self::Item, &'a [u8]), ReadError>
        ensures { Gives (λ x. (view x.0, x.1.now)) result (reading self.now bytes.now) };
}

/// As many values as the count says, read one after another.
pub fn repeated<'a, R: Reader>(
    alloc: Global,
    reader: &R,
    count: u64,
    bytes: &'a [u8],
) -> Result<(Vec<R::Item>, &'a [u8]), ReadError>
    ensures { Gives (λ x. (map R.view x.0.items, x.1.now)) result (repeated (R.reading reader.now) count bytes.now) }
{
    let mut items = Vec::new(alloc);
    let mut rest = bytes;
    for _ in 0..count {
        let (item, after) = reader.read(rest)?;
        push(&mut items, item)?;
        rest = after;
    }
    Ok((items, rest))
}
