//! Bytes read as an object.
ghost use Rattle.std.specs.Prelude.{◌≡◌, ◌≤◌, ℕ, List, length, map, IfOk, Ok};
ghost use Rattle.ido_base.specs.declared.limits.TheConstants.{MOST_INPUT_BYTES};
ghost use Rattle.file_fields.specs.Fields.{repeated};
ghost use Rattle.file_fields.specs.links.ReaderResults.{Gives};
ghost use Rattle.object_format.specs.Contents.{Contents, contents_of, items_of, IsWithinLimits};
ghost use Rattle.object_format.specs.ObjectEncoder.{spelling};
ghost use Rattle.object_format.specs.ObjectDecoder.{word_at, thread_at, head_at, read};
ghost use Rattle.object_format.specs.links.Heads.{head_of};

use crate::fields::{initial_at, log_at, word_at};
use crate::limits::LEAST_WORDS;
use file_fields::error::ReadError;
use file_fields::reading::{Reader, magic_at, number_within, place_of, repeated};
use ido_base::limits::{MOST_CODE_WORDS, MOST_THREADS};
use ido_base::memory::OutOfMemory;
use log_schemes::log::Log;
use machine_model::object::Object;
use std::alloc::Global;

/// What stands before the code.
#[derive(Drop)]
struct Head<'a> {
    log: Log,
    threads: u32,
    mutexes: u32,
    initial: &'a [u8],
}

#[tactic(auto, unfolding(crate::specs::ObjectDecoder::head_at))]
fn head_at(total: u32, bytes: &[u8]) -> Result<(Head<'_>, &[u8]), ReadError>
    ensures { Gives (λ x. (head_of x.0, x.1.now)) result (head_at total bytes.now) }
{
    let rest = magic_at(total, b"IDO-OBJ\n", bytes)?;
    let (log, rest) = log_at(total, rest)?;
    let (threads, rest) = number_within(total, 0, MOST_THREADS, rest)?;
    let (mutexes, rest) = number_within(total, 0, log.most_locks(), rest)?;
    let (initial, rest) = initial_at(total, rest)?;
    let head = Head {
        log,
        threads,
        mutexes,
        initial,
    };
    Ok((head, rest))
}

/// Reads words of instructions.
#[derive(Drop)]
struct WordReader {
    total: u32,
}

impl Reader for WordReader {
    type Item = u32;

    ghost Value = { ℕ };

    ghost view = { λ word. word };

    ghost reading = { λ reader. word_at reader.total };

    fn read<'a>(&self, bytes: &'a [u8]) -> Result<(u32, &'a [u8]), ReadError> {
        word_at(self.total, bytes)
    }
}

/// The first `count` words of instructions, and the bytes after them.
fn words_at(
    alloc: Global,
    total: u32,
    count: u32,
    bytes: &[u8],
) -> Result<(Vec<u32>, &[u8]), ReadError>
    ensures { Gives (λ x. (x.0.items, x.1.now)) result (repeated (word_at total) count bytes.now) }
{
    repeated(alloc, &WordReader { total }, u64::from(count), bytes)
}

/// The code of a thread.
#[tactic(auto, unfolding(crate::specs::ObjectDecoder::thread_at))]
fn thread_at(alloc: Global, total: u32, bytes: &[u8]) -> Result<(Vec<u32>, &[u8]), ReadError>
    ensures { Gives (λ x. (x.0.items, x.1.now)) result (thread_at total bytes.now) }
{
    let (count, rest) = number_within(total, LEAST_WORDS, MOST_CODE_WORDS, bytes)?;
    words_at(alloc, total, count, rest)
}

/// Reads the code of threads.
#[derive(Drop)]
struct ThreadReader {
    alloc: Global,
    total: u32,
}

impl Reader for ThreadReader {
    type Item = Vec<u32>;

    ghost Value = { List ℕ };

    ghost view = { items_of };

    ghost reading = { λ reader. thread_at reader.total };

    fn read<'a>(&self, bytes: &'a [u8]) -> Result<(Vec<u32>, &'a [u8]), ReadError> {
        thread_at(self.alloc, self.total, bytes)
    }
}

/// The code of so many threads.
fn threads_at(
    alloc: Global,
    total: u32,
    count: u32,
    bytes: &[u8],
) -> Result<(Vec<Vec<u32>>, &[u8]), ReadError>
    ensures { Gives (λ x. (map items_of x.0.items, x.1.now)) result (repeated (thread_at total) count bytes.now) }
{
    repeated(
        alloc,
        &ThreadReader { alloc, total },
        u64::from(count),
        bytes,
    )
}

/// A copy of bytes.
fn copy(alloc: Global, bytes: &[u8]) -> Result<Vec<u8>, OutOfMemory>
    ensures { IfOk result (λ v. v.items ≡ bytes.now) }
{
    let bytes = bytes.to_vec(alloc)?;
    Ok(bytes)
}

/// The object of all bytes, or their first fault.
#[tactic(auto, unfolding(crate::specs::ObjectDecoder::read))]
fn read(alloc: Global, bytes: &[u8]) -> Result<Object, ReadError>
    requires { length bytes.now ≤ MOST_INPUT_BYTES }
    ensures { Gives contents_of result (read bytes.now) }
{
    let total = bytes.len() as u32;
    let (head, rest) = head_at(total, bytes)?;
    let (code, rest) = threads_at(alloc, total, head.threads, rest)?;
    if !rest.is_empty() {
        return Err(ReadError::Rest(place_of(total, rest)));
    }
    Ok(Object {
        code,
        initial: copy(alloc, head.initial)?,
        mutexes: head.mutexes,
        log: head.log,
    })
}

/// The object that bytes spell.
///
/// Numbers are of four bytes, little-endian: 8 bytes `IDO-OBJ` and LF, the version, which is 1 where threads log a mask of their locks, 2 where they list
/// them, and 3 where they list them and log each write, the numbers of threads, of mutexes and of initial bytes, these bytes, and of each thread the number
/// of its words and the words. There are at most 8 threads of 1 to 65,536 words that instructions have, 64 mutexes, in versions 2 and 3 1,024, and 65,536
/// initial bytes, a multiple of 8.
pub fn read_object(alloc: Global, bytes: &[u8]) -> Result<Object, ReadError>
    requires short { length bytes.now ≤ MOST_INPUT_BYTES }
    // What is read is spelled so, and within the limits.
    ensures found { IfOk result (λ object. IsWithinLimits (contents_of object) × (bytes.now ≡ spelling (contents_of object))) }
    // What is within the limits and spelled so is read, unless memory runs out.
    ensures only { (o : Contents) → IsWithinLimits o → bytes.now ≡ spelling o → Gives contents_of result (Ok o) }
    // Which fault it is: the first in the order of the bytes.
    ensures exact { Gives contents_of result (read bytes.now) }
{
    read(alloc, bytes)
}
