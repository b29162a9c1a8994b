//! Listings.
ghost use Rattle.std.specs.Prelude.{◌≡◌, ◌≤◌, ◌+◌, ◌*◌, ◌++◌, ◌<◌, ◌^◌, length, map, IfOk, OnOk, All};
ghost use Rattle.ido_base.specs.declared.limits.TheConstants.{MOST_THREADS, MOST_CODE_WORDS};
ghost use Rattle.object_format.specs.Contents.{IsWithinLimits, contents_of, items_of};
ghost use Rattle.object_listing.specs.ObjectListing.{word_line, word_lines, thread_line, thread_lines, listing};

use crate::instruction::{hex_word, put_instruction};
use ido_base::limits::CODE_BASE;
use ido_base::memory::OutOfMemory;
use machine_model::object::Object;
use run_scripts::report::put;
use rv64_isa::word::decode;
use std::alloc::Global;

/// Adds the line of a word.
#[tactic(auto, unfolding(crate::specs::ObjectListing::word_line))]
fn put_word(alloc: Global, out: &mut Vec<u8>, address: u32, word: u32) -> Result<(), OutOfMemory>
    ensures { OnOk result (out.new.items ≡ out.old.items ++ word_line address word) }
{
    put(out, &hex_word(address))?;
    put(out, b" ")?;
    put(out, &hex_word(word))?;
    put(out, b" ")?;
    if let Some(instr) = decode(word) {
        put_instruction(alloc, out, address, instr)?;
    }
    put(out, b"\n")
}

/// Adds the lines of words from an address on.
fn put_words(
    alloc: Global,
    out: &mut Vec<u8>,
    address: u32,
    words: &[u32],
) -> Result<(), OutOfMemory>
    requires { address + 4 * length words.now < 2 ^ 32 }
    ensures { OnOk result (out.new.items ≡ out.old.items ++ word_lines address words.now) }
{
    let mut at = address;
    for word in words {
        put_word(alloc, out, at, *word)?;
        at += 4;
    }
    Ok(())
}

/// Adds the line of a thread.
#[tactic(auto, unfolding(crate::specs::ObjectListing::thread_line))]
fn put_thread(alloc: Global, out: &mut Vec<u8>, thread: u32) -> Result<(), OutOfMemory>
    ensures { OnOk result (out.new.items ≡ out.old.items ++ thread_line thread) }
{
    let text = format!(in alloc; "thread {thread}\n")?;
    put(out, text.as_bytes())
}

/// Adds the code of threads.
fn put_code(alloc: Global, out: &mut Vec<u8>, code: &[Vec<u32>]) -> Result<(), OutOfMemory>
    requires threads { length code.now ≤ MOST_THREADS }
    requires words { All (λ words. length words.items ≤ MOST_CODE_WORDS) code.now }
    ensures { OnOk result (out.new.items ≡ out.old.items ++ listing (map items_of code.now)) }
{
    let mut address = CODE_BASE as u32;
    let mut thread = 0;
    for words in code {
        put_thread(alloc, out, thread)?;
        put_words(alloc, out, address, words)?;
        thread += 1;
        address += 4 * words.len() as u32;
    }
    Ok(())
}

/// The listing of an object: for each thread the line `thread T`, and a line for each word with its
/// address, the word and its instruction.
#[tactic(auto, using(crate::proofs::CodeLimits::few_threads, crate::proofs::CodeLimits::few_words))]
pub fn listing(alloc: Global, object: &Object) -> Result<Vec<u8>, OutOfMemory>
    requires { IsWithinLimits (contents_of object.now) }
    ensures { IfOk result (λ text. text.items ≡ listing (contents_of object.now).code) }
{
    let mut out = Vec::new(alloc);
    put_code(alloc, &mut out, &object.code)?;
    Ok(out)
}
