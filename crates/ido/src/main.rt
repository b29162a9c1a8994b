//! The program `ido`, over standard input and standard output. It writes nothing to standard error.
#![tactic(auto)]

use ido_base::memory::OutOfMemory;
use ido_outside::{OpenGate, Reading, Writing};
use std::alloc::Global;
use std::env::{Env, FillError};
use std::process::ExitCode;

/// The status for want of memory.
const OUT_OF_MEMORY: u8 = 7;

/// Stands for the path of the program where that isn't UTF-8: no answer depends on it.
const NAME: &str = "ido";

/// The bytes of a word of the command line, where it exists.
fn bytes_of<R: Env>(rt: &R, alloc: Global, number: usize) -> Result<Option<Vec<u8>>, OutOfMemory> {
    let mut room = 256usize;
    for _ in 0..usize::BITS {
        let mut bytes = vec![in alloc; 0u8; room]?;
        match rt.arg(number, &mut bytes) {
            Ok(count) => {
                bytes.truncate(count);
                return Ok(Some(bytes));
            }
            Err(FillError::NotPresent) => return Ok(None),
            Err(FillError::TooLong) => room = room.saturating_mul(2),
        }
    }
    Err(OutOfMemory)
}

/// The words of the command line, the program's path first. Where another one isn't UTF-8 there are
/// none, which no command takes.
fn words_of<R: Env>(rt: &R, alloc: Global) -> Result<Vec<String>, OutOfMemory> {
    let mut words = Vec::new(alloc);
    for number in 0..usize::MAX {
        let Some(bytes) = bytes_of(rt, alloc, number)? else {
            break;
        };
        match String::from_utf8(bytes) {
            Ok(word) => words.push(word)?,
            Err(_) if number == 0 => words.push(String::from_str(alloc, NAME)?)?,
            Err(_) => return Ok(Vec::new(alloc)),
        }
    }
    Ok(words)
}

fn main(rt: HostRuntime) -> ExitCode {
    let mut input = Reading::new(rt.stdin());
    let mut output = Writing::new(rt.stdout());
    let status = match words_of(&rt, rt.alloc()) {
        Ok(words) => ido_cli::ido(&rt, rt.alloc(), &words, &mut input, &mut output, &OpenGate),
        Err(OutOfMemory) => OUT_OF_MEMORY,
    };
    ExitCode::from(status)
}
