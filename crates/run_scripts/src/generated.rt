//! Sources that are made of numbers.
ghost use Rattle.std.specs.Prelude.{◌≡◌, ◌<◌, ◌++◌, OnOk, IfOk, flat_map};
ghost use Rattle.run_scripts.specs.GeneratedSources.{addend_of, four, generated_source, mutex_item, mutex_of};
ghost use Rattle.run_scripts.specs.GeneratedSources.{section_line, thread_head, thread_item, variable_item};

use crate::report::put;
use ido_base::memory::OutOfMemory;
use std::alloc::Global;

/// Adds `mutex m0;`.
#[tactic(auto, unfolding(crate::specs::GeneratedSources::mutex_item))]
fn put_mutex(alloc: Global, text: &mut Vec<u8>, mutex: u32) -> Result<(), OutOfMemory>
    ensures { OnOk result (text.new.items ≡ text.old.items ++ mutex_item mutex) }
{
    let line = format!(in alloc; "mutex m{mutex};\n")?;
    put(text, line.as_bytes())
}

/// `persistent(m0) long a0[16];`
#[tactic(auto, unfolding(crate::specs::GeneratedSources::variable_item))]
fn variable_item(alloc: Global, variable: u32) -> Result<Vec<u8>, OutOfMemory>
    ensures { IfOk result (λ text. text.items ≡ variable_item variable) }
{
    let text = format!(in alloc; "persistent(m{variable}) long a{variable}[16];\n")?;
    Ok(text.into_bytes())
}

/// Adds the item of a variable.
fn put_variable(alloc: Global, text: &mut Vec<u8>, variable: u32) -> Result<(), OutOfMemory>
    ensures { OnOk result (text.new.items ≡ text.old.items ++ variable_item variable) }
{
    let item = variable_item(alloc, variable)?;
    put(text, &item)
}

/// `    lock(m1); a1[i & 15] += 4; unlock(m1);`
#[tactic(auto, unfolding(crate::specs::GeneratedSources::section_line))]
fn section_line(alloc: Global, mutex: u64, addend: u64) -> Result<Vec<u8>, OutOfMemory>
    ensures { IfOk result (λ text. text.items ≡ section_line mutex addend) }
{
    let text = format!(in alloc;
        "    lock(m{mutex}); a{mutex}[i & 15] += {addend}; unlock(m{mutex});\n"
    )?;
    Ok(text.into_bytes())
}

/// Adds the section of a statement of a thread.
fn put_statement(
    alloc: Global,
    text: &mut Vec<u8>,
    seed: u32,
    thread: u32,
    statement: u32,
) -> Result<(), OutOfMemory>
    requires thread { thread < 4 }
    requires statement { statement < 4 }
    ensures { OnOk result (text.new.items ≡ text.old.items ++ section_line (mutex_of seed thread statement) (addend_of seed thread statement)) }
{
    let seed = u64::from(seed);
    let thread = u64::from(thread);
    let statement = u64::from(statement);
    let mutex = (seed + thread + statement) % 4;
    let addend = 1 + (seed + 3 * thread + 5 * statement) % 9;
    let line = section_line(alloc, mutex, addend)?;
    put(text, &line)
}

/// Adds the sections of a round of a thread.
fn put_sections(
    alloc: Global,
    text: &mut Vec<u8>,
    seed: u32,
    thread: u32,
) -> Result<(), OutOfMemory>
    requires { thread < 4 }
    ensures { OnOk result (text.new.items
        ≡ text.old.items ++ flat_map (λ j. section_line (mutex_of seed thread j) (addend_of seed thread j)) four) }
{
    for statement in 0..4 {
        put_statement(alloc, text, seed, thread, statement)?;
    }
    Ok(())
}

/// What stands before the sections of a thread that makes so many rounds.
#[tactic(auto, unfolding(crate::specs::GeneratedSources::thread_head))]
fn thread_head(alloc: Global, rounds: u32, thread: u32) -> Result<Vec<u8>, OutOfMemory>
    ensures { IfOk result (λ text. text.items ≡ thread_head rounds thread) }
{
    let text = format!(in alloc; "thread t{thread} {{\n  for (int i = 0; i < {rounds}; i++) {{\n")?;
    Ok(text.into_bytes())
}

/// Adds a thread that makes so many rounds.
#[tactic(auto, unfolding(crate::specs::GeneratedSources::thread_item))]
fn put_thread(
    alloc: Global,
    text: &mut Vec<u8>,
    rounds: u32,
    seed: u32,
    thread: u32,
) -> Result<(), OutOfMemory>
    requires { thread < 4 }
    ensures { OnOk result (text.new.items ≡ text.old.items ++ thread_item rounds seed thread) }
{
    let head = thread_head(alloc, rounds, thread)?;
    put(text, &head)?;
    put_sections(alloc, text, seed, thread)?;
    put(text, b"  }\n}\n")
}

/// Adds the mutexes.
fn put_mutexes(alloc: Global, text: &mut Vec<u8>) -> Result<(), OutOfMemory>
    ensures { OnOk result (text.new.items ≡ text.old.items ++ flat_map mutex_item four) }
{
    for mutex in 0..4 {
        put_mutex(alloc, text, mutex)?;
    }
    Ok(())
}

/// Adds the variables.
fn put_variables(alloc: Global, text: &mut Vec<u8>) -> Result<(), OutOfMemory>
    ensures { OnOk result (text.new.items ≡ text.old.items ++ flat_map variable_item four) }
{
    for variable in 0..4 {
        put_variable(alloc, text, variable)?;
    }
    Ok(())
}

/// Adds the threads.
fn put_threads(alloc: Global, text: &mut Vec<u8>, rounds: u32, seed: u32) -> Result<(), OutOfMemory>
    ensures { OnOk result (text.new.items ≡ text.old.items ++ flat_map (thread_item rounds seed) four) }
{
    for thread in 0..4 {
        put_thread(alloc, text, rounds, seed, thread)?;
    }
    Ok(())
}

/// The source of a seed, whose threads make so many rounds: four threads, which add to four arrays, each guarded by a mutex of its own.
#[tactic(auto, unfolding(crate::specs::GeneratedSources::generated_source))]
pub fn make_program(alloc: Global, rounds: u32, seed: u32) -> Result<Vec<u8>, OutOfMemory>
    ensures { IfOk result (λ text. text.items ≡ generated_source rounds seed) }
{
    let mut text = Vec::new(alloc);
    put_mutexes(alloc, &mut text)?;
    put_variables(alloc, &mut text)?;
    put_threads(alloc, &mut text, rounds, seed)?;
    Ok(text)
}
