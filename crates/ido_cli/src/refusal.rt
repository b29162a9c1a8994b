//! Lines that say what is refused.
ghost use Rattle.std.specs.Prelude.{◌≡◌, ◌<◌, ◌≤◌, ◌^◌, length, IfOk};
ghost use Rattle.ido_base.specs.Places.{column_of, line_of};
ghost use Rattle.ido_base.specs.declared.limits.TheConstants.{MOST_SOURCE_BYTES};
ghost use Rattle.ido_cli.specs.Refusals.{code_of, fault_code, fault_place, line_after, line_at, line_at_byte, place_text, line_at_register};
ghost use Rattle.ido_cli.specs.Refusals.{line_at_life, line_at_step, line_at_thread, line_of_element, line_of_threads, stop_code};
ghost use Rattle.ido_cli.specs.links.CompileRefusals.{TellsRefusal};
ghost use Rattle.run_scripts.specs.Schedules as s;

use crate::said::Said;
use c_tree::rule::Rule;
use ido_base::memory::OutOfMemory;
use ido_base::place::{Place, line_column};
use ido_compile::CompileError;
use source_machine::RefusedKind;
use std::alloc::Global;

/// Where the version stands in an object, and in an image.
pub const VERSION_PLACE: Place = Place(8);

/// A refusal.
pub fn refused(alloc: Global, status: u8, line: &[u8]) -> Result<Said, OutOfMemory>
    ensures status { IfOk result (λ said. said.status ≡ status) }
    ensures output { IfOk result (λ said. said.output.items ≡ line.now) }
{
    let output = line.to_vec(alloc)?;
    Ok(Said { status, output })
}

/// The code of a rule in a refusal.
pub fn code_of(rule: Rule) -> &'static str
    ensures { result.now ≡ code_of rule }
{
    match rule {
        Rule::Byte => "S1",
        Rule::Number => "S2",
        Rule::Syntax => "S3",
        Rule::Unknown => "N1",
        Rule::Twice => "N2",
        Rule::WrongSort => "N3",
        Rule::Recursion => "N4",
        Rule::Count => "N5",
        Rule::Return => "N6",
        Rule::Threads => "K2",
        Rule::Mutexes => "K3",
        Rule::Bytes => "K4",
        Rule::Locals => "K5",
        Rule::Temporaries => "K6",
        Rule::Code => "K7",
        Rule::High => "K8",
        Rule::Length => "K9",
        Rule::Index => "X1",
        Rule::Null => "X2",
        Rule::Unheld => "L1",
        Rule::Again => "L2",
        Rule::NotHeld => "L3",
        Rule::Join => "L4",
        Rule::EndHeld => "L5",
        Rule::Frozen => "L6",
        Rule::Held => "K10",
    }
}

/// The code of a step that can't be made, or before which no other life may begin.
pub fn stop_code(kind: RefusedKind) -> &'static str
    ensures { result.now ≡ stop_code kind }
{
    match kind {
        RefusedKind::UnknownThread => "Q1",
        RefusedKind::Waits => "Q2",
        RefusedKind::Ended => "Q3",
        RefusedKind::Inside => "Q4",
    }
}

/// The line and the column of a place, past its end that of the end.
pub fn place_in(text: &[u8], place: u64) -> (u32, u32)
    requires { length text.now < 2 ^ 31 }
    ensures line { result.0 ≡ line_of text.now place }
    ensures column { result.1 ≡ column_of text.now place }
{
    line_column(text, Place(place.min(text.len() as u64) as u32))
}

/// The refusal by a code at a place of a text.
#[tactic(auto, unfolding(crate::specs::Refusals::line_at))]
pub fn refused_at(
    alloc: Global,
    status: u8,
    code: &str,
    text: &[u8],
    place: u64,
) -> Result<Said, OutOfMemory>
    requires { length text.now < 2 ^ 31 }
    ensures status { IfOk result (λ said. said.status ≡ status) }
    ensures output { IfOk result (λ said. said.output.items ≡ line_at code.now text.now place) }
{
    let (line, column) = place_in(text, place);
    let output = format!(in alloc; "refused {code} at {line}:{column}\n")?;
    Ok(Said {
        status,
        output: output.into_bytes(),
    })
}

/// A place of a text, as it is written.
#[tactic(auto, unfolding(crate::specs::Refusals::place_text))]
fn place_text(alloc: Global, text: &[u8], place: Place) -> Result<String, OutOfMemory>
    requires { length text.now < 2 ^ 31 }
    ensures { IfOk result (λ said. said.bytes.items ≡ place_text text.now place.0) }
{
    let (line, column) = place_in(text, u64::from(place.0));
    let written = format!(in alloc; "{line}:{column}")?;
    Ok(written)
}

/// The refusal of a source by a code at a place of it, after another place.
#[tactic(auto, unfolding(crate::specs::Refusals::line_after))]
pub fn refused_after(
    alloc: Global,
    code: &str,
    text: &[u8],
    place: Place,
    earlier: Place,
) -> Result<Said, OutOfMemory>
    requires { length text.now < 2 ^ 31 }
    ensures status { IfOk result (λ said. said.status ≡ 1) }
    ensures output { IfOk result (λ said. said.output.items ≡ line_after code.now text.now place.0 earlier.0) }
{
    let place = place_text(alloc, text, place)?;
    let earlier = place_text(alloc, text, earlier)?;
    let output = format!(in alloc; "refused {code} at {place} after {earlier}\n")?;
    Ok(Said {
        status: 1,
        output: output.into_bytes(),
    })
}

/// The refusal by a code of a life.
#[tactic(auto, unfolding(crate::specs::Refusals::line_at_life))]
pub fn refused_of_life(alloc: Global, code: &str, life: u64) -> Result<Said, OutOfMemory>
    ensures status { IfOk result (λ said. said.status ≡ 6) }
    ensures output { IfOk result (λ said. said.output.items ≡ line_at_life code.now life) }
{
    let output = format!(in alloc; "refused {code} life {life}\n")?;
    Ok(Said {
        status: 6,
        output: output.into_bytes(),
    })
}

/// The refusal by a code at a step of a schedule.
#[tactic(auto, unfolding(crate::specs::Refusals::line_at_step))]
pub fn refused_at_step(alloc: Global, code: &str, step: u64) -> Result<Said, OutOfMemory>
    ensures status { IfOk result (λ said. said.status ≡ 6) }
    ensures output { IfOk result (λ said. said.output.items ≡ line_at_step code.now step) }
{
    let output = format!(in alloc; "refused {code} at step {step}\n")?;
    Ok(Said {
        status: 6,
        output: output.into_bytes(),
    })
}

/// The refusal by a code at a byte of the input.
#[tactic(auto, unfolding(crate::specs::Refusals::line_at_byte))]
pub fn refused_at_byte(alloc: Global, code: &str, place: Place) -> Result<Said, OutOfMemory>
    ensures status { IfOk result (λ said. said.status ≡ 6) }
    ensures output { IfOk result (λ said. said.output.items ≡ line_at_byte code.now place.0) }
{
    let byte = place.0;
    let output = format!(in alloc; "refused {code} at byte {byte}\n")?;
    Ok(Said {
        status: 6,
        output: output.into_bytes(),
    })
}

/// The refusal of a source that isn't compiled.
pub fn source_refused(
    alloc: Global,
    source: &[u8],
    error: CompileError,
) -> Result<Said, OutOfMemory>
    requires { length source.now ≤ MOST_SOURCE_BYTES }
    ensures { IfOk result (λ said. TellsRefusal error source.now said.status said.output.items) }
{
    match error {
        CompileError::Refused(refusal) => refused_at(
            alloc,
            1,
            code_of(refusal.rule),
            source,
            u64::from(refusal.place.0),
        ),
        CompileError::Memory => Err(OutOfMemory),
    }
}

/// The refusal by a code that names a thread.
#[tactic(auto, unfolding(crate::specs::Refusals::line_at_thread))]
pub fn refused_at_thread(alloc: Global, code: &str, thread: u32) -> Result<Said, OutOfMemory>
    ensures status { IfOk result (λ said. said.status ≡ 6) }
    ensures output { IfOk result (λ said. said.output.items ≡ line_at_thread code.now thread) }
{
    let output = format!(in alloc; "refused {code} thread {thread}\n")?;
    Ok(Said {
        status: 6,
        output: output.into_bytes(),
    })
}

/// The refusal by a code that names a register of a thread.
#[tactic(auto, unfolding(crate::specs::Refusals::line_at_register))]
pub fn refused_at_register(
    alloc: Global,
    code: &str,
    thread: u32,
    register: u8,
) -> Result<Said, OutOfMemory>
    ensures status { IfOk result (λ said. said.status ≡ 6) }
    ensures output { IfOk result (λ said. said.output.items ≡ line_at_register code.now thread register) }
{
    let output = format!(in alloc; "refused {code} thread {thread} register {register}\n")?;
    Ok(Said {
        status: 6,
        output: output.into_bytes(),
    })
}

/// The refusal by a code that names an element of a variable.
#[tactic(auto, unfolding(crate::specs::Refusals::line_of_element))]
pub fn refused_of_element(
    alloc: Global,
    code: &str,
    variable: u32,
    element: u32,
) -> Result<Said, OutOfMemory>
    ensures status { IfOk result (λ said. said.status ≡ 6) }
    ensures output { IfOk result (λ said. said.output.items ≡ line_of_element code.now variable element) }
{
    let output = format!(in alloc; "refused {code} variable {variable} element {element}\n")?;
    Ok(Said {
        status: 6,
        output: output.into_bytes(),
    })
}

/// The refusal by a code that names two threads which share a lock.
#[tactic(auto, unfolding(crate::specs::Refusals::line_of_threads))]
pub fn refused_of_threads(
    alloc: Global,
    code: &str,
    lock: u32,
    threads: (u32, u32),
) -> Result<Said, OutOfMemory>
    ensures status { IfOk result (λ said. said.status ≡ 6) }
    ensures output { IfOk result (λ said. said.output.items ≡ line_of_threads code.now lock threads.0 threads.1) }
{
    let (first, second) = threads;
    let output = format!(in alloc; "refused {code} lock {lock} threads {first} {second}\n")?;
    Ok(Said {
        status: 6,
        output: output.into_bytes(),
    })
}
