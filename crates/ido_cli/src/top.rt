//! The top calls.
ghost use Rattle.std.specs.Prelude.{◌≡◌, ◌⊎◌, true, false, map, option_map, string_bytes, codes, IfOk, IsErrOf, OnErr, None, Some, IfSome};
ghost use Rattle.ido_outside.specs.Causes.{Rose};
ghost use Rattle.ido_cli.specs.Answers.{IsAnswered, Refuses, outside};
ghost use Rattle.command_words.specs.Commands.{command_of, is_threaded, is_unread, needs_threads, reads_input};
ghost use Rattle.ido_cli.specs.Deliveries.{IsSaidTo, IsSaidToInput, IsTaken, IsDelivered};

use crate::answer::{answer, threaded_answer};
use crate::refusal::refused;
use crate::said::Said;
use command_words::command::{Command, command_of};
use ido_base::limits::MOST_INPUT_BYTES;
use ido_base::memory::OutOfMemory;
use ido_outside::{Failed, Gate, InFault, Sink, Source, read_all, write_all};
use std::alloc::Global;
use std::sync::Wait;
use std::thread::Threads;

/// The status for want of memory.
const OUT_OF_MEMORY: u8 = 7;

/// Why nothing is said.
#[derive(Drop)]
enum Unsaid {
    /// The source failed.
    Failed,
    /// An allocation was refused.
    Memory,
}

impl From<OutOfMemory> for Unsaid {
    ghost use Rattle.ido_cli.specs.declared.top.Unsaid.TheVariants.{Memory as Unremembered};

    ghost from_gives = { λ _ e. e ≡ Unremembered };

    fn from(_: OutOfMemory) -> Self {
        Unsaid::Memory
    }
}

/// The input of a command, and nothing for one that reads none; none where it is longer than any command takes.
fn take<S: Source>(
    alloc: Global,
    command: &Command,
    input: &mut S,
) -> Result<Option<Vec<u8>>, Unsaid>
    ensures taken { IfOk result (λ taken. IsTaken command.now (S.left input.old) (option_map (λ v. v.items) taken)) }
    ensures failed { IsErrOf result Unsaid.Failed → Rose (S.faults input.old) (S.faults input.new) }
    ensures read { IsErrOf result Unsaid.Failed → reads_input command.now ≡ true }
    ensures unread { reads_input command.now ≡ false → input.new ≡ input.old }
{
    if !command.reads_input() {
        return Ok(Some(Vec::new(alloc)));
    }
    match read_all(alloc, input, MOST_INPUT_BYTES) {
        Ok(bytes) => Ok(Some(bytes)),
        Err(InFault::TooLong) => Ok(None),
        Err(InFault::Failed) => Err(Unsaid::Failed),
        Err(InFault::Memory) => Err(Unsaid::Memory),
    }
}

/// What is said to an input past every limit.
fn too_long(alloc: Global) -> Result<Said, Unsaid>
    ensures said { IfOk result (λ said. Refuses 6 said.status (codes "limit") said.output.items) }
    ensures failed { IsErrOf result Unsaid.Failed → ⊥ }
{
    let said = refused(alloc, 6, b"refused limit\n")?;
    Ok(said)
}

/// What is said to the input of a command that needs no threads.
#[tactic(auto, using(crate::proofs::TopCallAnswers::said_to_long_input, crate::proofs::TopCallAnswers::said_to_taken_input))]
fn say_to_input<S: Source>(alloc: Global, command: Command, input: &mut S) -> Result<Said, Unsaid>
    requires { needs_threads command ≡ false }
    ensures said { IfOk result (λ said. IsSaidToInput command (S.left input.old) said) }
    ensures failed { IsErrOf result Unsaid.Failed → Rose (S.faults input.old) (S.faults input.new) }
    ensures read { IsErrOf result Unsaid.Failed → reads_input command ≡ true }
    ensures unread { reads_input command ≡ false → input.new ≡ input.old }
{
    let Some(bytes) = take(alloc, &command, input)? else {
        return too_long(alloc);
    };
    let said = answer(alloc, command, &bytes)?;
    Ok(said)
}

/// What is said to the input of a command that needs threads.
#[tactic(auto, using(crate::proofs::TopCallAnswers::said_to_long_input, crate::proofs::TopCallAnswers::said_to_taken_input))]
fn say_on_threads<R: Threads + Wait + Sync, S: Source, G: Gate + Sync>(
    rt: &R,
    alloc: Global,
    command: Command,
    input: &mut S,
    gate: &G,
) -> Result<Said, Unsaid>
    requires { needs_threads command ≡ true }
    ensures said { IfOk result (λ said. IsSaidToInput command (S.left input.old) said) }
    ensures failed { IsErrOf result Unsaid.Failed → Rose (S.faults input.old) (S.faults input.new) }
    ensures read { IsErrOf result Unsaid.Failed → is_unread (Some command) ≡ false }
    ensures unread { is_unread (Some command) ≡ true → input.new ≡ input.old }
{
    let Some(bytes) = take(alloc, &command, input)? else {
        return too_long(alloc);
    };
    let said = threaded_answer(rt, alloc, command, &bytes, gate)?;
    Ok(said)
}

/// What is said to words that name a command which needs no threads, or aren't taken, and to the input, of which nothing is read where
/// the words aren't taken or their command reads none.
fn say_to<S: Source>(alloc: Global, named: Option<Command>, input: &mut S) -> Result<Said, Unsaid>
    requires { is_threaded named ≡ false }
    ensures said { IfOk result (λ said. IsSaidTo named (S.left input.old) said) }
    ensures failed { IsErrOf result Unsaid.Failed → Rose (S.faults input.old) (S.faults input.new) }
    ensures read { IsErrOf result Unsaid.Failed → is_unread named ≡ false }
    ensures unread { is_unread named ≡ true → input.new ≡ input.old }
{
    match named {
        Some(command) => {
            let said = say_to_input(alloc, command, input)?;
            Ok(said)
        }
        None => {
            let said = refused(alloc, 2, b"refused words\n")?;
            Ok(said)
        }
    }
}

/// Writes what is said, and answers the status.
fn deliver<K: Sink>(said: &Said, output: &mut K) -> u8
    ensures { IsDelivered said.now (K.written output.old) (K.written output.new) (K.faults output.old) (K.faults output.new) result }
{
    match write_all(output, &said.output) {
        Ok(()) => said.status,
        Err(Failed) => 5,
    }
}

/// The status of a run, which writes what is said, where something is.
fn finish<K: Sink>(said: Result<Said, Unsaid>, output: &mut K) -> u8
    ensures said { IfOk said (λ said. IsDelivered said (K.written output.old) (K.written output.new) (K.faults output.old) (K.faults output.new) result) }
    ensures failed { IsErrOf said Unsaid.Failed → result ≡ 4 }
    ensures memory { IsErrOf said Unsaid.Memory → result ≡ 7 }
    ensures unwritten { OnErr said (output.new ≡ output.old) }
{
    match said {
        Ok(said) => deliver(&said, output),
        Err(Unsaid::Failed) => 4,
        Err(Unsaid::Memory) => OUT_OF_MEMORY,
    }
}

/// Whether the words were taken, and name a command that needs threads.
fn is_threaded(named: &Option<Command>) -> bool
    ensures { result ≡ is_threaded named.now }
{
    match named {
        Some(command) => command.needs_threads(),
        None => false,
    }
}

/// Answers words, the program's name first, and an input: writes the output, and answers the
/// status. It takes no runtime, and does whole every command that needs no threads; for one that does, `live`, `sweep`, `recover` or
/// `load`, it answers `None`, and has read and written nothing. Where memory is wanting to read the words it answers 7, whatever they name.
///
/// The input is read to its end, or to one byte past its limit, before anything is said of it, but for
/// `make`, which reads none; and the whole output is made before its first byte is written.
pub fn alone<S: Source, K: Sink>(
    alloc: Global,
    words: &[String],
    input: &mut S,
    output: &mut K,
) -> Option<u8>
    // What isn't answered needs threads; and what needs threads isn't answered, but for want of memory.
    ensures whole { result ≡ None → is_threaded (command_of (map string_bytes words.now)) ≡ true }
    ensures left { is_threaded (command_of (map string_bytes words.now)) ≡ true → IfSome result (λ status. status ≡ 7) }

    // What needs threads leaves the source and the sink as they were.
    ensures untouched { is_threaded (command_of (map string_bytes words.now)) ≡ true → (input.new ≡ input.old) × (output.new ≡ output.old) }

    // The status and what was written are the answer, or say what was wanting. There is one answer
    // (`laws::one_answer`), but where it stands on a compilation.
    ensures answered { IfSome result (λ status.
        IsAnswered (map string_bytes words.now) (outside S.left S.faults K.written K.faults input.old input.new output.old output.new) status) }

    // For words that aren't taken, and for a command that reads no input, the source isn't touched.
    ensures unread { is_unread (command_of (map string_bytes words.now)) ≡ true → input.new ≡ input.old }

    // At status 4 and 7 the sink isn't touched.
    ensures unwritten { IfSome result (λ status. (status ≡ 4) ⊎ (status ≡ 7) → output.new ≡ output.old) }
{
    let Ok(named) = command_of(alloc, words) else {
        return Some(OUT_OF_MEMORY);
    };
    if is_threaded(&named) {
        return None;
    }
    let said = say_to(alloc, named, input);
    Some(finish(said, output))
}

/// The status of a run by words that name a command which needs threads. It writes what is said.
fn serve_on_threads<R: Threads + Wait + Sync, S: Source, K: Sink, G: Gate + Sync>(
    rt: &R,
    alloc: Global,
    words: &[String],
    input: &mut S,
    output: &mut K,
    gate: &G,
) -> u8
    requires { is_threaded (command_of (map string_bytes words.now)) ≡ true }
    ensures answered { IsAnswered (map string_bytes words.now) (outside S.left S.faults K.written K.faults input.old input.new output.old output.new) result }
    ensures unread { is_unread (command_of (map string_bytes words.now)) ≡ true → input.new ≡ input.old }
    ensures unwritten { (result ≡ 4) ⊎ (result ≡ 7) → output.new ≡ output.old }
{
    match command_of(alloc, words) {
        Ok(Some(command)) => {
            let said = say_on_threads(rt, alloc, command, input, gate);
            finish(said, output)
        }
        Ok(None) => unreachable!(),
        Err(OutOfMemory) => OUT_OF_MEMORY,
    }
}

/// Answers words, the program's name first, and an input: writes the output, and answers the
/// status. What `alone` leaves, `live`, `sweep`, `recover` and `load`, it does on threads that `rt` starts, which all have ended when
/// it answers. Before each turn of a worker, and before each point of a sweep, the gate is passed.
///
/// It owes no return: by its bounds `Threads` and `Wait` it may wait, and its clauses say what holds if it returns. What `alone`
/// answers is proved to return as far as the source and the sink do.
pub fn ido<R: Threads + Wait + Sync, S: Source, K: Sink, G: Gate + Sync>(
    rt: &R,
    alloc: Global,
    words: &[String],
    input: &mut S,
    output: &mut K,
    gate: &G,
) -> u8
    // The status and what was written are the answer, or say what was wanting. There is one answer
    // (`laws::one_answer`), but where it stands on a compilation, or on how threads ran.
    ensures answered { IsAnswered (map string_bytes words.now) (outside S.left S.faults K.written K.faults input.old input.new output.old output.new) result }

    // For words that aren't taken, and for a command that reads no input, the source isn't touched.
    ensures unread { is_unread (command_of (map string_bytes words.now)) ≡ true → input.new ≡ input.old }

    // At status 4 and 7 the sink isn't touched.
    ensures unwritten { (result ≡ 4) ⊎ (result ≡ 7) → output.new ≡ output.old }
{
    match alone(alloc, words, input, output) {
        Some(status) => status,
        None => serve_on_threads(rt, alloc, words, input, output, gate),
    }
}
