//! The answer to an input.
ghost use Rattle.std.specs.Prelude.{◌≡◌, ◌≤◌, true, false, length, IfOk};
ghost use Rattle.ido_base.specs.declared.limits.TheConstants.{MOST_INPUT_BYTES, MOST_SOURCE_BYTES};
ghost use Rattle.command_words.specs.declared.command.Command.TheVariants as command;
ghost use Rattle.ido_cli.specs.Answers.{AnswerToInput, CommandAnswer};
ghost use Rattle.command_words.specs.Commands.{needs_threads};
ghost use Rattle.ido_cli.specs.links.RunRequests.{command_asking, command_making};

use crate::input::split;
use crate::list::list_answer;
use crate::live::{LiveRun, live_answer};
use crate::load::load_answer;
use crate::make::make_answer;
use crate::object::compile_answer;
use crate::order::order_answer;
use crate::play::{Asked, scripted_answer};
use crate::recover::recover_answer;
use crate::refusal::refused;
use crate::regions::regions_answer;
use crate::said::Said;
use crate::scheme::log_by;
use crate::seeded::seeded_answer;
use crate::source::source_answer;
use crate::sweep::sweep_answer;
use crate::upgrade::upgrade_answer;
use command_words::command::Command;
use command_words::crashes::Crashes;
use command_words::scheme::SchemeName;
use ido_base::limits::MOST_SOURCE_BYTES;
use ido_base::memory::OutOfMemory;
use ido_outside::Gate;
use std::alloc::Global;
use std::sync::Wait;
use std::thread::Threads;

/// What is asked of a source alone.
#[derive(Clone, Copy)]
enum Product {
    /// Its object.
    Object { scheme: SchemeName },
    /// The nodes of its graph, and the boundaries among them; and how few there are in straight code, where that is asked.
    Regions { least: bool },
    /// Whether its threads lock in order.
    Order,
}

/// The answer to a source text.
fn product_answer(alloc: Global, product: Product, source: &[u8]) -> Result<Said, OutOfMemory>
    requires { length source.now ≤ MOST_SOURCE_BYTES }
    ensures { IfOk result (λ said. CommandAnswer (command_making product) source.now said.status said.output.items) }
{
    match product {
        Product::Object { scheme } => compile_answer(alloc, log_by(scheme), source),
        Product::Regions { least } => regions_answer(alloc, source, least),
        Product::Order => order_answer(alloc, source),
    }
}

/// The answer to an input of `compile`, `regions` or `order`.
fn product_input(alloc: Global, product: Product, input: &[u8]) -> Result<Said, OutOfMemory>
    ensures { IfOk result (λ said. AnswerToInput (command_making product) input.now said.status said.output.items) }
{
    if input.len() > MOST_SOURCE_BYTES {
        return refused(alloc, 6, b"refused limit\n");
    }
    product_answer(alloc, product, input)
}

/// The answer to an input of `play` or of `image`.
fn scripted_input(
    alloc: Global,
    scheme: SchemeName,
    asked: Asked,
    input: &[u8],
) -> Result<Said, OutOfMemory>
    requires { length input.now ≤ MOST_INPUT_BYTES }
    ensures { IfOk result (λ said. AnswerToInput (command_asking asked scheme) input.now said.status said.output.items) }
{
    let (source, script) = split(input);
    if source.len() > MOST_SOURCE_BYTES {
        return refused(alloc, 6, b"refused limit\n");
    }
    scripted_answer(alloc, log_by(scheme), asked, input, source, script)
}

/// The answer to an input of `source`.
fn source_input(alloc: Global, input: &[u8]) -> Result<Said, OutOfMemory>
    requires { length input.now ≤ MOST_INPUT_BYTES }
    ensures { IfOk result (λ said. AnswerToInput command.Source input.now said.status said.output.items) }
{
    let (source, schedule) = split(input);
    if source.len() > MOST_SOURCE_BYTES {
        return refused(alloc, 6, b"refused limit\n");
    }
    source_answer(alloc, input, source, schedule)
}

/// The answer to an input of `seeded`.
fn seeded_input(
    alloc: Global,
    scheme: SchemeName,
    input: &[u8],
    seed: u64,
    turns: u32,
    crashes: &Crashes,
    journal: bool,
) -> Result<Said, OutOfMemory>
    ensures { IfOk result (λ said. AnswerToInput (command.Seeded seed turns crashes.now journal scheme) input.now said.status said.output.items) }
{
    if input.len() > MOST_SOURCE_BYTES {
        return refused(alloc, 6, b"refused limit\n");
    }
    seeded_answer(
        alloc,
        log_by(scheme),
        input,
        seed,
        turns,
        crashes.words(),
        journal,
    )
}

/// The answer to an input of `live`.
fn live_input<R: Threads + Wait + Sync, G: Gate + Sync>(
    rt: &R,
    alloc: Global,
    input: &[u8],
    asked: LiveRun<'_>,
    gate: &G,
) -> Result<Said, OutOfMemory>
    ensures { IfOk result (λ said.
        AnswerToInput (command.Live asked.entry.turns asked.entry.crashes.now asked.entry.evict asked.entry.journal asked.entry.scheme) input.now
        said.status said.output.items) }
{
    if input.len() > MOST_SOURCE_BYTES {
        return refused(alloc, 6, b"refused limit\n");
    }
    live_answer(rt, alloc, input, asked, gate)
}

/// The answer to an input of `sweep`.
fn sweep_input<R: Threads + Wait + Sync, G: Gate + Sync>(
    rt: &R,
    alloc: Global,
    scheme: SchemeName,
    input: &[u8],
    gate: &G,
) -> Result<Said, OutOfMemory>
    requires { length input.now ≤ MOST_INPUT_BYTES }
    ensures { IfOk result (λ said. AnswerToInput (command.Sweep scheme) input.now said.status said.output.items) }
{
    let (source, script) = split(input);
    if source.len() > MOST_SOURCE_BYTES {
        return refused(alloc, 6, b"refused limit\n");
    }
    sweep_answer(rt, alloc, log_by(scheme), input, source, script, gate)
}

/// The answer to an input of a command that needs no threads.
pub fn answer(alloc: Global, command: Command, input: &[u8]) -> Result<Said, OutOfMemory>
    requires alone { needs_threads command ≡ false }
    requires within { length input.now ≤ MOST_INPUT_BYTES }
    ensures { IfOk result (λ said. AnswerToInput command input.now said.status said.output.items) }
{
    match command {
        Command::Compile { scheme } => { product_input(alloc, Product::Object { scheme }, input) },
        Command::List => list_answer(alloc, input),
        Command::Regions { least } => product_input(alloc, Product::Regions { least }, input),
        Command::Play { fences, scheme } => {
            scripted_input(alloc, scheme, Asked::Report { fences }, input)
        },
        Command::Source => source_input(alloc, input),
        Command::Image { scheme } => { scripted_input(alloc, scheme, Asked::Image, input) },
        Command::Order => product_input(alloc, Product::Order, input),
        Command::Make { rounds, seed } => make_answer(alloc, rounds, seed),
        Command::Seeded {
            seed,
            turns,
            crashes,
            journal,
            scheme,
        } => seeded_input(alloc, scheme, input, seed, turns, &crashes, journal),
        Command::Live { .. }
        | Command::Recover { .. }
        | Command::Upgrade { .. }
        | Command::Load { .. }
        | Command::Sweep { .. } => unreachable!(),
    }
}

/// The answer to an input of a command that needs threads. The gate is passed before each turn of a worker, and before each point of a sweep.
pub fn threaded_answer<R: Threads + Wait + Sync, G: Gate + Sync>(
    rt: &R,
    alloc: Global,
    command: Command,
    input: &[u8],
    gate: &G,
) -> Result<Said, OutOfMemory>
    requires threaded { needs_threads command ≡ true }
    requires within { length input.now ≤ MOST_INPUT_BYTES }
    ensures { IfOk result (λ said. AnswerToInput command input.now said.status said.output.items) }
{
    match command {
        Command::Live {
            turns,
            crashes,
            evict,
            journal,
            scheme,
        } => {
            let asked = LiveRun {
                turns,
                crashes: crashes.words(),
                evict,
                journal,
                scheme,
            };
            live_input(rt, alloc, input, asked, gate)
        }
        Command::Recover { turns } => recover_answer(rt, alloc, input, turns, gate),
        Command::Upgrade { turns } => upgrade_answer(rt, alloc, input, turns, gate),
        Command::Load {
            rounds,
            seed,
            scheme,
        } => load_answer(rt, alloc, scheme, rounds, seed, gate),
        Command::Sweep { scheme } => sweep_input(rt, alloc, scheme, input, gate),
        Command::Compile { .. }
        | Command::List
        | Command::Regions { .. }
        | Command::Play { .. }
        | Command::Source
        | Command::Image { .. }
        | Command::Order
        | Command::Make { .. }
        | Command::Seeded { .. } => unreachable!(),
    }
}
