//! The command `load`: a generated source, run on threads to its end.
ghost use Rattle.std.specs.Prelude.{◌≡◌, ◌+◌, ◌-◌, ◌<◌, ◌≤◌, [], true, false, ◌^◌, ◌+ℤ◌, ◌≤ℤ◌, neg_ℤ, pos, FitsSigned, All, length, sum, IfOk, None};
ghost use Rattle.std.specs.Int.{w128};
ghost use Rattle.ido_base.specs.declared.limits.TheConstants.{MOST_THREADS, MOST_VARIABLE_BYTES};
ghost use Rattle.c_tree.specs.Flats.{flat_of};
ghost use Rattle.flat_compile.specs.TranslatedForms.{IsTranslatedAs};
ghost use Rattle.compiler_correctness.specs.Compilations.{IsCompilation};
ghost use Rattle.ido_compile.specs.CompileAnswers.{IsCompiledAs, translation_in};
ghost use Rattle.lock_order.specs.LockOrder.{order_fault};
ghost use Rattle.run_scripts.specs.GeneratedSources.{generated_source};
ghost use Rattle.run_scripts.specs.links.ReportViews as views;
ghost use Rattle.run_tracker.specs.ObjectLives.{opening_of};
ghost use Rattle.ido_cli.specs.Answers.{LoadAnswer};
ghost use Rattle.ido_cli.specs.Schemes.{log_by};
ghost use Rattle.ido_cli.specs.Loads.{IsSummary, settled_summary, sums_text, total};
ghost use Rattle.ido_cli.specs.ThreadedRuns.{AreRounds, most_leg_events};
ghost use Rattle.ido_cli.specs.links.LegRuns.{HasRounds, IsLoad, IsSmall, IsSummable, LeadsTo};

use crate::live::MOST_LEG_EVENTS;
use crate::report::reported;
use crate::said::Said;
use crate::scheme::log_by;
use c_tree::flat::Flat;
use command_words::scheme::SchemeName;
use deadlock_freedom::laws::stops_are_settled;
use generated_programs::laws::generated_are_ordered;
use hart_driver::drive::drive;
use ido_base::memory::OutOfMemory;
use ido_compile::laws::one_verdict;
use ido_compile::{CompileError, Compiled, compile};
use ido_outside::Gate;
use machine_events::event::Event;
use run_scripts::evictor::Evictor;
use run_scripts::generated::make_program;
use run_scripts::report::{Reported, numbers, report};
use run_tracker::life::Life;
use std::alloc::Global;
use std::sync::Wait;
use std::thread::Threads;

/// Turns of each hart in the leg.
const LOAD_TURNS: u64 = 200_000;

/// A round: a step of each hart that isn't stopped, as long as there is room. False where none was made.
fn round(life: &mut Life) -> bool
    requires room { most_leg_events ≤ length life.old.journal + (life.old.cap - length life.old.journal) }
    ensures opening { opening_of life.new ≡ opening_of life.old }
    ensures room { length life.new.journal + (life.new.cap - length life.new.journal) ≡ length life.old.journal + (life.old.cap - length life.old.journal) }
    ensures leads { LeadsTo (opening_of life.old) 0 life.old.journal 0 life.new.journal }
    ensures ends { result ≡ false → AreRounds (opening_of life.old) 0 life.new.journal [] }
    ensures goes_on { result ≡ true → (length life.old.journal < length life.new.journal) × (length life.old.journal < most_leg_events) }
{
    let before = life.events();
    for hart in 0..life.harts() {
        if life.events() < MOST_LEG_EVENTS && !life.stopped(hart) {
            life.event(Event::Step(hart));
        }
    }
    before < life.events()
}

/// Rounds, until each hart is stopped or there is no more room.
fn rounds(life: &mut Life)
    requires room { most_leg_events ≤ length life.old.journal + (life.old.cap - length life.old.journal) }
    ensures opening { opening_of life.new ≡ opening_of life.old }
    ensures rounds { HasRounds (opening_of life.old) life.old.journal life.new.journal }
{
    while round(life) {}
}

/// The sum of the ended sections.
fn sections(ended: &[u64]) -> u128
    requires { length ended.now ≤ MOST_THREADS }
    ensures { result ≡ sum ended.now }
{
    let mut sum = 0u128;
    for sections in ended {
        sum += u128::from(*sections);
    }
    sum
}

/// The sum and one number more.
fn plus(sum: i128, number: i128) -> i128
    requires least { neg_ℤ (pos (2 ^ 96)) ≤ℤ sum }
    requires greatest { sum ≤ℤ pos (2 ^ 96) }
    requires small { IsSmall number }
    ensures sum { result ≡ sum +ℤ number }
    ensures fits { FitsSigned w128 result }
{
    sum + number
}

/// Their sum.
#[tactic(auto, using(crate::proofs::Totals::sums_more, crate::proofs::Totals::sums_whole))]
fn total(numbers: &[i128]) -> i128
    requires few { length numbers.now ≤ MOST_VARIABLE_BYTES }
    requires small { All IsSmall numbers.now }
    ensures { result ≡ total numbers.now }
{
    let mut sum = 0i128;
    for number in numbers {
        sum = plus(sum, *number);
    }
    sum
}

/// The lines of two sums.
#[tactic(auto, unfolding(crate::specs::Loads::sums_text))]
fn sums_text(alloc: Global, ended: u128, total: i128) -> Result<Vec<u8>, OutOfMemory>
    ensures { IfOk result (λ text. text.items ≡ sums_text ended total) }
{
    let text = format!(in alloc; "ended {ended}\ntotal {total}\n")?;
    Ok(text.into_bytes())
}

/// The sums of a state.
fn summary(alloc: Global, state: &Reported) -> Result<Vec<u8>, OutOfMemory>
    requires { IsSummable (views.state_of state.now) }
    ensures { IfOk result (λ text. text.items ≡ settled_summary (views.state_of state.now)) }
{
    let ended = sections(&state.ended);
    let numbers = numbers(alloc, &state.variables)?;
    sums_text(alloc, ended, total(&numbers))
}

/// What is said of a state: its sums, or the harts that aren't settled.
fn say_summed(alloc: Global, state: &Reported) -> Result<Said, OutOfMemory>
    requires { IsSummable (views.state_of state.now) }
    ensures { IfOk result (λ said. IsSummary (views.state_of state.now) said.status said.output.items) }
{
    if !state.unsettled.is_empty() {
        let output = report(alloc, state)?;
        return Ok(Said { status: 3, output });
    }
    let output = summary(alloc, state)?;
    Ok(Said { status: 0, output })
}

/// What is said of a run of a compiled source.
fn loaded<R: Threads + Wait + Sync, G: Gate + Sync>(
    rt: &R,
    alloc: Global,
    compiled: &Compiled,
    gate: &G,
) -> Result<Said, OutOfMemory>
    requires translated { let made = compiled.now.translated in IsTranslatedAs made.object.log (flat_of compiled.now.flat) made.object made.marks made.cuts }
    requires compilation { IsCompilation (translation_in compiled.now) }
    ensures { IfOk result (λ said. IsLoad (translation_in compiled.now) said.status said.output.items) }
{
    let translated = &compiled.translated;
    let life = Life::new(
        alloc,
        &translated.object,
        &translated.marks,
        MOST_LEG_EVENTS,
    )?;
    let none: Option<Evictor> = None;
    let driven = drive(rt, alloc, life, LOAD_TURNS, MOST_LEG_EVENTS, none, gate)?;
    let mut life = driven.core;
    rounds(&mut life);
    let state = reported(alloc, &compiled.flat, &life)?;
    say_summed(alloc, &state)
}

/// The source that two numbers give, compiled: it breaks no rule, and its threads take locks in their order.
fn compile_generated(
    alloc: Global,
    scheme: SchemeName,
    count: u32,
    seed: u32,
) -> Result<Compiled, OutOfMemory>
    ensures compiled { IfOk result (λ compiled. IsCompiledAs (log_by scheme) (generated_source count seed) compiled) }
    ensures in_order { IfOk result (λ compiled. order_fault (flat_of compiled.flat) ≡ None) }
{
    generated_are_ordered();
    one_verdict();
    let source = make_program(alloc, count, seed)?;
    match compile(alloc, log_by(scheme), &source) {
        Ok(compiled) => Ok(compiled),
        Err(CompileError::Refused(_)) => unreachable!(),
        Err(CompileError::Memory) => Err(OutOfMemory),
    }
}

/// The answer of `load`: the sums of a run of the source that two numbers give.
pub fn load_answer<R: Threads + Wait + Sync, G: Gate + Sync>(
    rt: &R,
    alloc: Global,
    scheme: SchemeName,
    count: u32,
    seed: u32,
    gate: &G,
) -> Result<Said, OutOfMemory>
    ensures { IfOk result (λ said. LoadAnswer (log_by scheme) count seed said.status said.output.items) }
{
    stops_are_settled();
    let compiled = compile_generated(alloc, scheme, count, seed)?;
    loaded(rt, alloc, &compiled, gate)
}
