//! The command `sweep`: what becomes of a script's run where power is lost, at each of its points.
ghost use Rattle.std.specs.Prelude.{◌≡◌, ◌≤◌, ◌+◌, ℕ, length, IfOk, Ok};
ghost use denote.Param.Send.{IsSync};
ghost use Rattle.ido_cli.specs.contracts.sweep.CrashPoints.{the_row};
ghost use Rattle.hart_driver.specs.Outcomes.{AreOutcomes};
ghost use Rattle.ido_base.specs.declared.limits.TheConstants.{MOST_INPUT_BYTES, MOST_SOURCE_BYTES};
ghost use Rattle.ido_compile.specs.CompileAnswers.{IsCompiledAs, translation_in};
ghost use Rattle.ido_cli.specs.Inputs.{source_of, rest_of};
ghost use Rattle.ido_cli.specs.Answers.{SweepAnswer};
ghost use Rattle.ido_cli.specs.Plays.{events_by};
ghost use Rattle.ido_cli.specs.Refusals.{IsRefusedAt, play_fault_code, play_fault_place};
ghost use Rattle.run_scripts.specs.links.ScriptViews as scripts;
ghost use Rattle.ido_cli.specs.Sweeps.{IsSweep, IsTable, SweptScript, are_settled, reports_of, status_of};
ghost use Rattle.ido_cli.specs.links.CrashPoints.{CanSweep, HasAllPoints, HasLivedTo, HasPoint, IsCounted, IsOutcomeAt, lines_in, translation_at};

use crate::play::script_refused;
use crate::refusal::{refused_at, source_refused};
use crate::report::say;
use crate::said::Said;
use crate::table::table;
use c_tree::flat::Flat;
use flat_compile::Translated;
use hart_driver::report::Report;
use hart_driver::sweep::{Outcome, Replay, sweep};
use ido_base::limits::MOST_EVENTS;
use ido_base::memory::OutOfMemory;
use ido_compile::{Compiled, compile};
use ido_outside::Gate;
use log_schemes::log::Log;
use machine_events::event::Event;
use run_scripts::few::{Excess, play_few};
use run_scripts::play::play;
use run_scripts::rounds::make_rounds;
use run_scripts::script::{Script, read_script};
use run_tracker::life::Life;
use std::alloc::Global;
use std::thread::Threads;

/// Events of the script at most.
const MOST_SWEEP_EVENTS: u64 = 10_000;

/// Steps after a crash at most.
const MOST_ROUND_STEPS: u64 = 1_000_000;

/// A source's flat form and what a machine runs for it, and a script, at each of whose points power may be lost.
#[derive(Drop)]
struct CrashPoints {
    alloc: Global,
    flat: Flat,
    translated: Translated,
    script: Script,
}

/// The life after so many of the script's events, a crash, and rounds.
fn life_after(points: &CrashPoints, k: u32) -> Result<Life, OutOfMemory>
    requires { HasPoint points.now k }
    ensures { IfOk result (λ life. HasLivedTo points.now k life) }
{
    let translated = &points.translated;
    let most = u64::from(k);
    let cap = most + MOST_ROUND_STEPS + 1;
    let mut life = Life::new(points.alloc, &translated.object, &translated.marks, cap)?;
    let _all = play(&points.script, &mut life, most);
    life.event(Event::Crash);
    make_rounds(&mut life, MOST_ROUND_STEPS);
    Ok(life)
}

/// What becomes of the run where power is lost after so many of its events.
fn outcome_after(points: &CrashPoints, k: u32) -> Result<Outcome, OutOfMemory>
    requires { HasPoint points.now k }
    ensures { IfOk result (λ o. IsOutcomeAt points.now k o) }
{
    let life = life_after(points, k)?;
    let said = say(points.alloc, &points.flat, &life)?;
    let report = Report::new(points.alloc, said.output)?;
    Ok(Outcome {
        settled: said.status == 0,
        report,
    })
}

impl Replay for CrashPoints {
    ghost use Rattle.ido_cli.specs.links.CrashPoints.{HasPoint, IsOutcomeAt};

    ghost has_point = { HasPoint };

    ghost is_outcome = { IsOutcomeAt };

    fn outcome(&self, k: u32) -> Result<Outcome, OutOfMemory> {
        outcome_after(self, k)
    }
}

/// Each of them is settled.
fn are_settled(outcomes: &[Outcome]) -> bool
    ensures { result ≡ are_settled outcomes.now }
{
    for outcome in outcomes {
        if !outcome.settled {
            return false;
        }
    }
    true
}

/// What is said of outcomes: their table, with the status that says whether each of them is settled.
fn say_outcomes(alloc: Global, outcomes: &[Outcome]) -> Result<Said, OutOfMemory>
    ensures { IfOk result (λ said. (said.status ≡ status_of (are_settled outcomes.now)) × IsTable 0 (reports_of outcomes.now) said.output.items) }
{
    let output = table(alloc, outcomes)?;
    let status = if are_settled(outcomes) { 0 } else { 3 };
    Ok(Said { status, output })
}

/// Nothing is done: that threads may share it is told to the call after it.
fn is_shared<P: Sync>(_it: &P)
    ensures { IsSync P.row }
{}

/// Nothing is done: that threads may share the points is told to the call after it.
fn are_shared(points: &CrashPoints)
    ensures { IsSync the_row }
{
    is_shared(&points.flat);
    is_shared(&points.translated);
    is_shared(&points.script);
    is_shared(points)
}

/// What becomes of the run at each point up to this one.
fn all_outcomes<R: Threads + Sync, G: Gate + Sync>(
    rt: &R,
    points: &CrashPoints,
    last: u32,
    gate: &G,
) -> Result<Vec<Outcome>, OutOfMemory>
    requires { (k : ℕ) → k ≤ last → HasPoint points.now k }
    ensures { IfOk result (λ outcomes. AreOutcomes (IsOutcomeAt points.now) 0 (last + 1) outcomes.items) }
{
    are_shared(points);
    sweep(rt, points.alloc, points, last, gate)
}

/// What is said of all points, up to the one after so many events.
fn swept<R: Threads + Sync, G: Gate + Sync>(
    rt: &R,
    points: &CrashPoints,
    last: u32,
    gate: &G,
) -> Result<Said, OutOfMemory>
    requires { HasAllPoints points.now last }
    ensures { IfOk result (λ said.
        IsSweep (translation_at points.now) (events_by (translation_at points.now) (lines_in points.now.script)) said.status said.output.items) }
{
    let outcomes = all_outcomes(rt, points, last, gate)?;
    say_outcomes(points.alloc, &outcomes)
}

/// How many events a script makes, or why it is refused.
fn count_events(
    alloc: Global,
    compiled: &Compiled,
    script: &Script,
) -> Result<Result<u32, Excess>, OutOfMemory>
    requires { CanSweep compiled.now.flat compiled.now.translated script.now }
    ensures { IfOk result (λ counted. IsCounted (translation_in compiled.now) script.now counted) }
{
    let translated = &compiled.translated;
    let mut life = Life::new(alloc, &translated.object, &translated.marks, MOST_EVENTS)?;
    match play_few(script, &mut life, MOST_SWEEP_EVENTS) {
        Ok(()) => Ok(Ok(life.events() as u32)),
        Err(excess) => Ok(Err(excess)),
    }
}

/// What is said of a script of so many events.
fn sweep_all<R: Threads + Sync, G: Gate + Sync>(
    rt: &R,
    alloc: Global,
    compiled: Compiled,
    script: Script,
    last: u32,
    gate: &G,
) -> Result<Said, OutOfMemory>
    requires can { CanSweep compiled.flat compiled.translated script }
    requires all { IsCounted (translation_in compiled) script (Ok last) }
    ensures { IfOk result (λ said.
        IsSweep (translation_in compiled) (events_by (translation_in compiled) (lines_in script)) said.status said.output.items) }
{
    let Compiled {
        flat,
        translated,
        ..
    } = compiled;
    let points = CrashPoints {
        alloc,
        flat,
        translated,
        script,
    };
    swept(rt, &points, last, gate)
}

/// The refusal of a script that begins at a place of an input, by what was found while its events were counted.
fn excess_refused(
    alloc: Global,
    input: &[u8],
    begins: u64,
    excess: Excess,
) -> Result<Said, OutOfMemory>
    requires short { length input.now ≤ MOST_INPUT_BYTES }
    requires within { begins ≤ length input.now }
    ensures { IfOk result (λ said. let x = scripts.few_fault_of excess in
        IsRefusedAt 6 (play_fault_code x) input.now (begins + play_fault_place x) said.status said.output.items) }
{
    let (code, place) = match excess {
        Excess::Script(place) => ("E1", place),
        Excess::Start(place) => ("E6", place),
        Excess::Few(place) => ("E7", place),
    };
    refused_at(alloc, 6, code, input, begins + u64::from(place.0))
}

/// What is said of a script, which begins at a place of an input.
fn script_answer<R: Threads + Sync, G: Gate + Sync>(
    rt: &R,
    alloc: Global,
    compiled: Compiled,
    script: Script,
    input: &[u8],
    begins: u64,
    gate: &G,
) -> Result<Said, OutOfMemory>
    requires short { length input.now ≤ MOST_INPUT_BYTES }
    requires within { begins ≤ length input.now }
    requires can { CanSweep compiled.flat compiled.translated script }
    ensures { IfOk result (λ said. SweptScript (translation_in compiled)
        (record { lines = lines_in script; input = input.now; begins = begins }) said.status said.output.items) }
{
    match count_events(alloc, &compiled, &script)? {
        Ok(last) => sweep_all(rt, alloc, compiled, script, last, gate),
        Err(excess) => excess_refused(alloc, input, begins, excess),
    }
}

/// What is said of a compiled source and the text of a script, which ends an input.
fn compiled_answer<R: Threads + Sync, G: Gate + Sync>(
    rt: &R,
    alloc: Global,
    compiled: Compiled,
    input: &[u8],
    rest: &[u8],
    gate: &G,
) -> Result<Said, OutOfMemory>
    requires short { length input.now ≤ MOST_INPUT_BYTES }
    requires rest { rest.now ≡ rest_of input.now }
    requires compiled { IsCompiledAs compiled.translated.object.log (source_of input.now) compiled }
    ensures { IfOk result (λ said. SweepAnswer compiled.translated.object.log input.now said.status said.output.items) }
{
    let begins = (input.len() - rest.len()) as u64;
    match read_script(
        alloc,
        rest,
        compiled.translated.object.log,
        compiled.translated.object.code.len() as u32,
    ) {
        Ok(script) => script_answer(rt, alloc, compiled, script, input, begins, gate),
        Err(error) => script_refused(alloc, input, begins, error),
    }
}

/// The answer to an input of `sweep`, from its source text and what stands after it.
pub fn sweep_answer<R: Threads + Sync, G: Gate + Sync>(
    rt: &R,
    alloc: Global,
    log: Log,
    input: &[u8],
    source: &[u8],
    rest: &[u8],
    gate: &G,
) -> Result<Said, OutOfMemory>
    requires short { length input.now ≤ MOST_INPUT_BYTES }
    requires short_source { length source.now ≤ MOST_SOURCE_BYTES }
    requires source { source.now ≡ source_of input.now }
    requires rest { rest.now ≡ rest_of input.now }
    ensures { IfOk result (λ said. SweepAnswer log input.now said.status said.output.items) }
{
    match compile(alloc, log, source) {
        Ok(compiled) => compiled_answer(rt, alloc, compiled, input, rest, gate),
        Err(error) => source_refused(alloc, source, error),
    }
}
