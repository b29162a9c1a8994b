//! The command `live`: a run of a compiled source on threads.
ghost use Rattle.std.specs.Prelude.{◌≡◌, ◌+◌, ◌-◌, ◌/◌, ◌<◌, ◌≤◌, ◌^◌, ℕ, [], length, map, IfOk, IfSome};
ghost use Rattle.ido_base.specs.declared.limits.TheConstants.{LINE_BYTES, MOST_SOURCE_BYTES, MOST_THREADS, MOST_VARIABLE_BYTES};
ghost use Rattle.c_tree.specs.Flats.{flat_of};
ghost use Rattle.c_tree.specs.WellFormed.{shape_of};
ghost use Rattle.memory_layout.specs.Variables.{HaveRoom};
ghost use Rattle.machine_model.specs.Machine.{IsEviction};
ghost use Rattle.flat_compile.specs.TranslatedForms.{IsTranslatedAs};
ghost use Rattle.compiler_correctness.specs.Compilations.{IsCompilation};
ghost use Rattle.hart_driver.specs.Driven.{evictions_of as coming_of};
ghost use Rattle.ido_compile.specs.CompileAnswers.{translation_in};
ghost use Rattle.run_scripts.specs.links.Evictors.{evictions_of};
ghost use Rattle.run_scripts.specs.Journals.{journal_text};
ghost use Rattle.run_tracker.specs.ObjectLives.{steps_in, world_of};
ghost use Rattle.ido_cli.specs.Answers.{LiveAnswer};
ghost use Rattle.ido_cli.specs.Reports.{machine_state};
ghost use Rattle.ido_cli.specs.Runs.{IsReport};
ghost use Rattle.ido_cli.specs.Schemes.{log_by};
ghost use Rattle.ido_cli.specs.ThreadedRuns.{evictions_at, most_leg_events};
ghost use Rattle.ido_cli.specs.links.CountedSections.{CountsSections};
ghost use Rattle.ido_cli.specs.links.LegRuns.{CanRun, HasCrashed, HasRunLegs, IsLiveRun, IsSaidOf};

use crate::refusal::source_refused;
use crate::report::say;
use crate::said::Said;
use crate::scheme::log_by;
use c_tree::flat::Flat;
use command_words::scheme::SchemeName;
use hart_driver::drive::drive;
use ido_base::limits::LINE_BYTES;
use ido_base::memory::OutOfMemory;
use ido_compile::{Compiled, compile};
use ido_outside::Gate;
use machine_events::event::Event;
use machine_model::object::Object;
use run_scripts::evictor::Evictor;
use run_scripts::journal::journal_text;
use run_tracker::life::Life;
use std::alloc::Global;
use std::sync::Wait;
use std::thread::Threads;

/// Events of a run at most, crashes apart.
pub const MOST_LEG_EVENTS: u64 = 3_999_000;

/// What is asked of a run on threads.
#[derive(Clone, Copy)]
pub struct LiveRun<'a> {
    /// Turns of each worker in a leg.
    pub turns: u32,
    /// Of each leg but the last the crash word.
    pub crashes: &'a [u64],
    /// The seed of evictions, where there are to be any.
    pub evict: Option<u64>,
    /// The journal is written in place of the report.
    pub journal: bool,
    /// By which scheme its threads log.
    pub scheme: SchemeName,
}

/// The evictions of a seed for the threads of an object, where there are any.
fn evictor(seed: Option<u64>, object: &Object) -> Option<Evictor>
    requires threads { length object.now.code.items ≤ MOST_THREADS }
    requires bytes { length object.now.initial.items ≤ MOST_VARIABLE_BYTES }
    ensures drawn { coming_of evictions_of result ≡
        evictions_at object.now.log (length object.now.code.items) ((length object.now.initial.items + (LINE_BYTES - 1)) / LINE_BYTES) seed }
    ensures valid { IfSome result (λ v. (n : ℕ) → IsEviction object.now.log (length object.now.code.items) (evictions_of v n).0 (evictions_of v n).1) }
{
    let threads = object.code.len() as u32;
    if threads == 0 {
        return None;
    }
    let bytes = object.initial.len() as u64;
    let lines = ((bytes + (LINE_BYTES - 1)) / LINE_BYTES) as u32;
    match seed {
        Some(seed) => Some(Evictor::new(seed, object.log, threads, lines)),
        None => None,
    }
}

/// A life between legs, and the evictions that are still to come.
#[derive(Drop)]
struct Run {
    life: Life,
    evict: Option<Evictor>,
}

/// A leg that ends so many events after its beginning at the latest, and where there are so many in all; and a crash.
fn crashed_leg<R: Threads + Wait + Sync, G: Gate + Sync>(
    rt: &R,
    alloc: Global,
    run: Run,
    turns: u32,
    word: u64,
    most: u64,
    gate: &G,
) -> Result<Run, OutOfMemory>
    requires can { CanRun (most + 1) run }
    requires within { length run.life.journal ≤ most }
    ensures { IfOk result (λ left. HasCrashed turns word most run left) }
{
    let moment = run.life.events().saturating_add(word).min(most);
    let driven = drive(
        rt,
        alloc,
        run.life,
        u64::from(turns),
        moment,
        run.evict,
        gate,
    )?;
    let mut life = driven.core;
    life.event(Event::Crash);
    Ok(Run {
        life,
        evict: driven.evict,
    })
}

/// For each crash word a leg and a crash, and then a last leg.
fn run_legs<R: Threads + Wait + Sync, G: Gate + Sync>(
    rt: &R,
    alloc: Global,
    run: Run,
    turns: u32,
    crashes: &[u64],
    gate: &G,
) -> Result<Life, OutOfMemory>
    requires begins { run.life.journal ≡ [] }
    requires can { CanRun (most_leg_events + length crashes.now) run }
    ensures { IfOk result (λ life. HasRunLegs turns crashes.now run life) }
{
    let mut run = run;
    let mut most = MOST_LEG_EVENTS;
    for word in crashes {
        run = crashed_leg(rt, alloc, run, turns, *word, most, gate)?;
        most += 1;
    }
    let driven = drive(rt, alloc, run.life, u64::from(turns), most, run.evict, gate)?;
    Ok(driven.core)
}

/// The report of a life, or an input that plays its journal again.
pub(crate) fn told(
    alloc: Global,
    journal: bool,
    source: &[u8],
    flat: &Flat,
    life: &Life,
) -> Result<Said, OutOfMemory>
    requires room { HaveRoom (map shape_of (flat_of flat.now).variables) }
    requires harts { length (world_of life.now).harts ≡ length life.now.runs.program }
    requires counted { CountsSections (flat_of flat.now) life.now }
    ensures { IfOk result (λ said. IsSaidOf journal source.now (flat_of flat.now) life.now said.status said.output.items) }
{
    if !journal {
        return say(alloc, flat, life);
    }
    let events = life.journal(alloc)?;
    let output = journal_text(alloc, source, &events)?;
    Ok(Said { status: 0, output })
}

/// What is said of a run of a compiled source.
fn ran<R: Threads + Wait + Sync, G: Gate + Sync>(
    rt: &R,
    alloc: Global,
    source: &[u8],
    compiled: &Compiled,
    asked: LiveRun<'_>,
    gate: &G,
) -> Result<Said, OutOfMemory>
    requires translated { let made = compiled.now.translated in IsTranslatedAs made.object.log (flat_of compiled.now.flat) made.object made.marks made.cuts }
    requires compilation { IsCompilation (translation_in compiled.now) }
    ensures { IfOk result (λ said.
        IsLiveRun (translation_in compiled.now) asked.entry.turns asked.entry.crashes.now asked.entry.evict asked.entry.journal
        source.now said.status said.output.items) }
{
    let object = &compiled.translated.object;
    let cap = MOST_LEG_EVENTS + asked.crashes.len() as u64;
    let life = Life::new(alloc, object, &compiled.translated.marks, cap)?;
    let run = Run {
        life,
        evict: evictor(asked.evict, object),
    };
    let life = run_legs(rt, alloc, run, asked.turns, asked.crashes, gate)?;
    told(alloc, asked.journal, source, &compiled.flat, &life)
}

/// The answer to a source text: the report or the journal of its run on threads.
pub fn live_answer<R: Threads + Wait + Sync, G: Gate + Sync>(
    rt: &R,
    alloc: Global,
    source: &[u8],
    asked: LiveRun<'_>,
    gate: &G,
) -> Result<Said, OutOfMemory>
    requires { length source.now ≤ MOST_SOURCE_BYTES }
    ensures { IfOk result (λ said.
        LiveAnswer (log_by asked.entry.scheme) asked.entry.turns asked.entry.crashes.now asked.entry.evict asked.entry.journal source.now
        said.status said.output.items) }
{
    match compile(alloc, log_by(asked.scheme), source) {
        Ok(compiled) => ran(rt, alloc, source, &compiled, asked, gate),
        Err(error) => source_refused(alloc, source, error),
    }
}
