//! The command `seeded`: a drawn run of a compiled source.
ghost use Rattle.std.specs.Prelude.{◌≤◌, length, IfOk};
ghost use Rattle.ido_base.specs.declared.limits.TheConstants.{MOST_SOURCE_BYTES};
ghost use Rattle.c_tree.specs.Flats.{flat_of};
ghost use Rattle.flat_compile.specs.TranslatedForms.{IsTranslatedAs};
ghost use Rattle.compiler_correctness.specs.Compilations.{IsCompilation};
ghost use Rattle.ido_compile.specs.CompileAnswers.{translation_in};
ghost use Rattle.ido_cli.specs.Answers.{IsTold, SeededAnswer};
ghost use Rattle.ido_cli.specs.Draws.{drawn_by};

use crate::live::told;
use crate::refusal::source_refused;
use crate::said::Said;
use ido_base::limits::LINE_BYTES;
use ido_base::memory::OutOfMemory;
use ido_compile::{Compiled, compile};
use log_schemes::log::Log;
use run_scripts::draw::draw;
use run_scripts::events::make_events;
use run_tracker::life::Life;
use std::alloc::Global;

/// What is said of a drawn run of a compiled source: its report or its journal.
fn drawn_answer(
    alloc: Global,
    source: &[u8],
    compiled: &Compiled,
    seed: u64,
    turns: u32,
    crashes: &[u64],
    journal: bool,
) -> Result<Said, OutOfMemory>
    requires translated { let made = compiled.now.translated in IsTranslatedAs made.object.log (flat_of compiled.now.flat) made.object made.marks made.cuts }
    requires compilation { IsCompilation (translation_in compiled.now) }
    ensures { IfOk result (λ said.
        IsTold journal source.now (translation_in compiled.now) (drawn_by (translation_in compiled.now) seed turns crashes.now) said.status
        said.output.items) }
{
    let object = &compiled.translated.object;
    let threads = object.code.len() as u32;
    let bytes = object.initial.len() as u64;
    let lines = ((bytes + (LINE_BYTES - 1)) / LINE_BYTES) as u32;
    let events = draw(
        alloc,
        seed,
        u64::from(turns),
        crashes,
        object.log,
        threads,
        lines,
    )?;
    let count = events.len() as u64;
    let mut life = Life::new(alloc, object, &compiled.translated.marks, count)?;
    make_events(&mut life, &events);
    told(alloc, journal, source, &compiled.flat, &life)
}

/// The answer to a source text: the report or the journal of its drawn run, with so many draws and a crash after each of these numbers of them.
pub fn seeded_answer(
    alloc: Global,
    log: Log,
    source: &[u8],
    seed: u64,
    turns: u32,
    crashes: &[u64],
    journal: bool,
) -> Result<Said, OutOfMemory>
    requires { length source.now ≤ MOST_SOURCE_BYTES }
    ensures { IfOk result (λ said. SeededAnswer log seed turns crashes.now journal source.now said.status said.output.items) }
{
    match compile(alloc, log, source) {
        Ok(compiled) => drawn_answer(alloc, source, &compiled, seed, turns, crashes, journal),
        Err(error) => source_refused(alloc, source, error),
    }
}
