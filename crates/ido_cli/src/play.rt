//! The commands `play` and `image`: a run of the compiled source by a script.
ghost use Rattle.std.specs.Prelude.{◌≡◌, ◌+◌, ◌≤◌, ◌++◌, All, length, map, IfOk, IfSome, IsSome};
ghost use Rattle.ido_base.specs.declared.limits.TheConstants.{MOST_EVENTS, MOST_INPUT_BYTES, MOST_SOURCE_BYTES};
ghost use Rattle.c_tree.specs.Flats.{flat_of};
ghost use Rattle.c_tree.specs.WellFormed.{shape_of};
ghost use Rattle.flat_compile.specs.TranslatedForms.{IsTranslatedAs};
ghost use Rattle.machine_model.specs.Machine.{IsEviction};
ghost use Rattle.machine_model.specs.Schedule.{schedules};
ghost use Rattle.memory_layout.specs.Variables.{HaveRoom};
ghost use Rattle.run_scripts.specs.Reports.{fence_lines};
ghost use Rattle.run_scripts.specs.Scripts.{IsDoable};
ghost use Rattle.run_scripts.specs.links.ScriptViews as scripts;
ghost use Rattle.compiler_correctness.specs.Compilations.{IsCompilation};
ghost use Rattle.ido_compile.specs.CompileAnswers.{IsCompiledAs, translation_in};
ghost use Rattle.ido_cli.specs.Answers.{ScriptedAnswer};
ghost use Rattle.ido_cli.specs.Inputs.{source_of, rest_of};
ghost use Rattle.ido_cli.specs.Plays.{ScriptAnswer};
ghost use Rattle.ido_cli.specs.Refusals.{IsRefusedAt, play_fault_code, play_fault_place, script_fault_code, script_fault_place};
ghost use Rattle.ido_cli.specs.Reports.{machine_state};
ghost use Rattle.ido_cli.specs.links.CountedSections.{CountsSections};
ghost use Rattle.ido_cli.specs.links.FencedReports.{IsReportWith, fences_in};
ghost use Rattle.ido_cli.specs.links.PlayedLives.{HasPlayed};
ghost use Rattle.ido_cli.specs.links.RunRequests.{Says, TellsLives};
ghost use Rattle.run_tracker.specs.ObjectLives.{steps_in, world_of};

use crate::image::image;
use crate::refusal::{refused_at, source_refused};
use crate::report::say;
use crate::said::Said;
use c_tree::flat::Flat;
use ido_base::limits::MOST_EVENTS;
use ido_base::memory::OutOfMemory;
use ido_compile::{Compiled, compile};
use log_schemes::log::Log;
use run_scripts::bounds::script_bound;
use run_scripts::play::{PlayError, play};
use run_scripts::report::put_fences;
use run_scripts::script::{Script, ScriptError, ScriptFault, read_script};
use run_tracker::life::Life;
use std::alloc::Global;

/// What is asked of the run of a script.
#[derive(Clone, Copy)]
pub enum Asked {
    /// The report of the run, and how many fences each hart has finished, where that is asked.
    Report { fences: bool },
    /// The image that a crash after the run would leave.
    Image,
}

/// The refusal of a script that begins at a place of an input, by what was found while it was played.
fn play_refused(
    alloc: Global,
    input: &[u8],
    begins: u64,
    error: PlayError,
) -> Result<Said, OutOfMemory>
    requires short { length input.now ≤ MOST_INPUT_BYTES }
    requires within { begins ≤ length input.now }
    ensures { IfOk result (λ said. let x = scripts.play_fault_of error in
        IsRefusedAt 6 (play_fault_code x) input.now (begins + play_fault_place x) said.status said.output.items) }
{
    let (code, place) = match error {
        PlayError::Many(place) => ("E1", place),
        PlayError::Start(place) => ("E6", place),
    };
    refused_at(alloc, 6, code, input, begins + u64::from(place.0))
}

/// How many fences each hart of a life has finished.
fn finished(alloc: Global, life: &Life) -> Result<Vec<u64>, OutOfMemory>
    ensures { IfOk result (λ fences. fences.items ≡ fences_in life.now) }
{
    let mut fences = Vec::new(alloc);
    for hart in 0..life.harts() {
        fences.push(life.fences(hart))?;
    }
    Ok(fences)
}

/// What is said, with the fences of each hart behind it.
fn with_fences(alloc: Global, life: &Life, said: Said) -> Result<Said, OutOfMemory>
    ensures { IfOk result (λ all. (all.status ≡ said.status) × (all.output.items ≡ said.output.items ++ fence_lines (fences_in life.now))) }
{
    let fences = finished(alloc, life)?;
    let Said { status, mut output } = said;
    put_fences(alloc, &mut output, &fences)?;
    Ok(Said { status, output })
}

/// What is said of a life that has counted its sections, with the fences of each hart, where they are asked for and each hart is settled.
fn say_played(alloc: Global, fences: bool, flat: &Flat, life: &Life) -> Result<Said, OutOfMemory>
    requires room { HaveRoom (map shape_of (flat_of flat.now).variables) }
    requires harts { length (world_of life.now).harts ≡ length life.now.runs.program }
    requires counted { CountsSections (flat_of flat.now) life.now }
    ensures { IfOk result (λ said. IsReportWith fences (machine_state (flat_of flat.now) (world_of life.now) (schedules (steps_in life.now)))
        (fences_in life.now) said.status said.output.items) }
{
    let said = say(alloc, flat, life)?;
    if fences && said.status == 0 {
        with_fences(alloc, life, said)
    } else {
        Ok(said)
    }
}

/// What is said of a life of a compiled source, by what is asked of it.
fn say_asked(
    alloc: Global,
    asked: Asked,
    compiled: &Compiled,
    life: &Life,
) -> Result<Said, OutOfMemory>
    requires tells { TellsLives compiled.now.translated.object.log }
    requires translated { let made = compiled.now.translated in IsTranslatedAs made.object.log (flat_of compiled.now.flat) made.object made.marks made.cuts }
    requires compilation { IsCompilation (translation_in compiled.now) }
    requires short_source { length compiled.now.text.items ≤ MOST_SOURCE_BYTES }
    requires played { HasPlayed compiled.now.translated.object compiled.now.translated.marks life.now life.now.journal }
    requires few { length life.now.journal ≤ MOST_EVENTS }
    ensures { IfOk result (λ said.
        Says asked compiled.now.text.items (translation_in compiled.now) life.now.journal said.status said.output.items) }
{
    match asked {
        Asked::Report { fences } => say_played(alloc, fences, &compiled.flat, life),
        Asked::Image => image(alloc, &compiled.text, &compiled.translated.object, life),
    }
}

/// What is said of the run of a script, which begins at a place of an input.
fn script_answer(
    alloc: Global,
    asked: Asked,
    compiled: &Compiled,
    script: &Script,
    input: &[u8],
    begins: u64,
) -> Result<Said, OutOfMemory>
    requires short { length input.now ≤ MOST_INPUT_BYTES }
    requires within { begins ≤ length input.now }
    requires tells { TellsLives compiled.now.translated.object.log }
    requires translated { let made = compiled.now.translated in IsTranslatedAs made.object.log (flat_of compiled.now.flat) made.object made.marks made.cuts }
    requires compilation { IsCompilation (translation_in compiled.now) }
    requires short_source { length compiled.now.text.items ≤ MOST_SOURCE_BYTES }
    requires doable { let object = compiled.now.translated.object in
        All (λ line. IsDoable (length object.code.items) (IsEviction object.log (length object.code.items)) line.command) script.now.lines.items }
    ensures { IfOk result (λ said. ScriptAnswer (translation_in compiled.now)
        (Says asked compiled.now.text.items (translation_in compiled.now))
        (record { lines = map scripts.line_of script.now.lines.items; input = input.now; begins = begins }) said.status said.output.items) }
{
    let cap = script_bound(script, MOST_EVENTS as u32);
    let mut life = Life::new(
        alloc,
        &compiled.translated.object,
        &compiled.translated.marks,
        cap,
    )?;
    match play(script, &mut life, cap) {
        Ok(()) => say_asked(alloc, asked, compiled, &life),
        Err(error) => play_refused(alloc, input, begins, error),
    }
}

/// The refusal of a script that begins at a place of an input.
pub fn script_refused(
    alloc: Global,
    input: &[u8],
    begins: u64,
    error: ScriptError,
) -> Result<Said, OutOfMemory>
    requires short { length input.now ≤ MOST_INPUT_BYTES }
    requires within { begins ≤ length input.now }
    ensures fault { IfOk result (λ said. IsSome (scripts.refused_fault error)) }
    ensures said { IfOk result (λ said. IfSome (scripts.refused_fault error) (λ x.
        IsRefusedAt 6 (script_fault_code x) input.now (begins + script_fault_place x) said.status said.output.items)) }
{
    let (code, place) = match error {
        ScriptError::Refused(ScriptFault::Word(place)) => ("E2", place),
        ScriptError::Refused(ScriptFault::Number(place)) => ("E3", place),
        ScriptError::Refused(ScriptFault::Hart(place)) => ("E4", place),
        ScriptError::Refused(ScriptFault::Line(place)) => ("E5", place),
        ScriptError::Memory => return Err(OutOfMemory),
    };
    refused_at(alloc, 6, code, input, begins + u64::from(place.0))
}

/// What is said of a compiled source and the text of a script, which ends an input.
fn compiled_answer(
    alloc: Global,
    asked: Asked,
    compiled: &Compiled,
    input: &[u8],
    rest: &[u8],
) -> Result<Said, OutOfMemory>
    requires short { length input.now ≤ MOST_INPUT_BYTES }
    requires rest { rest.now ≡ rest_of input.now }
    requires short_source { length (source_of input.now) ≤ MOST_SOURCE_BYTES }
    requires tells { TellsLives compiled.now.translated.object.log }
    requires compiled { IsCompiledAs compiled.now.translated.object.log (source_of input.now) compiled.now }
    ensures { IfOk result (λ said.
        ScriptedAnswer compiled.now.translated.object.log (Says asked (source_of input.now)) input.now said.status said.output.items) }
{
    let begins = (input.len() - rest.len()) as u64;
    match read_script(
        alloc,
        rest,
        compiled.translated.object.log,
        compiled.translated.object.code.len() as u32,
    ) {
        Ok(script) => script_answer(alloc, asked, compiled, &script, input, begins),
        Err(error) => script_refused(alloc, input, begins, error),
    }
}

/// The answer to an input of `play` or of `image`, from its source text and what stands after it.
pub fn scripted_answer(
    alloc: Global,
    log: Log,
    asked: Asked,
    input: &[u8],
    source: &[u8],
    rest: &[u8],
) -> Result<Said, OutOfMemory>
    requires short { length input.now ≤ MOST_INPUT_BYTES }
    requires short_source { length source.now ≤ MOST_SOURCE_BYTES }
    requires source { source.now ≡ source_of input.now }
    requires rest { rest.now ≡ rest_of input.now }
    requires tells { TellsLives log }
    ensures { IfOk result (λ said. ScriptedAnswer log (Says asked (source_of input.now)) input.now said.status said.output.items) }
{
    match compile(alloc, log, source) {
        Ok(compiled) => compiled_answer(alloc, asked, &compiled, input, rest),
        Err(error) => source_refused(alloc, source, error),
    }
}
