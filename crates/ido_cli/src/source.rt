//! The command `source`: the source's own run.
ghost use Rattle.std.specs.Prelude.{◌≡◌, ◌+◌, ◌-◌, ◌<◌, ◌≤◌, ◌^◌, ℕ, length, map, sum_by, take, drop, IfOk, IfSome, IsSome};
ghost use Rattle.ido_base.specs.declared.limits.TheConstants.{MOST_INPUT_BYTES, MOST_SOURCE_BYTES, MOST_STEPS, MOST_THREADS};
ghost use Rattle.ido_compile.specs.LoggedTexts.{IsAcceptedAs};
ghost use Rattle.flat_compile.specs.TranslatedForms.{command_log};
ghost use Rattle.c_tree.specs.Flats.{flat_of};
ghost use Rattle.c_tree.specs.Programs.{variable_of};
ghost use Rattle.c_tree.specs.Source as m;
ghost use Rattle.run_scripts.specs.links.ReportViews as views;
ghost use Rattle.run_scripts.specs.links.WordLengths as words;
ghost use Rattle.source_machine.specs.Lives.{after_lives, ended_lives};
ghost use Rattle.source_machine.specs.links.States.{RepresentsState, threads_in};
ghost use Rattle.ido_cli.specs.Answers.{SourceAnswer};
ghost use Rattle.ido_cli.specs.Inputs.{source_of, rest_of};
ghost use Rattle.ido_cli.specs.Refusals.{IsRefusedAt, fault_code, fault_place};
ghost use Rattle.ido_cli.specs.Runs.{IsReport, RunAnswer, counted, run_state, taken, unsettled_threads, variable_with};

use crate::refusal::{refused_at, refused_at_step, source_refused, stop_code};
use crate::report::say_reported;
use crate::said::Said;
use crate::scheme::COMMAND_LOG;
use c_tree::flat::Flat;
use ido_base::memory::OutOfMemory;
use ido_compile::front;
use run_scripts::report::{Reported, Variable, reported_elements};
use run_scripts::schedule::{ScheduleError, read_schedule};
use source_machine::SourceState;
use source_machine::laws::lives_stop_once;
use std::alloc::Global;

/// The threads that hold a mutex, ascending.
fn unsettled(alloc: Global, state: &SourceState) -> Result<Vec<u32>, OutOfMemory>
    requires { threads_in state.now < 2 ^ 32 }
    ensures { IfOk result (λ threads. (s : m.State) (ended : ℕ → ℕ) → RepresentsState state.now s ended → threads.items ≡ unsettled_threads s) }
{
    let mut threads = Vec::new(alloc);
    for thread in 0..state.threads() as u32 {
        if !state.between(thread) {
            threads.push(thread)?;
        }
    }
    Ok(threads)
}

/// How many sections of each thread have ended.
pub fn ended(alloc: Global, state: &SourceState) -> Result<Vec<u64>, OutOfMemory>
    requires { threads_in state.now < 2 ^ 32 }
    ensures { IfOk result (λ sections. (s : m.State) (ended : ℕ → ℕ) → RepresentsState state.now s ended → sections.items ≡ counted ended (length s.threads)) }
{
    let mut sections = Vec::new(alloc);
    for thread in 0..state.threads() as u32 {
        sections.push(state.ended_sections(thread))?;
    }
    Ok(sections)
}

/// The first so many elements, or all where there are fewer, and those after them.
#[tactic(auto, using(crate::proofs::GatheredReports::take_min, crate::proofs::GatheredReports::drop_min))]
fn split_prefix(elements: &[i128], count: usize) -> (&[i128], &[i128])
    ensures prefix { result.0.now ≡ take count elements.entry.now }
    ensures after { result.1.now ≡ drop count elements.entry.now }
{
    elements.split_at(count.min(elements.len()))
}

/// A variable with the numbers of its elements.
fn with_elements(
    alloc: Global,
    declared: &c_tree::program::Variable,
    elements: &[i128],
) -> Result<Variable, OutOfMemory>
    ensures { IfOk result (λ x. views.variable_of x ≡ variable_with (variable_of declared.now) elements.now) }
{
    Ok(Variable {
        name: declared.name.text.clone()?,
        elements: reported_elements(alloc, declared.refers, elements)?,
    })
}

/// Variables with the numbers of their elements, of which those of all stand one after the other.
fn variables(
    alloc: Global,
    declared: &[c_tree::program::Variable],
    elements: &[i128],
) -> Result<Vec<Variable>, OutOfMemory>
    ensures { IfOk result (λ found. map views.variable_of found.items ≡ taken (map variable_of declared.now) elements.now) }
{
    let mut found = Vec::new(alloc);
    let mut rest = elements;
    for variable in declared {
        let (own, after) = split_prefix(rest, variable.initial.len());
        found.push(with_elements(alloc, variable, own)?)?;
        rest = after;
    }
    Ok(found)
}

/// What is reported of the state after lives, a schedule for each.
fn reported(
    alloc: Global,
    flat: &Flat,
    state: &SourceState,
    lives: Vec<Vec<u32>>,
) -> Result<Reported, OutOfMemory>
    requires few { length flat.now.threads.items ≤ MOST_THREADS }
    requires steps { sum_by length (map views.steps_of lives.items) ≤ MOST_STEPS }
    requires stands { RepresentsState state.now (after_lives (flat_of flat.now) (m.start (flat_of flat.now)) (map views.steps_of lives.items))
        (λ thread. 0 + ended_lives (flat_of flat.now) (m.start (flat_of flat.now)) (map views.steps_of lives.items) thread) }
    ensures { IfOk result (λ x. views.state_of x ≡ run_state (flat_of flat.now) (map views.steps_of lives.items)) }
{
    lives_stop_once();
    let unsettled = unsettled(alloc, state)?;
    let variables = variables(alloc, &flat.variables, state.variables())?;
    let ended = ended(alloc, state)?;
    Ok(Reported {
        unsettled,
        variables,
        ended,
        schedules: lives,
    })
}

/// What is said of the state after lives, a schedule for each.
fn say_run(
    alloc: Global,
    flat: &Flat,
    state: &SourceState,
    lives: Vec<Vec<u32>>,
) -> Result<Said, OutOfMemory>
    requires few { length flat.now.threads.items ≤ MOST_THREADS }
    requires steps { sum_by length (map views.steps_of lives.items) ≤ MOST_STEPS }
    requires stands { RepresentsState state.now (after_lives (flat_of flat.now) (m.start (flat_of flat.now)) (map views.steps_of lives.items))
        (λ thread. 0 + ended_lives (flat_of flat.now) (m.start (flat_of flat.now)) (map views.steps_of lives.items) thread) }
    ensures { IfOk result (λ said. IsReport (run_state (flat_of flat.now) (map views.steps_of lives.items)) said.status said.output.items) }
{
    let state = reported(alloc, flat, state, lives)?;
    say_reported(alloc, &state)
}

/// What is said of the run of lives, a schedule for each.
fn run_answer(alloc: Global, flat: &Flat, lives: Vec<Vec<u32>>) -> Result<Said, OutOfMemory>
    requires few { length flat.now.threads.items ≤ MOST_THREADS }
    requires steps { sum_by length (map views.steps_of lives.items) ≤ MOST_STEPS }
    ensures { IfOk result (λ said. RunAnswer (flat_of flat.now) (map views.steps_of lives.items) said.status said.output.items) }
{
    let mut state = SourceState::start(alloc, flat)?;
    match state.run_lives(&lives) {
        Ok(()) => say_run(alloc, flat, &state, lives),
        Err(stop) => refused_at_step(alloc, stop_code(stop.kind), stop.step),
    }
}

/// The refusal of a schedule that begins at a place of an input.
fn schedule_refused(
    alloc: Global,
    input: &[u8],
    begins: u64,
    error: ScheduleError,
) -> Result<Said, OutOfMemory>
    requires short { length input.now ≤ MOST_INPUT_BYTES }
    requires within { begins ≤ length input.now }
    ensures fault { IfOk result (λ said. IsSome (words.fault_of error)) }
    ensures said { IfOk result (λ said.
        IfSome (words.fault_of error) (λ x. IsRefusedAt 6 (fault_code x) input.now (begins + fault_place x) said.status said.output.items)) }
{
    let (code, place) = match error {
        ScheduleError::Many(place) => ("E1", place),
        ScheduleError::Word(place) => ("E2", place),
        ScheduleError::Number(place) => ("E3", place),
        ScheduleError::Memory => return Err(OutOfMemory),
    };
    refused_at(alloc, 6, code, input, begins + u64::from(place.0))
}

/// What is said of a flat form and the text of a schedule, which ends an input.
fn flat_answer(alloc: Global, flat: &Flat, input: &[u8], rest: &[u8]) -> Result<Said, OutOfMemory>
    requires few { length flat.now.threads.items ≤ MOST_THREADS }
    requires short { length input.now ≤ MOST_INPUT_BYTES }
    requires rest { rest.now ≡ rest_of input.now }
    ensures { IfOk result (λ said. IsAcceptedAs command_log (source_of input.now) (flat_of flat.now) → SourceAnswer input.now said.status said.output.items) }
{
    match read_schedule(alloc, rest) {
        Ok(lives) => run_answer(alloc, flat, lives),
        Err(error) => schedule_refused(alloc, input, (input.len() - rest.len()) as u64, error),
    }
}

/// The answer to an input of `source`, from its source text and what stands after it.
pub fn source_answer(
    alloc: Global,
    input: &[u8],
    source: &[u8],
    rest: &[u8],
) -> Result<Said, OutOfMemory>
    requires short { length input.now ≤ MOST_INPUT_BYTES }
    requires short_source { length source.now ≤ MOST_SOURCE_BYTES }
    requires source { source.now ≡ source_of input.now }
    requires rest { rest.now ≡ rest_of input.now }
    ensures { IfOk result (λ said. SourceAnswer input.now said.status said.output.items) }
{
    match front(alloc, COMMAND_LOG, source) {
        Ok(flat) => flat_answer(alloc, &flat, input, rest),
        Err(error) => source_refused(alloc, source, error),
    }
}
