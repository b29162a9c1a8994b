//! Bytes read as an image, from which a machine can begin.
ghost use Rattle.std.specs.Prelude.{◌≡◌, ◌≤◌, ◌++◌, ◌%◌, ℕ, length, map, Err, Ok, OnOk, MatchResult};
ghost use Rattle.ido_base.specs.declared.limits.TheConstants.{MOST_INPUT_BYTES, MOST_SOURCE_BYTES};
ghost use Rattle.c_tree.specs.Flats.{flat_of};
ghost use Rattle.c_tree.specs.WellFormed.{shape_of};
ghost use Rattle.memory_layout.specs.Variables.{HaveRoom};
ghost use Rattle.run_scripts.specs.links.ReportViews.{steps_of};
ghost use Rattle.crash_images.specs.Contents.{AreVariables, IsState, word_bytes};
ghost use Rattle.crash_images.specs.ImageDecoder.{logs_at};
ghost use Rattle.crash_images.specs.links.Views.{state_of};
ghost use Rattle.file_fields.specs.links.ReaderResults.{Fails};
ghost use Rattle.ido_compile.specs.CompileAnswers.{IsCompiledAs, IsCompileAnswerAs};
ghost use Rattle.image_checks.specs.links.Errors.{IsFaultOrMemory};
ghost use Rattle.ido_cli.specs.CompiledImages.{IsFaultAfter, IsImageAnswer, IsStateAfter};
ghost use Rattle.machine_model.specs.Schedule.{all_lives};
ghost use Rattle.run_tracker.specs.links.EarlierLives.{lives_in};
ghost use Rattle.ido_cli.specs.links.BegunImages.{HasBegun, IsBegun, of_logs};
ghost use Rattle.ido_cli.specs.links.CompileRefusals.{image_fault};

use c_tree::flat::Flat;
use crash_images::reading::{read_logs, read_source, read_variables, read_version};
use crash_images::state::State;
use crash_images::version::ImageVersion;
use file_fields::error::ReadError;
use ido_base::memory::OutOfMemory;
use ido_compile::laws::one_verdict;
use ido_compile::{CompileError, Compiled, compile};
use image_checks::error::ImageError;
use image_checks::references::check_references;
use image_checks::state::check_state;
use log_schemes::log::Log;
use std::alloc::Global;

/// The schedules of the kept steps, one for each life: of each step the thread that takes it.
#[derive(Drop)]
pub struct KeptLives {
    /// Those of the lives before the last one.
    pub earlier: Vec<Vec<u32>>,
    pub schedule: Vec<u32>,
}

/// An image: its source, compiled, what a crash has left of the machine's memory, and the schedules of the steps that are kept.
#[derive(Drop)]
pub struct Image {
    pub compiled: Compiled,
    /// The durable words of the variables, and after them those of the logs.
    pub words: Vec<u64>,
    pub lives: KeptLives,
}

/// The fault of an image whose source isn't compiled.
fn source_fault(error: CompileError) -> ImageError
    ensures { result ≡ image_fault error }
{
    match error {
        CompileError::Refused(_) => ImageError::Source,
        CompileError::Memory => ImageError::Memory,
    }
}

/// The source of an image, compiled for a log, or the image's fault.
pub fn compiled_source(alloc: Global, log: Log, source: &[u8]) -> Result<Compiled, ImageError>
    requires { length source.now ≤ MOST_SOURCE_BYTES }
    ensures { MatchResult result (λ compiled. IsCompiledAs log source.now compiled)
        (λ fault. (error : CompileError) × (fault ≡ image_fault error) × IsCompileAnswerAs log source.now (Err error)) }
{
    match compile(alloc, log, source) {
        Ok(compiled) => Ok(compiled),
        Err(error) => Err(source_fault(error)),
    }
}

/// The fault of an image by a fault of what stands after its variables.
fn logs_fault(error: ReadError) -> ImageError
    ensures { result ≡ of_logs error }
{
    match error {
        ReadError::Magic => ImageError::Magic,
        ReadError::Version => ImageError::Version,
        ReadError::Cut(place) => ImageError::Cut(place),
        ReadError::Field(_) => ImageError::Lives { life: 0 },
        ReadError::Rest(place) => ImageError::Rest(place),
        ReadError::Memory => ImageError::Memory,
    }
}

/// The state with these words of variables, or the image's fault after them.
fn logs_after(
    alloc: Global,
    total: u32,
    rest: &[u8],
    version: ImageVersion,
    threads: u32,
    variables: Vec<u64>,
) -> Result<State, ImageError>
    ensures { MatchResult result
        (λ state. (logs_at version total threads variables.items rest.now ≡ Ok (state_of state)) × (state.variables.items ≡ variables.items)
        × ((size : ℕ) → AreVariables size variables.items → IsState version size threads (state_of state)))
        (λ fault. (error : ReadError) × (fault ≡ of_logs error) × Fails error (logs_at version total threads variables.items rest.now)) }
{
    match read_logs(alloc, total, rest, version, threads, variables) {
        Ok(state) => Ok(state),
        Err(error) => Err(logs_fault(error)),
    }
}

/// What stands after the source of an image, whose references are null or lead to elements; or the image's first fault there.
fn state_after(
    alloc: Global,
    flat: &Flat,
    total: u32,
    rest: &[u8],
    version: ImageVersion,
    size: u32,
    threads: u32,
) -> Result<State, ImageError>
    requires whole { size % word_bytes ≡ 0 }
    requires room { HaveRoom (map shape_of (flat_of flat.now).variables) }
    ensures { MatchResult result (λ state. IsStateAfter (flat_of flat.now) version total size threads rest.now (state_of state))
        (IsFaultOrMemory (IsFaultAfter (flat_of flat.now) version total size threads rest.now)) }
{
    let (variables, after) = read_variables(alloc, total, rest, size)?;
    check_references(alloc, flat, &variables)?;
    logs_after(alloc, total, after, version, threads, variables)
}

/// Adds words.
fn extend(words: &mut Vec<u64>, others: &[u64]) -> Result<(), OutOfMemory>
    ensures { OnOk result (words.new.items ≡ words.old.items ++ others.now) }
{
    words.extend_from_slice(others)?;
    Ok(())
}

/// The schedules of lives, the last one apart.
fn last_apart(mut lives: Vec<Vec<u32>>) -> KeptLives
    requires { 1 ≤ length lives.items }
    ensures { map steps_of lives.items ≡ all_lives (lives_in result.earlier.items result.schedule.items) }
{
    let Some(schedule) = lives.pop() else {
        unreachable!()
    };
    KeptLives {
        earlier: lives,
        schedule,
    }
}

/// What stands first in an image: its version, and its source, which is compiled for the log of that version; and the bytes after it.
#[derive(Drop)]
pub struct Begun<'a> {
    pub version: ImageVersion,
    pub source: &'a [u8],
    pub compiled: Compiled,
    pub rest: &'a [u8],
}

/// What stands first in the bytes of an image of a version up to the newest that is asked for, where the compiler accepts its source; or the first fault.
pub fn begin<'a>(
    alloc: Global,
    bytes: &'a [u8],
    newest: ImageVersion,
) -> Result<Begun<'a>, ImageError>
    requires { length bytes.now ≤ MOST_INPUT_BYTES }
    ensures { IsBegun newest bytes.now result }
{
    one_verdict();
    let version = read_version(bytes, newest)?;
    let (source, rest) = read_source(bytes, version)?;
    let compiled = compiled_source(alloc, version.log(), source)?;
    Ok(Begun {
        version,
        source,
        compiled,
        rest,
    })
}

/// The image whose bytes begin so, where references are null or lead to elements, each thread can be resumed by its log, no two threads hold one mutex, and
/// the source makes the steps of the schedules; or the first fault.
pub fn finish(alloc: Global, bytes: &[u8], begun: Begun<'_>) -> Result<Image, ImageError>
    requires short { length bytes.now ≤ MOST_INPUT_BYTES }
    requires begun { (newest : ImageVersion) × HasBegun newest bytes.now begun }
    ensures { (newest : ImageVersion) → HasBegun newest bytes.now begun.entry → IsImageAnswer newest bytes.now result }
{
    let size = begun.compiled.translated.object.initial.len() as u32;
    let threads = begun.compiled.translated.object.code.len() as u32;
    let total = bytes.len() as u32;
    let state = state_after(
        alloc,
        &begun.compiled.flat,
        total,
        begun.rest,
        begun.version,
        size,
        threads,
    )?;
    let lives = check_state(
        alloc,
        &begun.compiled.flat,
        &begun.compiled.translated.resumes,
        begun.version.log(),
        &state,
    )?;
    let State {
        variables: mut words,
        logs,
        ..
    } = state;
    extend(&mut words, &logs)?;
    Ok(Image {
        compiled: begun.compiled,
        words,
        lives: last_apart(lives),
    })
}

/// The image that all bytes spell, of a version up to the newest that is asked for, of a source that the compiler accepts, where references are null or lead to
/// elements, each thread can be resumed by its log, no two threads hold one mutex, and the source makes the steps of the schedules; or the first fault.
///
/// Numbers are of four bytes and words of eight, little-endian: 8 bytes `IDO-IMG` and LF, the version, the number of bytes of the source, at most 1,048,576,
/// and these; the number of bytes of the variables, as the source's object has it, their durable words, and those of the logs, 128 for each thread in version
/// 1, else 256; in version 3 the number of lives, else there is one; and of each life the number of runs, and of each run the thread and how many steps it
/// took.
///
/// The order of faults: the bytes up to the end of the source; a refused source; the bytes of the variables; a reference among them that leads to no element;
/// the bytes after them; then by thread a point, and its locks and registers, in version 1 the locks first; a mutex that two threads hold; by life a step of
/// its schedule, or that it leaves a thread inside a section and isn't the last.
/// An image that a run leaves has none (`laws::run_images_are_read`).
pub fn read_image(alloc: Global, bytes: &[u8], newest: ImageVersion) -> Result<Image, ImageError>
    requires { length bytes.now ≤ MOST_INPUT_BYTES }
    ensures { IsImageAnswer newest bytes.now result }
{
    let begun = begin(alloc, bytes, newest)?;
    finish(alloc, bytes, begun)
}
