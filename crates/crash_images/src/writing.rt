//! An image written as bytes.
ghost use Rattle.std.specs.Prelude.{◌≡◌, ◌+◌, ◌++◌, ◌<◌, ◌≤◌, ◌^◌, [], length, map, sum_by, All, IfOk, OnOk, flat_map};
ghost use Rattle.std.specs.List.{AllByRecursion};
ghost use Rattle.ido_base.specs.declared.limits.TheConstants.{MOST_INPUT_BYTES, MOST_SOURCE_BYTES, VARIABLE_WORDS, MOST_STEPS};
ghost use Rattle.file_fields.specs.Numbers.{IsNumber};
ghost use Rattle.run_scripts.specs.Runs.{runs_of, schedule_of, AreMerged};
ghost use Rattle.run_scripts.specs.links.ReportViews.{steps_of};
ghost use Rattle.run_scripts.specs.links.RunViews.{run_of};
ghost use Rattle.crash_images.specs.Contents.{IsLife, Tells, contents, most_logs, written_as};
ghost use Rattle.crash_images.specs.ImageEncoder.{count_text, memory_text, run_text, runs_text, source_text, state_text, spelling};
ghost use Rattle.crash_images.specs.links.Views.{written_life};
ghost use Rattle.crash_images.specs.links.WrittenLives.{AreWritten, written_contents};
ghost use Rattle.crash_images.specs.ImageDecoder.{IsReadAs};

use crate::version::written_as;
use file_fields::writing::{put, put_number, put_words};
use ido_base::limits::WORD_BYTES;
use ido_base::memory::OutOfMemory;
use log_schemes::log::Log;
use run_scripts::runs::{Run, runs_of};
use std::alloc::Global;

/// Adds a run.
fn put_run(out: &mut Vec<u8>, run: Run) -> Result<(), OutOfMemory>
    requires { IsNumber run.steps }
    ensures { OnOk result (out.new.items ≡ out.old.items ++ run_text (run_of run)) }
{
    put_number(out, run.thread)?;
    put_number(out, run.steps as u32)
}

/// Adds runs.
fn put_runs(out: &mut Vec<u8>, runs: &[Run]) -> Result<(), OutOfMemory>
    requires { All (λ run. IsNumber run.steps) runs.now }
    ensures { OnOk result (out.new.items ≡ out.old.items ++ flat_map run_text (map run_of runs.now)) }
{
    for run in runs {
        put_run(out, *run)?;
    }
    Ok(())
}

/// Adds the runs of a life.
fn put_life(out: &mut Vec<u8>, runs: &[Run]) -> Result<(), OutOfMemory>
    requires runs { length runs.now < 2 ^ 32 }
    requires steps { All (λ run. IsNumber run.steps) runs.now }
    ensures { OnOk result (out.new.items ≡ out.old.items ++ runs_text (map run_of runs.now)) }
{
    put_number(out, runs.len() as u32)?;
    put_runs(out, runs)
}

/// Adds the runs of a life, by its schedule.
fn put_schedule(alloc: Global, out: &mut Vec<u8>, schedule: &[u32]) -> Result<(), OutOfMemory>
    requires { length schedule.now ≤ MOST_STEPS }
    ensures text { OnOk result (out.new.items ≡ out.old.items ++ runs_text (runs_of schedule.now)) }
    ensures fits { OnOk result (IsLife (runs_of schedule.now)) }
{
    let runs = runs_of(alloc, schedule)?;
    put_life(out, &runs)
}

/// Adds the runs of lives.
fn put_lives(alloc: Global, out: &mut Vec<u8>, schedules: &[Vec<u32>]) -> Result<(), OutOfMemory>
    requires { sum_by length (map steps_of schedules.now) ≤ MOST_STEPS }
    ensures { OnOk result (AreWritten out.old.items schedules.now out.new.items) }
{
    for i in 0..schedules.len() {
        put_schedule(alloc, out, &schedules[i])?;
    }
    Ok(())
}

/// Adds how many lives there are, where there may be more than one.
fn put_count(out: &mut Vec<u8>, log: Log, lives: u32) -> Result<(), OutOfMemory>
    ensures { OnOk result (out.new.items ≡ out.old.items ++ count_text (written_as log) lives) }
{
    match log {
        Log::V1 => Ok(()),
        Log::V2 | Log::Justdo => put_number(out, lives),
    }
}

/// Adds what stands first, up to the end of the source.
fn put_source(out: &mut Vec<u8>, log: Log, source: &[u8]) -> Result<(), OutOfMemory>
    requires { length source.now < 2 ^ 32 }
    ensures { OnOk result (out.new.items ≡ out.old.items ++ source_text (written_as log) source.now) }
{
    put(out, b"IDO-IMG\n")?;
    put_number(out, written_as(log).number())?;
    put_number(out, source.len() as u32)?;
    put(out, source)
}

/// Adds the number of bytes of the variables, their words, and the words of the logs.
fn put_memory(out: &mut Vec<u8>, variables: &[u64], logs: &[u64]) -> Result<(), OutOfMemory>
    requires { length variables.now ≤ VARIABLE_WORDS }
    ensures { OnOk result (out.new.items ≡ out.old.items ++ memory_text variables.now logs.now) }
{
    put_number(out, WORD_BYTES * variables.len() as u32)?;
    put_words(out, variables)?;
    put_words(out, logs)
}

/// Adds what stands after the source.
fn put_state(
    alloc: Global,
    out: &mut Vec<u8>,
    log: Log,
    variables: &[u64],
    logs: &[u64],
    schedules: &[Vec<u32>],
) -> Result<(), OutOfMemory>
    requires variables { length variables.now ≤ VARIABLE_WORDS }
    requires lives { length schedules.now < 2 ^ 32 }
    requires steps { sum_by length (map steps_of schedules.now) ≤ MOST_STEPS }
    ensures text { OnOk result (out.new.items ≡ out.old.items ++
        state_text (written_as log) (written_contents [] variables.now logs.now schedules.now).state) }
    ensures fits { OnOk result (AllByRecursion IsLife (map written_life schedules.now)) }
{
    put_memory(out, variables, logs)?;
    put_count(out, log, schedules.len() as u32)?;
    put_lives(alloc, out, schedules)
}

/// The bytes that spell an image.
fn spelled(
    alloc: Global,
    log: Log,
    source: &[u8],
    variables: &[u64],
    logs: &[u64],
    schedules: &[Vec<u32>],
) -> Result<Vec<u8>, OutOfMemory>
    requires source { length source.now ≤ MOST_SOURCE_BYTES }
    requires variables { length variables.now ≤ VARIABLE_WORDS }
    requires lives { length schedules.now < 2 ^ 32 }
    requires steps { sum_by length (map steps_of schedules.now) ≤ MOST_STEPS }
    ensures text { IfOk result (λ image. image.items ≡ spelling (written_as log) (written_contents source.now variables.now logs.now schedules.now)) }
    ensures fits { IfOk result (λ _. AllByRecursion IsLife (map written_life schedules.now)) }
{
    let mut out = Vec::new(alloc);
    put_source(&mut out, log, source)?;
    put_state(alloc, &mut out, log, variables, logs, schedules)?;
    Ok(out)
}

/// The bytes of the image of a source, the durable words of its variables and of its logs, and the schedule of each
/// life, of which adjacent steps of one thread are merged. Images of the first log tell one life.
pub fn write_image(
    alloc: Global,
    log: Log,
    source: &[u8],
    variables: &[u64],
    logs: &[u64],
    schedules: &[Vec<u32>],
) -> Result<Vec<u8>, OutOfMemory>
    requires source { length source.now ≤ MOST_SOURCE_BYTES }
    requires variables { length variables.now ≤ VARIABLE_WORDS }
    requires logs { length logs.now ≤ most_logs log }
    requires lives { Tells (written_as log) (length schedules.now) }
    requires few { length schedules.now ≤ MOST_STEPS + 1 }
    requires steps { sum_by length (map steps_of schedules.now) ≤ MOST_STEPS }
    ensures spelled { IfOk result (λ image. image.items ≡
        spelling (written_as log) (contents source.now variables.now logs.now (map steps_of schedules.now))) }
    // What was written is read again.
    ensures again { IfOk result (λ image.
        IsReadAs (written_as log) (contents source.now variables.now logs.now (map steps_of schedules.now)) image.items) }
    // What is written isn't too long to be read.
    ensures short { IfOk result (λ image. length image.items ≤ MOST_INPUT_BYTES) }
    // The runs tell each step.
    ensures steps { map schedule_of (map runs_of (map steps_of schedules.now)) ≡ map steps_of schedules.now }
    // Each of them takes a step, and the next of a life is of another thread.
    ensures merged { All AreMerged (map runs_of (map steps_of schedules.now)) }
{
    spelled(alloc, log, source, variables, logs, schedules)
}
