//! The command `upgrade`: what a crash has left of an older version, recovered, as an image of the newest.
ghost use Rattle.std.specs.Prelude.{◌≡◌, ◌+◌, ◌*◌, ◌/◌, ◌<◌, ◌≤◌, ◌∷◌, [], length, replicate, sum_by, take, true, IfOk, MatchBool, MatchResult};
ghost use Rattle.ido_base.specs.declared.limits.TheConstants.{MOST_INPUT_BYTES, MOST_SOURCE_BYTES, MOST_STEPS, MOST_THREADS, VARIABLE_WORDS};
ghost use Rattle.log_schemes.specs.Layout.{log_words};
ghost use Rattle.machine_model.specs.Machine.{is_settled};
ghost use Rattle.machine_model.specs.Schedule.{all_lives, schedules};
ghost use Rattle.ido_compile.specs.declared.compiler.Compiled.{Compiled};
ghost use Rattle.c_tree.specs.Flats.{flat_of};
ghost use Rattle.crash_images.specs.Contents.{contents};
ghost use Rattle.crash_images.specs.ImageDecoder.{IsReadAs};
ghost use Rattle.crash_images.specs.ImageEncoder.{spelling};
ghost use Rattle.crash_images.specs.declared.version.ImageVersion.TheVariants.{Third};
ghost use Rattle.flat_compile.specs.TranslatedForms.{IsTranslatedAs};
ghost use Rattle.flat_compile.specs.TranslatedForms.{command_log};
ghost use Rattle.compiler_correctness.specs.Compilations.{IsCompilation};
ghost use Rattle.ido_compile.specs.CompileAnswers.{IsCompiledAs, translation_in};
ghost use Rattle.run_tracker.specs.ObjectLives.{left_words, steps_in, variable_words_in, world_of};
ghost use Rattle.ido_cli.specs.Answers.{UpgradeAnswer, file_in};
ghost use Rattle.ido_cli.specs.Upgrades.{IsOlderFault, IsOlderImage, IsUpgrade, IsUpgradeSaid, idle_logs};
ghost use Rattle.ido_cli.specs.links.RecoveredLives.{CanRenew};
ghost use Rattle.ido_cli.specs.links.BegunImages.{IsAnewFault};

use crate::compiled_image::{Image, begin, compiled_source, finish};
use crate::image::only;
use crate::recover::{image_refused, recovered_life};
use crate::refusal::refused_at_step;
use crate::report::say_by_source;
use crate::said::Said;
use crate::scheme::COMMAND_LOG;
use compiler_correctness::laws::images_are_crashes;
use crash_images::version::ImageVersion;
use crash_images::writing::write_image;
use ido_base::limits::MOST_STEPS;
use ido_base::memory::OutOfMemory;
use ido_compile::laws::one_verdict;
use ido_outside::Gate;
use image_checks::error::ImageError;
use image_runs::laws::shapes_run_on;
use machine_model::object::Object;
use run_tracker::life::Life;
use std::alloc::Global;
use std::sync::Wait;
use std::thread::Threads;

/// Words of a thread's log in an image of the newest version.
const LOG_WORDS: usize = 256;

/// An image of an older version, and its source.
#[derive(Drop)]
struct Older<'a> {
    image: Image,
    source: &'a [u8],
}

/// Compiles a source for the newest log, and tells only whether it is accepted.
fn accept_anew(alloc: Global, source: &[u8]) -> Result<(), ImageError>
    requires { length source.now ≤ MOST_SOURCE_BYTES }
    ensures { MatchResult result (λ _. (again : Compiled) × IsCompiledAs command_log source.now again) (λ error. IsAnewFault source.now error) }
{
    compiled_source(alloc, COMMAND_LOG, source)?;
    Ok(())
}

/// The image of an older version that all bytes spell, with its source, which is accepted for the newest log too; or the first fault.
fn read_older<'a>(alloc: Global, bytes: &'a [u8]) -> Result<Older<'a>, ImageError>
    requires { length bytes.now ≤ MOST_INPUT_BYTES }
    ensures { MatchResult result (λ older. IsOlderImage bytes.now older.image older.source.now × (length older.source.now ≤ MOST_SOURCE_BYTES))
        (λ error. IsOlderFault bytes.now error) }
{
    one_verdict();
    let begun = begin(alloc, bytes, ImageVersion::Second)?;
    let source = begun.source;
    accept_anew(alloc, source)?;
    let image = finish(alloc, bytes, begun)?;
    Ok(Older { image, source })
}

/// So many words that are 0.
fn zeros(alloc: Global, count: usize) -> Result<Vec<u64>, OutOfMemory>
    ensures { IfOk result (λ words. words.items ≡ replicate count 0) }
{
    let mut words = Vec::new(alloc);
    words.resize(count, 0)?;
    Ok(words)
}

/// Whether a file has room for these steps.
fn has_room(steps: &[u32]) -> bool
    ensures { MatchBool result (length steps.now ≤ MOST_STEPS) (MOST_STEPS < length steps.now) }
{
    steps.len() as u64 <= MOST_STEPS
}

/// The image of the newest version that the life of a source leaves whose every thread stands between sections: its variables, and no word of a log.
#[tactic(auto, using(crate::proofs::SameContents::read_as_same))]
fn renewed(alloc: Global, source: &[u8], object: &Object, life: &Life) -> Result<Said, OutOfMemory>
    requires source { length source.now ≤ MOST_SOURCE_BYTES }
    requires variables { variable_words_in life.now ≤ VARIABLE_WORDS }
    requires object { variable_words_in life.now ≡ length object.now.initial.items / 8 }
    requires within { variable_words_in life.now ≤ length (left_words (variable_words_in life.now) (world_of life.now).words) }
    requires harts { length life.now.runs.program ≤ MOST_THREADS }
    requires schedule { length (steps_in life.now).kept ≤ MOST_STEPS }
    ensures status { IfOk result (λ said. said.status ≡ 0) }
    ensures output { IfOk result (λ said.
        let words = left_words (variable_words_in life.now) (world_of life.now).words in
        said.output.items ≡ spelling Third (contents source.now
        (take (variable_words_in life.now) words) (idle_logs (length life.now.runs.program)) ((steps_in life.now).kept ∷ []))) }
    // It is read again.
    ensures again { IfOk result (λ said.
        let words = left_words (variable_words_in life.now) (world_of life.now).words in
        IsReadAs Third (contents source.now
        (take (variable_words_in life.now) words) (idle_logs (length life.now.runs.program)) ((steps_in life.now).kept ∷ [])) said.output.items) }
{
    let words = life.durable_words(alloc)?;
    let (variables, _) = words.split_at(object.initial.len() / 8);
    let logs = zeros(alloc, LOG_WORDS * life.harts() as usize)?;
    let schedules = only(alloc, life.kept())?;
    let output = write_image(alloc, COMMAND_LOG, source, variables, &logs, &schedules)?;
    Ok(Said { status: 0, output })
}

/// What is said of a life that went on from an image of this source, and is settled.
fn settled_said(
    alloc: Global,
    source: &[u8],
    image: &Image,
    life: &Life,
) -> Result<Said, OutOfMemory>
    requires source { length source.now ≤ MOST_SOURCE_BYTES }
    requires life { CanRenew image.now.compiled life.now }
    requires settled { is_settled (world_of life.now) ≡ true }
    ensures { IfOk result (λ said. IsUpgradeSaid source.now (translation_in image.now.compiled) (world_of life.now) (schedules (steps_in life.now))
        said.status said.output.items) }
{
    if has_room(life.kept()) {
        renewed(alloc, source, &image.compiled.translated.object, life)
    } else {
        refused_at_step(alloc, "I9", MOST_STEPS + 1)
    }
}

/// What is said of a life that went on from an image of this source.
fn life_said(alloc: Global, source: &[u8], image: &Image, life: &Life) -> Result<Said, OutOfMemory>
    requires source { length source.now ≤ MOST_SOURCE_BYTES }
    requires life { CanRenew image.now.compiled life.now }
    ensures { IfOk result (λ said. IsUpgradeSaid source.now (translation_in image.now.compiled) (world_of life.now) (schedules (steps_in life.now))
        said.status said.output.items) }
{
    if life.settled() {
        settled_said(alloc, source, image, life)
    } else {
        say_by_source(alloc, &image.compiled.flat, life)
    }
}

/// What is said of an older image that is brought to the newest version, after a leg on threads, by so many turns of each hart.
fn upgraded<R: Threads + Wait + Sync, G: Gate + Sync>(
    rt: &R,
    alloc: Global,
    older: &Older<'_>,
    turns: u32,
    gate: &G,
) -> Result<Said, OutOfMemory>
    requires source { length older.now.source.now ≤ MOST_SOURCE_BYTES }
    requires alone { older.now.image.lives.earlier.items ≡ [] }
    requires translated { let made = older.now.image.compiled.translated in
        IsTranslatedAs made.object.log (flat_of older.now.image.compiled.flat) made.object made.marks made.cuts }
    requires compilation { IsCompilation (translation_in older.now.image.compiled) }
    requires steps { sum_by length (all_lives (file_in older.now.image).kept) ≤ MOST_STEPS }
    requires words { let object = older.now.image.compiled.translated.object in
        length older.now.image.words.items ≡ length object.initial.items / 8 + log_words object.log * length object.code.items }
    ensures { IfOk result (λ said.
        IsUpgrade older.now.source.now (translation_in older.now.image.compiled) (file_in older.now.image) turns said.status said.output.items) }
{
    images_are_crashes();
    let life = recovered_life(rt, alloc, &older.image, turns, gate)?;
    life_said(alloc, older.source, &older.image, &life)
}

/// The answer to an input of `upgrade`.
pub fn upgrade_answer<R: Threads + Wait + Sync, G: Gate + Sync>(
    rt: &R,
    alloc: Global,
    input: &[u8],
    turns: u32,
    gate: &G,
) -> Result<Said, OutOfMemory>
    requires { length input.now ≤ MOST_INPUT_BYTES }
    ensures { IfOk result (λ said. UpgradeAnswer turns input.now said.status said.output.items) }
{
    shapes_run_on();
    match read_older(alloc, input) {
        Ok(older) => upgraded(rt, alloc, &older, turns, gate),
        Err(error) => image_refused(alloc, error),
    }
}
