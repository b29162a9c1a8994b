//! The command `recover`: a run that goes on from what a crash has left.
ghost use Rattle.std.specs.Prelude.{◌≡◌, ◌+◌, ◌*◌, ◌/◌, ◌<◌, ◌≤◌, ◌^◌, length, min, sum_by, IfOk, Some};
ghost use Rattle.ido_base.specs.declared.limits.TheConstants.{MOST_INPUT_BYTES, MOST_STEPS};
ghost use Rattle.log_schemes.specs.Layout.{log_words};
ghost use Rattle.machine_model.specs.Schedule.{all_lives};
ghost use Rattle.c_tree.specs.Flats.{flat_of};
ghost use Rattle.compiler_correctness.specs.Compilations.{IsCompilation};
ghost use Rattle.flat_compile.specs.TranslatedForms.{IsTranslatedAs};
ghost use Rattle.ido_cli.specs.Answers.{RecoverAnswer, file_in};
ghost use Rattle.ido_cli.specs.Recoveries.{IsRecovery};
ghost use Rattle.ido_cli.specs.Refusals.{image_line};
ghost use Rattle.ido_cli.specs.ThreadedRuns.{most_leg_events};
ghost use Rattle.ido_cli.specs.links.RecoveredLives.{HasRecovered};
ghost use Rattle.ido_compile.specs.CompileAnswers.{translation_in};

use crate::compiled_image::{Image, read_image};
use crate::live::MOST_LEG_EVENTS;
use crate::refusal::{
    VERSION_PLACE, refused, refused_at_byte, refused_at_register, refused_at_step,
    refused_at_thread, refused_of_element, refused_of_life, refused_of_threads,
};
use crate::report::say_by_source;
use crate::said::Said;
use compiler_correctness::laws::images_are_crashes;
use crash_images::version::ImageVersion;
use hart_driver::drive::drive;
use ido_base::memory::OutOfMemory;
use ido_base::place::Place;
use ido_compile::laws::files_begin;
use ido_outside::Gate;
use image_checks::error::ImageError;
use image_runs::laws::shapes_run_on;
use run_scripts::evictor::Evictor;
use run_tracker::life::Life;
use std::alloc::Global;
use std::sync::Wait;
use std::thread::Threads;

/// The refusal of bytes that are no image from which a run can go on.
pub fn image_refused(alloc: Global, error: ImageError) -> Result<Said, OutOfMemory>
    ensures status { IfOk result (λ said. said.status ≡ 6) }
    ensures output { IfOk result (λ said. image_line error ≡ Some said.output.items) }
{
    match error {
        ImageError::Magic => refused_at_byte(alloc, "I1", Place(0)),
        ImageError::Version => refused_at_byte(alloc, "I2", VERSION_PLACE),
        ImageError::Cut(place) => refused_at_byte(alloc, "I3", place),
        ImageError::Source => refused(alloc, 6, b"refused I4\n"),
        ImageError::Point { thread } => refused_at_thread(alloc, "I5", thread),
        ImageError::Mask { thread } => refused_at_thread(alloc, "I6", thread),
        ImageError::Shared {
            lock,
            first,
            second,
        } => refused_of_threads(alloc, "I7", lock, (first, second)),
        ImageError::Rest(place) => refused_at_byte(alloc, "I8", place),
        ImageError::Schedule { step } => refused_at_step(alloc, "I9", step),
        ImageError::Lives { life } => refused_of_life(alloc, "I11", life),
        ImageError::Slot { thread, register } => {
            refused_at_register(alloc, "I10", thread, register)
        }
        ImageError::Reference { variable, element } => {
            refused_of_element(alloc, "I12", variable, element)
        }
        ImageError::Memory => Err(OutOfMemory),
    }
}

/// One event more than so many turns of each hart, or as many as a leg may have where that is less.
fn leg_room(harts: u64, turns: u32) -> u64
    ensures { result ≡ min most_leg_events (harts * turns + 1) }
{
    harts
        .saturating_mul(u64::from(turns))
        .saturating_add(1)
        .min(MOST_LEG_EVENTS)
}

/// The life that goes on from an image, after a leg on threads, by so many turns of each hart.
pub fn recovered_life<R: Threads + Wait + Sync, G: Gate + Sync>(
    rt: &R,
    alloc: Global,
    image: &Image,
    turns: u32,
    gate: &G,
) -> Result<Life, OutOfMemory>
    requires translated { let made = image.now.compiled.translated in
        IsTranslatedAs made.object.log (flat_of image.now.compiled.flat) made.object made.marks made.cuts }
    requires steps { sum_by length (all_lives (file_in image.now).kept) ≤ MOST_STEPS }
    requires lives { length image.now.lives.earlier.items < 2 ^ 32 }
    requires words { let object = image.now.compiled.translated.object in
        length image.now.words.items ≡ length object.initial.items / 8 + log_words object.log * length object.code.items }
    ensures { IfOk result (λ life. HasRecovered (translation_in image.now.compiled) (file_in image.now) turns life) }
{
    files_begin();
    let compiled = &image.compiled;
    let most = leg_room(compiled.translated.object.code.len() as u64, turns);
    let life = Life::of_words(
        alloc,
        &compiled.translated.object,
        &compiled.translated.marks,
        &image.words,
        &image.lives.earlier,
        &image.lives.schedule,
        &[],
        most,
    )?;
    let none: Option<Evictor> = None;
    let driven = drive(rt, alloc, life, u64::from(turns), most, none, gate)?;
    Ok(driven.core)
}

/// What is said of a run that goes on from an image, on threads, by so many turns of each hart.
fn recovered<R: Threads + Wait + Sync, G: Gate + Sync>(
    rt: &R,
    alloc: Global,
    image: &Image,
    turns: u32,
    gate: &G,
) -> Result<Said, OutOfMemory>
    requires translated { let made = image.now.compiled.translated in
        IsTranslatedAs made.object.log (flat_of image.now.compiled.flat) made.object made.marks made.cuts }
    requires compilation { IsCompilation (translation_in image.now.compiled) }
    requires steps { sum_by length (all_lives (file_in image.now).kept) ≤ MOST_STEPS }
    requires lives { length image.now.lives.earlier.items < 2 ^ 32 }
    requires words { let object = image.now.compiled.translated.object in
        length image.now.words.items ≡ length object.initial.items / 8 + log_words object.log * length object.code.items }
    ensures { IfOk result (λ said. IsRecovery (translation_in image.now.compiled) (file_in image.now) turns said.status said.output.items) }
{
    images_are_crashes();
    let life = recovered_life(rt, alloc, image, turns, gate)?;
    say_by_source(alloc, &image.compiled.flat, &life)
}

/// The answer to an input of `recover`.
pub fn recover_answer<R: Threads + Wait + Sync, G: Gate + Sync>(
    rt: &R,
    alloc: Global,
    input: &[u8],
    turns: u32,
    gate: &G,
) -> Result<Said, OutOfMemory>
    requires { length input.now ≤ MOST_INPUT_BYTES }
    ensures { IfOk result (λ said. RecoverAnswer turns input.now said.status said.output.items) }
{
    shapes_run_on();
    match read_image(alloc, input, ImageVersion::Fourth) {
        Ok(image) => recovered(rt, alloc, &image, turns, gate),
        Err(error) => image_refused(alloc, error),
    }
}
