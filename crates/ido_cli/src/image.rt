//! What a crash would leave of a life, as the bytes of an image.
ghost use Rattle.std.specs.Prelude.{◌≡◌, ◌+◌, ◌/◌, ◌≤◌, ◌∷◌, [], drop, length, map, sum_by, take, IfOk};
ghost use Rattle.ido_base.specs.declared.limits.TheConstants.{MOST_SOURCE_BYTES, VARIABLE_WORDS, MOST_STEPS};
ghost use Rattle.crash_images.specs.Contents.{contents, most_logs, written_as};
ghost use Rattle.crash_images.specs.ImageDecoder.{IsReadAs};
ghost use Rattle.crash_images.specs.ImageEncoder.{spelling};
ghost use Rattle.machine_model.specs.Schedule.{schedules};
ghost use Rattle.run_scripts.specs.links.ReportViews.{steps_of};
ghost use Rattle.run_tracker.specs.ObjectLives.{left_words, steps_in, variable_words_in, world_of};
ghost use Rattle.ido_cli.specs.links.RunRequests.{TellsLives};

use crate::report::kept_schedules;
use crate::said::Said;
use crash_images::writing::write_image;
use ido_base::memory::OutOfMemory;
use machine_model::object::Object;
use run_tracker::life::Life;
use std::alloc::Global;

/// The schedule of an image of one life.
pub fn only(alloc: Global, schedule: &[u32]) -> Result<Vec<Vec<u32>>, OutOfMemory>
    ensures { IfOk result (λ schedules. map steps_of schedules.items ≡ schedule.now ∷ []) }
{
    let mut schedules = Vec::new(alloc);
    let steps = schedule.to_vec(alloc)?;
    schedules.push(steps)?;
    Ok(schedules)
}

/// The image that a crash would leave now of the life of a source's object, in the version that is written for its log.
#[tactic(auto, using(crate::proofs::SameContents::read_as_same))]
pub fn image(
    alloc: Global,
    source: &[u8],
    object: &Object,
    life: &Life,
) -> Result<Said, OutOfMemory>
    requires source { length source.now ≤ MOST_SOURCE_BYTES }
    requires variables { variable_words_in life.now ≤ VARIABLE_WORDS }
    requires object { variable_words_in life.now ≡ length object.now.initial.items / 8 }
    requires within { variable_words_in life.now ≤ length (left_words (variable_words_in life.now) (world_of life.now).words) }
    requires logs { length (left_words (variable_words_in life.now) (world_of life.now).words) ≤ variable_words_in life.now + most_logs object.now.log }
    requires tells { TellsLives object.now.log }
    requires lives { length (schedules (steps_in life.now)) ≤ MOST_STEPS + 1 }
    requires steps { sum_by length (schedules (steps_in life.now)) ≤ MOST_STEPS }
    ensures status { IfOk result (λ said. said.status ≡ 0) }
    ensures output { IfOk result (λ said.
        let words = left_words (variable_words_in life.now) (world_of life.now).words in
        said.output.items ≡ spelling (written_as object.now.log) (contents source.now
        (take (variable_words_in life.now) words) (drop (variable_words_in life.now) words) (schedules (steps_in life.now)))) }
    // It is read again.
    ensures again { IfOk result (λ said.
        let words = left_words (variable_words_in life.now) (world_of life.now).words in
        IsReadAs (written_as object.now.log) (contents source.now
        (take (variable_words_in life.now) words) (drop (variable_words_in life.now) words) (schedules (steps_in life.now))) said.output.items) }
{
    let words = life.durable_words(alloc)?;
    let (variables, logs) = words.split_at(object.initial.len() / 8);
    let kept = kept_schedules(alloc, life)?;
    let output = write_image(alloc, object.log, source, variables, logs, &kept)?;
    Ok(Said { status: 0, output })
}
