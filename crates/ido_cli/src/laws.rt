//! Laws of what is answered: nothing is computed here.
ghost use Rattle.ido_cli.specs.CompiledLives.{LivesAreCompiled, LivesCountSections, LivesOfFilesAreCompiled, LivesOfFilesCountSections};
ghost use Rattle.ido_cli.specs.ImagesReadAgain.{RunImagesAreRead};
ghost use Rattle.ido_cli.specs.OrderedLives.{OrderedLivesGoOn, OrderedLivesOfFilesGoOn};
ghost use Rattle.ido_cli.specs.Laws.{JournalsArePlayed, OlderSourcesComeFirst, OneAnswer, RunImagesAreRecovered, RunImagesAreUpgraded};
ghost use Rattle.ido_cli.specs.Laws.{RunsAreRecovered, UpgradesAreRecovered, UpgradesGoOn};

use compiler_correctness::laws::{images_are_crashes, machines_record};
use crash_simulation::laws::machines_resume;
use deadlock_freedom::laws::none_deadlocks;
use ido_compile::laws::{files_begin, one_verdict};
use image_checks::laws::runs_leave_no_fault;
use image_runs::laws::accepted_images_go_on;
use run_scripts::laws::journals_are_played_back;
use run_tracker::life::Life;
use source_machine::laws::lives_stop_once;

/// Words that don't ask for what stands on a compilation, and an input, have at most one answer: the status and the output of
/// `source` and `list` are a function of the bytes that are read, and those of `make` of its words. So they are of every command where
/// the source is refused. What the others say else is by some translation, and which one isn't said; what `live`, `load` and `recover`
/// say is by the order too in which their threads come.
pub fn one_answer()
    ensures { OneAnswer }
{
    one_verdict();
    lives_stop_once();
}

/// A life that begins with the object and the marks of a compiled text, at its start or with the words and the schedule of a file, is a run of a compilation
/// of that text, whatever events it makes: its machine and its steps are those of which all is promised.
pub fn lives_are_compiled()
    ensures starts { LivesAreCompiled }
    ensures files { LivesOfFilesAreCompiled }
{
    files_begin();
}

/// A life of a compiled text counts what the source ends by its kept schedules: `ended` is that number of each thread, from the text's start on; and from the
/// file of a run of the same translation on, where `of_words` was told the number that the source ends by the schedules of that file.
pub fn lives_count_sections()
    ensures starts { LivesCountSections }
    ensures files { LivesOfFilesCountSections }
{
    files_begin();
    images_are_crashes();
    lives_are_compiled();
}

/// A life of a text that `order` calls ordered comes to no standstill: after every list of events, steps, evictions and crashes in any
/// order, `can_step` finds a hart unless each has ended or is done with its recovery. So it is where it begins with the file of a run of the same
/// translation, and for whichever log the text was compiled. It says nothing of threads of the host.
pub fn ordered_lives_go_on()
    ensures starts { OrderedLivesGoOn }
    ensures files { OrderedLivesOfFilesGoOn }
{
    lives_are_compiled();
    none_deadlocks();
}

/// What `write_image` makes of a run is read by `read_image` as what it is: the same source, words and schedule. It is refused
/// only where the source is compiled to another translation than the one that ran. So it is of the file of a run of either log, in each version of that log
/// up to the newest that is asked for.
pub fn run_images_are_read()
    ensures { RunImagesAreRead }
{
    one_verdict();
    machines_resume();
    machines_record();
    runs_leave_no_fault();
}

/// An image that `image` wrote is read by `recover` as what the run has left: never refused, where the source is compiled to the same translation
/// again. Then the run goes on after its last event, and what is said is what `play` says of the events, a crash, and a leg. So it is of what a run of the
/// older log has left, as a file of that log's version.
pub fn runs_are_recovered()
    ensures written { RunsAreRecovered }
    ensures files { RunImagesAreRecovered }
{
    run_images_are_read();
}

/// What a run has left, as a file of an older version, `upgrade` refuses only where its source is refused for the newest log, by I4, or where after the leg
/// more steps are kept than a file can have, by I9 at the first step beyond; and else only where the source is compiled to another translation than the one
/// that ran.
pub fn run_images_are_upgraded()
    ensures { RunImagesAreUpgraded }
{
    one_verdict();
    machines_resume();
    machines_record();
    runs_leave_no_fault();
}

/// What `upgrade` writes of an image that a run has left, where its source was compiled to the translation of that run again, is read by `recover` as what
/// it is, to whatever translation its source is compiled then: it is never refused, and with whatever turns what is said is what `play` says of the events
/// of that run, a crash, and the leg of `upgrade`. Each thread stands between sections there, so that no hart makes a step more; and the lives that go on from
/// it keep what those keep that began at the source's start.
pub fn upgrades_are_recovered()
    ensures read { UpgradesAreRecovered }
    ensures lives { UpgradesGoOn }
{
    one_verdict();
    images_are_crashes();
    runs_leave_no_fault();
    accepted_images_go_on();
}

/// `upgrade` refuses an image of an older version whose source is refused for the newest log by I4, whatever stands after the source.
pub fn older_sources_come_first()
    ensures { OlderSourcesComeFirst }
{
    one_verdict();
}

/// What `live --journal` or `seeded --journal` writes of a source that has no line `%%` is an input of `play`, which answers it with the report of the very
/// events that are told: it is refused nowhere, and the source is compiled again, to which translation isn't said. A source that doesn't end with an LF has
/// one then, and is accepted with it as it is without; only where that makes it longer than a source may be, the input is past the limits.
pub fn journals_are_played()
    ensures { JournalsArePlayed }
{
    one_verdict();
    journals_are_played_back::<Life>();
}
