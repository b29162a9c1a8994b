//! Laws of compiled programs in the words of their readers: nothing is computed here.
ghost use Rattle.compiler_correctness.specs.Laws.{CompiledCodeHasForm, DelaysAreBounded, FilesAreImages, FilesAreResumed, HartsNeverStick};
ghost use Rattle.compiler_correctness.specs.Laws.{ImagesAreCrashes, ImagesAreResumed, KeptStepsGrow, MachinesAreWhole, MachinesKeepStep};
ghost use Rattle.compiler_correctness.specs.Laws.{MachinesRecord, RecoveredWordsRunOn, RecoveredWordsSettle, SectionsAreKept, SettledMachinesAreKept};
ghost use Rattle.compiler_correctness.specs.Laws.{SettledImagesGoOn, SystemsAreCompilations, WordsBetweenStay};

use crash_simulation::laws::{
    cores_step, events_stand, fragments_step, local_stores_step, machines_resume,
    none_is_stuck as simulating_is_free, recovered_are_counted, recovered_words_simulate,
    sections_are_kept as ended_sections_are_kept, sections_end_at_points,
};
use region_cutter::laws::chosen_boundaries_are_locked;
use thread_runs::laws::{fragments_go_on, marks_pass};

/// Whatever has happened, the source can be stepped by all steps that are kept, and where all harts stand between sections, durable variables are those
/// that it has then.
pub fn settled_machines_are_kept()
    ensures { SettledMachinesAreKept }
{
    machines_resume();
}

/// No kept step is lost, whatever happens.
pub fn kept_steps_grow()
    ensures { KeptStepsGrow }
{}

/// The kept steps of a life hold each section that a hart has left in it, and at most one more of its thread. By each of its events a section of a thread is
/// kept exactly where the durable point of its hart, which was not 0, becomes 0.
pub fn sections_are_kept()
    ensures { SectionsAreKept }
{
    ended_sections_are_kept();
    sections_end_at_points();
}

/// The source can be stepped by all kept steps, and after them by those begun since. A hart's record is the set of locks that its thread holds after the
/// kept steps, which it takes in recovery without waiting; one that executes instructions holds what its thread holds now, and beside that at most the
/// lock of an unlock that is its thread's last begun step; and all points name addresses at which recovery may resume.
pub fn machines_record()
    ensures { MachinesRecord }
{
    machines_resume();
    marks_pass();
}

/// Between sections there is no point, and a hart that has ended has made its thread's last step.
pub fn machines_are_whole()
    ensures { MachinesAreWhole }
{
    machines_resume();
}

/// No hart is ever stuck.
pub fn harts_never_stick()
    ensures { HartsNeverStick }
{
    machines_resume();
    simulating_is_free();
}

/// A hart that executes instructions soon begins the next step of its thread, or stops: among as many of its steps that wait for no lock as twice the words of
/// its code, and 18, and where locals stand in the log one more for each line in which they do, is one by which it begins one or after which it has stopped,
/// whatever other harts do, whatever is evicted and whichever lives begin in between, as long as power stays on.
pub fn delays_are_bounded()
    ensures { DelaysAreBounded }
{
    cores_step();
    local_stores_step();
    events_stand();
    fragments_go_on();
    fragments_step();
}

/// In a life without a crash the source can be stepped by all steps that have begun in it, memory has the variables that it has then, and a hart holds what its
/// thread does, and beside that at most the lock of an unlock that is its thread's last step.
pub fn machines_keep_step()
    ensures { MachinesKeepStep }
{
    cores_step();
    local_stores_step();
    marks_pass();
    fragments_go_on();
    fragments_step();
}

/// The code of each thread is that of its nodes, one after another: within its price, with a mark for each node, two FENCEs for each boundary and no other
/// FENCE, and resumed nowhere but after boundaries. Boundaries stand where the graph is cut, by choice only where a mutex is held. Where locals stand in
/// registers none of those can be taken away, and in straight code they are the fewest; where they stand in the log each write of a section has one before it
/// that records it. That they stand so is asked here since systems don't say it.
pub fn compiled_code_has_form()
    ensures { CompiledCodeHasForm }
{
    chosen_boundaries_are_locked();
}

/// A run that is begun from what a crash left in memory, and from the kept schedule, is the one that goes on after that crash.
pub fn images_are_crashes()
    ensures { ImagesAreCrashes }
{}

/// In a run from an image that the same program left, the source can be stepped by all steps that are kept, those of the image first, and where all harts
/// stand between sections, durable variables are those that it has then.
/// An image has all words of memory; nothing is said of words that no run of the same program left.
pub fn images_are_resumed()
    ensures { ImagesAreResumed }
{
    kept_steps_grow();
    settled_machines_are_kept();
}

/// A machine that begins with words whose records describe a state of the source runs on, whoever left them and whether a run reaches that state or not:
/// no hart is ever stuck, none that takes its locks in recovery waits for one, and one that waits for no lock begins its next step, or has stopped, within
/// as many of its steps as `delays_are_bounded` says, while power stays on.
pub fn recovered_words_run_on()
    ensures { RecoveredWordsRunOn }
{
    cores_step();
    local_stores_step();
    events_stand();
    fragments_go_on();
    simulating_is_free();
    recovered_words_simulate();
    fragments_step();
}

/// Whatever happens in such a run, the source can be stepped from that state by all steps that are kept since, and where all harts stand between sections,
/// durable variables are those that it has then.
pub fn recovered_words_settle()
    ensures { RecoveredWordsSettle }
{
    recovered_are_counted();
}

/// An image is settled in which no thread has a point, and whose variables are what the source has after the schedules, with every thread between sections,
/// whoever wrote it. Lives that go on from it keep what those keep that began at the source's start: in one without a crash machine and source keep step; the
/// source can be stepped by all kept steps, those of the image first, and after them by those begun since; a hart's record is what its thread holds by them;
/// and where all harts stand between sections, so do all threads, and durable variables are those that the source has then.
pub fn settled_images_go_on()
    ensures { SettledImagesGoOn }
{
    cores_step();
    local_stores_step();
    marks_pass();
    fragments_go_on();
    recovered_are_counted();
    fragments_step();
}

/// Whatever happens, no hart stores between the variables and the logs: those words are 0, durably.
pub fn words_between_stay()
    ensures { WordsBetweenStay }
{
    cores_step();
    local_stores_step();
    events_stand();
    fragments_step();
}

/// A file of an image has all of it in the words of the variables and of the logs, and a machine that begins with these, and with zeros between them, begins
/// with the image.
pub fn files_are_images()
    ensures { FilesAreImages }
{
    events_stand();
    words_between_stay();
}

/// In a run from a file of an image, too, the source can be stepped by all steps that are kept, those of the file first.
pub fn files_are_resumed()
    ensures { FilesAreResumed }
{
    files_are_images();
    images_are_resumed();
}

/// What a compiler makes of a flat form, if it is a system with the boundaries for where its locals stand, is a compilation: all of the above holds of it.
/// It is a clause of `ido_compile::compile`.
pub fn systems_are_compilations()
    ensures { SystemsAreCompilations }
{
    compiled_code_has_form();
    machines_keep_step();
    harts_never_stick();
    delays_are_bounded();
    machines_are_whole();
    machines_record();
    kept_steps_grow();
    sections_are_kept();
    settled_machines_are_kept();
    images_are_resumed();
    files_are_images();
    files_are_resumed();
}
