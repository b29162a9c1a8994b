//! Laws of compiled programs in a machine: nothing is computed here.
ghost use Rattle.crash_simulation.specs.AccountRelation.{MachinesResume};
ghost use Rattle.crash_simulation.specs.Laws.{CommitStutters, CrashSimulates, EventsStand, EvictionsSimulate, NoneIsStuck, ResumesStand};
ghost use Rattle.crash_simulation.specs.Laws.{RunsSimulate, SettledIsKept, StartSimulates, StoppedStand, TakesMove, TakesStand, WaitsStand};
ghost use Rattle.crash_simulation.specs.RecoveredWords.{RecoveredAreCounted, RecoveredWordsSimulate};
ghost use Rattle.crash_simulation.specs.ReleasedSections.{SectionsAreKept};
ghost use Rattle.crash_simulation.specs.LaterLives.{LivesSimulate};
ghost use Rattle.crash_simulation.specs.PointSections.{SectionsEndAtPoints};
ghost use Rattle.crash_simulation.specs.InstructionSteps.{CallsStep, CoresStep, LocalStoresStep, OwnStepsSimulate, RunsReady, FragmentsStep};

use thread_runs::laws::{fragments_go_on, marks_pass};

/// At its start the machine simulates the abstract run that begins at the source's start.
pub fn starts_simulate()
    ensures { StartSimulates }
{}

/// Where each hart has stopped between sections another life may begin: the machine simulates an abstract run that begins with the variables
/// that the one before has left.
pub fn lives_simulate()
    ensures { LivesSimulate }
{}

/// After a crash, at whatever moment, the machine simulates an abstract run at what is kept.
pub fn crashes_simulate()
    ensures { CrashSimulates }
{}

/// Where recovery begins with words whose records describe an origin, reached by a run or not, the machine simulates an abstract run that begins
/// there: whoever left these words.
pub fn recovered_words_simulate()
    ensures { RecoveredWordsSimulate }
{}

/// The machine simulates an abstract run while harts gather the locks of their records, where one is resumed, and after a step of one that has stopped.
pub fn recovery_simulates()
    ensures takes { TakesStand }
    ensures waits { WaitsStand }
    ensures resumes { ResumesStand }
    ensures stopped { StoppedStand }
{}

/// Where boundaries have been committed, the steps before them are kept.
pub fn commit_stutters()
    ensures { CommitStutters }
{}

/// Where all durable points are 0, durable memory has exactly the variables that the source leaves by the kept schedule.
pub fn settled_is_kept()
    ensures { SettledIsKept }
{}

/// A hart that executes instructions may be taken to be in a fragment, at the call that ends one, at the store of a local, or at the code of
/// a node that takes no mutex.
pub fn runs_ready()
    ensures { RunsReady }
{}

/// What a step of a hart in a fragment is to its thread.
pub fn fragments_step()
    ensures { FragmentsStep }
{
    fragments_go_on();
}

/// What a step of a hart at the code of a node that takes no mutex is to its thread.
pub fn cores_step()
    ensures { CoresStep }
{
    marks_pass();
}

/// What a step of a hart is to its thread that stores a local: outside sections, where its number is computed; or once more that of a logged assignment
/// which the thread is past.
pub fn local_stores_step()
    ensures { LocalStoresStep }
{
    fragments_go_on();
    marks_pass();
}

/// What a step of a hart at its call is to its thread.
pub fn calls_step()
    ensures { CallsStep }
{}

/// After an eviction the machine simulates an abstract run: all threads are where they were, and what is committed may not be taken so yet.
pub fn evictions_simulate()
    ensures { EvictionsSimulate }
{}

/// After a step of a hart that executes instructions the machine simulates an abstract run, with commits still to be taken, if after it the hart's own
/// thread is where its graph thread is: all others are where they were.
pub fn own_steps_simulate()
    ensures { OwnStepsSimulate }
{}

/// After each step of a hart that executes instructions the machine simulates an abstract run, with commits still to be taken.
pub fn runs_simulate()
    ensures { RunsSimulate }
{
    fragments_step();
    cores_step();
    local_stores_step();
}

/// Whatever happens, the machine still simulates an abstract run.
pub fn events_stand()
    ensures { EventsStand }
{
    fragments_go_on();
    fragments_step();
    cores_step();
    local_stores_step();
}

/// After every list of events it simulates an abstract run, which begins where this life does, after all lives before it have ended, and its account of begun
/// and kept steps is that of the run's config.
/// Kept steps are the kept schedule, pending ones those begun and not kept, in their order, and each thread's begun steps are free,
/// or bound to the store of its point.
pub fn machines_resume()
    ensures { MachinesResume }
{
    fragments_go_on();
    fragments_step();
    cores_step();
    local_stores_step();
}

/// After every list of events in a run from words whose records describe an origin, too: kept steps are those that were kept before, and after them
/// those of the run's schedule from there.
pub fn recovered_are_counted()
    ensures { RecoveredAreCounted }
{
    fragments_go_on();
    fragments_step();
    cores_step();
    local_stores_step();
}

/// The kept schedule of a life holds each section that has ended in it, and at most one more of each thread.
pub fn sections_are_kept()
    ensures { SectionsAreKept }
{
    fragments_go_on();
    fragments_step();
    cores_step();
    local_stores_step();
}

/// An event of a life ends a section of a thread by its kept schedule exactly where the durable point of its hart, which was not 0, becomes 0. What it takes
/// from the events is the durable points alone, so that sections can be counted where steps are kept.
pub fn sections_end_at_points()
    ensures { SectionsEndAtPoints }
{
    fragments_go_on();
    fragments_step();
    cores_step();
    local_stores_step();
}

/// No hart is ever stuck, and one that takes its locks in recovery waits for no other.
pub fn none_is_stuck()
    ensures stuck { NoneIsStuck }
    ensures takes { TakesMove }
{
    marks_pass();
}
