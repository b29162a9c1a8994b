//! Laws of the source's own steps: nothing is computed here.
ghost use Rattle.source_machine.specs.AppendedSchedules.{AfterAppended, EndedAppended, RunsAppended};
ghost use Rattle.source_machine.specs.Discipline.{HeldIsGiven, LeavesHeld, LeavesNames, LeavesOthers, PlainIsGiven, ReachedKeeps};
ghost use Rattle.source_machine.specs.Discipline.{ReadsGuarded, RunKeeps, SetIsOne, StartKeeps, StepKeeps, WritesGuarded};
ghost use Rattle.source_machine.specs.LifeRuns.{LivesNotWhole, OneLifeStop};
ghost use Rattle.source_machine.specs.Lives.{AfterLife, BetweenIsEach, EndedLife, LifeSizesStay, RunsLife};
ghost use Rattle.source_machine.specs.StepExchanges.{Exchange, Solo, StepAdded, StepsDropped, Swap};
ghost use Rattle.source_machine.specs.Laws.{NotWhole, OneStop, OthersStay, RestingStays, SizesStay};

/// A thread that isn't stepped keeps its locals, what it has left and its pending store.
pub fn others_stay()
    ensures step { OthersStay }
    ensures run { RestingStays }
{}

/// A run keeps the number of threads, of variables, and of each variable's elements.
pub fn sizes_stay()
    ensures { SizesStay }
{}

/// A schedule is stepped whole, or it is refused at one step for one reason.
pub fn one_stop()
    ensures stop { OneStop }
    ensures not_whole { NotWhole }
{}

/// Lives, a schedule for each, are stepped whole, or they are stopped once for one reason; and they keep the number of threads, of variables, and of each
/// variable's elements.
pub fn lives_stop_once()
    ensures stop { OneLifeStop }
    ensures not_whole { LivesNotWhole }
    ensures sizes { LifeSizesStay }
{}

/// One schedule after another is stepped as the two in turn.
pub fn schedules_append()
    ensures after { AfterAppended }
    ensures runs { RunsAppended }
    ensures ended { EndedAppended }
{}

/// One life more is stepped from where it begins, if all before it end; and a life ends where each thread stands between sections.
pub fn lives_append()
    ensures after { AfterLife }
    ensures runs { RunsLife }
    ensures ended { EndedLife }
    ensures between { BetweenIsEach }
{}

/// States that keep the lock discipline: a form whose threads keep it begins with one, steps lead from one to one, and what the
/// discipline says that a thread holds is what the holders say. A step that locks and unlocks nothing leaves what its thread holds, by
/// the same names with the same locks.
pub fn discipline_is_kept()
    ensures start { StartKeeps }
    ensures step { StepKeeps }
    ensures run { RunKeeps }
    ensures reached { ReachedKeeps }
    ensures held { HeldIsGiven }
    ensures one { SetIsOne }
    ensures names { LeavesNames }
    ensures plain { PlainIsGiven }
{}

/// Under the lock discipline a step of a thread writes, and reads, only elements of variables whose lock the thread holds.
pub fn steps_are_guarded()
    ensures writes { WritesGuarded }
    ensures of_others { LeavesOthers }
    ensures held { LeavesHeld }
    ensures reads { ReadsGuarded }
{}

/// Under the lock discipline steps of different threads may change places, unless a mutex is transferred.
pub fn steps_exchange()
    ensures swap { Swap }
    ensures exchange { Exchange }
    ensures solo { Solo }
{}

/// Where no mutex is transferred, none is with one more step that acquires no released one, nor without the first steps.
pub fn no_mutex_changes_hands()
    ensures added { StepAdded }
    ensures dropped { StepsDropped }
{}
