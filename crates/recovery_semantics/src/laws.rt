//! Laws of configs: nothing is computed here.
ghost use Rattle.recovery_semantics.specs.Elements.{BesideIn, CrashedIn, DurableIn, LiveIn, PersistedIn, StoredIn};
ghost use Rattle.recovery_semantics.specs.Laws.{BetweenIsKept, BetweenIsStable, CrashedAreStable, DurableIsKept, EventsKeep, ExecutionsResume, FreshAreStable};
ghost use Rattle.recovery_semantics.specs.Laws.{ExecutionsSettle, GoesAlone, HeldBefore, HeldNow, LeftIsFree, NowStays, PathsStay, ReadsAreRight};
ghost use Rattle.recovery_semantics.specs.Laws.{ScheduleGrows, SectionsStay, SettlesAsItIs, SinceIsPersisted, SinceSettles, SinceStays, StartMeets};
ghost use Rattle.recovery_semantics.specs.Laws.{StoredIsSince, UnlockedIsLast, WritersApart, WritersGuard};
ghost use Rattle.recovery_semantics.specs.VariableSpots.{MemoryCrashed, MemoryLoaded, MemoryPersisted, MemoryStays, MemoryStored};

/// What is true of each config: an execution begins with it, and every event keeps it.
///
/// The invariant in words: what is kept keeps the discipline; the uncommitted schedule can be stepped from it, and no mutex is
/// transferred in it; of each thread the steps of its longest attempt are inner steps from what is kept, its present attempt is a
/// prefix of them, and it has begun those steps or one more, which passes a mutex; each element that no thread's longest attempt
/// writes is stable at its kept number; each element's live number is that of now, but for those that an earlier attempt wrote
/// further on and the present one hasn't yet.
pub fn invariant_is_kept()
    ensures start { StartMeets }
    ensures fresh { FreshAreStable }
    ensures crashed { CrashedAreStable }
    ensures event { EventsKeep }
{}

/// What a thread reads of the elements that it guards is the source's number, where what earlier attempts wrote from here on
/// this one has written already.
pub fn reads_are_right()
    ensures { ReadsAreRight }
{}

/// A thread writes only elements that it guards in what is kept, so no two threads write one.
pub fn writers_guard()
    ensures guard { WritersGuard }
    ensures apart { WritersApart }
{}

/// Where no attempt has written anything, so where all threads are kept between sections, durable memory has exactly the variables
/// that are kept, whatever becomes durable later: another execution may begin with them.
pub fn durable_is_kept()
    ensures unwritten { DurableIsKept }
    ensures between { BetweenIsKept }
    ensures stable { BetweenIsStable }
{}

/// A thread acquires no released mutex by a step that isn't kept where no other thread has the mutex in what is kept.
/// What it has now it has in what is kept, or has locked since; and what it has in what is kept it has now, or has unlocked since,
/// which is its last step then.
pub fn mutexes_stay()
    ensures free { LeftIsFree }
    ensures now { HeldNow }
    ensures before { HeldBefore }
    ensures last { UnlockedIsLast }
{}

/// An element that is stored to has its number since then, whatever else is stored or becomes durable; and once that is durable in
/// its turn, so is what the thread stored.
pub fn stores_become_durable()
    ensures stored { StoredIsSince }
    ensures others { SinceStays }
    ensures persisted { SinceIsPersisted }
    ensures settled { SinceSettles }
{}

/// A thread is what its own steps alone give; where steps are kept, it is kept as it is, and the attempts of the others go the
/// same path from there.
pub fn paths_stay()
    ensures alone { GoesAlone }
    ensures own { SettlesAsItIs }
    ensures others { PathsStay }
{}

/// The kept schedule only grows, with each section that has ended in it; the state after all begun steps stays.
pub fn schedule_grows()
    ensures kept { ScheduleGrows }
    ensures sections { SectionsStay }
    ensures now { NowStays }
{}

/// Whatever happens from a state on that keeps the lock discipline: the kept schedule can be stepped whole from it, and whenever it
/// leaves all threads between sections, durable memory has exactly the variables that it leaves.
pub fn executions_resume()
    ensures kept { ExecutionsResume }
    ensures settled { ExecutionsSettle }
{}

/// Elements in words of memory: they persist and crash with their words; a store to an element's bytes appends its number, and a
/// store beside them the element's own number.
pub fn elements_in_words()
    ensures live { LiveIn }
    ensures durable { DurableIn }
    ensures persisted { PersistedIn }
    ensures crashed { CrashedIn }
    ensures stored { StoredIn }
    ensures beside { BesideIn }
{}

/// Variables in words of memory, wherever they stand apart from one another: what happens to words is what happens to memory.
pub fn memory_in_words()
    ensures loaded { MemoryLoaded }
    ensures stored { MemoryStored }
    ensures stays { MemoryStays }
    ensures persisted { MemoryPersisted }
    ensures crashed { MemoryCrashed }
{}
