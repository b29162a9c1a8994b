//! What is true of records and of recovery: nothing is computed here.
ghost use Rattle.recovered_threads.specs.Laws.{AssignedIsApart, WordsAreListed, WordsExist};
ghost use Rattle.recovered_threads.specs.Laws.{BoundariesRecover, CommitsDescribe, CrashesAgain, CrashesGather, CrashesRecover, DurableLocksAreApart};
ghost use Rattle.recovered_threads.specs.Laws.{DurableLocksAreHeld, DurablePointsSettle, EventsRecover, GatheredAreKept, GatheredGoOn, HartsGoOn, LocksAreHeld};
ghost use Rattle.recovered_threads.specs.Laws.{LateHartsGoOn};
ghost use Rattle.recovered_threads.specs.Laws.{LogsHaveLocks, OthersDescribe, PointsHaveLocks, PointsSettle, ReadyAsKept, RecoveringDescribes, RecordsAreApart};
ghost use Rattle.recovered_threads.specs.Laws.{StartsOrderly, StartsDescribe, StartsTold, StepsOrderly, TakesNeverWait, UnlocksEnter, WaitsForTakers};

/// Every state that a plan's graph reaches is orderly, and in the first one nothing is recorded.
pub fn states_are_orderly()
    ensures start { StartsOrderly }
    ensures step { StepsOrderly }
    ensures told { StartsTold }
{}

/// The locks of a thread's record are those that it holds in the kept state, so no two records have one in common; there are some
/// exactly where its point isn't 0, and the durable log has them at each moment.
pub fn locks_are_held()
    ensures held { LocksAreHeld }
    ensures some { PointsHaveLocks }
    ensures logged { LogsHaveLocks }
    ensures apart { RecordsAreApart }
{}

/// A crash, in recovery as at any other moment, leaves harts that gather the locks of their records. None ever waits for a lock; those
/// that have theirs wait for the others, and once none takes any more, all are held as in the kept state, and no hart waits.
pub fn locks_are_gathered()
    ensures crash { CrashesGather }
    ensures again { CrashesAgain }
    ensures takes { TakesNeverWait }
    ensures waits { WaitsForTakers }
    ensures goes_on { GatheredGoOn }
    ensures events { EventsRecover }
    ensures kept { GatheredAreKept }
    ensures ready { ReadyAsKept }
{}

/// A hart goes on where its record says, with registers that represent what its thread sees in the kept state, and with the words of its frame on
/// which it counts there; and where it has made a logged assignment that its record tells, it goes on at the core of that.
pub fn harts_go_on()
    ensures there { HartsGoOn }
    ensures late { LateHartsGoOn }
{}

/// The words of its frame in which those locals stand on which a thread counts at a node can be listed: they exist, and the word that a logged
/// assignment stores is none of them.
pub fn words_are_counted()
    ensures listed { WordsAreListed }
    ensures exist { WordsExist }
    ensures apart { AssignedIsApart }
{}

/// A boundary can be recovered from, and where it is committed, its record describes the state that is kept with it; the other threads'
/// records go on to describe the kept state, where what they assign next stays the same.
pub fn commits_describe()
    ensures recoverable { BoundariesRecover }
    ensures own { CommitsDescribe }
    ensures unlocks { UnlocksEnter }
    ensures others { OthersDescribe }
{}

/// All durable points are 0 exactly where no mutex is held in the kept state.
pub fn points_settle()
    ensures { PointsSettle }
{}

/// In a machine whose logs describe the kept state, a thread's durable log has the locks that it holds there, and all durable points are 0
/// exactly where no mutex is held. Logs do so at the start; a crash leaves harts that recover to the kept state, and theirs do so all along.
pub fn logs_describe()
    ensures start { StartsDescribe }
    ensures held { DurableLocksAreHeld }
    ensures apart { DurableLocksAreApart }
    ensures settled { DurablePointsSettle }
    ensures crash { CrashesRecover }
    ensures recovering { RecoveringDescribes }
{}
