//! Laws of words: nothing is computed here.
ghost use Rattle.variable_words.specs.Logs.{LinesApart, LogsApart, LogsHoldNone, LogsReach};
ghost use Rattle.variable_words.specs.VariablesInWords.{AddressesReach, CrashesHold, ImagesHold, StartsHold, VariablesApart, WellFormedArePlaced};
ghost use Rattle.variable_words.specs.Variables.{DurableAreMemory, LiveAreMemory};
ghost use Rattle.variable_words.specs.MemoryEffects.{CleansReach, EmptyIsDurable, EventsRaise, FencesSettle};
ghost use Rattle.variable_words.specs.MemoryEffects.{PositionsGrow, PositionsMeet, ReachLasts, StepsWork};
ghost use Rattle.variable_words.specs.MemoryEffects.{StoresStore};

/// Variables stand apart in words, and an element can be accessed at its address.
pub fn variables_stand()
    ensures placed { WellFormedArePlaced }
    ensures apart { VariablesApart }
    ensures addresses { AddressesReach }
{}

/// Memory begins with the source's initial numbers, and a crash keeps its durable numbers.
pub fn words_hold_memory()
    ensures start { StartsHold }
    ensures crash { CrashesHold }
    ensures image { ImagesHold }
{}

/// The words of logs have no element, and each is one place of one thread's log.
pub fn logs_stand()
    ensures access { LogsReach }
    ensures none { LogsHoldNone }
    ensures words { LogsApart }
    ensures lines { LinesApart }
{}

/// A step of a hart stores, cleans, writes back or leaves words alone, and what stores to no element does nothing to memory but persist it.
pub fn steps_work()
    ensures steps { StepsWork }
    ensures stores { StoresStore }
    ensures raise { EventsRaise }
{}

/// An element has the positions of its word, and no event but a crash takes one back.
pub fn positions_stay()
    ensures meet { PositionsMeet }
    ensures grow { PositionsGrow }
{}

/// A clean reaches what has been stored to its line, and that is durable once the hart's queue is empty, whatever all harts do before.
pub fn fences_settle()
    ensures clean { CleansReach }
    ensures reach { ReachLasts }
    ensures empty { EmptyIsDurable }
    ensures settle { FencesSettle }
{}

/// The variables that loads give, and those that a crash leaves, are memory's.
pub fn variables_are_memory()
    ensures live { LiveAreMemory }
    ensures durable { DurableAreMemory }
{}
