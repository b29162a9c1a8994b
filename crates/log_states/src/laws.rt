//! Laws of a thread's log, beside whatever the other threads do: nothing is computed here.
ghost use Rattle.log_states.specs.Laws.{BoundaryBegins, BeginsUncommitted, BoundariesFence, CommittedAfterFence, CommittedWhere, CrashesKeep, CrashesLeave};
ghost use Rattle.log_states.specs.Laws.{CrashesResume, DurableIsStable, EndsCommitted, BoundaryEnds, Keeps, KeptAreKeepable};
ghost use Rattle.log_states.specs.Laws.{LivePointIs, LogsAreApart, PointIs, PointSays, PointStoreIsLast, PositionStays, RecordIsResumed};
ghost use Rattle.log_states.specs.Laws.{SideFollows};
ghost use Rattle.log_states.specs.Laws.{Rests, SlotsAreIn, StartsEmpty, StaysCommitted, StaysRecorded, StoresElsewhere, VariablesAreApart};
ghost use Rattle.log_states.specs.Machines.{BoundariesStayIn, CrashesCrash, EvictionsMove, LogEffectsGo, OwnStepsMove};
ghost use Rattle.log_states.specs.Machines.{StepsMove, StoresNothing, StoresToFrame, StoresToOtherLog, StoresToVariable};
ghost use Rattle.log_states.specs.LogFacts.{LogFacts};
ghost use Rattle.log_states.specs.BanksRead.{AllBanksAreRead};
ghost use Rattle.log_states.specs.LogInvariant.{BeginsStanding, CrashesStanding, EvictionsKeep, OwnStepsKeep, StartsStanding, StepsKeep};

/// A log on its way from one record to the next: a boundary begins from any record, whose bank it leaves alone; every event
/// keeps that; and the boundary ends with its own record.
pub fn boundaries_record()
    ensures begins { BoundaryBegins }
    ensures event { Keeps }
    ensures ends { BoundaryEnds }
    ensures rests { Rests }
{}

/// Between boundaries the log keeps its record, whatever is stored elsewhere, as to another thread's log or to words of the frame that it doesn't count on.
pub fn records_stay()
    ensures event { StaysRecorded }
    ensures stable { DurableIsStable }
    ensures elsewhere { StoresElsewhere }
    ensures apart { LogsAreApart }
    ensures slots { SlotsAreIn }
    ensures variables { VariablesAreApart }
{}

/// The durable point is the old one until the store of the new one is durable, and the new one from then on; the live one is the new one or, until that is
/// durable, may be the old one.
pub fn points_commit()
    ensures begins { BeginsUncommitted }
    ensures point { PointIs }
    ensures live { LivePointIs }
    ensures stays { StaysCommitted }
    ensures ends { EndsCommitted }
    ensures store { PointStoreIsLast }
    ensures position { PositionStays }
    ensures durable { CommittedWhere }
{}

/// A boundary has two fences, and is committed after the first.
pub fn boundaries_fence()
    ensures two { BoundariesFence }
    ensures committed { CommittedAfterFence }
{}

/// A crash at any moment leaves the whole record of the durable point.
pub fn crashes_leave()
    ensures boundary { CrashesLeave }
    ensures between { CrashesKeep }
    ensures resumed { CrashesResume }
{}

/// Recovery makes of a record what the boundary made it of: its locks, what is told of a write, its resume address, its registers, the words of the frame
/// that it counts on, and the side of the log.
pub fn records_resume()
    ensures record { RecordIsResumed }
    ensures point { PointSays }
    ensures side { SideFollows }
    ensures kept { KeptAreKeepable }
{}

/// At the machine's start nothing is recorded.
pub fn starts_empty()
    ensures { StartsEmpty }
{}

/// Events of the machine are what can happen to a log: steps of its own hart, of others, evictions, crashes. A boundary is never stuck.
pub fn events_move()
    ensures effects { BoundariesStayIn }
    ensures goes { LogEffectsGo }
    ensures own { OwnStepsMove }
    ensures steps { StepsMove }
    ensures evictions { EvictionsMove }
    ensures crash { CrashesCrash }
{}

/// Steps that store nothing to a thread's log, but maybe to words of its frame that aren't named.
pub fn steps_apart()
    ensures nothing { StoresNothing }
    ensures variable { StoresToVariable }
    ensures boundary { StoresToOtherLog }
    ensures frame { StoresToFrame }
{}

/// The machine reads back what a bank keeps: the locks, and each register from its slot.
pub fn banks_are_read()
    ensures { AllBanksAreRead }
{}

/// What recovery rests on: a bank is durable before a point names it, and is kept as long as one does; what was kept in registers is resumed; and the
/// durable record has the locks of the last boundary that is committed.
pub fn facts()
    ensures { LogFacts }
{}

/// A thread's log in a machine stands from the start on, whatever happens: when a boundary begins, at each of its instructions, at every other
/// step and eviction, and after a crash.
pub fn logs_stand()
    ensures start { StartsStanding }
    ensures begins { BeginsStanding }
    ensures own { OwnStepsKeep }
    ensures steps { StepsKeep }
    ensures evictions { EvictionsKeep }
    ensures crash { CrashesStanding }
{}
