//! What is true of harts that stand on runs: nothing is computed here.
ghost use Rattle.hart_runs.specs.Laws.{AcquiresTake, AcquiresWait, BesideAgrees, CallsCount, CleansReachNow, CrashesAreShort, CrashesLeave};
ghost use Rattle.hart_runs.specs.Laws.{DrainsAgree, DrainsCountNone, DrainsReach, EndsEnd, EvictionsAgree, FencesSettle, ForwardAgrees};
ghost use Rattle.hart_runs.specs.Laws.{ForwardCounts, ForwardReaches, HartsAwait, HartsCome, HartsResume, HartsTake, MovedHartsBegin};
ghost use Rattle.hart_runs.specs.Laws.{NoneIsStuck, OthersCountNone, OthersKeepRuns, OthersLeave, OthersReach, QueuesStayShort, PersistedAgrees};
ghost use Rattle.hart_runs.specs.Laws.{RecoveryCountsNone, ReleasesGive, RunsBegin, RunsEnd, RunsJoin, RunsSplit, RunsStayOn, EnvironmentsAgree};
ghost use Rattle.hart_runs.specs.Laws.{EnvironmentsAnswer, EnvironmentsMeet, StartsAreShort, StepsGoOn, StepsLower, StoppedStay};

/// The environment of a world agrees with it, and meets a thread's code; where another world agrees with it, that one's answers with the same values.
pub fn environments_agree()
    ensures agrees { EnvironmentsAgree }
    ensures meets { EnvironmentsMeet }
    ensures answers { EnvironmentsAnswer }
{}

/// A step of a hart that stands on a run completes the next instruction, or writes back an entry that it is held up by.
pub fn steps_go_on()
    ensures { StepsGoOn }
{}

/// What is counted of each event: a step that completes an instruction passes its mark, and stores the point or finishes a fence
/// where its effect does.
pub fn steps_are_counted()
    ensures forward { ForwardCounts }
    ensures drained { DrainsCountNone }
    ensures calls { CallsCount }
    ensures recovery { RecoveryCountsNone }
    ensures others { OthersCountNone }
{}

/// How far a hart's queue reaches: whatever happens but a crash, no less far; after a clean to the last positions of its line; and a
/// fence is passed once all of it is durable.
pub fn queues_reach()
    ensures forward { ForwardReaches }
    ensures drained { DrainsReach }
    ensures others { OthersReach }
    ensures cleans { CleansReachNow }
    ensures fences { FencesSettle }
{}

/// No queue ever has more entries than it may.
pub fn queues_stay_short()
    ensures events { QueuesStayShort }
    ensures starts { StartsAreShort }
    ensures crashes { CrashesAreShort }
{}

/// Every other event but a crash leaves a hart as it is, on the same run.
pub fn others_keep_runs()
    ensures hart { OthersLeave }
    ensures run { OthersKeepRuns }
{}

/// What an environment answers, memory goes on to give where words are persisted or other bytes are stored to.
pub fn memory_agrees()
    ensures persisted { PersistedAgrees }
    ensures beside { BesideAgrees }
    ensures forward { ForwardAgrees }
    ensures drained { DrainsAgree }
    ensures evicted { EvictionsAgree }
{}

/// A hart stands on a run that begins where it is, on one after the other, and on the first part of one; at its end it is there.
pub fn runs_join()
    ensures begin { RunsBegin }
    ensures moved { MovedHartsBegin }
    ensures end { RunsEnd }
    ensures join { RunsJoin }
    ensures split { RunsSplit }
    ensures stay { RunsStayOn }
{}

/// A hart comes to the end of its run by as many of its steps as are left, whatever else happens between them but a crash.
pub fn runs_come_to_ends()
    ensures lower { StepsLower }
    ensures come { HartsCome }
{}

/// What a call does: an acquire takes a free lock or waits, a release gives back a lock that is held, and an end ends.
pub fn calls_go_on()
    ensures takes { AcquiresTake }
    ensures waits { AcquiresWait }
    ensures gives { ReleasesGive }
    ensures ends { EndsEnd }
{}

/// What a crash leaves, and what a step of recovery does: a hart takes the locks of its record, waits for the others, and resumes
/// with its bank's registers.
pub fn harts_resume()
    ensures crashes { CrashesLeave }
    ensures takes { HartsTake }
    ensures waits { HartsAwait }
    ensures resumes { HartsResume }
    ensures stopped { StoppedStay }
{}

/// A hart that stands on a run, at a call that it may make, or executes nothing is not stuck.
pub fn none_is_stuck()
    ensures { NoneIsStuck }
{}
