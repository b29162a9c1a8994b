//! Laws of attempts at regions: nothing is computed here.
ghost use Rattle.region_attempts.specs.Laws.{AttemptsAreWhole, EventsStay, GraphFollows, GraphSettles, GraphMatches, InsideIsRegion};
ghost use Rattle.region_attempts.specs.Laws.{ExecutionsStay, FreeAtBoundaries, LivesAreOrigins, NextResumes, NothingIsWritten, ReadersGuard, ReadersGuardStill};
ghost use Rattle.region_attempts.specs.Laws.{RerunReadsNothingOverwritten, SettledMayBegin, StartStays, StartsAreOrigins, StoresAreCleaned, WritersStore};

/// The graph's states match the source's, as of what is kept and now; a thread's graph thread is what its own steps alone leave; and the graph
/// follows each event: where a thread's steps are kept, its graph thread is kept as it is now.
pub fn graph_stands()
    ensures stands { GraphMatches }
    ensures follows { GraphFollows }
    ensures settles { GraphSettles }
{}

/// Where an execution begins at boundaries each attempt stays within its region, and every event keeps that, where no attempt goes on
/// past a boundary and steps are kept only at one.
pub fn attempts_stay_inside()
    ensures start { StartStays }
    ensures event { EventsStay }
{}

/// An attempt that stays inside is a path within a region of the graph, where one begins at what is kept.
pub fn attempts_are_paths()
    ensures { InsideIsRegion }
{}

/// An attempt that stands before a boundary has come as far as any attempt from the same kept steps.
pub fn attempts_are_whole()
    ensures { AttemptsAreWhole }
{}

/// Where a thread's steps are kept, the next region begins, or an unlock is right before it.
pub fn next_resumes()
    ensures { NextResumes }
{}

/// What a thread reads in an attempt that stays within its region is the source's number, whatever earlier attempts have overwritten:
/// at the node where it stands, and still after its steps; and until it goes on from the node after that one it is the number of the
/// state in which the step that reads it is made. An attempt stores nothing that it has read, unless it had stored that before.
pub fn rerun_reads_nothing_overwritten()
    ensures { RerunReadsNothingOverwritten }
{}

/// What a thread reads in an attempt it guards: at the node where it stands, and still after its steps.
pub fn readers_guard()
    ensures here { ReadersGuard }
    ensures still { ReadersGuardStill }
{}

/// A thread writes at nodes that store, in their locations; one that has done nothing has written nothing.
pub fn writers_store()
    ensures store { WritersStore }
    ensures nothing { NothingIsWritten }
{}

/// When an attempt has come to its region's end, the line of each element that it has stored was cleaned by that store or a later one.
pub fn stores_are_cleaned()
    ensures { StoresAreCleaned }
{}

/// Whatever happens from where an execution begins, where boundaries are respected: the kept schedule leads from there to what is
/// kept, and each attempt stays within its region.
pub fn executions_stay()
    ensures { ExecutionsStay }
{}

/// Executions may begin at the source's start, and with the variables that another one has left, its threads anew; where that one has left them all
/// between sections, its memory serves as it is. Where no mutex is held, each begins at boundaries.
pub fn executions_begin()
    ensures start { StartsAreOrigins }
    ensures again { LivesAreOrigins }
    ensures memory { SettledMayBegin }
    ensures boundaries { FreeAtBoundaries }
{}
