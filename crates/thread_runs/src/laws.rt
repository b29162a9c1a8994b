//! What is true of threads in fragments of their code: nothing is computed here.
ghost use Rattle.thread_runs.specs.Laws.{AssignmentsBegin};
ghost use Rattle.thread_runs.specs.Laws.{ArrivalsEnd, ComputesEnd, CoresSeeAll, EndsAreWell, EndsEnd, KeepsEnd, LocksAreWell, LocksGoOn, LocksTake, LocksWait};
ghost use Rattle.thread_runs.specs.Laws.{MarksAreBounded, MarksAreWell, MarksPass, NodesBegin, OthersKeepCores, OthersKeepMarks, OthersKeepFragments};
ghost use Rattle.thread_runs.specs.Laws.{PlansArePlaced, ResumedGoOn, StaysAreAtCore, ThreadsStart, TookEnd, UnlocksAreWell, UnlocksGive};
ghost use Rattle.thread_runs.specs.Laws.{UnlocksGoOn, FragmentsAreBounded, FragmentsAreWell, FragmentsGoOn, FragmentsResettle, FragmentsSeeAll};

use hart_runs::laws::{none_is_stuck, steps_are_counted};

/// A step in a fragment goes on, or is held up by the queue; it passes no mark.
pub fn fragments_go_on()
    ensures { FragmentsGoOn }
{
    steps_are_counted();
}

/// A step at a mark passes it, or is held up by the queue.
pub fn marks_pass()
    ensures { MarksPass }
{
    steps_are_counted();
}

/// What others do leaves a thread in its fragment, at its mark and at its node's code.
pub fn others_keep_fragments()
    ensures fragments { OthersKeepFragments }
    ensures marks { OthersKeepMarks }
    ensures cores { OthersKeepCores }
{}

/// A thread that stays at its mark stays at its node's code.
pub fn stays_are_at_core()
    ensures { StaysAreAtCore }
{}

/// Where a thread is depends on no variable.
pub fn fragments_see_all()
    ensures fragments { FragmentsSeeAll }
    ensures cores { CoresSeeAll }
{}

/// A thread begins at the entry of its first node.
pub fn threads_start()
    ensures { ThreadsStart }
{}

/// At its end a fragment is one in any environment. At the entry of its node a thread begins with the boundary before it, if one is chosen
/// there, else it is at the node's code, and so it is after that boundary. Where the number of an assignment outside sections is computed it is at the
/// store of that.
pub fn fragments_end()
    ensures resettle { FragmentsResettle }
    ensures arrives { ArrivalsEnd }
    ensures keeps { KeepsEnd }
    ensures computes { ComputesEnd }
{}

/// At its node's code a thread asks for the node's mutex, or is at the node's mark: at a logged assignment with whatever number that owes its local.
pub fn nodes_begin()
    ensures begins { NodesBegin }
    ensures assigns { AssignmentsBegin }
{}

/// What a call does: a lock takes a free mutex and passes its mark or waits, an unlock gives it back, and the end ends.
pub fn calls_are_made()
    ensures takes { LocksTake }
    ensures waits { LocksWait }
    ensures gives { UnlocksGive }
    ensures ends { EndsEnd }
{
    steps_are_counted();
}

/// After a lock and its boundary, and after an unlock, a thread goes to its node, as does one that is resumed there.
pub fn calls_are_left()
    ensures took { TookEnd }
    ensures locks { LocksGoOn }
    ensures unlocks { UnlocksGoOn }
{}

/// No thread in a fragment, at a mark, or at a call that it may make is stuck.
pub fn fragments_are_well()
    ensures fragments { FragmentsAreWell }
    ensures marks { MarksAreWell }
    ensures locks { LocksAreWell }
    ensures unlocks { UnlocksAreWell }
    ensures ends { EndsAreWell }
{
    none_is_stuck();
}

/// How many steps are left in a fragment or from a mark on, of which each step takes one: no more than two for each instruction
/// ahead, and 16.
pub fn fragments_are_bounded()
    ensures fragments { FragmentsAreBounded }
    ensures marks { MarksAreBounded }
{}

/// A thread that recovery resumes goes on from where it is.
pub fn resumed_go_on()
    ensures { ResumedGoOn }
{}

/// A plan's thread is placed in a machine that has room for it.
pub fn plans_are_placed()
    ensures { PlansArePlaced }
{}
