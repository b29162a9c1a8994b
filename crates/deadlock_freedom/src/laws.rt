//! Laws of compiled programs whose sources keep the order of locks.
ghost use Rattle.deadlock_freedom.specs.Deadlocks.{NoneDeadlocks, NoneDeadlocksResumed, StopsAreSettled};

use compiler_correctness::laws::images_are_crashes;
use lock_order::laws::locks_ascend;

/// Whatever has happened to a compilation whose source is well formed and keeps the order of locks, steps of all harts, evictions and crashes in any order,
/// some hart can step, unless each has ended or is done with its recovery. A hart that waits for a lock waits for one that goes on, which waits for no lesser
/// one: so it isn't itself that one, by another name of the lock. Arrays of mutexes and their keys may be any.
pub fn none_deadlocks()
    ensures run { NoneDeadlocks }
    ensures resumed { NoneDeadlocksResumed }
{
    locks_ascend();
    images_are_crashes();
}

/// Where no hart of such a compilation can step, each stands between sections.
pub fn stops_are_settled()
    ensures { StopsAreSettled }
{
    locks_ascend();
}
