//! Laws of words between crashes: nothing is computed here.
ghost use Rattle.ido_base.specs.Growth.{EvictionsRaise, WriteBacksRaise, StoresChange, StableStays, EntriesStay, ReachStays, CleansReach};

/// An eviction and a write-back do nothing to words but persist them, and a store appends to one history.
pub fn words_grow()
    ensures evictions { EvictionsRaise }
    ensures write_backs { WriteBacksRaise }
    ensures stores { StoresChange }
{}

/// What is stable in a word stays so where it is persisted.
pub fn stable_stays()
    ensures { StableStays }
{}

/// What a queue represents, and how far it reaches, stays where words change; a clean reaches the last positions of
/// its line.
pub fn queues_stay()
    ensures entries { EntriesStay }
    ensures reach { ReachStays }
    ensures cleans { CleansReach }
{}
