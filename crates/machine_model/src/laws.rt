//! Laws of the machine's events, over any number of harts: nothing is computed here.
ghost use Rattle.machine_model.specs.Frames.{StepsTouch, EvictionsTouch, LogStays, QueuesStand, StartsStand, CrashesStand};

/// A step of a hart leaves every other hart as it is; a lock changes only from free to the hart or back; the history
/// of a word only grows. An eviction touches durable positions alone. No event changes how threads log.
pub fn events_touch()
    ensures steps { StepsTouch }
    ensures evictions { EvictionsTouch }
    ensures log { LogStays }
{}

/// What the queues of all harts represent stays along every event, from every start.
pub fn queues_stand()
    ensures events { QueuesStand }
    ensures starts { StartsStand }
    ensures crashes { CrashesStand }
{}
