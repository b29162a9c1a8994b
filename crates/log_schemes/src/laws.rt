//! What each scheme owes, and what follows from it: nothing is computed here.
ghost use Rattle.log_schemes.specs.SchemeFacts.{AllLocksAreKept, SchemesOwe, SizesHold};

/// Banks lie within the logs of a size, one after the other.
pub fn sizes_hold()
    ensures { SizesHold }
{}

/// Each slot of a bank is a word of its log and of no other bank, and registers and listed locks have slots of their own. It is said by cases of the log.
pub fn schemes_owe()
    ensures { SchemesOwe }
{}

/// A bank keeps the locks for which it has room, and they are read back.
pub fn locks_are_kept()
    ensures { AllLocksAreKept }
{}
