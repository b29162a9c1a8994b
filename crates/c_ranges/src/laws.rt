//! What ranges are for, as laws over the definitions. The calls do nothing.
ghost use Rattle.c_ranges.specs.RunInvariants.{BeginsSo, IndexesInRange, IsSoInEveryRun, ReferencesHold, StaysSo, StopsForReason, ValuesForeseen};
ghost use Rattle.c_ranges.specs.Laws.{IndexesNameElements, RangesHold};

/// Every value of an expression lies in its range, and is of its kind, where the numbers of locals
/// and variables are held by their kinds.
pub fn ranges_hold()
    ensures { RangesHold }
{}

/// Where all indexes of a program fit, each names an element of its array.
pub fn indexes_name_elements()
    ensures { IndexesNameElements }
{}

/// In every run of a well formed flat form each local, each element and each pending store has a number of its
/// kind, and a pending store an element that is there; each reference is null or one to its array: so it is at
/// the start, and each step keeps it.
pub fn values_keep_to_their_kinds()
    ensures begins { BeginsSo }
    ensures stays { StaysSo }
    ensures runs { IsSoInEveryRun }
{}

/// In each state whose values keep to their kinds each value that a step evaluates lies in its range, and no index is out of range.
pub fn indexes_stay_in_range()
    ensures values { ValuesForeseen }
    ensures indexes { IndexesInRange }
{}

/// In each such state no reference that a step follows is null, or leads out of its array.
pub fn references_hold()
    ensures { ReferencesHold }
{}

/// A thread of such a state has no step only where its last step is done, or where it stands at the lock of a
/// mutex that a thread holds.
pub fn stops_for_a_reason()
    ensures { StopsForReason }
{}
