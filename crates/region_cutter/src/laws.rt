//! What holds of boundaries and locks: nothing is computed here.
ghost use Rattle.region_cutter.specs.EachWrite.{HeldSetsAreOfThreads};
ghost use Rattle.region_cutter.specs.FewestCuts.{LabelsBound};
ghost use Rattle.region_cutter.specs.LocksAtBoundaries.{ChosenAreLocked, NodesAreSteps};

/// In the graph of a flat form that keeps the lock discipline, with the table of its held sets, a boundary that `cut` chose stands before
/// a store of a variable whose mutex is held there, so that set isn't empty. Each node is a step of a thread, before which the
/// table has a set.
pub fn chosen_boundaries_are_locked()
    ensures locked { ChosenAreLocked }
    ensures steps { NodesAreSteps }
{}

/// Labels of straight code, from 0 at its first node to one more than so many boundaries at its end, that grow by no more than 1 over what
/// may be in one region, show that each cut set has so many boundaries there, or more.
pub fn labels_bound_boundaries()
    ensures { LabelsBound }
{}

/// The sets of held locks of a well formed flat form, whose price isn't too high, are a table that `cut_each_write` takes beside its graph.
pub fn held_sets_are_of_threads()
    ensures { HeldSetsAreOfThreads }
{}
