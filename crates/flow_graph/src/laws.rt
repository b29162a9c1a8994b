//! Laws of flow graphs: nothing is computed here.
ghost use Rattle.flow_graph.specs.Lockstep.{BeginsLockstep, StepsLockstep, RunsLockstep};
ghost use Rattle.flow_graph.specs.Paths.{CommonElementsOverlap, PlainPathsHaveOneNaming, ReadsAreRight};
ghost use Rattle.flow_graph.specs.Paths.{ReadsLie, RunsAreVisited, SameHaveOneElement, StepsGoAlongEdges};
ghost use Rattle.flow_graph.specs.Paths.{VisitsAreRuns, WritesLie};

/// A source and the flow graph of its well formed flat form step in lockstep, on every schedule: the same variables, holders, locals and
/// pending stores, the same steps that are there or not, and the same sections that end.
pub fn graph_and_source_step_lockstep()
    ensures begins { BeginsLockstep }
    ensures steps { StepsLockstep }
    ensures runs { RunsLockstep }
{}

/// In every run of a well formed flat form's graph the elements that a node reads lie in its locations, and the one that it writes lies
/// in its location.
pub fn elements_lie_in_locations()
    ensures reads { ReadsLie }
    ensures writes { WritesLie }
{}

/// Whatever elements the keys name, as long as two keys name two: locations that have an element in common overlap, and locations that are
/// the same have but one element.
pub fn locations_tell_elements()
    ensures overlap { CommonElementsOverlap }
    ensures same { SameHaveOneElement }
{}

/// The path of one thread alone is what its own steps make, one after another, and it goes along edges.
pub fn solo_paths_are_runs()
    ensures visits { VisitsAreRuns }
    ensures whole { RunsAreVisited }
    ensures edges { StepsGoAlongEdges }
{}

/// Along the path of one thread alone, within a region of idempotent cuts, an element that is read and is written then or later was
/// written before it was read: so what is read is the same when the region is run again. That is so whatever keys name along the path, as
/// long as that is one thing; where one mutex guards each variable they name nothing.
pub fn reads_are_right()
    ensures right { ReadsAreRight }
    ensures plain { PlainPathsHaveOneNaming }
{}
