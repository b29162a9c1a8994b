//! Laws of references in runs and executions: nothing is computed here.
ghost use Rattle.known_references.specs.DurableReferences.{DurableRefer};
ghost use Rattle.known_references.specs.Laws.{KeptAreUnnull, RunsAreUnnull, StepsKeepUnnull};

/// No reference is null that is known not to be where a thread stands: in every run of a well formed flat form's graph, and in what an execution keeps,
/// wherever it begins. Within the block of an `if` whose condition says so nothing assigns the local, the test enters it with one that isn't null, and
/// past the block it isn't known any more.
pub fn known_references_are_unnull()
    ensures steps { StepsKeepUnnull }
    ensures runs { RunsAreUnnull }
    ensures kept { KeptAreUnnull }
{}

/// Whatever an execution has stored, and whatever of it power takes back: what a crash leaves of a variable that refers is null, or a reference to an
/// element of its array.
pub fn durable_references_lead_to_elements()
    ensures { DurableRefer }
{}
