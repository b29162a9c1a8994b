//! Laws of runs of a graph: nothing is computed here.
ghost use Rattle.flow_machine.specs.Lockstep.{AnswersAgree, RunsInLockstep};

/// A graph's run keeps step with the source of its well formed flat form, on every schedule: the same steps are answered the same, and
/// lead to the same variables, and as many sections end.
pub fn flow_keeps_step_with_source()
    ensures answers { AnswersAgree }
    ensures runs { RunsInLockstep }
{}
