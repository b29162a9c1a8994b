//! What is true of runs.
ghost use Rattle.code_runs.specs.CodeTraces.{RunsCompose, RunsStay, ComputingIsUnseen, StraightIsSeen, ComputingIsUnseenFrom, StraightIsSeenFrom};

/// Runs one after another are a run.
pub fn runs_compose()
    ensures { RunsCompose }
{}

/// A run stays one wherever its loads are answered with the same values.
pub fn runs_stay()
    ensures { RunsStay }
{}

/// Nothing is seen of code that only computes.
pub fn computing_is_unseen()
    ensures { ComputingIsUnseen }
{}

/// Straight code is a run of its effects.
pub fn straight_is_seen()
    ensures { StraightIsSeen }
{}

/// Of code that only computes a mark at its first instruction is seen, and nothing else.
pub fn computing_is_unseen_from()
    ensures { ComputingIsUnseenFrom }
{}

/// Of straight code a mark at its first instruction is seen, and its effects.
pub fn straight_is_seen_from()
    ensures { StraightIsSeenFrom }
{}
