//! What holds of the definitions themselves.
ghost use Rattle.lock_discipline.specs.Discipline.{WalkIsDiscipline};
ghost use Rattle.lock_discipline.specs.FormLaws.{WellFormedHasNames};
ghost use Rattle.lock_discipline.specs.StepContinuations.{HeldIsHeld};

/// The walk finds no fault exactly where each thread keeps the discipline and nowhere holds too many.
pub fn walk_is_discipline()
    ensures { WalkIsDiscipline }
{}

/// In a run, a thread that stands before a step of its text holds exactly the set that is held there by the text.
pub fn held_is_held()
    ensures { HeldIsHeld }
{}

/// A well formed flat form has the names that `check` requires.
pub fn well_formed_has_names()
    ensures { WellFormedHasNames }
{}
