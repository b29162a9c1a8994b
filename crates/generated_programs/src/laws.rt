//! Laws of generated sources: nothing is computed here.
ghost use Rattle.generated_programs.specs.Laws.{GeneratedAreOrdered};

/// A source that two numbers give breaks no rule, and its threads take locks in their order: for as many rounds as 32 bits tell, and for every seed.
pub fn generated_are_ordered()
    ensures { GeneratedAreOrdered }
{}
