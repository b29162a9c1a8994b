//! What is true of the code of boundaries.
ghost use Rattle.boundary_code.specs.links.BoundaryParts.{CodeDoesBoundary};

/// The code of a boundary does what the boundary does.
pub fn code_does_boundary()
    ensures { CodeDoesBoundary }
{}
