//! Laws of accepted texts: nothing is computed here.
ghost use Rattle.first_assignments.specs.FirstAssignments.{FlattenedAssignFirst};

use c_inline::laws::flat_is_formed;
use c_typer::laws::typed_is_formed;

/// In the graph of a text's flat form no local is live where a thread begins: on every path a local is assigned before
/// it is read, in calls too, since each declaration assigns, arguments are passed before a body, and its result is read after it.
pub fn locals_are_assigned_first()
    ensures { FlattenedAssignFirst }
{
    typed_is_formed();
    flat_is_formed();
}
