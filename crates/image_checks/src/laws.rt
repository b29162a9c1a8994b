//! What holds of images: nothing is computed here.
ghost use Rattle.image_checks.specs.Laws.{OneFault, NoneIfSound, OneReferenceFault, NoneIfReferences, RunsLeaveNoFault, RunsLeaveReferences};

use compiler_correctness::laws::machines_record;
use crash_simulation::laws::machines_resume;

/// What stands after a source has one fault at most, and none where it is well formed; so have the references among its variables.
/// That two compilations of one text have the same places where threads may be resumed isn't said.
pub fn images_have_one_fault()
    ensures one { OneFault }
    ensures none { NoneIfSound }
    ensures one_reference { OneReferenceFault }
    ensures no_reference { NoneIfReferences }
{}

/// What a crash leaves of a run of a compiled source has no fault, whatever happened before: steps, evictions and crashes, in any
/// order. Each thread's point is 0 or an address in the table, with its locks, a number of its kind for each live local, and where something is written
/// next, the address of an element that its pending store may write, or of the word of a local that it assigns, with a number that this may have;
/// references are null, where that may be, or lead to elements; no two threads hold one mutex; and
/// the source makes the kept steps.
pub fn runs_leave_no_fault()
    ensures state { RunsLeaveNoFault }
    ensures references { RunsLeaveReferences }
{
    machines_resume();
    machines_record();
}
