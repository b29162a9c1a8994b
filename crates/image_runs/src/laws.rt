//! Laws of durable words, whoever left them.
ghost use Rattle.image_runs.specs.Laws.{AcceptedGoOn, AcceptedHaveShape, AcceptedRunOn, CrashesLeaveShape, ShapesAreStates, ShapesRunOn};

use compiler_correctness::laws::{recovered_words_run_on, settled_images_go_on};
use crash_simulation::laws::machines_resume;

/// What an image has after its source, where it has no fault, has the shape, and so has what a crash leaves of a run.
pub fn images_have_shape()
    ensures accepted { AcceptedHaveShape }
    ensures left { CrashesLeaveShape }
{
    machines_resume();
}

/// Words that have the shape are what the records of some state of the source leave, whether a run reaches that or not: each thread that has a point stands at
/// its node, with the locks, the numbers and the references that its bank or its frame has, and each other one before its first step, with nothing held. One
/// that is resumed past the boundary of a logged assignment stands after that, and its local has the number that will be stored.
pub fn shapes_are_states()
    ensures { ShapesAreStates }
{}

/// A machine that begins with words that have the shape, or with an image without a fault, runs on, whatever happens: no hart is ever stuck, none that takes
/// its locks in recovery waits for one, and one that waits for no lock begins its next step, or has stopped, within twice its code's words and 18 of its
/// steps, and 3 more where its locals stand in its log, while power stays on. What is in the variables is any numbers, and any references to the arrays that
/// they refer to.
pub fn shapes_run_on()
    ensures shape { ShapesRunOn }
    ensures accepted { AcceptedRunOn }
{
    shapes_are_states();
    images_have_shape();
    recovered_words_run_on();
}

/// What an image without a fault has after its source, where no thread has a point, and its variables are what the source has after its schedules, with every
/// thread between sections: lives that go on from it keep what those keep that began at the source's start, whoever wrote it. In one without a crash machine
/// and source keep step, and in all of them records, kept steps and durable variables are those of the source's run by all schedules, those of the image first.
pub fn accepted_images_go_on()
    ensures { AcceptedGoOn }
{
    shapes_are_states();
    images_have_shape();
    settled_images_go_on();
}
