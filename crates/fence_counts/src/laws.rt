//! Laws of fences.
ghost use Rattle.fence_counts.specs.FenceCounts.{EndedLivesFence, FencesFollowPoints};

use crash_simulation::laws::{cores_step, fragments_step, local_stores_step, machines_resume};
use thread_runs::laws::fragments_go_on;

/// Whatever has happened, steps of all harts, evictions, crashes and starts in any order: the fences that a hart has finished, and those of the
/// boundaries whose point it has stored, differ by one at most, and by one more for each crash.
pub fn fences_follow_points()
    ensures { FencesFollowPoints }
{
    cores_step();
    fragments_step();
    local_stores_step();
    fragments_go_on();
}

/// In a life in which power stays on, a hart that has ended has stored a point for each boundary that its thread has passed by the steps that it has begun in
/// that life; and it has finished just the fences of these boundaries: two each. Where the locals of threads stand in registers it passes one by each lock and
/// each unlock, and at each node before which one stands by choice; where they stand in their logs, by each lock, each unlock and each store, and in sections
/// by each assignment of a local.
pub fn ended_lives_fence()
    ensures { EndedLivesFence }
{
    machines_resume();
    cores_step();
    fragments_step();
    local_stores_step();
    fragments_go_on();
}
