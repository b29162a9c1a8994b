//! Runs of a schedule: its steps, each of one thread, by how many stand together.
ghost use Rattle.std.specs.Prelude.{◌≡◌, ◌<◌, ◌≤◌, ◌∷◌, ◌++◌, [], length, map, replicate, IfOk, OnOk, IfSome, IfNone, ◌==◌};
ghost use Rattle.std.specs.List.{prefix_len};
ghost use Rattle.run_scripts.specs.Runs.{runs_of, schedule_of, AreMerged};
ghost use Rattle.run_scripts.specs.links.RunViews.{run_of};

use ido_base::memory::OutOfMemory;
use std::alloc::Global;

/// Steps of one thread that follow one another.
#[derive(Clone, Copy, Debug, PartialEq, Eq, Drop)]
pub struct Run {
    pub thread: u32,
    pub steps: u64,
}

/// How many numbers at the front are this one.
fn run_length(schedule: &[u32], thread: u32) -> usize
    ensures value { result ≡ prefix_len (λ t. t == thread) schedule.now }
    ensures bound { result ≤ length schedule.now }
{
    schedule.iter().take_while(|t| **t == thread).count()
}

/// The first of the longest runs of a schedule, and what stands after it.
pub fn first_run(schedule: &[u32]) -> Option<(Run, &[u32])>
    ensures none { IfNone result (runs_of schedule.now ≡ []) }
    ensures some { IfSome result (λ r. runs_of schedule.now ≡ run_of r.0 ∷ runs_of r.1.now) }
    ensures shorter { IfSome result (λ r. length r.1.now < length schedule.now) }
{
    let [thread, after @ ..] = schedule else {
        return None;
    };
    let more = run_length(after, *thread);
    let (_, rest) = after.split_at(more);
    let run = Run {
        thread: *thread,
        steps: more as u64 + 1,
    };
    Some((run, rest))
}

/// Adds a run.
fn push(runs: &mut Vec<Run>, run: Run) -> Result<(), OutOfMemory>
    ensures { OnOk result (runs.new.items ≡ runs.old.items ++ run ∷ []) }
{
    runs.push(run)?;
    Ok(())
}

/// The longest runs of a schedule.
pub fn runs_of(alloc: Global, schedule: &[u32]) -> Result<Vec<Run>, OutOfMemory>
    ensures runs { IfOk result (λ runs. map run_of runs.items ≡ runs_of schedule.now) }
    // They tell each step.
    ensures steps { schedule_of (runs_of schedule.now) ≡ schedule.now }
    // Each of them takes a step, and the next is of another thread.
    ensures merged { AreMerged (runs_of schedule.now) }
{
    let mut runs = Vec::new(alloc);
    let mut rest = schedule;
    while let Some((run, after)) = first_run(rest) {
        push(&mut runs, run)?;
        rest = after;
    }
    Ok(runs)
}

/// Adds so many steps of a thread.
pub fn push_steps(steps: &mut Vec<u32>, count: u64, thread: u32) -> Result<(), OutOfMemory>
    ensures { OnOk result (steps.new.items ≡ steps.old.items ++ replicate count thread) }
{
    for _ in 0..count {
        steps.push(thread)?;
    }
    Ok(())
}
