//! Rounds over the harts of a core.
ghost use Rattle.std.specs.Prelude.{◌≡◌, ◌↔◌, ◌+◌, ◌≤◌, ◌++◌, ℕ, MatchBool};
ghost use Rattle.machine_events.specs.Cores.{played};
ghost use Rattle.run_scripts.specs.Rounds.{AreAllStopped, HasRounds, IsOneGoing, round_of};

use machine_events::event::Event;
use machine_events::machine::Core;

/// Each hart has ended, or its recovery is done.
fn all_stopped<C: Core>(core: &C) -> bool
    ensures { MatchBool result (AreAllStopped C.behaviour (C.hart_count core.now) (played C.behaviour (C.opening core.now) (C.history core.now)))
        (IsOneGoing C.behaviour (C.hart_count core.now) (played C.behaviour (C.opening core.now) (C.history core.now))) }
{
    for hart in 0..core.harts() {
        if !core.stopped(hart) {
            return false;
        }
    }
    true
}

/// A step of each of so many harts, from hart 0 on.
fn step_each<C: Core>(core: &mut C, count: u32)
    requires harts { count ≤ C.hart_count core.old }
    requires room { count ≤ C.space core.old }
    ensures opening { C.opening core.new ≡ C.opening core.old }
    ensures history { C.history core.new ≡ C.history core.old ++ round_of count }
    ensures room { C.space core.new + count ≡ C.space core.old }
    ensures harts { C.hart_count core.new ≡ C.hart_count core.old }
{
    for hart in 0..count {
        core.event(Event::Step(hart));
    }
}

/// Rounds over the harts, a step of each of them in turn, until all are stopped or so many steps are made.
pub fn make_rounds<C: Core>(core: &mut C, most: u64)
    requires room { most ≤ C.space core.old }
    ensures opening { C.opening core.new ≡ C.opening core.old }
    ensures harts { C.hart_count core.new ≡ C.hart_count core.old }
    ensures rounds { HasRounds C.behaviour (C.hart_count core.old) most (C.opening core.old) (C.history core.old) (C.history core.new) }
{
    let mut left = most;
    while left > 0 && !all_stopped(core) {
        let count = left.min(u64::from(core.harts())) as u32;
        step_each(core, count);
        left -= u64::from(count);
    }
}
