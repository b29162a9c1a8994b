//! The schedules that the runs of an image tell, one for each life.
ghost use Rattle.std.specs.Prelude.{◌≡◌, ◌↔◌, ◌≤◌, ℕ, length, map, Some, IfOk, IfErr, IsTrue, true};
ghost use Rattle.c_tree.specs.Flats as f;
ghost use Rattle.c_tree.specs.Flats.{flat_of};
ghost use Rattle.c_tree.specs.Source as m;
ghost use Rattle.source_machine.specs.Lives.{are_between, restart};
ghost use Rattle.source_machine.specs.links.States.{IsRunOf, KeepsRun, RepresentsState};
ghost use Rattle.image_checks.specs.Schedules.{AreSchedules, schedules_of};
ghost use Rattle.image_checks.specs.links.PrefixBeforeFault.{IsPrefix, IsTold, TellsFault, TellsNext, TellsStep, Follows};
ghost use Rattle.crash_images.specs.links.Views.{life_of};
ghost use Rattle.run_scripts.specs.links.ReportViews.{steps_of};
ghost use Rattle.run_scripts.specs.links.RunViews.{run_of};

use c_tree::flat::Flat;
use file_fields::reading::push;
use ido_base::limits::MOST_STEPS;
use ido_base::memory::OutOfMemory;
use run_scripts::runs::{Run, push_steps};
use source_machine::SourceState;
use std::alloc::Global;

/// Why runs tell no schedules.
#[derive(Clone, Copy, Drop)]
pub(crate) enum ScheduleFault {
    /// The first step at fault. Steps count from 1 over all lives.
    Step(u64),
    /// The first life that isn't the last and leaves a thread inside a section. Lives count from 1.
    Life(u64),
    /// An allocation was refused.
    Memory,
}

impl From<OutOfMemory> for ScheduleFault {
    ghost use Rattle.image_checks.specs.declared.schedules.ScheduleFault.TheVariants.{Memory as Unremembered};

    ghost from_gives = { λ _ e. e ≡ Unremembered };

    fn from(_: OutOfMemory) -> Self {
        ScheduleFault::Memory
    }
}

/// The steps before the first fault of form, or all where there is none.
#[derive(Drop)]
struct Prefix {
    steps: Vec<u32>,
    // the step of that fault
    fault: Option<u64>,
}

/// Whether a run can follow one of that thread, or stand first.
fn follows(last: Option<u32>, run: &Run) -> bool
    ensures { IsTrue result ↔ Follows last (run_of run.now) }
{
    run.steps != 0 && last != Some(run.thread)
}

/// The steps before the first that has a fault of form, after so many of the lives before: a run begins there that can't follow, or it is past the most.
fn prefix_of(alloc: Global, runs: &[Run], before: u64) -> Result<Prefix, OutOfMemory>
    requires { before ≤ MOST_STEPS }
    ensures { IfOk result (λ prefix. IsPrefix before (map run_of runs.now) prefix.steps.items prefix.fault) }
{
    let mut steps = Vec::new(alloc);
    let mut last = None;
    for run in runs {
        let done = before + steps.len() as u64;
        if !follows(last, run) {
            return Ok(Prefix {
                steps,
                fault: Some(done + 1),
            });
        }
        let count = run.steps;
        let room = MOST_STEPS - done;
        if count > room {
            push_steps(&mut steps, room, run.thread)?;
            return Ok(Prefix {
                steps,
                fault: Some(MOST_STEPS + 1),
            });
        }
        push_steps(&mut steps, count, run.thread)?;
        last = Some(run.thread);
    }
    Ok(Prefix { steps, fault: None })
}

/// The schedule that the runs of a life tell, which begins in the state after so many steps of the lives before. Its steps are made.
///
/// A step is at fault if a run begins there that takes none or is of the same thread as the run before it, if the source
/// has no such step after those before it, or if it is past 4,000,000. The first at fault is told.
fn life_of(
    alloc: Global,
    state: &mut SourceState,
    runs: &[Run],
    done: u64,
) -> Result<Vec<u32>, ScheduleFault>
    requires { done ≤ MOST_STEPS }
    ensures told { IfOk result (λ schedule. (s : m.State) (ended : ℕ → ℕ) → RepresentsState state.old s ended →
        IsTold s done (map run_of runs.now) schedule.items ended state.new) }
    ensures fault { IfErr result (λ e. (s : m.State) (ended : ℕ → ℕ) → RepresentsState state.old s ended → TellsStep s done (map run_of runs.now) e) }
    ensures run { KeepsRun state.old state.new }
{
    let prefix = prefix_of(alloc, runs, done)?;
    if let Err(refused) = state.run(&prefix.steps) {
        return Err(ScheduleFault::Step(done + refused.step));
    }
    match prefix.fault {
        Some(step) => Err(ScheduleFault::Step(step)),
        None => Ok(prefix.steps),
    }
}

/// The schedule of the life after one of this number, which has to leave every thread between sections.
fn next_life_of(
    alloc: Global,
    state: &mut SourceState,
    runs: &[Run],
    done: u64,
    number: u64,
) -> Result<Vec<u32>, ScheduleFault>
    requires { done ≤ MOST_STEPS }
    ensures told { IfOk result (λ schedule. (x : f.Flat) (s : m.State) (ended : ℕ → ℕ) → IsRunOf state.old x → RepresentsState state.old s ended →
        (are_between s (length s.threads) ≡ true) × IsTold (restart x s) done (map run_of runs.now) schedule.items ended state.new) }
    ensures fault { IfErr result (λ e. (x : f.Flat) (s : m.State) (ended : ℕ → ℕ) → IsRunOf state.old x → RepresentsState state.old s ended →
        TellsNext x number s done (map run_of runs.now) e) }
    ensures run { KeepsRun state.old state.new }
{
    if !state.can_restart() {
        return Err(ScheduleFault::Life(number));
    }
    state.restart();
    life_of(alloc, state, runs, done)
}

/// The schedules that the runs of lives tell. The first fault is that of the first life that has one; a life but the last has one too where it leaves a
/// thread inside a section.
pub(crate) fn schedules_of(
    alloc: Global,
    flat: &Flat,
    lives: &[Vec<Run>],
) -> Result<Vec<Vec<u32>>, ScheduleFault>
    ensures lives { IfOk result (λ schedules. map steps_of schedules.items ≡ schedules_of (map life_of lives.now)) }
    ensures sound { IfOk result (λ _. let x = flat_of flat.now in AreSchedules x (m.start x) 0 (map life_of lives.now)) }
    ensures fault { IfErr result (λ e. let x = flat_of flat.now in TellsFault x (m.start x) (map life_of lives.now) e) }
{
    let mut schedules = Vec::new(alloc);
    if lives.is_empty() {
        return Ok(schedules);
    }
    let mut state = SourceState::start(alloc, flat)?;
    let steps = life_of(alloc, &mut state, &lives[0], 0)?;
    let mut done = steps.len() as u64;
    push(&mut schedules, steps)?;
    for i in 1..lives.len() {
        let schedule = next_life_of(alloc, &mut state, &lives[i], done, i as u64)?;
        done += schedule.len() as u64;
        push(&mut schedules, schedule)?;
    }
    Ok(schedules)
}
