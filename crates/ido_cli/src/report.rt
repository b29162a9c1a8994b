//! The report of a life.
ghost use Rattle.std.specs.Prelude.{◌≡◌, ◌≤◌, ◌<◌, ◌^◌, length, map, sum_by, IfOk};
ghost use Rattle.ido_base.specs.declared.limits.TheConstants.{MOST_THREADS};
ghost use Rattle.c_tree.specs.Flats.{flat_of};
ghost use Rattle.c_tree.specs.Source as m;
ghost use Rattle.log_schemes.specs.Schemes.{numbers_from};
ghost use Rattle.run_scripts.specs.links.ReportViews as views;
ghost use Rattle.run_tracker.specs.ObjectLives.{ended_sections, world_of, steps_in};
ghost use Rattle.c_tree.specs.WellFormed.{shape_of};
ghost use Rattle.memory_layout.specs.Variables.{HaveRoom};
ghost use Rattle.ido_cli.specs.Reports.{machine_state, unsettled_harts};
ghost use Rattle.machine_model.specs.Schedule.{schedules};
ghost use Rattle.source_machine.specs.Lives.{ended_lives};
ghost use Rattle.ido_cli.specs.Runs.{IsReport};
ghost use Rattle.ido_cli.specs.links.CountedSections.{CountsSections};

use crate::durable::durable;
use crate::said::Said;
use crate::source::ended;
use c_tree::flat::Flat;
use ido_base::memory::OutOfMemory;
use run_scripts::report::{Reported, report};
use run_tracker::life::Life;
use source_machine::SourceState;
use source_machine::laws::lives_stop_once;
use std::alloc::Global;

/// The harts that aren't settled, ascending.
fn unsettled(alloc: Global, life: &Life) -> Result<Vec<u32>, OutOfMemory>
    requires { length (world_of life.now).harts ≡ length life.now.runs.program }
    ensures { IfOk result (λ harts. harts.items ≡ unsettled_harts (world_of life.now)) }
{
    let mut harts = Vec::new(alloc);
    for hart in 0..life.harts() {
        if life.unsettled(hart) {
            harts.push(hart)?;
        }
    }
    Ok(harts)
}

/// How many sections of each thread the source ends by lives, a schedule for each, up to where they stop.
fn ended_by(alloc: Global, flat: &Flat, lives: &[Vec<u32>]) -> Result<Vec<u64>, OutOfMemory>
    requires few { length flat.now.threads.items ≤ MOST_THREADS }
    requires steps { sum_by length (map views.steps_of lives.now) < 2 ^ 63 }
    ensures { IfOk result (λ sections. sections.items ≡
        map (ended_lives (flat_of flat.now) (m.start (flat_of flat.now)) (map views.steps_of lives.now)) (numbers_from 0 (length flat.now.threads.items))) }
{
    lives_stop_once();
    let mut state = SourceState::start(alloc, flat)?;
    let _whole = state.run_lives(lives);
    ended(alloc, &state)
}

/// How many sections of each thread have ended by kept steps, as the life has counted them.
fn counted(alloc: Global, life: &Life) -> Result<Vec<u64>, OutOfMemory>
    ensures { IfOk result (λ sections. sections.items ≡ map (ended_sections life.now) (numbers_from 0 (length life.now.runs.program))) }
{
    let mut sections = Vec::new(alloc);
    for hart in 0..life.harts() {
        sections.push(life.ended(hart))?;
    }
    Ok(sections)
}

/// The kept schedules of all lives.
pub fn kept_schedules(alloc: Global, life: &Life) -> Result<Vec<Vec<u32>>, OutOfMemory>
    ensures { IfOk result (λ kept. map views.steps_of kept.items ≡ schedules (steps_in life.now)) }
{
    let mut kept = Vec::new(alloc);
    for number in 0..life.lives() {
        let schedule = life.schedule(number).to_vec(alloc)?;
        kept.push(schedule)?;
    }
    Ok(kept)
}

/// What is reported of a life with these kept schedules, of whose threads so many sections have ended.
fn gathered(
    alloc: Global,
    flat: &Flat,
    life: &Life,
    ended: Vec<u64>,
    kept: Vec<Vec<u32>>,
) -> Result<Reported, OutOfMemory>
    requires room { HaveRoom (map shape_of (flat_of flat.now).variables) }
    requires harts { length (world_of life.now).harts ≡ length life.now.runs.program }
    requires kept { map views.steps_of kept.items ≡ schedules (steps_in life.now) }
    requires ended { let x = flat_of flat.now in
        ended.items ≡ map (ended_lives x (m.start x) (schedules (steps_in life.now))) (numbers_from 0 (length x.threads)) }
    ensures { IfOk result (λ state. views.state_of state ≡ machine_state (flat_of flat.now) (world_of life.now) (schedules (steps_in life.now))) }
{
    let unsettled = unsettled(alloc, life)?;
    let variables = durable(alloc, life, &flat.variables)?;
    Ok(Reported {
        unsettled,
        variables,
        ended,
        schedules: kept,
    })
}

/// What is reported of a life that has counted its sections.
pub fn reported(alloc: Global, flat: &Flat, life: &Life) -> Result<Reported, OutOfMemory>
    requires room { HaveRoom (map shape_of (flat_of flat.now).variables) }
    requires harts { length (world_of life.now).harts ≡ length life.now.runs.program }
    requires counted { CountsSections (flat_of flat.now) life.now }
    ensures { IfOk result (λ state. views.state_of state ≡ machine_state (flat_of flat.now) (world_of life.now) (schedules (steps_in life.now))) }
{
    let ended = counted(alloc, life)?;
    let kept = kept_schedules(alloc, life)?;
    gathered(alloc, flat, life, ended, kept)
}

/// What is reported of any life: the source is run by the kept schedules of all lives.
fn reported_by_source(alloc: Global, flat: &Flat, life: &Life) -> Result<Reported, OutOfMemory>
    requires steps { sum_by length (schedules (steps_in life.now)) < 2 ^ 63 }
    requires few { length flat.now.threads.items ≤ MOST_THREADS }
    requires room { HaveRoom (map shape_of (flat_of flat.now).variables) }
    requires harts { length (world_of life.now).harts ≡ length life.now.runs.program }
    ensures { IfOk result (λ state. views.state_of state ≡ machine_state (flat_of flat.now) (world_of life.now) (schedules (steps_in life.now))) }
{
    let kept = kept_schedules(alloc, life)?;
    let ended = ended_by(alloc, flat, &kept)?;
    gathered(alloc, flat, life, ended, kept)
}

/// What is said of a state: its report, with the status that says whether it is settled.
pub fn say_reported(alloc: Global, state: &Reported) -> Result<Said, OutOfMemory>
    ensures { IfOk result (λ said. IsReport (views.state_of state.now) said.status said.output.items) }
{
    let output = report(alloc, state)?;
    let status = if state.unsettled.is_empty() { 0 } else { 3 };
    Ok(Said { status, output })
}

/// What is said of a life that has counted its sections.
pub fn say(alloc: Global, flat: &Flat, life: &Life) -> Result<Said, OutOfMemory>
    requires room { HaveRoom (map shape_of (flat_of flat.now).variables) }
    requires harts { length (world_of life.now).harts ≡ length life.now.runs.program }
    requires counted { CountsSections (flat_of flat.now) life.now }
    ensures { IfOk result (λ said.
        IsReport (machine_state (flat_of flat.now) (world_of life.now) (schedules (steps_in life.now))) said.status said.output.items) }
{
    let state = reported(alloc, flat, life)?;
    say_reported(alloc, &state)
}

/// What is said of any life, also of one that went on from an image that no run of this source left: nothing relates its kept schedules to its points.
pub fn say_by_source(alloc: Global, flat: &Flat, life: &Life) -> Result<Said, OutOfMemory>
    requires steps { sum_by length (schedules (steps_in life.now)) < 2 ^ 63 }
    requires few { length flat.now.threads.items ≤ MOST_THREADS }
    requires room { HaveRoom (map shape_of (flat_of flat.now).variables) }
    requires harts { length (world_of life.now).harts ≡ length life.now.runs.program }
    ensures { IfOk result (λ said.
        IsReport (machine_state (flat_of flat.now) (world_of life.now) (schedules (steps_in life.now))) said.status said.output.items) }
{
    let state = reported_by_source(alloc, flat, life)?;
    say_reported(alloc, &state)
}
