//! The play of a script on a core.
ghost use Rattle.std.specs.Prelude.{◌≡◌, ◌↔◌, ◌+◌, ◌-◌, ◌<◌, ◌≤◌, ◌++◌, ◌∷◌, ◌&&◌, [], ℕ, All, length, map, nat_le, nat_lt, replicate, take};
ghost use Rattle.std.specs.Prelude.{false, true, Some, None, IfOk, IfErr};
ghost use Rattle.machine_events.specs.declared.event.Event.TheVariants as events;
ghost use Rattle.machine_events.specs.Cores.{IsValid, played, passed_count};
ghost use Rattle.run_scripts.specs.Scripts.{IsDoable};
ghost use Rattle.run_scripts.specs.Plays.{enabled_steps, is_refused, line_events, play_fault, script_events, steps_until};
ghost use Rattle.run_scripts.specs.links.Goals.{reaches};
ghost use Rattle.run_scripts.specs.links.ScriptViews as views;

use crate::script::{Command, Script};
use ido_base::limits::MOST_STEPS_TO;
use ido_base::place::Place;
use machine_events::event::Event;
use machine_events::machine::Core;
use thiserror::Error;

/// Why a script isn't played to its end, and where the line stands at which that is found.
#[derive(Clone, Copy, Debug, PartialEq, Eq, Drop, Error)]
pub enum PlayError {
    /// With its events they go past as many as there may be.
    #[error("too many events")]
    Many(Place),
    /// It is a start, and no life may begin.
    #[error("a start where no life may begin")]
    Start(Place),
}

/// What a hart is stepped to.
#[derive(Clone, Copy, Drop)]
enum Goal {
    Point,
    Fence,
}

/// How often the hart has reached the goal.
fn times_reached<C: Core>(core: &C, hart: u32, goal: Goal) -> u64
    requires { hart < C.hart_count core.now }
    ensures { result ≡ passed_count C.behaviour (reaches C.behaviour goal hart) (C.opening core.now) (C.history core.now) }
{
    match goal {
        Goal::Point => core.points(hart),
        Goal::Fence => core.fences(hart),
    }
}

/// Makes steps of a hart as long as there is room above the floor, at most so many. Answers whether that many were made.
fn play_steps<C: Core>(core: &mut C, hart: u32, count: u64, floor: u64) -> bool
    requires hart { hart < C.hart_count core.old }
    requires floor { floor ≤ C.space core.old }
    ensures opening { C.opening core.new ≡ C.opening core.old }
    ensures history { C.history core.new ≡ C.history core.old ++ take (C.space core.old - floor) (replicate count (events.Step hart)) }
    ensures all { result ≡ nat_le count (C.space core.old - floor) }
    ensures room { C.space core.new + length (C.history core.new) ≡ C.space core.old + length (C.history core.old) }
    ensures floor { floor ≤ C.space core.new }
    ensures harts { C.hart_count core.new ≡ C.hart_count core.old }
    ensures evictable { (line mask : ℕ) → C.evictable core.new line mask ↔ C.evictable core.old line mask }
{
    let left = core.room() - floor;
    core.steps(hart, count.min(left));
    count <= left
}

/// Makes steps of a hart until one of them reaches the goal, at most so many, as long as there is room above the
/// floor. Answers whether it got there.
fn play_until<C: Core>(core: &mut C, hart: u32, goal: Goal, floor: u64) -> bool
    requires hart { hart < C.hart_count core.old }
    requires floor { floor ≤ C.space core.old }
    ensures opening { C.opening core.new ≡ C.opening core.old }
    ensures history { C.history core.new
        ≡ C.history core.old ++ take (C.space core.old - floor)
        (steps_until C.behaviour (reaches C.behaviour goal hart) hart MOST_STEPS_TO (played C.behaviour (C.opening core.old) (C.history core.old))) }
    ensures all { result ≡ nat_le
        (length (steps_until C.behaviour (reaches C.behaviour goal hart) hart MOST_STEPS_TO (played C.behaviour (C.opening core.old) (C.history core.old))))
        (C.space core.old - floor) }
    ensures room { C.space core.new + length (C.history core.new) ≡ C.space core.old + length (C.history core.old) }
    ensures floor { floor ≤ C.space core.new }
    ensures harts { C.hart_count core.new ≡ C.hart_count core.old }
    ensures evictable { (line mask : ℕ) → C.evictable core.new line mask ↔ C.evictable core.old line mask }
{
    let before = times_reached(core, hart, goal);
    for _ in 0..MOST_STEPS_TO {
        if core.stopped(hart) {
            return true;
        }
        if core.room() == floor {
            return false;
        }
        core.event(Event::Step(hart));
        if times_reached(core, hart, goal) > before {
            return true;
        }
    }
    true
}

/// Makes steps of harts that are enabled, each of the least such hart, as long as there is one and room above the floor, at most so
/// many. Answers whether room was enough.
fn play_enabled<C: Core>(core: &mut C, count: u32, floor: u64) -> bool
    requires floor { floor ≤ C.space core.old }
    ensures opening { C.opening core.new ≡ C.opening core.old }
    ensures history { C.history core.new
        ≡ C.history core.old ++ take (C.space core.old - floor)
        (enabled_steps C.behaviour (C.hart_count core.old) count (played C.behaviour (C.opening core.old) (C.history core.old))) }
    ensures all { result
        ≡ nat_le (length (enabled_steps C.behaviour (C.hart_count core.old) count (played C.behaviour (C.opening core.old) (C.history core.old))))
        (C.space core.old - floor) }
    ensures room { C.space core.new + length (C.history core.new) ≡ C.space core.old + length (C.history core.old) }
    ensures floor { floor ≤ C.space core.new }
    ensures harts { C.hart_count core.new ≡ C.hart_count core.old }
    ensures evictable { (line mask : ℕ) → C.evictable core.new line mask ↔ C.evictable core.old line mask }
{
    for _ in 0..count {
        let Some(hart) = core.can_step() else {
            return true;
        };
        if core.room() == floor {
            return false;
        }
        core.event(Event::Step(hart));
    }
    true
}

/// Makes an event if there is room above the floor. Answers whether there was.
fn play_event<C: Core>(core: &mut C, event: Event, floor: u64) -> bool
    requires valid { IsValid (C.hart_count core.old) (C.evictable core.old) event }
    requires floor { floor ≤ C.space core.old }
    ensures opening { C.opening core.new ≡ C.opening core.old }
    ensures history { C.history core.new ≡ C.history core.old ++ take (C.space core.old - floor) (event ∷ []) }
    ensures all { result ≡ nat_le 1 (C.space core.old - floor) }
    ensures room { C.space core.new + length (C.history core.new) ≡ C.space core.old + length (C.history core.old) }
    ensures floor { floor ≤ C.space core.new }
    ensures harts { C.hart_count core.new ≡ C.hart_count core.old }
    ensures evictable { (line mask : ℕ) → C.evictable core.new line mask ↔ C.evictable core.old line mask }
{
    if core.room() == floor {
        return false;
    }
    core.event(event);
    true
}

/// Makes a start if there is room above the floor. Answers whether there was.
fn play_start<C: Core>(core: &mut C, floor: u64) -> bool
    requires may { floor < C.space core.old → C.behaviour.can_start (played C.behaviour (C.opening core.old) (C.history core.old)) ≡ true }
    requires floor { floor ≤ C.space core.old }
    ensures opening { C.opening core.new ≡ C.opening core.old }
    ensures history { C.history core.new ≡ C.history core.old ++ take (C.space core.old - floor) (events.Start ∷ []) }
    ensures all { result ≡ nat_le 1 (C.space core.old - floor) }
    ensures room { C.space core.new + length (C.history core.new) ≡ C.space core.old + length (C.history core.old) }
    ensures floor { floor ≤ C.space core.new }
    ensures harts { C.hart_count core.new ≡ C.hart_count core.old }
    ensures evictable { (line mask : ℕ) → C.evictable core.new line mask ↔ C.evictable core.old line mask }
{
    if core.room() == floor {
        return false;
    }
    core.event(Event::Start);
    true
}

/// The line is a start for which there is room above the floor, and no life may begin by it.
pub(crate) fn is_refused<C: Core>(core: &C, command: Command, floor: u64) -> bool
    ensures { result
        ≡ (is_refused C.behaviour (played C.behaviour (C.opening core.now) (C.history core.now)) command && nat_lt floor (C.space core.now)) }
{
    match command {
        Command::Start => !core.can_start() && core.room() > floor,
        Command::Steps { .. } | Command::Point { .. } | Command::Fence { .. } => false,
        Command::Enabled { .. } | Command::Evict { .. } | Command::Crash => false,
    }
}

/// Makes the events of a line as long as there is room above the floor. Answers whether these were all of them.
pub(crate) fn play_line<C: Core>(core: &mut C, command: Command, floor: u64) -> bool
    requires doable { IsDoable (C.hart_count core.old) (C.evictable core.old) command }
    requires starts { floor < C.space core.old →
        is_refused C.behaviour (played C.behaviour (C.opening core.old) (C.history core.old)) command ≡ false }
    requires floor { floor ≤ C.space core.old }
    ensures opening { C.opening core.new ≡ C.opening core.old }
    ensures history { C.history core.new
        ≡ C.history core.old ++ take (C.space core.old - floor)
        (line_events C.behaviour (C.hart_count core.old) (played C.behaviour (C.opening core.old) (C.history core.old)) command) }
    ensures all { result ≡ nat_le
        (length (line_events C.behaviour (C.hart_count core.old) (played C.behaviour (C.opening core.old) (C.history core.old)) command))
        (C.space core.old - floor) }
    ensures room { C.space core.new + length (C.history core.new) ≡ C.space core.old + length (C.history core.old) }
    ensures floor { floor ≤ C.space core.new }
    ensures harts { C.hart_count core.new ≡ C.hart_count core.old }
    ensures evictable { (line mask : ℕ) → C.evictable core.new line mask ↔ C.evictable core.old line mask }
{
    match command {
        Command::Steps { hart, count } => play_steps(core, hart, u64::from(count), floor),
        Command::Point { hart } => play_until(core, hart, Goal::Point, floor),
        Command::Fence { hart } => play_until(core, hart, Goal::Fence, floor),
        Command::Enabled { count } => play_enabled(core, count, floor),
        Command::Evict { line, mask } => play_event(core, Event::Evict { line, mask }, floor),
        Command::Crash => play_event(core, Event::Crash, floor),
        Command::Start => play_start(core, floor),
    }
}

/// Makes the events of a script on a core, at most so many of them. Where there are more, or where no life may begin by a start, the answer is the first such
/// line, and the events before the excess, or before the start, are made.
pub fn play<C: Core>(script: &Script, core: &mut C, most: u64) -> Result<(), PlayError>
    requires lines { All (λ line. IsDoable (C.hart_count core.old) (C.evictable core.old) line.command) script.now.lines.items }
    requires room { most ≤ C.space core.old }
    ensures opening { C.opening core.new ≡ C.opening core.old }
    ensures events { C.history core.new
        ≡ C.history core.old ++ take most
        (script_events C.behaviour (C.hart_count core.old) (played C.behaviour (C.opening core.old) (C.history core.old))
        (map views.line_of script.now.lines.items)) }
    ensures whole { IfOk result (λ x.
        play_fault C.behaviour (C.hart_count core.old) (played C.behaviour (C.opening core.old) (C.history core.old)) most
        (map views.line_of script.now.lines.items) ≡ None) }
    ensures refused { IfErr result (λ e.
        play_fault C.behaviour (C.hart_count core.old) (played C.behaviour (C.opening core.old) (C.history core.old)) most
        (map views.line_of script.now.lines.items)
        ≡ Some (views.play_fault_of e)) }
    ensures room { C.space core.new + length (C.history core.new) ≡ C.space core.old + length (C.history core.old) }
    ensures harts { C.hart_count core.new ≡ C.hart_count core.old }
    ensures evictable { (line mask : ℕ) → C.evictable core.new line mask ↔ C.evictable core.old line mask }
{
    let floor = core.room() - most;
    for line in &script.lines {
        if is_refused(core, line.command, floor) {
            return Err(PlayError::Start(line.place));
        }
        if !play_line(core, line.command, floor) {
            return Err(PlayError::Many(line.place));
        }
    }
    Ok(())
}
