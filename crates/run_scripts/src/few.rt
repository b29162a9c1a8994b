//! The play of a script of few events.
ghost use Rattle.std.specs.Prelude.{◌≡◌, ◌↔◌, ◌+◌, ◌-◌, ◌≤◌, ◌++◌, ℕ, All, Some, None, length, map, take, OnOk, IfErr};
ghost use Rattle.ido_base.specs.declared.limits.TheConstants.{MOST_EVENTS};
ghost use Rattle.machine_events.specs.Cores.{played};
ghost use Rattle.run_scripts.specs.Plays.{fault_within, script_events};
ghost use Rattle.run_scripts.specs.Scripts.{IsDoable};
ghost use Rattle.run_scripts.specs.links.ScriptViews as views;

use crate::play::{is_refused, play_line};
use crate::script::Script;
use ido_base::limits::MOST_EVENTS;
use ido_base::place::Place;
use machine_events::machine::Core;
use thiserror::Error;

/// Why a script isn't played to its end, and where the line stands at which that is found.
#[derive(Clone, Copy, Debug, PartialEq, Eq, Drop, Error)]
pub enum Excess {
    /// With its events there are more than 4,000,000.
    #[error("more events than a script makes")]
    Script(Place),
    /// It is a start, and no life may begin.
    #[error("a start where no life may begin")]
    Start(Place),
    /// With its events there are not so many, but more than the few that there may be.
    #[error("more events than there may be")]
    Few(Place),
}

/// Makes the events of a script on a core, where they are at most so many. Else, or where no life may begin by a start, the answer is the first such line, and
/// of the script's events only its first ones are made.
pub fn play_few<C: Core>(script: &Script, core: &mut C, most: u64) -> Result<(), Excess>
    requires lines { All (λ line. IsDoable (C.hart_count core.old) (C.evictable core.old) line.command) script.now.lines.items }
    requires room { MOST_EVENTS ≤ C.space core.old }
    requires few { most ≤ MOST_EVENTS }
    ensures opening { C.opening core.new ≡ C.opening core.old }
    ensures events { OnOk result (C.history core.new
        ≡ C.history core.old
        ++ script_events C.behaviour (C.hart_count core.old) (played C.behaviour (C.opening core.old) (C.history core.old))
        (map views.line_of script.now.lines.items)) }
    ensures few { OnOk result (
        length (script_events C.behaviour (C.hart_count core.old) (played C.behaviour (C.opening core.old) (C.history core.old))
        (map views.line_of script.now.lines.items))
        ≤ most) }
    ensures whole { OnOk result (
        fault_within C.behaviour (C.hart_count core.old) (played C.behaviour (C.opening core.old) (C.history core.old)) MOST_EVENTS most
        (map views.line_of script.now.lines.items) ≡ None) }
    ensures refused { IfErr result (λ e.
        fault_within C.behaviour (C.hart_count core.old) (played C.behaviour (C.opening core.old) (C.history core.old)) MOST_EVENTS most
        (map views.line_of script.now.lines.items)
        ≡ Some (views.few_fault_of e)) }
    ensures begun { IfErr result (λ _. C.history core.new
        ≡ C.history core.old ++ take (C.space core.old - C.space core.new)
        (script_events C.behaviour (C.hart_count core.old) (played C.behaviour (C.opening core.old) (C.history core.old))
        (map views.line_of script.now.lines.items))) }
    ensures room { C.space core.new + length (C.history core.new) ≡ C.space core.old + length (C.history core.old) }
    ensures harts { C.hart_count core.new ≡ C.hart_count core.old }
    ensures evictable { (line mask : ℕ) → C.evictable core.new line mask ↔ C.evictable core.old line mask }
{
    let floor = core.room() - MOST_EVENTS;
    for line in &script.lines {
        if is_refused(core, line.command, floor) {
            return Err(Excess::Start(line.place));
        }
        if !play_line(core, line.command, floor) {
            return Err(Excess::Script(line.place));
        }
        if core.room() - floor + most < MOST_EVENTS {
            return Err(Excess::Few(line.place));
        }
    }
    Ok(())
}
