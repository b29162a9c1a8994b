//! The points of a machine's harts.
ghost use Rattle.std.specs.Prelude.{◌≡◌, ◌+◌, ◌*◌, ◌<◌, length};
ghost use Rattle.log_schemes.specs.Layout.{line_count, point_at};
ghost use Rattle.ido_base.specs.Words.{word_at, last_position};
ghost use Rattle.machine_model.specs.Machine.{World, durable_point, live_at};
ghost use Rattle.ido_machine.specs.Machines.{RepresentsMachine, program_in, log_by};
ghost use Rattle.run_tracker.specs.links.AccountRepresentation.{point_word};

use ido_base::limits::POINT_LINE;
use ido_machine::machine::Machine;

/// The line of a hart's point, whose first word it is.
#[inline(always)]
fn point_line(machine: &Machine, hart: u32) -> u32
    requires { hart < length (program_in machine.now) }
    ensures word { 8 * result + 0 ≡ point_word (log_by machine.now) hart }
    ensures exists { result < line_count (log_by machine.now) (length (program_in machine.now)) }
{
    POINT_LINE + machine.log().lines() * hart
}

/// Where the newest value of a hart's point stands among those that the point's word has had.
#[inline(always)]
pub(crate) fn point_position(machine: &Machine, hart: u32) -> u64
    requires { hart < length (program_in machine.now) }
    ensures { (w : World) → RepresentsMachine machine.now w → result ≡ last_position (word_at w.words (point_word w.log hart)) }
{
    machine.last_position(point_line(machine, hart), 0)
}

/// Up to where the word of a hart's point is durable.
pub(crate) fn point_durable(machine: &Machine, hart: u32) -> u64
    requires { hart < length (program_in machine.now) }
    ensures { (w : World) → RepresentsMachine machine.now w → result ≡ (word_at w.words (point_word w.log hart)).durable }
{
    machine.durable_position(point_line(machine, hart), 0)
}

/// The durable point of a hart.
pub(crate) fn durable_point(machine: &Machine, hart: u32) -> u64
    requires { hart < length (program_in machine.now) }
    ensures { (w : World) → RepresentsMachine machine.now w → result ≡ durable_point w.log w.words hart }
{
    machine.durable_word(point_line(machine, hart), 0)
}

/// The live point of a hart.
pub(crate) fn live_point(machine: &Machine, hart: u32) -> u64
    requires { hart < length (program_in machine.now) }
    ensures { (w : World) → RepresentsMachine machine.now w → result ≡ live_at w.words (point_at w.log hart) }
{
    machine.live_word(point_line(machine, hart), 0)
}
