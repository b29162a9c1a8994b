//! Whether a run can go on from what an image has after its source.
ghost use Rattle.std.specs.Prelude.{◌≡◌, ◌*◌, ◌≤◌, length, map};
ghost use Rattle.ido_base.specs.declared.limits.TheConstants.{MOST_THREADS};
ghost use Rattle.c_tree.specs.Flats.{flat_of};
ghost use Rattle.c_tree.specs.WellFormed.{IsWellFormed, shape_of};
ghost use Rattle.memory_layout.specs.Variables.{HaveRoom};
ghost use Rattle.log_schemes.specs.Layout.{log_words};
ghost use Rattle.crash_images.specs.links.Views.{state_of};
ghost use Rattle.image_checks.specs.ResumeSlots.{TablesHaveKinds, TablesHaveRoom, TablesHaveSlots};
ghost use Rattle.image_checks.specs.StateAnswers.{IsStateAnswer};

use crate::error::ImageError;
use crate::mutexes::check_mutexes;
use crate::schedules::schedules_of;
use crate::threads::check_logs;
use c_tree::flat::Flat;
use crash_images::state::State;
use flat_compile::resumes::Resume;
use log_schemes::log::Log;
use std::alloc::Global;
use variable_words::places::addresses;

/// The schedules of what stands after a source with this flat form, of whose threads each may be resumed at its places in the table; or
/// the first fault there: by thread a point, its locks and registers, in the order of its log; a mutex that two hold; by life a step of its schedule, or that
/// it doesn't end.
pub fn check_state(
    alloc: Global,
    flat: &Flat,
    table: &[Vec<Resume>],
    log: Log,
    state: &State,
) -> Result<Vec<Vec<u32>>, ImageError>
    requires room { HaveRoom (map shape_of (flat_of flat.now).variables) }
    requires formed { IsWellFormed (flat_of flat.now) }
    requires slots { TablesHaveSlots table.now }
    requires kinds { TablesHaveKinds (flat_of flat.now) table.now }
    requires room_for_locks { TablesHaveRoom log table.now }
    requires few { length table.now ≤ MOST_THREADS }
    requires logs { length state.now.logs.items ≡ log_words log * length table.now }
    ensures { IsStateAnswer log (flat_of flat.now) table.now (state_of state.now) result }
{
    let addresses = addresses(alloc, &flat.variables)?;
    check_logs(alloc, log, flat, &addresses, table, &state.logs)?;
    check_mutexes(log, &state.logs, table.len() as u32)?;
    let lives = schedules_of(alloc, flat, &state.lives)?;
    Ok(lives)
}
