//! Bounds on compiled programs: nothing is computed here.
ghost use Rattle.crash_bounds.specs.Entries.{ImagesAreEntered, RecoveryIsEntered};
ghost use Rattle.crash_bounds.specs.Losses.{CrashesUndoOneStretch};
ghost use Rattle.crash_bounds.specs.Rates.{HartsGetOn, MachinesEnd, MachinesGetOn, OrderedMachinesSettle};
ghost use Rattle.crash_bounds.specs.Rounds.{ListsKeepSixteen, MasksKeepSixtyFour};
ghost use Rattle.crash_bounds.specs.SettledAlike.{EvictionsSettleAlike, SettledIsDurable};

use compiler_correctness::laws::{machines_are_whole, sections_are_kept};
use crash_simulation::laws::machines_resume;
use deadlock_freedom::laws::stops_are_settled;

/// A bank that lists locks has 16 at most, and a mask 64.
pub fn records_are_short()
    ensures lists { ListsKeepSixteen }
    ensures masks { MasksKeepSixtyFour }
{}

/// After a crash, and without another, within as many whole rounds over the harts as a record has locks at most, and 3, no hart takes locks, waits for those
/// that do or is about to be resumed: 19 rounds where a bank lists locks, 67 with a mask. Evictions, starts and further steps may stand anywhere between.
/// So it is from an image, too, whoever left it, if a machine runs on from it.
pub fn recovery_is_entered()
    ensures run { RecoveryIsEntered }
    ensures image { ImagesAreEntered }
{}

/// Whatever has happened, and as long as the life goes on: until a hart begins a step of its thread it makes no more enabled steps than its delay, which is
/// twice the words of its code and 18, and where locals stand in the log 3 more; and as many again for each step that it begins; and where there was a crash in
/// this life as many more as a record has locks at most, and 3. All of them make no more than a number that `step_bound` computes of the steps of the source
/// that begin. So where every run of the source from the kept state ends within so many steps, each run of enabled steps alone ends within a number that it
/// computes of that.
pub fn machines_get_on()
    ensures hart { HartsGetOn }
    ensures machine { MachinesGetOn }
    ensures run { MachinesEnd }
{}

/// Where the source keeps the order of locks, and every run of it from the kept state ends within so many steps, a run of enabled steps alone has settled once
/// no hart can step, and that is so within the number of `machines_get_on`, whatever crashes came before.
pub fn ordered_machines_settle()
    ensures { OrderedMachinesSettle }
{
    machines_get_on();
    stops_are_settled();
}

/// Of each thread the steps that a crash would undo are one stretch of its way through the graph: it makes them alone from where the kept steps have left it,
/// all but the last take no mutex and give none back, and no boundary stands on the way but before an unlock that is the last of them.
pub fn crashes_undo_one_stretch()
    ensures { CrashesUndoOneStretch }
{
    machines_resume();
}

/// Where a machine is settled, all of its variables is durable.
pub fn settled_is_durable()
    ensures { SettledIsDurable }
{
    machines_resume();
}

/// Two lists of steps of one life without a crash that differ in evictions alone: after the one a machine is settled exactly where it is after the other, and
/// then with the same variables, durably, and as many ended sections of each thread.
pub fn evictions_settle_alike()
    ensures { EvictionsSettleAlike }
{
    machines_resume();
    machines_are_whole();
    sections_are_kept();
    settled_is_durable();
}
