//! The facts, by name.
ghost use Rattle.resumption_facts.specs.BanksBeforePoints.{BanksComeBeforePoints};
ghost use Rattle.resumption_facts.specs.BanksKept.{BanksAreKept};
ghost use Rattle.resumption_facts.specs.RecordsFollowLocks.{RecordsFollowLocks};
ghost use Rattle.resumption_facts.specs.RegistersResumed.{RegistersAreResumed};
ghost use Rattle.resumption_facts.specs.StoresFollowReads.{FrameIsStoredAtResumption, NoLoadIsOverwritten, NoReadIsOverwritten};

use compiler_correctness::laws::machines_record;
use crash_simulation::laws::{
    cores_step, events_stand, fragments_step, local_stores_step, machines_resume,
};
use thread_runs::laws::{fragments_go_on, marks_pass, resumed_go_on};

/// Bank before point: whenever a hart is about to store its point, the bank that this names is durable. Each slot of the record has what was recorded:
/// where the thread stands by all steps that are begun, with the locks held there, which the hart has taken, and the live registers; so has each word of its
/// frame on which the record counts. Each word is durable as of the hart's last store into it since the last start or crash, or later; and a crash can leave of
/// what the thread has stored since its last point only what it has now.
pub fn banks_come_before_points()
    ensures { BanksComeBeforePoints }
{
    machines_resume();
    cores_step();
    fragments_step();
    local_stores_step();
    fragments_go_on();
    marks_pass();
}

/// Bank kept: whatever happens but a crash, no word of a bank is stored to that the hart's live or durable point names, by whichever hart.
pub fn banks_are_kept()
    ensures { BanksAreKept }
{
    machines_resume();
    cores_step();
    fragments_step();
    local_stores_step();
    fragments_go_on();
    marks_pass();
}

/// Registers resumed: a hart that is resumed has each register that it has recorded, and so all that the code there may rely on: the side of its log, each
/// local that is live where the kept steps leave its thread, and a write that comes next. It needs no others, nor other words of its frame than those on which
/// the record counts: with anything in them its code leads to the same node.
pub fn registers_are_resumed()
    ensures { RegistersAreResumed }
{
    machines_resume();
    resumed_go_on();
}

/// Rerun reads nothing overwritten: from where a hart would be resumed to the store of its point it stores to no byte that it has loaded on the way, unless
/// it had stored to that byte before it loaded it. To its own frame, if its locals stand there, it stores right where it would be resumed, so that it has
/// loaded nothing on the way. And of the source's steps that it has begun and that aren't kept none stores an element that one of them has read before,
/// unless an earlier one had stored it.
pub fn reruns_read_nothing_overwritten()
    ensures loads { NoLoadIsOverwritten }
    ensures frames { FrameIsStoredAtResumption }
    ensures steps { NoReadIsOverwritten }
{
    machines_resume();
    cores_step();
    fragments_step();
    local_stores_step();
    fragments_go_on();
    marks_pass();
}

/// Record follows locks: a hart's record is the set that its thread holds where it would be resumed. The hart holds all of it, unless it takes it in
/// recovery just then, and no more when it is resumed; and no lock is given back that is in it.
pub fn records_follow_locks()
    ensures { RecordsFollowLocks }
{
    machines_resume();
    machines_record();
    marks_pass();
    events_stand();
}
