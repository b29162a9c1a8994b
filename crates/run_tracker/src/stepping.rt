//! What an event does to the machine, to the account and to the counts. What a step goes through is marked inline: a run
//! makes millions of them.
ghost use Rattle.std.specs.Prelude.{◌≡◌, ◌+◌, ◌<◌, ◌≤◌, ◌^◌, List, true, false, ℕ, length, slice_get, None, Some, IfSome, IfNone};
ghost use Rattle.std.specs.Vec.{vec_capacity, vec_len};
ghost use Rattle.machine_events.specs.declared.event.Event.TheVariants.{Step, Evict, Crash, Start};
ghost use Rattle.machine_events.specs.declared.event.Reply.TheVariants.{Moved};
ghost use Rattle.log_schemes.specs.Layout.{line_count};
ghost use Rattle.ido_base.specs.Words.{word_at, last_position};
ghost use Rattle.rv64_isa.specs.declared.object.Slot.{Slot};
ghost use Rattle.machine_model.specs.Machine.{Hart, World, IsValidAt, can_start, happens};
ghost use Rattle.machine_model.specs.Schedule.{Steps, is_running, with_step, steps_after, with_all_kept, with_kept};
ghost use Rattle.ido_machine.specs.Machines.{RepresentsMachine, IsAfter, program_in, log_by, events_of};
ghost use Rattle.run_tracker.specs.links.AccountRepresentation.{AccountInv, AreOpen, IsNoneDurable, point_word};
ghost use Rattle.run_tracker.specs.links.SectionRepresentation.{AreAbove, AreSeen, section_at};
ghost use Rattle.ido_machine.specs.links.SignTables.{AreTables, sign_at};
ghost use Rattle.run_tracker.specs.links.LifeParts.{IsAmong, IsSeen, IsNextEntry, seen_step, HasStepped, WasTracked, IsTrackerReady, HasSteps, HasCounts};
ghost use Rattle.run_tracker.specs.links.LifeParts.{HaveCounted};
ghost use Rattle.ido_machine.specs.declared.signs.SignTable.{SignTable};

use crate::account::Account;
use crate::counts::Counts;
use crate::points::{point_durable, point_position};
use crate::sections::Sections;
use ido_machine::machine::Machine;
use ido_machine::signs::{Entry, Sign, SignTable, sign_of, slot_at};
use machine_events::event::{Event, Reply};
use machine_model::phase::Phase;

/// What is seen of a hart before its step.
#[derive(Clone, Copy, Drop)]
pub(crate) struct Observation {
    /// The hart executes instructions.
    pub running: bool,
    /// What is told of the code word that stands at its pc.
    pub sign: Sign,
    /// Where that word stores: where the newest value of the hart's point stands among those that the point's word has had. Else 0.
    pub position: u64,
}

/// The hart executes instructions.
#[inline(always)]
pub(crate) fn is_running(phase: Phase) -> bool
    ensures { result ≡ is_running phase }
{
    matches!(phase, Phase::Run)
}

/// Where the newest value of a hart's point stands, if that is asked for; else 0.
#[inline(always)]
fn position_if(asked: bool, machine: &Machine, hart: u32) -> u64
    requires { hart < length (program_in machine.now) }
    ensures asked { asked ≡ true → (w : World) → RepresentsMachine machine.now w → result ≡ last_position (word_at w.words (point_word w.log hart)) }
    ensures unasked { asked ≡ false → result ≡ 0 }
{
    if asked {
        point_position(machine, hart)
    } else {
        0
    }
}

/// What is seen of a hart at whose pc a code word with this sign stands.
#[inline(always)]
fn look(machine: &Machine, hart: u32, sign: Sign) -> Observation
    requires { hart < length (program_in machine.now) }
    ensures { (tables : List SignTable) (table : SignTable) (w : World) → RepresentsMachine machine.now w → slice_get tables hart ≡ Some table →
        ((model : Hart) → slice_get w.harts hart ≡ Some model → sign ≡ sign_at table model.pc) → IsSeen w hart tables result }
{
    Observation {
        running: is_running(machine.phase(hart)),
        sign,
        position: position_if(sign.store, machine, hart),
    }
}

/// Where the point of a hart has become durable further than was seen before, the steps bound to it are kept.
#[inline(always)]
fn keep_seen(machine: &Machine, account: &mut Account, sections: &Sections, hart: u32)
    requires exists { hart < length (program_in machine.now) }
    requires seen { length sections.now.harts.items ≡ length (program_in machine.now) }
    requires harts { length account.old.harts.items ≡ length (program_in machine.now) }
    requires at { HasSteps machine.now account.old }
    ensures stands { (w : World) (s : Steps) → RepresentsMachine machine.now w → AccountInv account.old s
        → IsNoneDurable hart (section_at sections.now hart).position s.pending
        → AccountInv account.new (with_kept w.log w.words hart s) }
    ensures harts { length account.new.harts.items ≡ length account.old.harts.items }
    ensures at { HasSteps machine.now account.new }
    ensures stores { account.new.stores ≡ account.old.stores }
    ensures capacity { vec_capacity account.new.kept ≡ vec_capacity account.old.kept }
{
    let durable = point_durable(machine, hart);
    if sections.harts[hart as usize].position != durable {
        account.keep(hart, durable);
    }
}

/// Where the points of harts have become durable further than was seen before, the steps bound to them are kept.
fn keep_all(machine: &Machine, account: &mut Account, sections: &Sections)
    requires seen { length sections.now.harts.items ≡ length (program_in machine.now) }
    requires harts { length account.old.harts.items ≡ length (program_in machine.now) }
    requires at { HasSteps machine.now account.old }
    ensures stands { (w : World) (s : Steps) → RepresentsMachine machine.now w → AccountInv account.old s
        → AreAbove sections.now (length (program_in machine.now)) s
        → AccountInv account.new (with_all_kept w.log w.words (length account.old.harts.items) s) }
    ensures harts { length account.new.harts.items ≡ length account.old.harts.items }
    ensures stores { account.new.stores ≡ account.old.stores }
    ensures capacity { vec_capacity account.new.kept ≡ vec_capacity account.old.kept }
{
    for hart in 0..machine.harts() {
        keep_seen(machine, account, sections, hart);
    }
}

/// A hart of which this was seen has completed an instruction. Where that is a mark a step of the source is begun, and where
/// it stored the point, the steps begun so far are bound to that. None is durable yet.
#[inline(always)]
fn complete(
    machine: &Machine,
    account: &mut Account,
    counts: &mut Counts,
    observation: Observation,
    hart: u32,
)
    requires exists { hart < length (program_in machine.now) }
    requires after { WasTracked machine.now account.old (seen_step hart observation Moved) }
    requires running { observation.running ≡ true }
    requires harts { length account.old.harts.items ≡ length (program_in machine.now) }
    requires counts { HasCounts counts.old (length (program_in machine.now)) }
    requires room { vec_len account.old.stores < vec_capacity account.old.stores }
    ensures steps { (program : List (List Slot)) (marks : List (List ℕ)) (w : World) (s : Steps)
        → HasStepped program marks machine.now (seen_step hart observation Moved) w → AccountInv account.old s
        → AccountInv account.new (with_step marks program w hart s) }
    ensures counts { (program : List (List Slot)) (marks : List (List ℕ)) (w : World)
        → HasStepped program marks machine.now (seen_step hart observation Moved) w → HaveCounted counts.old counts.new program w (Step hart) }
    ensures harts { length account.new.harts.items ≡ length account.old.harts.items }
    ensures stores { vec_len account.new.stores ≤ vec_len account.old.stores + 1 }
    ensures reserved { vec_capacity account.new.stores ≡ vec_capacity account.old.stores }
    ensures capacity { vec_capacity account.new.kept ≡ vec_capacity account.old.kept }
{
    if observation.sign.plain {
        return;
    }
    let position = position_if(observation.sign.store, machine, hart);
    let point = position != observation.position;
    account.begin_if(observation.sign.mark, hart);
    account.bind_if(point, hart, position);
    counts.add(hart, point, observation.sign.fence);
}

/// Accounts for the step of a hart of which this was seen, by the reply to it.
#[inline(always)]
fn note(
    machine: &Machine,
    account: &mut Account,
    counts: &mut Counts,
    sections: &Sections,
    observation: Observation,
    reply: Reply,
    hart: u32,
)
    requires exists { hart < length (program_in machine.now) }
    requires after { WasTracked machine.now account.old (seen_step hart observation reply) }
    requires seen { length sections.now.harts.items ≡ length (program_in machine.now) }
    requires harts { length account.old.harts.items ≡ length (program_in machine.now) }
    requires counts { HasCounts counts.old (length (program_in machine.now)) }
    requires room { vec_len account.old.stores < vec_capacity account.old.stores }
    ensures steps { (program : List (List Slot)) (marks : List (List ℕ)) (w : World) (s : Steps)
        → HasStepped program marks machine.now (seen_step hart observation reply) w → AccountInv account.old s
        → AreOpen (length (program_in machine.now)) w.log w.words s
        → AreSeen sections.now (length (program_in machine.now)) w
        → AccountInv account.new (steps_after marks program w (Step hart) s) }
    ensures counts { (program : List (List Slot)) (marks : List (List ℕ)) (w : World)
        → HasStepped program marks machine.now (seen_step hart observation reply) w → HaveCounted counts.old counts.new program w (Step hart) }
    ensures harts { length account.new.harts.items ≡ length account.old.harts.items }
    ensures stores { vec_len account.new.stores ≤ vec_len account.old.stores + 1 }
    ensures reserved { vec_capacity account.new.stores ≡ vec_capacity account.old.stores }
    ensures capacity { vec_capacity account.new.kept ≡ vec_capacity account.old.kept }
{
    match reply {
        Reply::Moved => {
            if observation.running {
                complete(machine, account, counts, observation, hart);
            }
        }
        Reply::Drained => keep_all(machine, account, sections),
        _ => {}
    }
}

/// What stands at a hart's pc in its own code.
#[inline(always)]
fn next_entry(machine: &Machine, tables: &[SignTable], hart: u32) -> Option<Entry>
    requires exists { hart < length (program_in machine.now) }
    requires tables { length tables.now ≡ length (program_in machine.now) }
    ensures { (w : World) → RepresentsMachine machine.now w → IsNextEntry w hart tables.now result }
{
    tables[hart as usize].entry_at(machine.pc(hart))
}

/// A step of a hart.
#[inline(always)]
fn step(
    machine: &mut Machine,
    account: &mut Account,
    counts: &mut Counts,
    sections: &Sections,
    tables: &[SignTable],
    hart: u32,
) -> Reply
    requires exists { hart < length (program_in machine.old) }
    requires harts { length account.old.harts.items ≡ length (program_in machine.old) }
    requires counts { HasCounts counts.old (length (program_in machine.old)) }
    requires events { events_of machine.old < 2 ^ 63 }
    requires room { vec_len account.old.stores < vec_capacity account.old.stores }
    requires at { IsTrackerReady tables.now machine.old account.old }
    requires seen { length sections.now.harts.items ≡ length (program_in machine.old) }
    ensures world { (w : World) → RepresentsMachine machine.old w → IsAfter machine.new result (happens (program_in machine.old) w (Step hart)) }
    ensures steps { (marks : List (List ℕ)) (w : World) (s : Steps) → AreTables tables.now (program_in machine.old) marks
        → RepresentsMachine machine.old w → AccountInv account.old s → AreOpen (length (program_in machine.old)) w.log w.words s
        → AreSeen sections.now (length (program_in machine.old)) w
        → AccountInv account.new (steps_after marks (program_in machine.old) w (Step hart) s) }
    ensures counts { (w : World) → RepresentsMachine machine.old w → HaveCounted counts.old counts.new (program_in machine.old) w (Step hart) }
    ensures program { program_in machine.new ≡ program_in machine.old }
    ensures log { log_by machine.new ≡ log_by machine.old }
    ensures events { events_of machine.new ≡ events_of machine.old + 1 }
    ensures harts { length account.new.harts.items ≡ length account.old.harts.items }
    ensures stores { vec_len account.new.stores ≤ vec_len account.old.stores + 1 }
    ensures reserved { vec_capacity account.new.stores ≡ vec_capacity account.old.stores }
    ensures capacity { vec_capacity account.new.kept ≡ vec_capacity account.old.kept }
{
    let next = next_entry(machine, tables, hart);
    let observation = look(machine, hart, sign_of(&next));
    let reply = machine.execute(hart, slot_at(&next));
    note(machine, account, counts, sections, observation, reply, hart);
    reply
}

/// An eviction.
fn evict(
    machine: &mut Machine,
    account: &mut Account,
    sections: &Sections,
    line: u32,
    mask: u32,
) -> Reply
    requires exists { line < line_count (log_by machine.old) (length (program_in machine.old)) }
    requires mask { mask ≤ 255 }
    requires harts { length account.old.harts.items ≡ length (program_in machine.old) }
    requires events { events_of machine.old < 2 ^ 63 }
    requires at { HasSteps machine.old account.old }
    requires seen { length sections.now.harts.items ≡ length (program_in machine.old) }
    ensures world { (w : World) → RepresentsMachine machine.old w → IsAfter machine.new result (happens (program_in machine.old) w (Evict line mask)) }
    ensures steps { (marks : List (List ℕ)) (w : World) (s : Steps) → RepresentsMachine machine.old w → AccountInv account.old s
        → AreOpen (length (program_in machine.old)) w.log w.words s → AreSeen sections.now (length (program_in machine.old)) w
        → AccountInv account.new (steps_after marks (program_in machine.old) w (Evict line mask) s) }
    ensures program { program_in machine.new ≡ program_in machine.old }
    ensures log { log_by machine.new ≡ log_by machine.old }
    ensures events { events_of machine.new ≡ events_of machine.old + 1 }
    ensures harts { length account.new.harts.items ≡ length account.old.harts.items }
    ensures stores { account.new.stores ≡ account.old.stores }
    ensures capacity { vec_capacity account.new.kept ≡ vec_capacity account.old.kept }
{
    let reply = machine.evict(line, mask);
    keep_all(machine, account, sections);
    reply
}

/// A crash: steps that aren't kept are lost.
fn crash(machine: &mut Machine, account: &mut Account) -> Reply
    requires events { events_of machine.old < 2 ^ 63 }
    ensures world { (w : World) → RepresentsMachine machine.old w → IsAfter machine.new result (happens (program_in machine.old) w Crash) }
    ensures steps { (marks : List (List ℕ)) (w : World) (s : Steps) → AccountInv account.old s
        → AccountInv account.new (steps_after marks (program_in machine.old) w Crash s) }
    ensures program { program_in machine.new ≡ program_in machine.old }
    ensures log { log_by machine.new ≡ log_by machine.old }
    ensures events { events_of machine.new ≡ events_of machine.old + 1 }
    ensures harts { length account.new.harts.items ≡ length account.old.harts.items }
    ensures stores { vec_len account.new.stores ≡ 0 }
    ensures reserved { vec_capacity account.new.stores ≡ vec_capacity account.old.stores }
    ensures capacity { vec_capacity account.new.kept ≡ vec_capacity account.old.kept }
{
    let reply = machine.crash();
    account.lose();
    reply
}

/// A start: another life begins, with no step.
fn start(machine: &mut Machine, account: &mut Account) -> Reply
    requires events { events_of machine.old < 2 ^ 63 }
    ensures world { (w : World) → RepresentsMachine machine.old w → can_start w ≡ true
        → IsAfter machine.new result (happens (program_in machine.old) w Start) }
    ensures steps { (marks : List (List ℕ)) (w : World) (s : Steps) → can_start w ≡ true → AccountInv account.old s
        → AccountInv account.new (steps_after marks (program_in machine.old) w Start s) }
    ensures program { program_in machine.new ≡ program_in machine.old }
    ensures log { log_by machine.new ≡ log_by machine.old }
    ensures events { events_of machine.new ≡ events_of machine.old + 1 }
    ensures harts { length account.new.harts.items ≡ length account.old.harts.items }
    ensures stores { vec_len account.new.stores ≡ 0 }
    ensures reserved { vec_capacity account.new.stores ≡ vec_capacity account.old.stores }
    ensures capacity { vec_capacity account.new.kept ≡ vec_capacity account.old.kept }
{
    let reply = machine.start_anew();
    account.lose();
    reply
}

/// Makes an event.
#[inline(always)]
pub(crate) fn make(
    event: Event,
    machine: &mut Machine,
    account: &mut Account,
    counts: &mut Counts,
    sections: &Sections,
    tables: &[SignTable],
) -> Reply
    requires valid { IsAmong (log_by machine.old) (length (program_in machine.old)) event }
    requires harts { length account.old.harts.items ≡ length (program_in machine.old) }
    requires counts { HasCounts counts.old (length (program_in machine.old)) }
    requires events { events_of machine.old < 2 ^ 63 }
    requires room { vec_len account.old.stores < vec_capacity account.old.stores }
    requires at { IsTrackerReady tables.now machine.old account.old }
    requires seen { length sections.now.harts.items ≡ length (program_in machine.old) }
    ensures world { (w : World) → RepresentsMachine machine.old w → IsValidAt w event
        → IsAfter machine.new result (happens (program_in machine.old) w event) }
    ensures steps { (marks : List (List ℕ)) (w : World) (s : Steps) → AreTables tables.now (program_in machine.old) marks
        → RepresentsMachine machine.old w → IsValidAt w event → AccountInv account.old s → AreOpen (length (program_in machine.old)) w.log w.words s
        → AreSeen sections.now (length (program_in machine.old)) w
        → AccountInv account.new (steps_after marks (program_in machine.old) w event s) }
    ensures counts { (w : World) → RepresentsMachine machine.old w → HaveCounted counts.old counts.new (program_in machine.old) w event }
    ensures program { program_in machine.new ≡ program_in machine.old }
    ensures log { log_by machine.new ≡ log_by machine.old }
    ensures events { events_of machine.new ≡ events_of machine.old + 1 }
    ensures harts { length account.new.harts.items ≡ length account.old.harts.items }
    ensures stores { vec_len account.new.stores ≤ vec_len account.old.stores + 1 }
    ensures reserved { vec_capacity account.new.stores ≡ vec_capacity account.old.stores }
    ensures capacity { vec_capacity account.new.kept ≡ vec_capacity account.old.kept }
{
    match event {
        Event::Step(hart) => step(machine, account, counts, sections, tables, hart),
        Event::Evict { line, mask } => evict(machine, account, sections, line, mask),
        Event::Crash => crash(machine, account),
        Event::Start => start(machine, account),
    }
}
