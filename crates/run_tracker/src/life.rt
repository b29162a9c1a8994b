//! A life: a machine that runs a compiled object, with the journal of its events and the kept schedule.
ghost use Rattle.std.specs.Prelude.{◌≡◌, [], ◌∷◌, ◌+◌, ◌-◌, ◌*◌, ◌/◌, ◌<◌, ◌≤◌, ◌^◌, ◌++◌, ℕ, Some, length, map, not, slice_get};
ghost use Rattle.std.specs.Prelude.{if◌then◌else◌, IfOk, IsTrue, ◌↔◌, slice_index_or, take, drop};
ghost use Rattle.std.specs.Bool.{OnTrue};
ghost use Rattle.std.specs.Vec.{vec_capacity, vec_len};
ghost use Rattle.ido_base.specs.Words.{word_at, live_value, durable_value};
ghost use Rattle.log_schemes.specs.Layout.{line_count, log_words};
ghost use Rattle.machine_events.specs.declared.event.Event.TheVariants.{Step};
ghost use Rattle.machine_events.specs.Cores.{point_stores, finished_fences, least_enabled, EachMoves};
ghost use Rattle.machine_model.specs.Machine.{Hart, World, can_start, has_stopped, have_stopped, reply_to};
ghost use Rattle.log_schemes.specs.Schemes.{numbers_from};
ghost use Rattle.ido_machine.specs.Machines.{RepresentsMachine, program_in, log_by, events_of};
ghost use Rattle.machine_model.specs.Objects.{program_of};
ghost use Rattle.machine_model.specs.Frames.{IsWellFormedWorld};
ghost use Rattle.machine_model.specs.Schedule.{schedules};
ghost use Rattle.machine_model.specs.Machine.{is_settled, is_settled_hart};
ghost use Rattle.hart_core.specs.Objects.{IsWithinLimits};
ghost use Rattle.run_tracker.specs.ObjectLives.{Course, new_life, life_at, life_from, with_event, world_of, steps_in, left_words, variable_words_in};
ghost use Rattle.run_tracker.specs.ObjectLives.{IsValidIn, LifeConfig, ended_sections, is_stopped, living, opening_of};
ghost use Rattle.run_tracker.specs.LocalRuns.{IsLocalOf, StandsAtBeginning, local_at, with_steps};
ghost use Rattle.run_tracker.specs.links.AccountRepresentation.{ends_then, life_place};
ghost use Rattle.run_tracker.specs.links.EarlierLives.{kept_count, lives_in};
ghost use Rattle.run_tracker.specs.links.LifeParts.{is_start, may_persist};
ghost use Rattle.run_tracker.specs.links.LifeRepresentation.{opening_by};

use crate::account::Account;
use crate::counts::Counts;
use crate::earlier::{account_after, copies_of, ends_of};
use crate::journal::Journal;
use crate::local::LocalRun;
use crate::marks::copy_of;
use crate::points::{durable_point, live_point};
use crate::sections::Sections;
use crate::stepping::make;
use ido_base::limits::VARIABLE_WORDS;
use ido_base::memory::OutOfMemory;
use ido_machine::machine::Machine;
use ido_machine::signs::{SignTable, tables_of};
use machine_events::event::{Event, Reply};
use machine_events::machine::Core;
use machine_model::object::Object;
use machine_model::phase::Phase;
use rv64_isa::object::Marks;
use std::alloc::Global;
use std::marker::Model;

/// A machine that runs a compiled object, with the journal of its events and the account of the steps of the source
/// that it has begun and kept. It has room for its events from the start.
///
/// Marks may stand anywhere: one that is no code word of its thread is never passed. It is a `Core`, whose events are those of its
/// journal.
#[derive(Drop)]
pub struct Life {
    /// The initial bytes of the variables and the number of mutexes are those of the object, and the marks too.
    initial: Vec<u8>,
    mutexes: u32,
    marks: Marks,
    /// What a crash left of the variables and logs, where the life begins after one.
    left: Option<Vec<u64>>,
    /// The schedules that were kept before the first event: of the lives that have ended, and of the one that goes on.
    earlier: Vec<Vec<u32>>,
    before: Vec<u32>,
    /// How many sections of each thread have ended by those.
    ended_before: Vec<u64>,
    tables: Vec<SignTable>,
    machine: Machine,
    account: Account,
    /// How many steps the lives up to each one that has ended have kept.
    ends: Vec<u64>,
    journal: Journal,
    counts: Counts,
    sections: Sections,
    cap: u64,
}

impl Model for Life {
    ghost use Rattle.run_tracker.specs.ObjectLives.{Course};

    ghost Value = { Course };

    ghost use Rattle.run_tracker.specs.links.LifeRepresentation.{course_of, LifeInv};

    ghost view = { course_of };

    ghost invariant = { LifeInv };
}

/// The hart has ended, or its recovery is done.
fn has_stopped(phase: Phase) -> bool
    ensures { result ≡ has_stopped phase }
{
    matches!(phase, Phase::Done | Phase::Ended)
}

/// The event is a start.
fn is_start(event: Event) -> bool
    ensures { result ≡ is_start event }
{
    matches!(event, Event::Start)
}

/// Notes that a life ends behind so many kept steps, if it does.
fn end_if(ends: &mut Vec<u64>, ended: bool, kept: usize)
    requires { vec_len ends.old < vec_capacity ends.old }
    ensures items { ends.new.items ≡ ends_then ended ends.old.items kept }
    ensures len { vec_len ends.new ≤ vec_len ends.old + 1 }
    ensures capacity { vec_capacity ends.new ≡ vec_capacity ends.old }
{
    if ended {
        ends.push_reserved(kept as u64);
    }
}

/// Where the steps of a life begin among all kept ones, by where lives end.
fn begins_at(ends: &[u64], life: usize) -> usize
    requires { life ≤ length ends.now }
    ensures { result ≡ life_place 0 ends.now life }
{
    if life == 0 {
        return 0;
    }
    ends[life - 1] as usize
}

/// Where they end: those of the life that goes on end with all that are kept.
fn ends_at(ends: &[u64], life: usize, kept: usize) -> usize
    ensures { result ≡ slice_index_or ends.now life kept }
{
    match ends.get(life) {
        Some(end) => *end as usize,
        None => kept,
    }
}

/// The steps from one place to another.
fn steps_between(kept: &[u32], from: usize, to: usize) -> &[u32]
    requires order { from ≤ to }
    requires within { to ≤ length kept.now }
    ensures { result.now ≡ take (to - from) (drop from kept.now) }
{
    &kept[from..to]
}

/// How many sections of a thread had ended before a life began.
fn ended_at(ended: &[u64], thread: u32) -> u64
    ensures { result ≡ slice_index_or ended.now thread 0 }
{
    match ended.get(thread as usize) {
        Some(count) => *count,
        None => 0,
    }
}

/// The reply is one to an event by which more of memory may be durable: the write-back of a queued line, an eviction or a crash.
#[inline(always)]
fn may_persist(reply: Reply) -> bool
    ensures { result ≡ may_persist reply }
{
    matches!(reply, Reply::Drained | Reply::Device)
}

/// The phase is the other one.
fn is_phase(phase: Phase, other: Phase) -> bool
    ensures { IsTrue result ↔ (other ≡ phase) }
{
    phase == other
}

/// The hart holds nothing, and its live and durable points are 0.
fn is_settled_hart(machine: &Machine, hart: u32) -> bool
    requires { hart < length (program_in machine.now) }
    ensures { (w : World) → RepresentsMachine machine.now w → result ≡ is_settled_hart w hart }
{
    !machine.holds(hart) && durable_point(machine, hart) == 0 && live_point(machine, hart) == 0
}

/// Each hart is settled.
fn are_settled(machine: &Machine) -> bool
    ensures { (w : World) → RepresentsMachine machine.now w → result ≡ is_settled w }
{
    for hart in 0..machine.harts() {
        if !is_settled_hart(machine, hart) {
            return false;
        }
    }
    true
}

/// Each hart has ended, or its recovery is done.
fn have_stopped(machine: &Machine) -> bool
    ensures { (w : World) → RepresentsMachine machine.now w → result ≡ have_stopped w.harts }
{
    for hart in 0..machine.harts() {
        if !has_stopped(machine.phase(hart)) {
            return false;
        }
    }
    true
}

/// The least hart whose next step would neither wait nor find that the hart is done or has ended.
fn least_enabled(machine: &Machine) -> Option<u32>
    ensures { (m : LifeConfig) → m.runs.program ≡ program_in machine.now → RepresentsMachine machine.now m.world →
        result ≡ least_enabled living m (length m.runs.program) }
{
    for hart in 0..machine.harts() {
        if machine.is_enabled(hart) {
            return Some(hart);
        }
    }
    None
}

/// Adds the durable values of so many words from this one on.
fn push_durable(machine: &Machine, words: &mut Vec<u64>, from: u32, count: u32)
    requires exists { from + count ≤ 8 * line_count (log_by machine.now) (length (program_in machine.now)) }
    requires room { vec_len words.old + count ≤ vec_capacity words.old }
    ensures items { (w : World) → RepresentsMachine machine.now w →
        words.new.items ≡ words.old.items ++ map (λ i. durable_value (word_at w.words i)) (numbers_from from count) }
    ensures len { vec_len words.new ≡ vec_len words.old + count }
    ensures capacity { vec_capacity words.new ≡ vec_capacity words.old }
{
    for at in 0..count {
        let word = from + at;
        words.push_reserved(machine.durable_word(word / 8, word % 8));
    }
}

impl Life {
    /// The life of an object at its start, with room for so many events.
    pub fn new(alloc: Global, object: &Object, marks: &Marks, cap: u64) -> Result<Life, OutOfMemory>
        requires limits { IsWithinLimits object.now }
        requires marks { length marks.now.threads.items ≡ length object.now.code.items }
        requires cap { cap < 2 ^ 63 }
        ensures { IfOk result (λ life. life ≡ new_life object.now marks.now cap) }
    {
        let machine = Machine::start(alloc, object)?;
        Life::begun(alloc, object, marks, machine, None, &[], &[], &[], cap)
    }

    /// The life of an object that begins as after a crash that left these words of its variables and, after them, of
    /// its logs, with the schedules of earlier lives and this one of its own kept already, by which so many sections of each thread have ended, and room for
    /// so many events.
    pub fn of_words(
        alloc: Global,
        object: &Object,
        marks: &Marks,
        words: &[u64],
        earlier: &[Vec<u32>],
        schedule: &[u32],
        ended: &[u64],
        cap: u64,
    ) -> Result<Life, OutOfMemory>
        requires limits { IsWithinLimits object.now }
        requires marks { length marks.now.threads.items ≡ length object.now.code.items }
        requires count { length words.now ≡ length object.now.initial.items / 8 + log_words object.now.log * length object.now.code.items }
        requires ended { (h : ℕ) → slice_index_or ended.now h 0 < 2 ^ 63 }
        requires cap { kept_count earlier.now schedule.now + length earlier.now + cap < 2 ^ 63 }
        ensures { IfOk result (λ life. life ≡ life_from object.now marks.now words.now (lives_in earlier.now schedule.now) ended.now cap) }
    {
        let machine = Machine::of_words(alloc, object, words)?;
        let left = Some(words.to_vec(alloc)?);
        Life::begun(
            alloc, object, marks, machine, left, earlier, schedule, ended, cap,
        )
    }

    /// The life of an object whose machine has made no event yet.
    fn begun(
        alloc: Global,
        object: &Object,
        marks: &Marks,
        machine: Machine,
        left: Option<Vec<u64>>,
        earlier: &[Vec<u32>],
        before: &[u32],
        ended: &[u64],
        cap: u64,
    ) -> Result<Life, OutOfMemory>
        requires limits { IsWithinLimits object.now }
        requires marks { length marks.now.threads.items ≡ length object.now.code.items }
        requires program { program_in machine ≡ program_of object.now }
        requires log { log_by machine ≡ object.now.log }
        requires events { events_of machine ≡ 0 }
        requires stands { RepresentsMachine machine (opening_by object.now.log (program_of object.now) object.now.mutexes object.now.initial.items left) }
        requires sound { IsWellFormedWorld (opening_by object.now.log (program_of object.now) object.now.mutexes object.now.initial.items left) }
        requires ended { (h : ℕ) → slice_index_or ended.now h 0 < 2 ^ 63 }
        requires cap { kept_count earlier.now before.now + length earlier.now + cap < 2 ^ 63 }
        ensures { IfOk result (λ life. life ≡
            life_at object.now marks.now (opening_by object.now.log (program_of object.now) object.now.mutexes object.now.initial.items left)
            (lives_in earlier.now before.now) ended.now cap) }
    {
        let harts = machine.harts();
        let ends = ends_of(alloc, earlier, cap)?;
        let sections = Sections::new(alloc, &machine)?;
        Ok(Life {
            initial: object.initial.to_vec(alloc)?,
            mutexes: object.mutexes,
            marks: copy_of(alloc, marks)?,
            left,
            earlier: copies_of(alloc, earlier)?,
            before: before.to_vec(alloc)?,
            ended_before: ended.to_vec(alloc)?,
            tables: tables_of(alloc, object, machine.program(), marks)?,
            machine,
            account: account_after(alloc, harts, earlier, before, cap)?,
            ends,
            journal: Journal::new(alloc, cap)?,
            counts: Counts::new(alloc, harts)?,
            sections,
            cap,
        })
    }

    /// The number of harts.
    pub fn harts(&self) -> u32
        ensures { result ≡ length self.now.runs.program }
    {
        self.machine.harts()
    }

    /// How many more events may be made.
    pub fn room(&self) -> u64
        ensures { result ≡ self.now.cap - length self.now.journal }
    {
        self.cap.saturating_sub(self.journal.count())
    }

    /// How many events were made.
    pub fn events(&self) -> u64
        ensures { result ≡ length self.now.journal }
    {
        self.journal.count()
    }

    /// The events, the first one first.
    pub fn journal(&self, alloc: Global) -> Result<Vec<Event>, OutOfMemory>
        ensures { IfOk result (λ events. events.items ≡ self.now.journal) }
    {
        self.journal.events(alloc)
    }

    /// How many lives there have been, with the one that goes on.
    pub fn lives(&self) -> usize
        ensures { result ≡ length (schedules (steps_in self.now)) }
    {
        self.ends.len() + 1
    }

    /// The kept schedule of a life: a number of a hart for each step of the source that is kept.
    pub fn schedule(&self, life: usize) -> &[u32]
        requires { life < length (schedules (steps_in self.now)) }
        ensures { slice_get (schedules (steps_in self.now)) life ≡ Some result.now }
    {
        let from = begins_at(&self.ends, life);
        let to = ends_at(&self.ends, life, self.account.kept.len());
        steps_between(&self.account.kept, from, to)
    }

    /// The kept schedule of the life that goes on.
    pub fn kept(&self) -> &[u32]
        ensures { result.now ≡ (steps_in self.now).kept }
    {
        self.schedule(self.ends.len())
    }

    /// Each hart stands between sections: it holds nothing, and its live and durable points are 0.
    pub fn settled(&self) -> bool
        ensures { result ≡ is_settled (world_of self.now) }
    {
        are_settled(&self.machine)
    }

    /// The hart holds something, or one of its points isn't 0.
    pub fn unsettled(&self, hart: u32) -> bool
        requires { hart < length self.now.runs.program }
        ensures { result ≡ not (is_settled_hart (world_of self.now) hart) }
    {
        !is_settled_hart(&self.machine, hart)
    }

    /// The value that a crash would leave in a word of a line.
    pub fn durable_word(&self, line: u32, word: u32) -> u64
        requires exists { line < line_count self.now.runs.log (length self.now.runs.program) }
        requires word { word < 8 }
        ensures { result ≡ durable_value (word_at (world_of self.now).words (8 * line + word)) }
    {
        self.machine.durable_word(line, word)
    }

    /// The newest value of a word of a line.
    pub fn live_word(&self, line: u32, word: u32) -> u64
        requires exists { line < line_count self.now.runs.log (length self.now.runs.program) }
        requires word { word < 8 }
        ensures { result ≡ live_value (word_at (world_of self.now).words (8 * line + word)) }
    {
        self.machine.live_word(line, word)
    }

    /// What a crash would leave: the durable words of the variables and, after them, of the logs.
    pub fn durable_words(&self, alloc: Global) -> Result<Vec<u64>, OutOfMemory>
        ensures { IfOk result (λ words. words.items ≡ left_words (variable_words_in self.now) (world_of self.now).words) }
    {
        let variables = (self.initial.len() / 8) as u32;
        let logs = self.machine.log().words() * self.machine.harts();
        let mut words = Vec::with_capacity(alloc, (variables + logs) as usize)?;
        push_durable(&self.machine, &mut words, 0, variables);
        push_durable(&self.machine, &mut words, VARIABLE_WORDS, logs);
        Ok(words)
    }

    /// Makes an event, whatever it touches.
    #[inline(always)]
    fn event_apart(&mut self, event: Event) -> Reply
        requires valid { IsValidIn self.old event }
        requires room { length self.old.journal < self.old.cap }
        ensures reply { result ≡ reply_to self.old.runs.program (world_of self.old) event }
        ensures life { self.new ≡ with_event self.old event }
    {
        self.journal.push(event);
        end_if(&mut self.ends, is_start(event), self.account.kept.len());
        let reply = make(
            event,
            &mut self.machine,
            &mut self.account,
            &mut self.counts,
            &self.sections,
            &self.tables,
        );
        self.sections.look_if(may_persist(reply), &self.machine);
        reply
    }

    /// Makes steps of a hart as long as it executes instructions and these touch nothing but its registers and its pc, at most so many.
    /// Answers how many.
    #[inline(always)]
    fn run_locally(&mut self, hart: u32, most: u32) -> u32
        requires exists { hart < length self.old.runs.program }
        requires room { most ≤ self.old.cap - length self.old.journal }
        ensures most { result ≤ most }
        ensures life { self.new ≡ with_steps self.old hart result }
        ensures moves { EachMoves living (opening_of self.old) self.old.journal hart result }
    {
        let ran = self
            .machine
            .run_locally(hart, &self.tables[hart as usize], most);
        self.journal.push_steps(hart, ran.made);
        self.account.begin_more(hart, ran.passed);
        ran.made
    }

    /// A step of a hart: what `event` does for it.
    #[inline(always)]
    fn step(&mut self, hart: u32) -> Reply
        requires exists { hart < length self.old.runs.program }
        requires room { length self.old.journal < self.old.cap }
        ensures reply { result ≡ reply_to self.old.runs.program (world_of self.old) (Step hart) }
        ensures life { self.new ≡ with_event self.old (Step hart) }
    {
        let made = self.run_locally(hart, 1);
        if made == 1 {
            return Reply::Moved;
        }
        self.event_apart(Event::Step(hart))
    }

    /// Makes an event.
    #[inline(always)]
    pub fn event(&mut self, event: Event) -> Reply
        requires valid { IsValidIn self.old event }
        requires room { length self.old.journal < self.old.cap }
        ensures reply { result ≡ reply_to self.old.runs.program (world_of self.old) event }
        ensures life { self.new ≡ with_event self.old event }
    {
        match event {
            Event::Step(hart) => self.step(hart),
            Event::Evict { .. } | Event::Crash | Event::Start => self.event_apart(event),
        }
    }

    /// Makes so many steps of a hart: it does what as many events do.
    pub fn steps(&mut self, hart: u32, count: u64)
        requires exists { hart < length self.old.runs.program }
        requires room { count ≤ self.old.cap - length self.old.journal }
        ensures { self.new ≡ with_steps self.old hart count }
    {
        let mut left = count;
        while left > 0 {
            let most = left.min(u64::from(u32::MAX)) as u32;
            left -= u64::from(self.run_locally(hart, most));
            if left > 0 {
                self.event_apart(Event::Step(hart));
                left -= 1;
            }
        }
    }

    /// Each hart has stopped between sections, so that another life may begin.
    pub fn can_start(&self) -> bool
        ensures { result ≡ can_start (world_of self.now) }
    {
        are_settled(&self.machine) && have_stopped(&self.machine)
    }

    /// The least hart whose next step would be replied to neither by `Waits` nor by `Barrier` nor by `Still`.
    pub fn can_step(&self) -> Option<u32>
        ensures { result ≡ least_enabled living (record (opening_of self.now) { world = world_of self.now }) (length self.now.runs.program) }
    {
        least_enabled(&self.machine)
    }

    /// What runs ahead of a hart, begun at the hart as it is now.
    pub fn local(&self, alloc: Global, hart: u32) -> Result<LocalRun, OutOfMemory>
        requires { hart < length self.now.runs.program }
        ensures hart { IfOk result (λ local. (it : Hart) → slice_get (world_of self.now).harts hart ≡ Some it → local ≡ local_at self.now hart it) }
        ensures own { IfOk result (λ local. IsLocalOf (opening_of self.now) hart local × (local.made ≡ 0)) }
        ensures begins { IfOk result (λ local. StandsAtBeginning self.now hart local) }
    {
        Ok(LocalRun::new(
            self.marks.threads[hart as usize].nodes.to_vec(alloc)?,
            self.tables[hart as usize].copy(alloc)?,
            self.machine.phase(hart),
            self.machine.local_state(hart),
        ))
    }

    /// Begins what runs ahead of a hart again, at the hart as it is now. It takes no memory.
    pub fn refresh(&self, hart: u32, local: &mut LocalRun)
        requires exists { hart < length self.now.runs.program }
        requires own { IsLocalOf (opening_of self.now) hart local.old }
        ensures hart { (it : Hart) → slice_get (world_of self.now).harts hart ≡ Some it → local.new ≡ local_at self.now hart it }
        ensures own { IsLocalOf (opening_of self.now) hart local.new × (local.new.made ≡ 0) }
        ensures begins { StandsAtBeginning self.now hart local.new }
    {
        local.begin(self.machine.phase(hart), self.machine.local_state(hart));
    }

    /// The hart has the registers, the pc and the phase of the local's beginning.
    fn is_at(&self, hart: u32, local: &LocalRun) -> bool
        requires { hart < length self.now.runs.program }
        ensures { IsTrue result ↔ StandsAtBeginning self.now hart local.now }
    {
        is_phase(self.machine.phase(hart), local.phase()) && self.machine.is_at(hart, local.first())
    }

    /// Makes the steps by which a local is ahead: true exactly where the hart has still the registers, the pc and the phase of the
    /// local's beginning, else nothing changes. It takes constant time, however many steps they are.
    pub fn adopt(&mut self, hart: u32, local: &LocalRun) -> bool
        requires exists { hart < length self.old.runs.program }
        requires own { IsLocalOf (opening_of self.old) hart local.now }
        requires room { local.now.made ≤ self.old.cap - length self.old.journal }
        ensures result { IsTrue result ↔ StandsAtBeginning self.old hart local.now }
        ensures life { self.new ≡ (if result then with_steps self.old hart local.now.made else self.old) }
        ensures moves { OnTrue result (EachMoves living (opening_of self.old) self.old.journal hart local.now.made) }
    {
        if !self.is_at(hart, local) {
            return false;
        }
        let made = local.made();
        self.journal.push_steps(hart, made);
        self.machine.go_to(hart, local.state(), made);
        self.account.begin_more(hart, local.passed());
        true
    }

    /// The hart has ended, or its recovery is done.
    pub fn stopped(&self, hart: u32) -> bool
        requires { hart < length self.now.runs.program }
        ensures { result ≡ is_stopped (world_of self.now) hart }
    {
        has_stopped(self.machine.phase(hart))
    }

    /// How often the hart has stored its point.
    pub fn points(&self, hart: u32) -> u64
        requires { hart < length self.now.runs.program }
        ensures { result ≡ point_stores living (opening_of self.now) self.now.journal hart }
    {
        self.counts.points[hart as usize]
    }

    /// How many sections of the hart's thread have ended by the kept schedules: those of which was told when the life began, and since then as often one as the
    /// hart's durable point has become 0.
    pub fn ended(&self, hart: u32) -> u64
        requires { hart < length self.now.runs.program }
        ensures { result ≡ ended_sections self.now hart }
    {
        ended_at(&self.ended_before, hart) + self.sections.harts[hart as usize].ended
    }

    /// How many fences the hart has finished.
    pub fn fences(&self, hart: u32) -> u64
        requires { hart < length self.now.runs.program }
        ensures { result ≡ finished_fences living (opening_of self.now) self.now.journal hart }
    {
        self.counts.fences[hart as usize]
    }
}

impl Core for Life {
    ghost use Rattle.std.specs.Prelude.{◌-◌, length};
    ghost use Rattle.machine_model.specs.Machine.{IsEviction};
    ghost use Rattle.run_tracker.specs.ObjectLives.{LifeConfig, living, opening_of};
    ghost use Rattle.run_tracker.specs.LocalRuns.{IsLocalOf, StandsAtBeginning, goes_ahead};

    ghost Meaning = { LifeConfig };

    ghost behaviour = { living };

    ghost opening = { opening_of };

    ghost history = { λ life. life.journal };

    ghost hart_count = { λ life. length life.runs.program };

    ghost space = { λ life. life.cap - length life.journal };

    ghost evictable = { λ life. IsEviction life.runs.log (length life.runs.program) };

    ghost is_local = { IsLocalOf };

    ghost ahead_by = { λ local. local.made };

    ghost goes_ahead = { goes_ahead };

    ghost is_at_beginning = { StandsAtBeginning };

    fn harts(&self) -> u32 {
        Life::harts(self)
    }

    #[inline(always)]
    fn event(&mut self, event: Event) -> Reply {
        Life::event(self, event)
    }

    fn steps(&mut self, hart: u32, count: u64) {
        Life::steps(self, hart, count);
    }

    fn room(&self) -> u64 {
        Life::room(self)
    }

    fn events(&self) -> u64 {
        Life::events(self)
    }

    fn stopped(&self, hart: u32) -> bool {
        Life::stopped(self, hart)
    }

    fn points(&self, hart: u32) -> u64 {
        Life::points(self, hart)
    }

    fn fences(&self, hart: u32) -> u64 {
        Life::fences(self, hart)
    }

    fn can_step(&self) -> Option<u32> {
        Life::can_step(self)
    }

    fn can_start(&self) -> bool {
        Life::can_start(self)
    }

    type Local = LocalRun;

    fn local(&self, alloc: Global, hart: u32) -> Result<LocalRun, OutOfMemory> {
        Life::local(self, alloc, hart)
    }

    fn refresh(&self, hart: u32, local: &mut LocalRun) {
        Life::refresh(self, hart, local)
    }

    #[inline(always)]
    fn ahead(local: &mut LocalRun) -> bool {
        local.ahead()
    }

    fn adopt(&mut self, hart: u32, local: &LocalRun) -> bool {
        Life::adopt(self, hart, local)
    }
}
