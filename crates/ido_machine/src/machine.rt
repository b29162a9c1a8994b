//! The machine.
ghost use Rattle.std.specs.Prelude.{◌≡◌, ◌≤◌, length, vec_len};
ghost use Rattle.line_memory.specs.links.MemoryRepresentation.{threads_of, stores_of};

use crate::harts;
use crate::running::{is_idle, step_one};
use crate::signs::{Ran, SignTable};
use hart_core::hart::Hart;
use hart_core::local::LocalState;
use hart_core::program::Program;
use ido_base::memory::OutOfMemory;
use line_memory::memory::LineMemory;
use lock_table::LockTable;
use log_schemes::log::Log;
use machine_events::event::{Event, Reply};
use machine_model::object::Object;
use machine_model::phase::Phase;
use rv64_isa::object::Slot;
use std::alloc::Global;

/// A machine that runs an object, one event at a time.
#[derive(Drop)]
pub struct Machine {
    program: Program,
    phases: Vec<Phase>,
    harts: Vec<Hart>,
    memory: LineMemory,
    locks: LockTable,
    recovering: bool,
    events: u64,
    ghost phased: { vec_len phases ≡ length program },
    ghost sized: { vec_len harts ≡ length program },
    ghost few_threads: { length program ≤ 8 },
    ghost logged: { threads_of memory ≡ length program },
    ghost counted: { stores_of memory ≤ events },
}

impl Machine {
    ghost use Rattle.std.specs.Prelude.{◌≡◌, ◌⊎◌, ℕ, ◌+◌, ◌*◌, ◌/◌, ◌^◌, ◌<◌, ◌≤◌, List, [], length, not};
    ghost use Rattle.std.specs.Prelude.{true, slice_get, Some, None, IfOk, IfSome, IfNone, IsTrue, ◌↔◌};
    ghost use Rattle.machine_events.specs.declared.event.Event.TheVariants.{Step, Evict, Crash, Start};
    ghost use Rattle.ido_base.specs.Words.{word_at, last_position, live_value, durable_value};
    ghost use Rattle.log_schemes.specs.Layout.{line_count, log_words};
    ghost use Rattle.ido_base.specs.Locks.{holds_none};
    ghost use Rattle.machine_events.specs.Cores.{is_idle};
    ghost use Rattle.rv64_isa.specs.declared.object.Slot.TheVariants.{Row};
    ghost use Rattle.rv64_isa.specs.Programs.{fetched};
    ghost use Rattle.machine_model.specs.Objects.{program_of};
    ghost use Rattle.machine_model.specs.Machine.{Hart as HartModel, World, IsValidAt, IsValidEvent, can_start};
    ghost use Rattle.machine_model.specs.Machine.{happens, reply_to, with_hart, machine_start, machine_from};
    ghost use Rattle.machine_model.specs.declared.phase.Phase.TheVariants.{Run};
    ghost use Rattle.hart_core.specs.LocalSteps.{local_step, placed_code, after_write};
    ghost use Rattle.hart_core.specs.Objects.{IsWithinLimits};
    ghost use Rattle.ido_machine.specs.Machines.{program_in, log_by, events_of, RepresentsMachine, IsAfter};
    ghost use Rattle.ido_machine.specs.Harts.{local_state_of, with_local_state};
    ghost use Rattle.ido_machine.specs.links.LocalRuns.{HasRunOn};

    /// The machine of an object at its start.
    pub fn start(alloc: Global, object: &Object) -> Result<Machine, OutOfMemory>
        requires { IsWithinLimits object.now }
        ensures stands { IfOk result (λ machine. RepresentsMachine machine (machine_start object.now)) }
        ensures program { IfOk result (λ machine. program_in machine ≡ program_of object.now) }
        ensures log { IfOk result (λ machine. log_by machine ≡ object.now.log) }
        ensures events { IfOk result (λ machine. events_of machine ≡ 0) }
    {
        let program = Program::of(alloc, object)?;
        let memory = LineMemory::new(alloc, &object.initial, object.log, program.threads())?;
        let locks = LockTable::new(alloc, object.mutexes, program.threads())?;
        let harts = harts::fresh(alloc, &program)?;
        let phases = vec![in alloc; Phase::Run; program.threads() as usize]?;
        Ok(Machine {
            program,
            phases,
            harts,
            memory,
            locks,
            recovering: false,
            events: 0,
        })
    }

    /// The machine of an object after a crash that left these words of its variables and, after them, of its
    /// logs.
    pub fn of_words(alloc: Global, object: &Object, words: &[u64]) -> Result<Machine, OutOfMemory>
        requires limits { IsWithinLimits object.now }
        requires count { length words.now ≡ length object.now.initial.items / 8 + log_words object.now.log * length object.now.code.items }
        ensures stands { IfOk result (λ machine. RepresentsMachine machine (machine_from object.now words.now [])) }
        ensures program { IfOk result (λ machine. program_in machine ≡ program_of object.now) }
        ensures log { IfOk result (λ machine. log_by machine ≡ object.now.log) }
        ensures events { IfOk result (λ machine. events_of machine ≡ 0) }
    {
        let program = Program::of(alloc, object)?;
        let threads = program.threads();
        let bytes = object.initial.len() as u32;
        let memory = LineMemory::of_words(alloc, bytes, object.log, threads, words)?;
        let locks = LockTable::new(alloc, object.mutexes, threads)?;
        let harts = harts::fresh(alloc, &program)?;
        let mut phases = vec![in alloc; Phase::Done; threads as usize]?;
        harts::set_phases(&mut phases, &memory);
        Ok(Machine {
            program,
            phases,
            harts,
            memory,
            locks,
            recovering: true,
            events: 0,
        })
    }

    /// The number of harts.
    pub fn harts(&self) -> u32
        ensures { result ≡ length (program_in self.now) }
    {
        self.program.threads()
    }

    /// What it runs.
    pub fn program(&self) -> &Program
        ensures { result.now ≡ program_in self.now }
    {
        &self.program
    }

    /// How its threads log.
    pub fn log(&self) -> Log
        ensures { result ≡ log_by self.now }
    {
        self.memory.log()
    }

    /// Makes an event.
    /// By induction a machine that was started from an object represents `machine object events`, crashes and recovery among them.
    pub fn event(&mut self, event: Event) -> Reply
        requires valid { IsValidEvent (log_by self.old) (length (program_in self.old)) event ⊎ (event ≡ Start) }
        requires room { events_of self.old < 2 ^ 63 }
        ensures world { (w : World) → RepresentsMachine self.old w → IsValidAt w event → IsAfter self.new result (happens (program_in self.old) w event) }
        ensures program { program_in self.new ≡ program_in self.old }
        ensures log { log_by self.new ≡ log_by self.old }
        ensures events { events_of self.new ≡ events_of self.old + 1 }
    {
        match event {
            Event::Step(hart) => self.step(hart),
            Event::Evict { line, mask } => self.evict(line, mask),
            Event::Crash => self.crash(),
            Event::Start => self.start_anew(),
        }
    }

    /// A step of a hart: what `event` does for it.
    #[inline(always)]
    pub fn step(&mut self, hart: u32) -> Reply
        requires exists { hart < length (program_in self.old) }
        requires room { events_of self.old < 2 ^ 63 }
        ensures world { (w : World) → RepresentsMachine self.old w → IsAfter self.new result (happens (program_in self.old) w (Step hart)) }
        ensures program { program_in self.new ≡ program_in self.old }
        ensures log { log_by self.new ≡ log_by self.old }
        ensures events { events_of self.new ≡ events_of self.old + 1 }
    {
        let pc = self.harts[hart as usize].pc;
        let next = self.program.fetch(hart, pc);
        self.execute(hart, next)
    }

    /// A step of a hart that has this at its pc: what `step` does for it.
    #[inline(always)]
    pub fn execute(&mut self, hart: u32, next: Option<Slot>) -> Reply
        requires exists { hart < length (program_in self.old) }
        requires room { events_of self.old < 2 ^ 63 }
        ensures world { (w : World) → RepresentsMachine self.old w →
            ((model : HartModel) → slice_get w.harts hart ≡ Some model → next ≡ fetched (program_in self.old) hart model.pc) →
            IsAfter self.new result (happens (program_in self.old) w (Step hart)) }
        ensures program { program_in self.new ≡ program_in self.old }
        ensures log { log_by self.new ≡ log_by self.old }
        ensures events { events_of self.new ≡ events_of self.old + 1 }
    {
        let reply = step_one(
            hart,
            next,
            self.recovering,
            &mut self.phases,
            &mut self.harts,
            &mut self.memory,
            &mut self.locks,
        );
        self.events += 1;
        reply
    }

    /// An eviction of the words of a line that the mask chooses: what `event` does for it.
    pub fn evict(&mut self, line: u32, mask: u32) -> Reply
        requires exists { line < line_count (log_by self.old) (length (program_in self.old)) }
        requires mask { mask ≤ 255 }
        requires room { events_of self.old < 2 ^ 63 }
        ensures world { (w : World) → RepresentsMachine self.old w → IsAfter self.new result (happens (program_in self.old) w (Evict line mask)) }
        ensures program { program_in self.new ≡ program_in self.old }
        ensures log { log_by self.new ≡ log_by self.old }
        ensures events { events_of self.new ≡ events_of self.old + 1 }
    {
        self.memory.evict(line, mask);
        self.events += 1;
        Reply::Device
    }

    /// A crash: what `event` does for it.
    pub fn crash(&mut self) -> Reply
        requires room { events_of self.old < 2 ^ 63 }
        ensures world { (w : World) → RepresentsMachine self.old w → IsAfter self.new result (happens (program_in self.old) w Crash) }
        ensures program { program_in self.new ≡ program_in self.old }
        ensures log { log_by self.new ≡ log_by self.old }
        ensures events { events_of self.new ≡ events_of self.old + 1 }
    {
        self.memory.crash();
        self.locks.clear();
        harts::restart(&self.program, &mut self.harts);
        harts::set_phases(&mut self.phases, &self.memory);
        self.recovering = true;
        self.events += 1;
        Reply::Device
    }

    /// A start: what `event` does for it, where another life may begin.
    pub fn start_anew(&mut self) -> Reply
        requires room { events_of self.old < 2 ^ 63 }
        ensures world { (w : World) → RepresentsMachine self.old w → can_start w ≡ true → IsAfter self.new result (happens (program_in self.old) w Start) }
        ensures program { program_in self.new ≡ program_in self.old }
        ensures log { log_by self.new ≡ log_by self.old }
        ensures events { events_of self.new ≡ events_of self.old + 1 }
    {
        harts::begin_anew(&self.program, &mut self.harts);
        self.phases.fill(Phase::Run);
        self.recovering = false;
        self.events += 1;
        Reply::Device
    }

    /// The hart's next step would neither wait nor find that the hart is done or has ended.
    pub fn is_enabled(&self, hart: u32) -> bool
        requires { hart < length (program_in self.now) }
        ensures { (w : World) → RepresentsMachine self.now w → result ≡ not (is_idle (reply_to (program_in self.now) w (Step hart))) }
    {
        !is_idle(
            hart,
            &self.program,
            &self.phases,
            &self.harts[hart as usize],
            &self.memory,
            &self.locks,
        )
    }

    /// The registers and the pc of a hart.
    pub fn local_state(&self, hart: u32) -> LocalState
        requires { hart < length (program_in self.now) }
        ensures { (w : World) (model : HartModel) → RepresentsMachine self.now w → slice_get w.harts hart ≡ Some model →
            result ≡ local_state_of model }
    {
        let it = &self.harts[hart as usize];
        LocalState {
            registers: it.registers,
            pc: it.pc,
        }
    }

    /// The registers and the pc of a hart are these.
    pub fn is_at(&self, hart: u32, state: &LocalState) -> bool
        requires { hart < length (program_in self.now) }
        ensures { (w : World) (model : HartModel) → RepresentsMachine self.now w → slice_get w.harts hart ≡ Some model →
            IsTrue result ↔ (state.now ≡ local_state_of model) }
    {
        let it = &self.harts[hart as usize];
        it.pc == state.pc && it.registers == state.registers
    }

    /// The registers and the pc of a hart are these from now on, after so many steps of it that touch nothing else.
    pub fn go_to(&mut self, hart: u32, state: &LocalState, steps: u32)
        requires exists { hart < length (program_in self.old) }
        requires room { events_of self.old + steps < 2 ^ 64 }
        ensures world { (w : World) (model : HartModel) → RepresentsMachine self.old w → slice_get w.harts hart ≡ Some model →
            RepresentsMachine self.new (with_hart w hart (with_local_state model state.now)) }
        ensures program { program_in self.new ≡ program_in self.old }
        ensures log { log_by self.new ≡ log_by self.old }
        ensures events { events_of self.new ≡ events_of self.old + steps }
    {
        let it = &mut self.harts[hart as usize];
        it.registers = state.registers;
        it.pc = state.pc;
        self.events += u64::from(steps);
    }

    /// Executes instructions of a hart by the table of its code, as long as it executes instructions and these touch nothing but its
    /// registers and its pc, at most so many.
    #[inline(always)]
    pub fn run_locally(&mut self, hart: u32, table: &SignTable, most: u32) -> Ran
        requires exists { hart < length (program_in self.old) }
        requires room { events_of self.old + most < 2 ^ 64 }
        ensures world { (w : World) (model : HartModel) → RepresentsMachine self.old w → slice_get w.harts hart ≡ Some model →
            HasRunOn self.new w hart model table.now result }
        ensures most { result.made ≤ most }
        ensures few { result.passed ≤ result.made }
        ensures program { program_in self.new ≡ program_in self.old }
        ensures log { log_by self.new ≡ log_by self.old }
        ensures events { events_of self.new ≡ events_of self.old + result.made }
    {
        match self.phases[hart as usize] {
            Phase::Run => {
                let ran = table.run(&mut self.harts[hart as usize], most);
                self.events += u64::from(ran.made);
                ran
            }
            _ => Ran { made: 0, passed: 0 },
        }
    }

    /// The phase of a hart.
    pub fn phase(&self, hart: u32) -> Phase
        requires { hart < length (program_in self.now) }
        ensures { (w : World) (model : HartModel) → RepresentsMachine self.now w → slice_get w.harts hart ≡ Some model → result ≡ model.phase }
    {
        self.phases[hart as usize]
    }

    /// The address of the instruction that a hart executes next.
    pub fn pc(&self, hart: u32) -> u64
        requires { hart < length (program_in self.now) }
        ensures { (w : World) (model : HartModel) → RepresentsMachine self.now w → slice_get w.harts hart ≡ Some model → result ≡ model.pc }
    {
        self.harts[hart as usize].pc
    }

    /// The hart holds a lock.
    pub fn holds(&self, hart: u32) -> bool
        ensures { (w : World) → RepresentsMachine self.now w → result ≡ not (holds_none w.holders hart) }
    {
        !self.locks.holds_none(hart)
    }

    /// The newest value of a word of a line.
    pub fn live_word(&self, line: u32, word: u32) -> u64
        requires exists { line < line_count (log_by self.now) (length (program_in self.now)) }
        requires word { word < 8 }
        ensures { (w : World) → RepresentsMachine self.now w → result ≡ live_value (word_at w.words (8 * line + word)) }
    {
        self.memory.live_word(line, word)
    }

    /// The value that a crash would leave in a word of a line.
    pub fn durable_word(&self, line: u32, word: u32) -> u64
        requires exists { line < line_count (log_by self.now) (length (program_in self.now)) }
        requires word { word < 8 }
        ensures { (w : World) → RepresentsMachine self.now w → result ≡ durable_value (word_at w.words (8 * line + word)) }
    {
        self.memory.durable_word(line, word)
    }

    /// How many values a word of a line has had, less one: where its newest value stands among them.
    pub fn last_position(&self, line: u32, word: u32) -> u64
        requires exists { line < line_count (log_by self.now) (length (program_in self.now)) }
        requires word { word < 8 }
        ensures { (w : World) → RepresentsMachine self.now w → result ≡ last_position (word_at w.words (8 * line + word)) }
    {
        self.memory.last_position(line, word)
    }

    /// Where the durable value of a word of a line stands among the values that it has had.
    pub fn durable_position(&self, line: u32, word: u32) -> u64
        requires exists { line < line_count (log_by self.now) (length (program_in self.now)) }
        requires word { word < 8 }
        ensures { (w : World) → RepresentsMachine self.now w → result ≡ (word_at w.words (8 * line + word)).durable }
    {
        self.memory.durable_position(line, word)
    }
}
