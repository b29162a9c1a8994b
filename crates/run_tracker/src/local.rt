//! What runs ahead of a hart of a life.
ghost use Rattle.std.specs.Prelude.{◌≡◌, ◌<◌, ◌≤◌, Some, if◌then◌else◌};
ghost use Rattle.machine_model.specs.declared.phase.Phase.TheVariants.{Run};
ghost use Rattle.run_tracker.specs.LocalRuns.{LocalCourse, goes_ahead, one_ahead, state_in};
ghost use Rattle.run_tracker.specs.links.LocalRepresentation.{marks_passed};
ghost use Rattle.ido_machine.specs.links.SignTables.{placed_in, slots_in, IsTableOf};

use crate::stepping::is_running;
use hart_core::local::LocalState;
use ido_machine::signs::SignTable;
use machine_model::phase::Phase;
use std::marker::Model;

/// A hart of a life as it was at some time, and the instructions that it has executed since which touch nothing but its registers
/// and its pc. It has the hart's own code and marks, and runs apart from the life.
#[derive(Drop)]
pub struct LocalRun {
    /// The addresses of its marks, and its code words with their signs.
    addresses: Vec<u64>,
    table: SignTable,
    /// The hart at the beginning. No such instruction changes the phase.
    phase: Phase,
    first: LocalState,
    /// Registers and pc now.
    state: LocalState,
    /// Instructions executed since, and how many of them were marks.
    made: u32,
    passed: u32,
}

impl Model for LocalRun {
    ghost use Rattle.run_tracker.specs.LocalRuns.{LocalCourse};

    ghost Value = { LocalCourse };

    ghost use Rattle.run_tracker.specs.links.LocalRepresentation.{local_course_of, LocalInv};

    ghost view = { local_course_of };

    ghost invariant = { LocalInv };
}

impl LocalRun {
    /// Begins at a hart with this code.
    pub(crate) fn new(
        addresses: Vec<u64>,
        table: SignTable,
        phase: Phase,
        state: LocalState,
    ) -> LocalRun
        requires { IsTableOf table table.start (slots_in table.entries.items) addresses.items }
        ensures { result ≡ record { code = placed_in table; marks = addresses.items; phase = phase; first = state; made = 0 } }
    {
        LocalRun {
            addresses,
            table,
            phase,
            first: state,
            state,
            made: 0,
            passed: 0,
        }
    }

    /// Begins again, at a hart with the same code.
    pub(crate) fn begin(&mut self, phase: Phase, state: LocalState)
        ensures { self.new ≡ record self.old { phase = phase; first = state; made = 0 } }
    {
        self.phase = phase;
        self.first = state;
        self.state = state;
        self.made = 0;
        self.passed = 0;
    }

    /// The phase of the hart at the beginning.
    pub(crate) fn phase(&self) -> Phase
        ensures { result ≡ self.now.phase }
    {
        self.phase
    }

    /// Registers and pc at the beginning.
    pub(crate) fn first(&self) -> &LocalState
        ensures { result.now ≡ self.now.first }
    {
        &self.first
    }

    /// Registers and pc now. Where it has executed an instruction, the hart was in the phase that does so.
    pub(crate) fn state(&self) -> &LocalState
        ensures state { state_in self.now ≡ Some result.now }
        ensures running { 0 < self.now.made → self.now.phase ≡ Run }
    {
        &self.state
    }

    /// How many instructions it has executed.
    pub(crate) fn made(&self) -> u32
        ensures { result ≡ self.now.made }
    {
        self.made
    }

    /// How many of them were marks.
    pub(crate) fn passed(&self) -> u32
        ensures count { result ≡ marks_passed self.now.marks self.now.code self.now.first self.now.made }
        ensures few { result ≤ self.now.made }
    {
        self.passed
    }

    /// Executes one more instruction, where the hart executes instructions and the next one is local: it neither loads nor stores,
    /// cleans, fences or calls, and there is one. Else nothing changes. It counts 4,294,967,295 instructions at most.
    #[inline(always)]
    pub fn ahead(&mut self) -> bool
        ensures result { result ≡ goes_ahead self.old }
        ensures value { self.new ≡ (if result then one_ahead self.old else self.old) }
    {
        if !is_running(self.phase) || self.made == u32::MAX {
            return false;
        }
        match self.table.step(&mut self.state) {
            None => false,
            Some(sign) => {
                if sign.mark {
                    self.passed += 1;
                }
                self.made += 1;
                true
            }
        }
    }
}
