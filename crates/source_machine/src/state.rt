//! The state of a source's run.
ghost use Rattle.std.specs.Prelude.{◌≡◌, [], vec_len};

use crate::answers::{Refused, RefusedKind, Stepped};
use crate::locks;
use crate::thread::ThreadState;
use crate::variables::Variables;
use c_tree::flat::Flat;
use ido_base::memory::OutOfMemory;
use std::alloc::Global;

/// The state of a run of a source: its variables, who holds its mutexes, and its threads.
#[derive(Drop)]
pub struct SourceState<'a> {
    variables: Variables,
    holders: Vec<Option<u32>>,
    threads: Vec<ThreadState<'a>>,
    // of each thread how many of its sections have ended
    sections: Vec<u64>,
    ghost counted: { vec_len sections ≡ vec_len threads },
    // what keys of locks are evaluated over
    none: Variables,
    ghost empty: { none ≡ [] },
}

impl<'a> SourceState<'a> {
    ghost use Rattle.std.specs.Prelude.{◌≡◌, ◌↔◌, ◌+◌, ◌^◌, ◌-◌, ◌<◌, ◌≤◌, ◌∷◌, ◌++◌, [], ℕ, List, min, map, flat_map, sum_by, length};
    ghost use Rattle.std.specs.Prelude.{Err, IfErr, IfOk, IsTrue, OnOk};
    ghost use Rattle.c_tree.specs.Flats as f;
    ghost use Rattle.c_tree.specs.Flats.{flat_of};
    ghost use Rattle.c_tree.specs.Source.{State, start, is_between};
    ghost use Rattle.source_machine.specs.LifeRuns.{RanLives};
    ghost use Rattle.source_machine.specs.Lives.{are_between};
    ghost use Rattle.source_machine.specs.links.LifeRuns.{HasLived, schedule_of};
    ghost use Rattle.source_machine.specs.Runs.{IsAfter, Ran};
    ghost use Rattle.source_machine.specs.links.States.{RepresentsState, threads_in, IsRunOf, KeepsRun, AreBetween, Restarts};

    /// The state before any step: initial numbers, mutexes free, whole bodies.
    /// It asks nothing of the form: an element or a local that isn't there is 0 and is never written, and an expression that reads
    /// a number by another kind than it was written by has the value that `value` gives.
    pub fn start(alloc: Global, flat: &'a Flat) -> Result<SourceState<'a>, OutOfMemory>
        ensures stands { IfOk result (λ state. RepresentsState state (start (flat_of flat.now)) (λ _. 0)) }
        ensures run { IfOk result (λ state. IsRunOf state (flat_of flat.now)) }
    {
        let variables = Variables::new(alloc, &flat.variables)?;
        let holders = locks::free(alloc, flat.mutexes.len())?;
        let sections: Vec<u64> = vec![in alloc; 0; flat.threads.len()]?;
        let mut threads = Vec::new(alloc);
        for thread in &flat.threads {
            threads.push(ThreadState::start(alloc, thread)?)?;
        }
        Ok(SourceState {
            variables,
            holders,
            threads,
            sections,
            none: Variables::none(alloc),
        })
    }

    /// How many threads there are.
    pub fn threads(&self) -> usize
        ensures { result ≡ threads_in self.now }
    {
        self.threads.len()
    }

    /// Makes a step of a thread, if there is one now.
    pub fn step(&mut self, thread: u32) -> Stepped
        requires exists { thread < threads_in self.old }
        ensures after { (s : State) (ended : ℕ → ℕ) → RepresentsState self.old s ended → IsAfter self.new result s ended thread }
        ensures run { KeepsRun self.old self.new }
        ensures threads { threads_in self.new ≡ threads_in self.old }
    {
        let it = &mut self.threads[thread as usize];
        it.step(
            thread,
            &mut self.variables,
            &mut self.holders,
            &mut self.sections,
            &self.none,
        )
    }

    /// Makes the steps of a schedule up to the first that can't be made.
    pub fn run(&mut self, schedule: &[u32]) -> Result<(), Refused>
        ensures ran { (s : State) (ended : ℕ → ℕ) → RepresentsState self.old s ended → Ran self.new result s ended schedule.now }
        ensures bound { IfErr result (λ e. e.step ≤ length schedule.now) }
        ensures run { KeepsRun self.old self.new }
        ensures threads { threads_in self.new ≡ threads_in self.old }
    {
        for (i, thread) in schedule.iter().enumerate() {
            let step = i as u64 + 1;
            if *thread as usize >= self.threads.len() {
                return Err(Refused {
                    kind: RefusedKind::UnknownThread,
                    step,
                });
            }
            match self.step(*thread) {
                Stepped::Did => {}
                Stepped::Waits { .. } => {
                    return Err(Refused {
                        kind: RefusedKind::Waits,
                        step,
                    });
                }
                Stepped::Ended => {
                    return Err(Refused {
                        kind: RefusedKind::Ended,
                        step,
                    });
                }
            }
        }
        Ok(())
    }

    /// Every thread stands between sections, so that another life may begin.
    pub fn can_restart(&self) -> bool
        ensures between { (s : State) (ended : ℕ → ℕ) → RepresentsState self.now s ended → result ≡ are_between s (length s.threads) }
        ensures may { IsTrue result ↔ AreBetween self.now }
    {
        locks::hold_none(&self.holders, self.threads.len())
    }

    /// Begins another life on the variables that this one has left: threads have whole bodies and no locals again. Sections that have
    /// ended stay counted. Every thread stands between sections, so that nothing of a section is lost.
    pub fn restart(&mut self)
        requires between { AreBetween self.old }
        ensures anew { Restarts self.old self.new }
        ensures run { KeepsRun self.old self.new }
        ensures threads { threads_in self.new ≡ threads_in self.old }
    {
        self.holders.fill(None);
        for thread in 0..self.threads.len() {
            self.threads[thread].restart();
        }
    }

    /// Begins another life after lives of so many steps, and makes the steps of its schedule.
    fn run_next(&mut self, schedule: &[u32], done: u64) -> Result<(), Refused>
        requires few { done + length schedule.now < 2 ^ 63 }
        ensures lived { OnOk result ((x : f.Flat) (s : State) (ended : ℕ → ℕ) (before : List (List ℕ)) (life : List ℕ) → IsRunOf self.old x →
            HasLived x self.old s ended before life → HasLived x self.new s ended (before ++ life ∷ []) schedule.now) }
        ensures stopped { IfErr result (λ e.
            (x : f.Flat) (s : State) (ended : ℕ → ℕ) (before : List (List ℕ)) (life : List ℕ) (after : List (List ℕ)) → IsRunOf self.old x →
            HasLived x self.old s ended before life → done ≡ sum_by length before + length life →
            RanLives x self.new (Err e) s ended ((before ++ life ∷ []) ++ schedule.now ∷ after)) }
        ensures run { KeepsRun self.old self.new }
        ensures threads { threads_in self.new ≡ threads_in self.old }
    {
        if !self.can_restart() {
            return Err(Refused {
                kind: RefusedKind::Inside,
                step: done + 1,
            });
        }
        self.restart();
        match self.run(schedule) {
            Ok(()) => Ok(()),
            Err(refused) => Err(Refused {
                kind: refused.kind,
                step: done + refused.step,
            }),
        }
    }

    /// Goes on with other lives, a schedule for each, after lives of so many steps.
    fn run_others(&mut self, others: &[Vec<u32>], done: u64) -> Result<(), Refused>
        requires few { done + sum_by length (map schedule_of others.now) < 2 ^ 63 }
        ensures ran { (x : f.Flat) (s : State) (ended : ℕ → ℕ) (before : List (List ℕ)) (life : List ℕ) → IsRunOf self.old x →
            HasLived x self.old s ended before life → done ≡ sum_by length before + length life →
            RanLives x self.new result s ended (before ++ life ∷ map schedule_of others.now) }
        ensures run { KeepsRun self.old self.new }
        ensures threads { threads_in self.new ≡ threads_in self.old }
    {
        let mut steps = done;
        for i in 0..others.len() {
            let schedule = &others[i];
            if let Err(refused) = self.run_next(schedule, steps) {
                return Err(refused);
            }
            steps += schedule.len() as u64;
        }
        Ok(())
    }

    /// Makes the steps of lives, a schedule for each, up to the first step that can't be made, or to a life before others that leaves a thread inside a
    /// section. Between two of them another life is begun.
    pub fn run_lives(&mut self, schedules: &[Vec<u32>]) -> Result<(), Refused>
        requires few { sum_by length (map schedule_of schedules.now) < 2 ^ 63 }
        ensures ran { (x : f.Flat) (s : State) (ended : ℕ → ℕ) → IsRunOf self.old x → RepresentsState self.old s ended →
            RanLives x self.new result s ended (map schedule_of schedules.now) }
        ensures run { KeepsRun self.old self.new }
        ensures threads { threads_in self.new ≡ threads_in self.old }
    {
        let [first, others @ ..] = schedules else {
            return Ok(());
        };
        if let Err(refused) = self.run(first) {
            return Err(refused);
        }
        self.run_others(others, first.len() as u64)
    }

    /// The numbers of all elements of all variables, in order of declaration.
    pub fn variables(&self) -> &[i128]
        ensures { (s : State) (ended : ℕ → ℕ) → RepresentsState self.now s ended → result.now ≡ flat_map (λ xs. xs) s.variables }
    {
        self.variables.elements()
    }

    /// How many sections of a thread have ended. Past 2^64 - 1 it is answered as that. An unlock ends a section of the thread that
    /// held the mutex, whichever thread makes it.
    pub fn ended_sections(&self, thread: u32) -> u64
        requires exists { thread < threads_in self.now }
        ensures { (s : State) (ended : ℕ → ℕ) → RepresentsState self.now s ended → result ≡ min (ended thread) (2 ^ 64 - 1) }
    {
        self.sections[thread as usize]
    }

    /// The thread stands between sections: it holds no mutex.
    pub fn between(&self, thread: u32) -> bool
        ensures { (s : State) (ended : ℕ → ℕ) → RepresentsState self.now s ended → result ≡ is_between s thread }
    {
        locks::holds_none(&self.holders, thread)
    }
}
