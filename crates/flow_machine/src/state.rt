//! The state of a graph's run.
ghost use Rattle.std.specs.Prelude.{◌≡◌, [], vec_len};

use crate::graph_thread::GraphThread;
use c_tree::flat::Flat;
use flow_graph::graph::Graph;
use ido_base::memory::OutOfMemory;
use source_machine::variables::Variables;
use source_machine::{Stepped, locks};
use std::alloc::Global;

/// The state of a run of a graph: the variables, who holds the locks, and where the threads are.
#[derive(Drop)]
pub struct FlowState<'a, 'b> {
    graph: &'a Graph<'b>,
    variables: Variables,
    holders: Vec<Option<u32>>,
    graph_threads: Vec<GraphThread>,
    // of each thread how many of its sections have ended
    sections: Vec<u64>,
    ghost counted: { vec_len sections ≡ vec_len graph_threads },
    // what keys of locks are evaluated over
    none: Variables,
    ghost empty: { none ≡ [] },
}

impl<'a, 'b> FlowState<'a, 'b> {
    ghost use Rattle.std.specs.Prelude.{◌≡◌, ◌+◌, ◌^◌, ◌-◌, ◌<◌, ℕ, min, flat_map, IfOk};
    ghost use Rattle.c_tree.specs.Flats.{flat_of};
    ghost use Rattle.flow_graph.specs.Nodes.{Graph as FlowGraph, graph_of};
    ghost use Rattle.flow_graph.specs.Actions.{FlowState as State, graph_start, is_between};
    ghost use Rattle.flow_machine.specs.Flows.{RepresentsFlow, IsAfter, threads_in};

    /// The state before any step: each thread at its first node, and of the flat form the initial numbers, with all mutexes free.
    pub fn start(
        alloc: Global,
        graph: &'a Graph<'b>,
        flat: &Flat,
    ) -> Result<FlowState<'a, 'b>, OutOfMemory>
        ensures { IfOk result (λ state. RepresentsFlow state (graph_of graph.now) (graph_start (graph_of graph.now) (flat_of flat.now)) (λ _. 0)) }
    {
        let variables = Variables::new(alloc, &flat.variables)?;
        let holders = locks::free(alloc, flat.mutexes.len())?;
        let sections: Vec<u64> = vec![in alloc; 0; graph.threads.len()]?;
        let mut graph_threads = Vec::new(alloc);
        for part in &graph.threads {
            graph_threads.push(GraphThread::start(alloc, *part)?)?;
        }
        Ok(FlowState {
            graph,
            variables,
            holders,
            graph_threads,
            sections,
            none: Variables::none(alloc),
        })
    }

    /// How many threads there are.
    pub fn threads(&self) -> usize
        ensures { result ≡ threads_in self.now }
    {
        self.graph_threads.len()
    }

    /// Does the node of a thread, if that can be done now.
    pub fn step(&mut self, thread: u32) -> Stepped
        requires exists { thread < threads_in self.old }
        ensures after { (g : FlowGraph) (s : State) (ended : ℕ → ℕ) → RepresentsFlow self.old g s ended → IsAfter self.new g result s ended thread }
        ensures threads { threads_in self.new ≡ threads_in self.old }
    {
        let graph_thread = &mut self.graph_threads[thread as usize];
        graph_thread.step(
            self.graph,
            thread,
            &mut self.variables,
            &mut self.holders,
            &mut self.sections,
            &self.none,
        )
    }

    /// The numbers of all elements of all variables, in order of declaration.
    pub fn variables(&self) -> &[i128]
        ensures { (g : FlowGraph) (s : State) (ended : ℕ → ℕ) → RepresentsFlow self.now g s ended → result.now ≡ flat_map (λ xs. xs) s.variables }
    {
        self.variables.elements()
    }

    /// How many sections of a thread have ended. Past 2^64 - 1 it is answered as that.
    pub fn ended_sections(&self, thread: u32) -> u64
        requires exists { thread < threads_in self.now }
        ensures { (g : FlowGraph) (s : State) (ended : ℕ → ℕ) → RepresentsFlow self.now g s ended → result ≡ min (ended thread) (2 ^ 64 - 1) }
    {
        self.sections[thread as usize]
    }

    /// The thread stands between sections: it holds no mutex.
    pub fn between(&self, thread: u32) -> bool
        ensures { (g : FlowGraph) (s : State) (ended : ℕ → ℕ) → RepresentsFlow self.now g s ended → result ≡ is_between s thread }
    {
        locks::holds_none(&self.holders, thread)
    }
}
