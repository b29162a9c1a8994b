//! A thread on its way through a graph.
ghost use Rattle.std.specs.Prelude.{◌≡◌, ℕ, ◌+◌, [], IfOk};
ghost use Rattle.c_tree.specs.Exprs.{placed_of, lvalue_of};
ghost use Rattle.source_machine.specs.Sections.{AreCounted};
ghost use Rattle.source_machine.specs.links.SectionEnds.{ends};
ghost use Rattle.flow_graph.specs.Nodes.{Eval};
ghost use Rattle.flow_graph.specs.Actions.{graph_thread_start};
ghost use Rattle.flow_machine.specs.links.GraphThreads.{graph_thread_of};
ghost use Rattle.flow_machine.specs.links.StepChanges.{hand_of, DoesEval, StepIsMade};

use c_tree::expr::{Lvalue, Placed};
use flow_graph::graph::{Action, Graph, Part};
use ido_base::memory::OutOfMemory;
use source_machine::assignment::{Pending, assign};
use source_machine::evaluation::{evaluate, lock_number};
use source_machine::variables::Variables;
use source_machine::{Stepped, locks};
use std::alloc::Global;

/// A thread: the node that it does next, its locals, its pending store, and whether its last step is done.
#[derive(Drop)]
pub(crate) struct GraphThread {
    at: usize,
    locals: Vec<i128>,
    pending: Option<Pending>,
    ended: bool,
}

impl GraphThread {
    /// A thread at its first node.
    pub(crate) fn start(alloc: Global, part: Part) -> Result<GraphThread, OutOfMemory>
        ensures { IfOk result (λ graph_thread. graph_thread_of graph_thread ≡ graph_thread_start part) }
    {
        let locals = vec![in alloc; 0; part.locals]?;
        Ok(GraphThread {
            at: part.first,
            locals,
            pending: None,
            ended: false,
        })
    }

    /// Does its node, if that can be done now. Keys of locks are evaluated over no variables.
    pub(crate) fn step(
        &mut self,
        graph: &Graph,
        number: u32,
        variables: &mut Variables,
        holders: &mut [Option<u32>],
        sections: &mut [u64],
        none: &Variables,
    ) -> Stepped
        requires { none.now ≡ [] }
        ensures made { StepIsMade graph.now number (hand_of self.old variables.old holders.old) (hand_of self.new variables.new holders.new) result }
        ensures sections { (ended : ℕ → ℕ) → AreCounted sections.old ended → AreCounted sections.new (λ k. ended k + ends holders.old holders.new k) }
    {
        let Some(node) = graph.nodes.get(self.at) else {
            return Stepped::Ended;
        };
        match node.action {
            Action::Eval {
                target,
                value,
                next,
            } => {
                self.evaluate_for(target, value, variables, next);
                Stepped::Did
            }
            Action::Store { next, .. } => {
                let Some(pending) = self.pending else {
                    return Stepped::Ended;
                };
                variables.set(pending.variable, pending.element, pending.number);
                self.pending = None;
                self.at = next;
                Stepped::Did
            }
            Action::Test {
                condition,
                holds,
                fails,
            } => {
                let condition = evaluate(&condition.expr, &self.locals, variables);
                self.at = if condition.is_zero() { fails } else { holds };
                Stepped::Did
            }
            Action::Lock { lock, next } => {
                let lock = lock_number(lock, &self.locals, none);
                if locks::take(holders, lock, number) {
                    self.at = next;
                    Stepped::Did
                } else {
                    Stepped::Waits { lock }
                }
            }
            Action::Unlock { lock, next } => {
                let lock = lock_number(lock, &self.locals, none);
                locks::release(holders, sections, lock);
                self.at = next;
                Stepped::Did
            }
            Action::End => {
                if self.ended {
                    return Stepped::Ended;
                }
                self.ended = true;
                Stepped::Did
            }
        }
    }

    /// Evaluates a value for a target, and goes on: a local has it, or the store of a variable is pending.
    fn evaluate_for(&mut self, target: &Lvalue, value: &Placed, variables: &Variables, next: usize)
        ensures { DoesEval (Eval (lvalue_of target.now) (placed_of value.now) next) (graph_thread_of self.old) (graph_thread_of self.new) variables.now }
    {
        assign(
            target,
            &value.expr,
            &mut self.locals,
            &mut self.pending,
            variables,
        );
        self.at = next;
    }
}
