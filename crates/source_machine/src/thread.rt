//! A thread of a run.
ghost use Rattle.std.specs.Prelude.{◌≡◌, ℕ, ◌+◌, [], IfOk};
ghost use Rattle.c_tree.specs.Flats.{thread_of};
ghost use Rattle.source_machine.specs.Sections.{AreCounted};
ghost use Rattle.source_machine.specs.links.SectionEnds.{ends};
ghost use Rattle.source_machine.specs.links.Threads.{IsStarted, IsCodeOfThread, StartsAnew, StepIsMade, code_of, hand};

use crate::answers::Stepped;
use crate::assignment::{Pending, assign};
use crate::code::{self, Code, Node};
use crate::evaluation::{evaluate, lock_number};
use crate::locks;
use crate::variables::Variables;
use c_tree::flat::Thread;
use ido_base::memory::OutOfMemory;
use std::alloc::Global;

/// A thread: where it stands in its code, its locals, its pending store, and whether its last step is done.
#[derive(Drop)]
pub(crate) struct ThreadState<'a> {
    nodes: Vec<Node<'a>>,
    // where its code begins
    start: usize,
    at: usize,
    locals: Vec<i128>,
    pending: Option<Pending>,
    ended: bool,
}

impl<'a> ThreadState<'a> {
    /// A thread at its start.
    pub(crate) fn start(alloc: Global, thread: &'a Thread) -> Result<ThreadState<'a>, OutOfMemory>
        ensures started { IfOk result (λ started. IsStarted started (thread_of thread.now)) }
        ensures code { IfOk result (λ started. IsCodeOfThread (code_of started) (thread_of thread.now)) }
    {
        let Code { nodes, start } = code::compile(alloc, &thread.body)?;
        let locals = vec![in alloc; 0; thread.locals.len()]?;
        Ok(ThreadState {
            nodes,
            start,
            at: start,
            locals,
            pending: None,
            ended: false,
        })
    }

    /// Goes to its start again, wherever it stands.
    pub(crate) fn restart(&mut self)
        ensures started { StartsAnew (code_of self.old) self.new }
        ensures code { code_of self.new ≡ code_of self.old }
    {
        self.at = self.start;
        self.locals.fill(0);
        self.pending = None;
        self.ended = false;
    }

    /// Makes a step, if there is one now. Keys of locks are evaluated over no variables.
    pub(crate) fn step(
        &mut self,
        number: u32,
        variables: &mut Variables,
        holders: &mut [Option<u32>],
        sections: &mut [u64],
        none: &Variables,
    ) -> Stepped
        requires { none.now ≡ [] }
        ensures made { StepIsMade number (hand self.old variables.old holders.old) (hand self.new variables.new holders.new) result }
        ensures sections { (ended : ℕ → ℕ) → AreCounted sections.old ended → AreCounted sections.new (λ k. ended k + ends holders.old holders.new k) }
        ensures code { code_of self.new ≡ code_of self.old }
    {
        if let Some(pending) = self.pending {
            self.pending = None;
            variables.set(pending.variable, pending.element, pending.number);
            return Stepped::Did;
        }
        let Some(node) = self.nodes.get(self.at).copied() else {
            return Stepped::Ended;
        };
        match node {
            Node::End => {
                if self.ended {
                    return Stepped::Ended;
                }
                self.ended = true;
                Stepped::Did
            }
            Node::Assign {
                target,
                value,
                next,
            } => {
                assign(
                    target,
                    &value.expr,
                    &mut self.locals,
                    &mut self.pending,
                    variables,
                );
                self.at = next;
                Stepped::Did
            }
            Node::Test {
                condition,
                holds,
                fails,
            } => {
                let condition = evaluate(&condition.expr, &self.locals, variables);
                self.at = if condition.is_zero() { fails } else { holds };
                Stepped::Did
            }
            Node::Lock { lock, next } => {
                let lock = lock_number(lock, &self.locals, none);
                if locks::take(holders, lock, number) {
                    self.at = next;
                    Stepped::Did
                } else {
                    Stepped::Waits { lock }
                }
            }
            Node::Unlock { lock, next } => {
                let lock = lock_number(lock, &self.locals, none);
                locks::release(holders, sections, lock);
                self.at = next;
                Stepped::Did
            }
            Node::Never => Stepped::Ended,
        }
    }
}
