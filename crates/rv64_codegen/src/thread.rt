//! A thread whose code is made.
ghost use Rattle.std.specs.Prelude.{◌≡◌, ◌<◌, ◌-◌, IfOk, not};
ghost use Rattle.lock_discipline.specs.Masks.{mask_of};
ghost use Rattle.boundary_code.specs.Boundaries.{lists_of};
ghost use Rattle.log_schemes.specs.declared.keeping.Keeping.TheVariants.{Listed, Masked};
ghost use Rattle.log_schemes.specs.Schemes.{keeping_of};
ghost use Rattle.thread_code.specs.Plans.{set_before};
ghost use Rattle.c_tree.specs.Exprs.{lvalue_of};
ghost use Rattle.flow_graph.specs.Nodes.{action_of};
ghost use Rattle.expr_code.specs.EvaluationCode.{homes_of};
ghost use Rattle.rv64_codegen.specs.Evaluations.{IsAtHome};
ghost use Rattle.rv64_codegen.specs.links.Threads.{IsOwn, IsKeptFor, IsTargetHome, AreLocksAt, AreNumbersOf, choices_of, is_framed, is_logged};
ghost use Rattle.rv64_codegen.specs.links.Threads.{opens_at, plan_in, sets_framed, thread_of};

use crate::numbers::held_numbers;
use crate::plan::Plan;
use boundary_code::Written;
use c_tree::expr::{LockRef, Lvalue};
use expr_code::{Frame, Home};
use flow_graph::graph::{Action, Part};
use ido_base::memory::OutOfMemory;
use lock_discipline::mask_of;
use log_schemes::addresses::log_of;
use log_schemes::keeping::Keeping;
use node_code::{Kept, KeptLocks};
use operator_code::constant::constant;
use rv64_isa::field::Register;
use rv64_isa::instr::Instr;
use rv64_isa::object::Label;
use std::alloc::Global;

/// A thread, where its locals and the variables are, and what was found out about its nodes.
#[derive(Clone, Copy)]
pub(crate) struct ThreadPlan<'a, 'p> {
    pub plan: &'a Plan<'p>,
    /// The thread's number.
    pub number: u32,
    /// The thread's nodes.
    pub part: Part,
    pub frame: Frame<'a>,
    /// The names of its locks.
    pub names: &'a [LockRef<'a>],
    /// Of each of its nodes the registers that are live at its entry.
    pub live: &'a [Vec<Register>],
    /// Of each node of the graph whether a later store cleans the line that it stores into.
    pub later: &'a [bool],
}

impl ThreadPlan<'_, '_> {
    /// The label at which a node's code begins, with the boundary before it.
    pub(crate) fn label(&self, node: usize) -> Label
        requires { IsOwn self.now node }
        ensures { result.0 ≡ node - self.now.part.first }
    {
        Label((node - self.part.first) as u32)
    }

    /// Of each lock that is held at a node code that leaves its number, for a log that lists locks.
    fn listed(&self, alloc: Global, node: usize) -> Result<Vec<Vec<Instr>>, OutOfMemory>
        requires own { IsOwn self.now node }
        requires keeping { keeping_of (plan_in self.now).log ≡ Listed }
        ensures { IfOk result (λ codes. AreNumbersOf self.now node (lists_of codes.items)) }
    {
        let step = node - self.part.first;
        let held = self.plan.held.before(self.number, step as u32);
        let log = constant(alloc, Register::X31, log_of(self.plan.log, self.number))?;
        let codes = held_numbers(alloc, &self.frame, &log, self.names, held)?;
        Ok(codes)
    }

    /// Of each lock that is held at a node code that leaves its number, where the log lists locks.
    pub(crate) fn numbers(&self, alloc: Global, node: usize) -> Result<Vec<Vec<Instr>>, OutOfMemory>
        requires { IsOwn self.now node }
        ensures { IfOk result (λ codes. AreNumbersOf self.now node (lists_of codes.items)) }
    {
        match self.plan.log.keeping() {
            Keeping::Masked => Ok(Vec::new(alloc)),
            Keeping::Listed => self.listed(alloc, node),
        }
    }

    /// The mutexes that are held at a node, bit i for mutex i.
    fn mask(&self, node: usize) -> u64
        requires own { IsOwn self.now node }
        requires keeping { keeping_of (plan_in self.now).log ≡ Masked }
        ensures { result ≡ mask_of (set_before (plan_in self.now) (thread_of self.now) node) }
    {
        let step = node - self.part.first;
        mask_of(self.plan.held.before(self.number, step as u32))
    }

    /// The locks that are held at a node, as the log keeps them. Where it lists locks, these are the codes of their numbers.
    fn locks<'k>(&self, node: usize, numbers: &'k [Vec<Instr>]) -> KeptLocks<'k>
        requires own { IsOwn self.now node }
        requires numbers { AreNumbersOf self.now node (lists_of numbers.now) }
        ensures { AreLocksAt self.now node (lists_of numbers.now) result }
    {
        match self.plan.log.keeping() {
            Keeping::Masked => KeptLocks::Mask(self.mask(node)),
            Keeping::Listed => KeptLocks::Numbers(numbers),
        }
    }

    /// The registers that are live at a node's entry.
    pub(crate) fn live_at(&self, node: usize) -> &[Register]
        requires { IsOwn self.now node }
        ensures { result.now ≡ (choices_of self.now).live node }
    {
        &self.live[node - self.part.first]
    }

    /// What a boundary keeps that lets the thread go on at a node, or at its core: these registers, and what it tells, where these are the codes of the locks
    /// held there.
    pub(crate) fn kept<'k>(
        &'k self,
        node: usize,
        numbers: &'k [Vec<Instr>],
        live: &'k [Register],
        written: Written,
    ) -> Kept<'k>
        requires own { IsOwn self.now node }
        requires numbers { AreNumbersOf self.now node (lists_of numbers.now) }
        ensures { IsKeptFor self.now node live.now written result }
    {
        Kept {
            log: self.plan.log,
            thread: self.number,
            locks: self.locks(node, numbers),
            live,
            written,
        }
    }

    /// Whether the thread holds a lock before the node.
    pub(crate) fn holds_some(&self, node: usize) -> bool
        requires { IsOwn self.now node }
        ensures { result ≡ not (opens_at self.now node) }
    {
        let step = node - self.part.first;
        self.plan.held.count(self.number, step as u32) != 0
    }

    /// Whether the target is a local that stands in the frame.
    pub(crate) fn is_framed(&self, target: &Lvalue) -> bool
        requires { IsAtHome (homes_of self.now.frame) (lvalue_of target.now) }
        ensures { result ≡ is_framed self.now.frame.locals.now (lvalue_of target.now) }
    {
        match target {
            Lvalue::Local { local, .. } => match self.frame.locals[*local as usize] {
                Home::InRegister { .. } => false,
                Home::InFrame { .. } => true,
            },
            _ => false,
        }
    }

    /// Whether the action assigns a local that stands in the frame.
    fn sets_framed(&self, action: Action) -> bool
        requires { IsTargetHome (homes_of self.now.frame) (action_of action) }
        ensures { result ≡ sets_framed self.now.frame.locals.now (action_of action.entry) }
    {
        match action {
            Action::Eval { target, .. } => self.is_framed(target),
            _ => false,
        }
    }

    /// Whether the node is a logged assignment: of a local that stands in the frame, where a lock is held.
    pub(crate) fn is_logged(&self, node: usize) -> bool
        requires { IsOwn self.now node }
        ensures { result ≡ is_logged self.now node }
    {
        self.sets_framed(self.plan.graph.nodes[node].action) && self.holds_some(node)
    }
}
